ghost use Rattle.std.specs.Prelude.{◌≡◌};
ghost use Rattle.st_answer.specs.Bounds.{ReadsForAnswer};
ghost use Rattle.st_answer.specs.Replies.{RepliesFor, Blames, AsksOnce, HasDiskCause, HasOutletCause};
ghost use Rattle.st_answer.specs.Stores.{IsSpent, asked};
ghost use Rattle.st_turn.specs.Passes.{IsOf};
ghost use Rattle.st_seated.specs.Seats.{IsSeatable, Remains, pass_faults, pass_holds};

use crate::seated::Seated;
use st_answer::{AnswerErr, Told, answer};
use st_base::{Limits, Outlet};
use st_pcap::Unit;
use st_query::Query;
use st_shelf::Shelf;
use st_spool::{PairRule, Spool};
use st_turn::{Pass, Shared};
use std::alloc::Global;
use std::sync::Wait;

/// Sends the packets that match `query`, of all pairs that are published when it takes its hold, as
/// `answer` does, by turns of this pass. The pass comes back, with the hold released and all files
/// closed.
///
/// The clock is at `now` microseconds since 1970. The errors are those of `answer`: `DiskFault`
/// comes only if the shelf failed in a turn of this pass, or a file failed that was lent in one.
pub fn answer_shared<R: Wait, D: Shelf, W: PairRule, O: Outlet>(
    rt: &R,
    alloc: Global,
    shared: &Shared<Spool<D, W>>,
    pass: Pass<Spool<D, W>>,
    query: &Query,
    now: u64,
    unit: Unit,
    limits: Limits,
    outlet: &mut O,
) -> (Pass<Spool<D, W>>, Result<Told, AnswerErr>)
    requires { IsSeatable (D.log shared.now.base.shelf) shared.now pass }
    // what is sent, and how it fails
    ensures replies { RepliesFor O.after O.gone (O.state outlet.old) (O.state outlet.new)
        (record { node = query.now; now = now; limits = limits; unit = unit })
        (asked (pass_holds (D.log shared.now.base.shelf) result.0.state)) result.1 }
    ensures blames { Blames (asked (pass_holds (D.log shared.now.base.shelf) result.0.state))
        result.1 }
    ensures causes { HasOutletCause (O.faults outlet.old) (O.faults outlet.new) result.1
        × HasDiskCause (pass_faults pass.state) (pass_faults result.0.state) result.1 }
    // what the pass was asked
    ensures asks { AsksOnce (pass_holds (D.log shared.now.base.shelf) pass.state)
        (pass_holds (D.log shared.now.base.shelf) result.0.state)
        (O.state outlet.old) (O.state outlet.new) result.1 }
    ensures reads { ReadsForAnswer query.now now
        (asked (pass_holds (D.log shared.now.base.shelf) result.0.state))
        pass.loans result.0.loans }
    // what stays
    ensures spent { IsSpent (Remains pass result.0)
        (D.id shared.now.base.shelf) (D.id shared.now.base.shelf)
        (pass_holds (D.log shared.now.base.shelf) pass.state)
        (pass_holds (D.log shared.now.base.shelf) result.0.state) pass.loans result.0.loans }
    ensures rest { (O.beside outlet.new ≡ O.beside outlet.old)
        × IsSeatable (D.log shared.now.base.shelf) shared.now result.0 }
{
    let mut seated = Seated::over(rt, shared, pass);
    let result = answer(alloc, &mut seated, query, now, unit, limits, outlet);
    (seated.leave(), result)
}
