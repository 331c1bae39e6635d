//! The command that answers a query: it opens a spool, answers over the pairs that were found, and
//! gives the shelf back.

ghost use Rattle.std.specs.Prelude.{◌≡◌, ◌++◌, List, ℕ, Some};
ghost use Rattle.st_disk.specs.Disks.{Log, reads};
ghost use Rattle.st_disk.specs.Pairs.{Entry, PairsIn};
ghost use Rattle.st_answer.specs.Bounds.{ReadsForAnswer};
ghost use Rattle.st_answer.specs.Lending.{LendsNone};
ghost use Rattle.st_answer.specs.Replies.{RepliesFor, Blames, AsksOnce, HasDiskCause, HasOutletCause};
ghost use Rattle.st_answer.specs.Stores.{IsSpent, StayHeld, asked};
ghost use Rattle.st_commands.specs.Commands.{HasDiskFault, HasWriteFault, KeepsPairs};
ghost use Rattle.st_commands.specs.Queries.{EndsWith, Answers};

use crate::commands::{Ended, entered};
use crate::outcomes::Outcome;
use st_answer::{AnswerErr, Store, Told, answer};
use st_base::{Limits, Plain, Sink};
use st_pcap::Unit;
use st_query::Query;
use st_shelf::Shelf;
use std::alloc::Global;

// Writes the answer over a store's pairs to a sink: its pieces, one after the other.
fn answer_into<S: Store, O: Sink>(
    alloc: Global,
    store: &mut S,
    query: &Query,
    now: u64,
    unit: Unit,
    limits: Limits,
    out: &mut O,
) -> Result<Told, AnswerErr>
    // what is written, and how it fails
    ensures replies { RepliesFor (λ s more. s ++ more) (λ s. s)
        (O.written out.old) (O.written out.new)
        (record { node = query.now; now = now; limits = limits; unit = unit })
        (asked (S.holds store.new)) result }
    ensures blames { Blames (asked (S.holds store.new)) result }
    ensures write { HasOutletCause (O.faults out.old) (O.faults out.new) result }
    ensures disk { HasDiskCause (S.faults store.old) (S.faults store.new) result }
    // what the store was asked
    ensures asks { AsksOnce (S.holds store.old) (S.holds store.new)
        (O.written out.old) (O.written out.new) result }
    ensures reads { ReadsForAnswer query.now now (asked (S.holds store.new))
        (S.loans store.old) (S.loans store.new) }
    // what stays
    ensures spent { IsSpent (S.becomes store.old store.new) (S.id store.old) (S.id store.new)
        (S.holds store.old) (S.holds store.new) (S.loans store.old) (S.loans store.new)
        × StayHeld (S.times_held store.old) (S.times_held store.new)
        (S.size store.old) (S.size store.new) (S.set store.old) (S.set store.new) }
    ensures rest { O.beside out.new ≡ O.beside out.old }
{
    let mut outlet = Plain::over(out);
    answer(alloc, store, query, now, unit, limits, &mut outlet)
}

// How the command ends if its answer ended so.
fn outcome_of(told: Result<Told, AnswerErr>) -> Outcome
    ensures { EndsWith told result }
{
    match told {
        Ok(_) => Outcome::Done,
        Err(AnswerErr::WriteFault) => Outcome::WriteFault,
        Err(AnswerErr::DiskFault) => Outcome::DiskFault,
        Err(AnswerErr::Damaged { stamp, damage }) => Outcome::Damaged { stamp, damage },
        Err(AnswerErr::NoMemory) => Outcome::NoMemory,
    }
}

/// Writes to `out` the packets of all pairs of the shelf that match `query`, as a pcap in `unit`,
/// with the clock at `now` microseconds since 1970. They are written by second, nanosecond, stamp
/// and position, each once, up to the first that passes a limit: the one on the number of packets,
/// or the one on their captured bytes.
///
/// If it ends `Done` and each pair is whole, `out` gained exactly this pcap. `WriteFault` comes
/// only if the output's count of faults rose, and a prefix of the pcap is then written; after every
/// other end that count stayed. `DiskFault` comes only if the shelf's count rose; after it and
/// after `NoMemory` nothing is written, or whole packets from the first on. `Damaged` names a pair
/// that is not whole. No pair is changed.
/// Source: docs/FORMAT.md, "pcap".
pub fn query<D: Shelf, O: Sink>(
    alloc: Global,
    shelf: D,
    query: &Query,
    now: u64,
    unit: Unit,
    limits: Limits,
    out: &mut O,
) -> Ended<D>
    // What it writes and what crashes leave, if what is on the disk is known.
    ensures answers { (first : Log) (pairs : List Entry) → D.log shelf ≡ Some first
        → PairsIn (reads first) pairs
        → Answers (record { node = query.now; now = now; limits = limits; unit = unit }) pairs
        (O.written out.old) (O.written out.new) result.outcome }
    ensures images { (first : Log) → D.log shelf ≡ Some first
        → KeepsPairs first (D.log result.shelf) result.outcome }

    // When it ends in a fault.
    ensures disk { HasDiskFault (D.faults shelf) (D.faults result.shelf) result.outcome }
    ensures write { HasWriteFault (O.faults out.old) (O.faults out.new) result.outcome }

    // How much of the block files is read.
    ensures reads { (first : Log) (pairs : List Entry) → D.log shelf ≡ Some first
        → PairsIn (reads first) pairs
        → ReadsForAnswer query.now now (Some pairs) (D.loans shelf) (D.loans result.shelf) }

    // What stays as it was.
    ensures loans { LendsNone (D.loans shelf) (D.loans result.shelf) }
    ensures rest { (D.id result.shelf ≡ D.id shelf) × (O.beside out.new ≡ O.beside out.old) }
{
    let mut spool = match entered(alloc, shelf) {
        Ok(spool) => spool,
        Err(ended) => return ended,
    };
    let told = answer_into(alloc, &mut spool, query, now, unit, limits, out);
    Ended {
        outcome: outcome_of(told),
        shelf: spool.close(),
    }
}
