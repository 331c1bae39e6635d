//! The queries of a drill, over a spool.
ghost use Rattle.std.specs.Prelude.{◌≡◌, List, ℕ, Some, None, Err, IfErr, MatchResult};
ghost use Rattle.st_disk.specs.Disks.{Log};
ghost use Rattle.st_disk.specs.Events.{Event};
ghost use Rattle.st_disk.specs.Pairs.{Files};
ghost use Rattle.st_spool.specs.History.{set_of};
ghost use Rattle.st_spool.specs.Standing.{StandsFor};
ghost use Rattle.st_pairs.specs.Pairs.{IsWholePair};
ghost use Rattle.st_pcap.specs.declared.forms.Unit.TheVariants.{Micro};
ghost use Rattle.st_answer.specs.Packets.{IsWholeSet};
ghost use Rattle.st_answer.specs.Replies.{Blames, AsksOnce, HasDiskCause};
ghost use Rattle.st_answer.specs.Stores.{IsSpent, StayHeld, asked};
ghost use Rattle.st_drill.specs.Asking.{asked_of, CountsMatches, AnswerFails, AnswerFailsBy, IsAnswerFailure, TellsReply, HasShelfCause, StaysOpen};
ghost use Rattle.st_drill.specs.Summary.{told_of};

use crate::ends::DrillEnd;
use crate::numbers::NO_LIMIT;
use crate::queries::DrillQuery;
use crate::summary::Answers;
use st_answer::{AnswerErr, Store, Told, answer};
use st_base::{Limits, Plain, SureSink};
use st_pairs::Indexed;
use st_pcap::Unit;
use st_query::Query;
use st_shelf::Shelf;
use st_spool::Spool;
use std::alloc::Global;

// How many packets and bytes the answer over a store's pairs has, with the clock at 0 and without
// limits. The answer goes to a sink that keeps nothing and never fails.
fn counted<S: Store>(alloc: Global, store: &mut S, query: &Query) -> Result<Told, AnswerErr>
    // what is told, and how it fails
    ensures tells { TellsReply (asked_of query.now) (asked (S.holds store.new)) result }
    ensures blames { Blames (asked (S.holds store.new)) result }
    ensures sure { result ≡ Err AnswerErr.WriteFault → ⊥ }
    ensures disk { HasDiskCause (S.faults store.old) (S.faults store.new) result }
    // what the store was asked, and what stays
    ensures asks { AsksOnce {S = List ℕ} (S.holds store.old) (S.holds store.new) None None result }
    ensures spent { IsSpent (S.becomes store.old store.new) (S.id store.old) (S.id store.new)
        (S.holds store.old) (S.holds store.new) (S.loans store.old) (S.loans store.new)
        × StayHeld (S.times_held store.old) (S.times_held store.new)
        (S.size store.old) (S.size store.new) (S.set store.old) (S.set store.new) }
{
    let mut sink = SureSink::new();
    let mut outlet = Plain::over(&mut sink);
    let limits = Limits {
        packets: NO_LIMIT,
        bytes: NO_LIMIT,
    };
    answer(alloc, store, query, 0, Unit::Micro, limits, &mut outlet)
}

// How a drill ends if an answer failed so. `WriteFault` never comes: the answer's sink never fails.
fn broken(error: AnswerErr) -> DrillEnd
    ensures { AnswerFailsBy error result }
{
    match error {
        AnswerErr::DiskFault => DrillEnd::DiskFault,
        AnswerErr::Damaged { stamp, damage } => DrillEnd::Damaged { stamp, damage },
        AnswerErr::WriteFault | AnswerErr::NoMemory => DrillEnd::NoMemory,
    }
}

// How many packets and bytes the answer to one query over the pairs of a spool has.
fn ask<D: Shelf>(
    alloc: Global,
    spool: &mut Spool<D, Indexed>,
    question: DrillQuery,
) -> Result<Told, DrillEnd>
    // what is told, and how it fails
    ensures counts { (log : Log) (earlier h : List Event) (f : Files)
        → D.log spool.old.shelf ≡ Some log
        → StandsFor IsWholePair (D.log spool.old.shelf) spool.old.state earlier h f
        → MatchResult result
        (λ told. IsWholeSet (set_of h) → CountsMatches (set_of h) question told)
        (AnswerFails (set_of h)) }
    ensures breaks { IfErr result IsAnswerFailure }
    ensures disk { HasShelfCause (D.faults spool.old.shelf) (D.faults spool.new.shelf) result }
    // what stays
    ensures stays { StaysOpen D.log D.id D.loans spool.old spool.new }
{
    let query = match question.query(alloc) {
        Ok(query) => query,
        Err(_) => return Err(DrillEnd::NoMemory),
    };
    match counted(alloc, spool, &query) {
        Ok(told) => Ok(told),
        Err(error) => Err(broken(error)),
    }
}

/// How many packets and bytes the answers to the four queries over the pairs of a spool have.
///
/// `DiskFault` comes only if the shelf's count of faults rose. `Damaged` names a pair that isn't
/// whole. The only other error is `NoMemory`.
pub fn ask_all<D: Shelf>(alloc: Global, spool: &mut Spool<D, Indexed>) -> Result<Answers, DrillEnd>
    // what is told, and how it fails
    ensures counts { (log : Log) (earlier h : List Event) (f : Files)
        → D.log spool.old.shelf ≡ Some log
        → StandsFor IsWholePair (D.log spool.old.shelf) spool.old.state earlier h f
        → MatchResult result
        (λ answers. IsWholeSet (set_of h)
        → (q : DrillQuery) → CountsMatches (set_of h) q (told_of answers q))
        (AnswerFails (set_of h)) }
    ensures breaks { IfErr result IsAnswerFailure }
    ensures disk { HasShelfCause (D.faults spool.old.shelf) (D.faults spool.new.shelf) result }
    // what stays
    ensures stays { StaysOpen D.log D.id D.loans spool.old spool.new }
{
    let dns = match ask(alloc, spool, DrillQuery::Dns) {
        Ok(told) => told,
        Err(end) => return Err(end),
    };
    let near_tcp = match ask(alloc, spool, DrillQuery::NearTcp) {
        Ok(told) => told,
        Err(end) => return Err(end),
    };
    let early = match ask(alloc, spool, DrillQuery::Early) {
        Ok(told) => told,
        Err(end) => return Err(end),
    };
    let late = match ask(alloc, spool, DrillQuery::Late) {
        Ok(told) => told,
        Err(end) => return Err(end),
    };
    Ok(Answers {
        dns,
        near_tcp,
        early,
        late,
    })
}
