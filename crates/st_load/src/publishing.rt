//! A sealed pair is published, its line is written, and the oldest pairs are removed.

ghost use Rattle.std.specs.Prelude.{◌≡◌, ◌≢◌, ◌<◌, ◌≤◌, List, ℕ, Some, None, false, Ok, Err, OnOk, IfOk, IfErr, MatchResult, string_bytes};
ghost use Rattle.st_base.specs.Faults.{HasCauseOf};
ghost use Rattle.st_base.specs.Records.{Rec};
ghost use Rattle.st_disk.specs.Disks.{Log};
ghost use Rattle.st_disk.specs.Events.{Event};
ghost use Rattle.st_disk.specs.Folders.{given};
ghost use Rattle.st_disk.specs.Pairs.{Files};
ghost use Rattle.st_lane.specs.Lane.{Represents};
ghost use Rattle.st_load.specs.Acts.{line_text};
ghost use Rattle.st_load.specs.Causes.{RoseIf, RoseJustIf, IsFinishEnd};
ghost use Rattle.st_load.specs.Lanes.{IsLaneOf, KeepsSpool};
ghost use Rattle.st_load.specs.Loading.{situation};
ghost use Rattle.st_load.specs.Publishing.{Ages, AgesAll, IsUnpublished, IsUnpublishedState, WritesLine, Finishes, KeepsLimitAndHolds};
ghost use Rattle.st_pairs.specs.Pairs.{IsWholePair};
ghost use Rattle.st_spool.specs.Settling.{files, entry};
ghost use Rattle.st_spool.specs.Publishing.{Publishes, IsPairOf, published, next_stamp, MayPublish};
ghost use Rattle.st_spool.specs.Standing.{StandsFor};

use crate::ends::LoadEnd;
use crate::lanes::{give_up, seal};
use st_base::{Clock, NoMemory, Sink, put};
use st_lane::Lane;
use st_pairs::Indexed;
use st_shelf::{End, SealedPair, Shelf};
use st_spool::{PublishErr, Spool};
use std::alloc::{AllocError, Global};

/// Removes the oldest pairs while more are published than the limit. `DiskFault` is the only error.
pub(crate) fn age_all<D: Shelf>(spool: &mut Spool<D, Indexed>) -> Result<(), LoadEnd>
    requires { spool.old.state.halted ≡ None }
    // the removals
    ensures ages { (earlier h : List Event) (f : Files)
        → StandsFor IsWholePair (D.log spool.old.shelf) spool.old.state earlier h f
        → MatchResult result
        (λ _. AgesAll (D.log spool.old.shelf) (D.log spool.new.shelf)
        spool.new.state earlier h f)
        (λ _. Ages (D.log spool.old.shelf) (D.log spool.new.shelf)
        spool.new.state earlier h) }
    ensures runs { OnOk result (spool.new.state.halted ≡ None) }
    ensures state { KeepsLimitAndHolds spool.old.state spool.new.state
        × (spool.new.state.last ≡ spool.old.state.last) }
    // the counts
    ensures failed { IfErr result (λ e. e ≡ LoadEnd.DiskFault) }
    ensures cause { RoseIf (result ≡ Err LoadEnd.DiskFault) (D.faults spool.old.shelf)
        (D.faults spool.new.shelf) }
    ensures rest { (D.id spool.new.shelf ≡ D.id spool.old.shelf)
        × (D.loans spool.new.shelf ≡ D.loans spool.old.shelf) }
{
    'pairs: loop {
        match spool.age() {
            Ok(true) => {}
            Ok(false) => return Ok(()),
            Err(_) => return Err(LoadEnd::DiskFault),
        }
    }
}

/// Gives the two files of a pair back to the shelf.
fn abandon_pair<D: Shelf>(spool: &mut Spool<D, Indexed>, pair: SealedPair<D::Draft>)
    requires { IsPairOf (D.id spool.old.shelf)
        (D.Draft.sealed_origin pair.block) (D.Draft.sealed_origin pair.index) }
    ensures keeps { KeepsSpool D.log spool.old spool.new }
    ensures cause { D.faults spool.old.shelf ≤ D.faults spool.new.shelf }
    ensures rest { (D.id spool.new.shelf ≡ D.id spool.old.shelf)
        × (D.loans spool.new.shelf ≡ D.loans spool.old.shelf) }
{
    let SealedPair { block, index } = pair;
    spool.abandon(End::Sealed(block));
    spool.abandon(End::Sealed(index));
}

/// Publishes a pair under a stamp that is `floor`, in microseconds since 1970, or greater, and
/// returns the stamp.
///
/// After `StampsSpent` the pair's files have gone back to the shelf; after `DiskFault` the pair is
/// in doubt.
fn publish<D: Shelf>(
    spool: &mut Spool<D, Indexed>,
    pair: SealedPair<D::Draft>,
    floor: u64,
) -> Result<u64, LoadEnd>
    requires spare { 0 < spool.old.spare }
    requires running { spool.old.state.halted ≡ None }
    requires home { IsPairOf (D.id spool.old.shelf)
        (D.Draft.sealed_origin pair.block) (D.Draft.sealed_origin pair.index) }
    requires whole { (log : Log) → D.log spool.old.shelf ≡ Some log
        → IsWholePair (given (D.Draft.sealed_bytes pair.block))
        (given (D.Draft.sealed_bytes pair.index)) }
    // what it does
    ensures publishes { (earlier h : List Event) (f : Files)
        → StandsFor IsWholePair (D.log spool.old.shelf) spool.old.state earlier h f
        → let p = files (given (D.Draft.sealed_bytes pair.block))
        (given (D.Draft.sealed_bytes pair.index)) in MatchResult result
        (λ s. Publishes IsWholePair (D.log spool.old.shelf) (D.log spool.new.shelf)
        spool.new.state earlier h (entry s p) f)
        (IsUnpublished (D.log spool.old.shelf) (D.log spool.new.shelf) spool.new.state
        earlier h p f) }
    ensures state { MatchResult result
        (λ s. MayPublish spool.old.state × (s ≡ next_stamp spool.old.state.last floor)
        × (spool.new.state ≡ published spool.old.state s))
        (IsUnpublishedState spool.old.state spool.new.state (next_stamp spool.old.state.last floor)
        (D.faults spool.new.shelf)) }
    // the counts
    ensures cause { RoseIf (result ≡ Err LoadEnd.DiskFault) (D.faults spool.old.shelf)
        (D.faults spool.new.shelf) }
    ensures rest { (D.id spool.new.shelf ≡ D.id spool.old.shelf)
        × (D.loans spool.new.shelf ≡ D.loans spool.old.shelf) }
{
    match spool.publish(pair, floor) {
        Ok(stamp) => Ok(stamp),
        Err(PublishErr::StampsSpent { last, pair }) => {
            abandon_pair(spool, pair);
            Err(LoadEnd::StampsSpent { last })
        }
        Err(PublishErr::DiskFault) => Err(LoadEnd::DiskFault),
        // This error is that of a halted spool, and this one is not halted.
        Err(
            PublishErr::Halted {
                since: _since,
                pair,
            },
        ) => {
            abandon_pair(spool, pair);
            Err(LoadEnd::DiskFault)
        }
    }
}

/// The text of a published pair's line.
fn line(alloc: Global, stamp: u64, packets: u64) -> Result<String, AllocError>
    ensures { IfOk result (λ t. string_bytes t ≡ line_text stamp packets) }
{
    format!(in alloc; "{stamp} {packets}\n")
}

/// Writes the line of a published pair by one `put`.
///
/// `WriteFault` comes only if the output's count of faults rose, and a prefix of the line is then
/// written; after `NoMemory` nothing is.
fn write_line<O: Sink>(alloc: Global, stamp: u64, packets: u64, out: &mut O) -> Result<(), LoadEnd>
    ensures line { WritesLine stamp packets (O.written out.old) (O.written out.new) result }
    ensures cause { RoseJustIf (result ≡ Err LoadEnd.WriteFault)
        (O.faults out.old) (O.faults out.new) }
    ensures rest { O.beside out.new ≡ O.beside out.old }
{
    let line = match line(alloc, stamp, packets) {
        Ok(line) => line,
        Err(_) => return Err(LoadEnd::NoMemory),
    };
    match put(out, line.as_bytes()) {
        Ok(()) => Ok(()),
        Err(_) => Err(LoadEnd::WriteFault),
    }
}

/// Seals a lane that has records and publishes its pair, writes the line, and removes the oldest
/// pairs while more are published than the limit.
pub(crate) fn finish<D: Shelf, O: Sink, C: Clock>(
    alloc: Global,
    spool: &mut Spool<D, Indexed>,
    lane: Lane<D::Draft>,
    out: &mut O,
    clock: &mut C,
) -> Result<(), LoadEnd>
    requires lane { (lane.broken ≡ false) × (1 ≤ lane.filling.records)
        × IsLaneOf D.Draft.origin (D.id spool.old.shelf) lane }
    requires known { (log : Log) → D.log spool.old.shelf ≡ Some log
        → (rs : List Rec) × Represents D.Draft.written lane rs }
    requires running { spool.old.state.halted ≡ None }
    // what it does
    ensures finishes { (log : Log) (earlier h : List Event) (f : Files) (rs : List Rec)
        → D.log spool.old.shelf ≡ Some log
        → StandsFor IsWholePair (D.log spool.old.shelf) spool.old.state earlier h f
        → Represents D.Draft.written lane rs
        → Finishes spool.old.state.limit lane.filling.size
        (situation h spool.old.state (C.to_come clock.old)) rs
        (D.log spool.old.shelf) (D.log spool.new.shelf) spool.new.state earlier h f
        (C.to_come clock.new) (O.written out.old) (O.written out.new) result }
    ensures state { KeepsLimitAndHolds spool.old.state spool.new.state
        × (result ≢ Err LoadEnd.DiskFault → spool.new.state.halted ≡ None) }
    ensures failed { IfErr result IsFinishEnd }
    // the counts
    ensures faults { RoseIf (result ≡ Err LoadEnd.DiskFault)
        (D.faults spool.old.shelf) (D.faults spool.new.shelf)
        × RoseJustIf (result ≡ Err LoadEnd.WriteFault) (O.faults out.old) (O.faults out.new) }
    ensures rest { (D.id spool.new.shelf ≡ D.id spool.old.shelf)
        × (D.loans spool.new.shelf ≡ D.loans spool.old.shelf)
        × (O.beside out.new ≡ O.beside out.old) }
{
    if let Err(NoMemory) = spool.reserve() {
        give_up(spool, lane);
        return Err(LoadEnd::NoMemory);
    }
    let packets = lane.records();
    let pair = match seal(spool, lane) {
        Ok(pair) => pair,
        Err(end) => return Err(end),
    };
    let stamp = match publish(spool, pair, clock.micros()) {
        Ok(stamp) => stamp,
        Err(end) => return Err(end),
    };
    match write_line(alloc, stamp, packets, out) {
        Ok(()) => {}
        Err(end) => return Err(end),
    }
    age_all(spool)
}
