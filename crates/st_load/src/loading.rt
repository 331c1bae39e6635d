//! Packets of a pcap become pairs of a spool.

ghost use Rattle.std.specs.Prelude.{◌≡◌, ◌≢◌, ◌<◌, ◌≤◌, ◌∷◌, [], List, ℕ, Some, None};
ghost use Rattle.st_block.specs.BlockText.{IsBlockSize};
ghost use Rattle.st_block.specs.declared.format.TheConstants.{MAX_BLOCKS};
ghost use Rattle.st_disk.specs.Disks.{Log};
ghost use Rattle.st_disk.specs.Events.{Event};
ghost use Rattle.st_disk.specs.Pairs.{Files};
ghost use Rattle.st_load.specs.Causes.{RoseIf, RoseJustIf, Says, EndsUnopened, EndsUnread};
ghost use Rattle.st_load.specs.Filling.{HasReadTo, HasCounted};
ghost use Rattle.st_load.specs.Job.{AddsAll, IsJob};
ghost use Rattle.st_load.specs.Loading.{AreCutFrom, Loads, situation};
ghost use Rattle.st_load.specs.Opening.{LoadsShelf};
ghost use Rattle.st_load.specs.Publishing.{KeepsLimitAndHolds};
ghost use Rattle.st_load.specs.Stopping.{StopsInput};
ghost use Rattle.st_pairs.specs.Pairs.{IsWholePair};
ghost use Rattle.st_pcap.specs.Reading.{IsGoing};
ghost use Rattle.st_spool.specs.Standing.{StandsFor};

use crate::ends::LoadEnd;
use crate::filling::{Filled, fill};
use crate::lanes::{give_up, open_lane};
use crate::publishing::{age_all, finish};
use st_base::{Clock, Record, Sink, Source};
use st_pairs::Indexed;
use st_pcap::{PcapErr, PcapReader};
use st_plan::LanePlan;
use st_shelf::Shelf;
use st_spool::{EnterErr, NotEntered, Spool};
use std::alloc::Global;

/// What a load returns: how it ended, and its shelf.
pub struct Loaded<D> {
    pub end: LoadEnd,
    pub shelf: D,
}

/// How a load ends if the reader fails at the first record.
fn unread(error: PcapErr) -> LoadEnd
    ensures { EndsUnread error result }
{
    match error {
        PcapErr::ReadFault => LoadEnd::ReadFault,
        PcapErr::NoMemory => LoadEnd::NoMemory,
        _ => LoadEnd::BadInput(error),
    }
}

/// How a load ends if its spool can't be opened.
fn unopened(cause: EnterErr) -> LoadEnd
    ensures { EndsUnopened cause result }
{
    match cause {
        EnterErr::DiskFault => LoadEnd::DiskFault,
        EnterErr::NoMemory => LoadEnd::NoMemory,
    }
}

/// Publishes the records of an input pair by pair: `first`, the input's first record, which the
/// reader gave already, and those that the reader gives.
fn load_pairs<D: Shelf, S: Source, O: Sink, C: Clock>(
    alloc: Global,
    spool: &mut Spool<D, Indexed>,
    first: Record,
    reader: &mut PcapReader,
    source: &mut S,
    out: &mut O,
    clock: &mut C,
    layout: LanePlan,
) -> LoadEnd
    requires layout { IsBlockSize layout.size × (1 ≤ layout.blocks)
        × (layout.blocks ≤ MAX_BLOCKS) }
    requires running { spool.old.state.halted ≡ None }
    requires going { IsGoing reader.old.phase × HasCounted 1 reader.old }
    // what it does
    ensures job { (log : Log) (earlier h : List Event) (f : Files)
        → D.log spool.old.shelf ≡ Some log
        → StandsFor IsWholePair (D.log spool.old.shelf) spool.old.state earlier h f
        → Loads (AddsAll spool.old.state.limit layout.size
        (situation h spool.old.state (C.to_come clock.old)))
        (λ pairs. (bytes : List ℕ) → HasReadTo reader.old bytes (first ∷ []) (S.left source.old)
        → AreCutFrom layout bytes result pairs)
        result (D.log spool.old.shelf) (D.log spool.new.shelf) spool.new.state earlier h
        (C.to_come clock.new) (O.written out.old) (O.written out.new) }
    ensures input { (bytes : List ℕ) → HasReadTo reader.old bytes (first ∷ []) (S.left source.old)
        → StopsInput layout.size bytes result }
    ensures says { Says layout.size result }
    // the counts
    ensures faults { RoseIf (result ≡ LoadEnd.DiskFault)
        (D.faults spool.old.shelf) (D.faults spool.new.shelf)
        × RoseJustIf (result ≡ LoadEnd.ReadFault) (S.faults source.old) (S.faults source.new)
        × RoseJustIf (result ≡ LoadEnd.WriteFault) (O.faults out.old) (O.faults out.new) }
    // what stays
    ensures rest { KeepsLimitAndHolds spool.old.state spool.new.state
        × (result ≢ LoadEnd.DiskFault → spool.new.state.halted ≡ None)
        × (D.id spool.new.shelf ≡ D.id spool.old.shelf)
        × (D.loans spool.new.shelf ≡ D.loans spool.old.shelf)
        × (S.beside source.new ≡ S.beside source.old) × (O.beside out.new ≡ O.beside out.old) }
{
    let mut first = first;
    let mut number = 1;
    'pairs: loop {
        let mut lane = match open_lane(alloc, spool, layout) {
            Ok(lane) => lane,
            Err(end) => return end,
        };
        match fill(&mut lane, first, number, reader, source) {
            Filled::Ready(next) => {
                first = next;
                number += lane.records();
                match finish(alloc, spool, lane, out, clock) {
                    Ok(()) => {}
                    Err(end) => return end,
                }
            }
            Filled::Ended(end) => {
                if lane.records() == 0 {
                    give_up(spool, lane);
                    return end;
                }
                return match finish(alloc, spool, lane, out, clock) {
                    Ok(()) => end,
                    Err(failed) => failed,
                };
            }
            Filled::Failed(end) => {
                give_up(spool, lane);
                return end;
            }
        }
    }
}

/// Loads the packets of the pcap in `source` into a spool that is not halted: as pairs whose block
/// files have this layout, blocks of a power of two from 4,096 to 1,048,576 bytes and 1 to 4,095 of
/// them in a file, each file filled as far as it goes. The spool's oldest pairs are removed while
/// more are published than its limit, before the input is read and after each pair. `out` gets a
/// line `STAMP PACKETS` for each pair, after it was published. The clock, in microseconds since
/// 1970, is read once for each pair; its stamp is not below that.
///
/// A record that is refused (`BadInput`), or whose packet no block holds (`TooLong`), ends the
/// input, and the packets before it are loaded. After `ReadFault`, `WriteFault`, `DiskFault`,
/// `StampsSpent` and `NoMemory` the packets that no pair has are given up; the pairs that were
/// published stay. The spool is halted only after `DiskFault`.
/// Source: docs/FORMAT.md, "pcap" and "Command line".
pub fn load_into<D: Shelf, S: Source, O: Sink, C: Clock>(
    alloc: Global,
    spool: &mut Spool<D, Indexed>,
    source: &mut S,
    out: &mut O,
    clock: &mut C,
    layout: LanePlan,
) -> LoadEnd
    requires layout { IsBlockSize layout.size × (1 ≤ layout.blocks)
        × (layout.blocks ≤ MAX_BLOCKS) }
    requires running { spool.old.state.halted ≡ None }
    // what it does
    ensures job { (log : Log) (earlier h : List Event) (f : Files)
        → D.log spool.old.shelf ≡ Some log
        → StandsFor IsWholePair (D.log spool.old.shelf) spool.old.state earlier h f
        → Loads (IsJob spool.old.state.limit layout.size
        (situation h spool.old.state (C.to_come clock.old)))
        (λ pairs. (bytes : List ℕ) → S.left source.old ≡ Some bytes
        → AreCutFrom layout bytes result pairs)
        result (D.log spool.old.shelf) (D.log spool.new.shelf) spool.new.state earlier h
        (C.to_come clock.new) (O.written out.old) (O.written out.new) }
    ensures input { (bytes : List ℕ) → S.left source.old ≡ Some bytes
        → StopsInput layout.size bytes result }
    ensures says { Says layout.size result }
    // the counts
    ensures faults { RoseIf (result ≡ LoadEnd.DiskFault)
        (D.faults spool.old.shelf) (D.faults spool.new.shelf)
        × RoseJustIf (result ≡ LoadEnd.ReadFault) (S.faults source.old) (S.faults source.new)
        × RoseJustIf (result ≡ LoadEnd.WriteFault) (O.faults out.old) (O.faults out.new) }
    // what stays
    ensures state { KeepsLimitAndHolds spool.old.state spool.new.state
        × (result ≢ LoadEnd.DiskFault → spool.new.state.halted ≡ None) }
    ensures rest { (D.id spool.new.shelf ≡ D.id spool.old.shelf)
        × (D.loans spool.new.shelf ≡ D.loans spool.old.shelf)
        × (S.beside source.new ≡ S.beside source.old) × (O.beside out.new ≡ O.beside out.old) }
{
    if let Err(end) = age_all(spool) {
        return end;
    }
    let mut reader = PcapReader::new();
    match reader.next(alloc, source) {
        Ok(Some(first)) => load_pairs(alloc, spool, first, &mut reader, source, out, clock, layout),
        Ok(None) => LoadEnd::Done,
        Err(error) => unread(error),
    }
}

/// Opens the spool of a shelf, which is to keep at most `limit` pairs, 1 or more, and loads the
/// packets of the pcap in `source` into it, as `load_into` does. If the spool can't be opened the
/// load ends with `DiskFault` or `NoMemory`, and nothing is read or written. The shelf comes back
/// with as many files lent as before.
/// Source: docs/FORMAT.md, "pcap" and "Command line".
pub fn load<D: Shelf, S: Source, O: Sink, C: Clock>(
    alloc: Global,
    shelf: D,
    limit: u32,
    layout: LanePlan,
    source: &mut S,
    out: &mut O,
    clock: &mut C,
) -> Loaded<D>
    requires limit { 1 ≤ limit }
    requires layout { IsBlockSize layout.size × (1 ≤ layout.blocks)
        × (layout.blocks ≤ MAX_BLOCKS) }
    // what it does
    ensures job { (log : Log) → D.log shelf ≡ Some log
        → LoadsShelf limit layout log (D.log result.shelf) (S.left source.old)
        (C.to_come clock.old) (C.to_come clock.new) (O.written out.old) (O.written out.new)
        result.end }
    ensures input { (bytes : List ℕ) → S.left source.old ≡ Some bytes
        → StopsInput layout.size bytes result.end }
    ensures says { Says layout.size result.end }
    // the counts
    ensures faults { RoseIf (result.end ≡ LoadEnd.DiskFault)
        (D.faults shelf) (D.faults result.shelf)
        × RoseJustIf (result.end ≡ LoadEnd.ReadFault) (S.faults source.old) (S.faults source.new)
        × RoseJustIf (result.end ≡ LoadEnd.WriteFault) (O.faults out.old) (O.faults out.new) }
    // what stays
    ensures rest { (D.id result.shelf ≡ D.id shelf) × (D.loans result.shelf ≡ D.loans shelf)
        × (S.beside source.new ≡ S.beside source.old) × (O.beside out.new ≡ O.beside out.old) }
{
    let entered: Result<Spool<D, Indexed>, NotEntered<D>> = Spool::enter(alloc, shelf, limit);
    let mut spool = match entered {
        Ok(spool) => spool,
        Err(NotEntered { cause, shelf }) => {
            return Loaded {
                end: unopened(cause),
                shelf,
            };
        }
    };
    let end = load_into(alloc, &mut spool, source, out, clock, layout);
    Loaded {
        end,
        shelf: spool.close(),
    }
}
