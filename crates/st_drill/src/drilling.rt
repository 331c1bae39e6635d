//! A drill of a spool: its packets become pairs, its queries are asked, and the summary is written.
ghost use Rattle.std.specs.Prelude.{◌≡◌, ◌≤◌, List, Some, None, IfErr, MatchOption, count_by, nat_eq};
ghost use Rattle.st_disk.specs.Disks.{Log};
ghost use Rattle.st_disk.specs.Events.{Event};
ghost use Rattle.st_disk.specs.Pairs.{Files};
ghost use Rattle.st_load.specs.Causes.{RoseIf, RoseJustIf};
ghost use Rattle.st_pairs.specs.Pairs.{IsWholePair};
ghost use Rattle.st_spool.specs.Standing.{StandsFor};
ghost use Rattle.st_drill.specs.Asking.{HasShelfCause};
ghost use Rattle.st_drill.specs.Drilling.{Drills, EndsUnloaded, SaysDrill};
ghost use Rattle.st_drill.specs.Summarizing.{LoadCanEnd, EndsUnopened, HasNoSummary, LoadsAll, Summarizes, KeepsShelf, EndsWriting};

use crate::asking::ask_all;
use crate::ends::DrillEnd;
use crate::numbers::{BLOCK_SIZE, BLOCKS, LINE_FEED};
use crate::source::DrillSource;
use crate::summary::summary;
use st_base::{Clock, MemSink, Sink, put};
use st_load::{LoadEnd, load_into};
use st_pairs::Indexed;
use st_plan::{LanePlan, MAX_PACKETS, MAX_PAIRS};
use st_shelf::Shelf;
use st_spool::{EnterErr, NotEntered, Spool};
use std::alloc::Global;

/// What a drill returns: how it ended, and the shelf that it was given.
pub struct Drilled<D> {
    pub end: DrillEnd,
    pub shelf: D,
}

// How a drill ends if its spool can't be opened, for this cause.
fn unopened(cause: EnterErr) -> DrillEnd
    ensures { EndsUnopened cause result }
{
    match cause {
        EnterErr::DiskFault => DrillEnd::DiskFault,
        EnterErr::NoMemory => DrillEnd::NoMemory,
    }
}

// How a drill ends if its load ended so; None if all packets are in the spool.
//
// The lines of the pairs are kept in memory, so that writing them fails only if memory runs out.
// The input is whole, its packets fit a block, and it never fails, so `BadInput`, `TooLong` and
// `ReadFault` never come.
fn unloaded(end: LoadEnd) -> Option<DrillEnd>
    requires { LoadCanEnd end }
    ensures { MatchOption result (end ≡ LoadEnd.Done) (EndsUnloaded end) }
{
    match end {
        LoadEnd::Done => None,
        LoadEnd::DiskFault => Some(DrillEnd::DiskFault),
        LoadEnd::StampsSpent { last } => Some(DrillEnd::StampsSpent { last }),
        LoadEnd::WriteFault
        | LoadEnd::NoMemory
        | LoadEnd::BadInput(_)
        | LoadEnd::TooLong { number: _, len: _ }
        | LoadEnd::ReadFault => Some(DrillEnd::NoMemory),
    }
}

// How many lines this text has.
fn lines_in(text: &[u8]) -> u64
    ensures { result ≡ count_by (nat_eq LINE_FEED) text.now }
{
    let mut lines = 0;
    'bytes: for byte in text {
        if *byte == LINE_FEED {
            lines += 1;
        }
    }
    lines
}

// Loads the packets of a drill into a spool, and returns how many pairs they became.
fn load_packets<D: Shelf, C: Clock>(
    alloc: Global,
    spool: &mut Spool<D, Indexed>,
    packets: u32,
    clock: &mut C,
) -> Result<u64, DrillEnd>
    requires packets { packets ≤ MAX_PACKETS }
    requires running { spool.old.state.halted ≡ None }
    // what it does
    ensures job { (log : Log) (earlier h : List Event) (f : Files)
        → D.log spool.old.shelf ≡ Some log
        → StandsFor IsWholePair (D.log spool.old.shelf) spool.old.state earlier h f
        → LoadsAll packets spool.old.state.limit (D.log spool.old.shelf) (D.log spool.new.shelf)
        spool.old.state spool.new.state earlier h
        (C.to_come clock.old) (C.to_come clock.new) result }
    ensures says { IfErr result (λ e. SaysDrill e × HasNoSummary e) }
    // the counts, and what stays
    ensures disk { HasShelfCause (D.faults spool.old.shelf) (D.faults spool.new.shelf) result }
    ensures stays { KeepsShelf D.id D.loans spool.old spool.new }
{
    let mut source = DrillSource::new(packets);
    let mut lines = match MemSink::new(alloc, &[]) {
        Ok(lines) => lines,
        Err(_) => return Err(DrillEnd::NoMemory),
    };
    let layout = LanePlan {
        size: BLOCK_SIZE,
        blocks: BLOCKS,
    };
    let loaded = load_into(alloc, spool, &mut source, &mut lines, clock, layout);
    match unloaded(loaded) {
        None => Ok(lines_in(lines.bytes())),
        Some(end) => Err(end),
    }
}

// Loads the packets of a drill into a spool, asks its queries, and makes the summary.
fn summarize<D: Shelf, C: Clock>(
    alloc: Global,
    spool: &mut Spool<D, Indexed>,
    packets: u32,
    clock: &mut C,
) -> Result<String, DrillEnd>
    requires packets { packets ≤ MAX_PACKETS }
    requires running { spool.old.state.halted ≡ None }
    // what it does
    ensures job { (log : Log) (earlier h : List Event) (f : Files)
        → D.log spool.old.shelf ≡ Some log
        → StandsFor IsWholePair (D.log spool.old.shelf) spool.old.state earlier h f
        → Summarizes packets spool.old.state.limit (D.log spool.old.shelf) (D.log spool.new.shelf)
        spool.old.state spool.new.state earlier h
        (C.to_come clock.old) (C.to_come clock.new) result }
    ensures says { IfErr result (λ e. SaysDrill e × HasNoSummary e) }
    // the counts, and what stays
    ensures disk { HasShelfCause (D.faults spool.old.shelf) (D.faults spool.new.shelf) result }
    ensures stays { KeepsShelf D.id D.loans spool.old spool.new }
{
    let pairs = match load_packets(alloc, spool, packets, clock) {
        Ok(pairs) => pairs,
        Err(end) => return Err(end),
    };
    let answers = match ask_all(alloc, spool) {
        Ok(answers) => answers,
        Err(end) => return Err(end),
    };
    match summary(alloc, packets, pairs, answers) {
        Ok(text) => Ok(text),
        Err(_) => Err(DrillEnd::NoMemory),
    }
}

// Writes the summary by one `put`, if there is one, and returns how the drill ended.
fn written<O: Sink>(summed: Result<String, DrillEnd>, out: &mut O) -> DrillEnd
    requires { IfErr summed HasNoSummary }
    ensures ends { EndsWriting summed (O.written out.old) (O.written out.new) result }
    ensures write { RoseJustIf (result ≡ DrillEnd.WriteFault)
        (O.faults out.old) (O.faults out.new) }
    ensures rest { O.beside out.new ≡ O.beside out.old }
{
    match summed {
        Ok(text) => match put(out, text.as_bytes()) {
            Ok(()) => DrillEnd::Done,
            Err(_) => DrillEnd::WriteFault,
        },
        Err(end) => end,
    }
}

/// Opens the spool of a shelf, makes this many packets, at most 1,000,000, and loads them into it;
/// then asks four queries over all pairs of the spool, earlier ones too, and writes the summary to
/// `out` by one `put`.
///
/// The packets become pairs of at most 16 blocks of 65,536 bytes; the spool keeps at most 65,535
/// pairs. The clock, in microseconds since 1970, is read once for each new pair; its stamp is not
/// below that.
///
/// Nothing is written unless all packets were loaded and all queries answered. `WriteFault` comes
/// only if the output's count of faults rose, and a prefix of the summary is then written.
/// `DiskFault` comes only if the shelf's count rose. `Damaged` names a pair that isn't whole.
/// `StampsSpent` comes only if no stamp is left: 2^64 - 1 is in use. The pairs that were published
/// before any of these ends, or before `NoMemory`, stay.
/// Source: docs/FORMAT.md, "Drill".
pub fn drill<D: Shelf, O: Sink, C: Clock>(
    alloc: Global,
    shelf: D,
    packets: u32,
    out: &mut O,
    clock: &mut C,
) -> Drilled<D>
    requires { packets ≤ MAX_PACKETS }
    // what it does
    ensures job { (log : Log) → D.log shelf ≡ Some log
        → Drills packets log (D.log result.shelf) (C.to_come clock.old) (C.to_come clock.new)
        (O.written out.old) (O.written out.new) result.end }
    ensures says { SaysDrill result.end }
    // the counts
    ensures disk { RoseIf (result.end ≡ DrillEnd.DiskFault) (D.faults shelf)
        (D.faults result.shelf) }
    ensures write { RoseJustIf (result.end ≡ DrillEnd.WriteFault)
        (O.faults out.old) (O.faults out.new) }
    // what stays
    ensures rest { (D.id result.shelf ≡ D.id shelf)
        × ((D.loans result.shelf).lent ≤ (D.loans shelf).lent)
        × (O.beside out.new ≡ O.beside out.old) }
{
    let entered: Result<Spool<D, Indexed>, NotEntered<D>> = Spool::enter(alloc, shelf, MAX_PAIRS);
    let mut spool = match entered {
        Ok(spool) => spool,
        Err(NotEntered { cause, shelf }) => {
            return Drilled {
                end: unopened(cause),
                shelf,
            };
        }
    };
    let summed = summarize(alloc, &mut spool, packets, clock);
    Drilled {
        end: written(summed, out),
        shelf: spool.close(),
    }
}
