//! The commands: they open a spool, hold what was found, and give the shelf back.

ghost use Rattle.std.specs.Prelude.{◌≡◌, List, Some, IfOk, IfErr, MatchResult};
ghost use Rattle.st_disk.specs.Disks.{Log, reads};
ghost use Rattle.st_disk.specs.Pairs.{Entry, PairsIn};
ghost use Rattle.st_spool.specs.Entering.{opened, Enters};
ghost use Rattle.st_pairs.specs.Pairs.{IsWholePair};
ghost use Rattle.st_commands.specs.declared.commands.TheConstants.{LIMIT};
ghost use Rattle.st_commands.specs.Commands.{GivesAllBack, HasDiskFault, HasWriteFault, KeepsPairs, EndsUnentered, IsUnentered};
ghost use Rattle.st_commands.specs.Reports.{Reports};

use crate::outcomes::{Outcome, Report};
use crate::reports::report_pairs;
use st_base::Sink;
use st_pairs::Indexed;
use st_shelf::Shelf;
use st_spool::{EnterErr, NotEntered, Spool};
use std::alloc::Global;

/// The limit in pairs of the spools that commands open. Nothing is removed at opening, whatever
/// it is.
const LIMIT: u32 = 4_096;

/// What a command returns: how it ended, and the shelf that it was given.
pub struct Ended<D> {
    pub outcome: Outcome,
    pub shelf: D,
}

// How a command ends if its spool can't be opened.
fn unentered<D>(refused: NotEntered<D>) -> Ended<D>
    ensures outcome { EndsUnentered refused.cause result.outcome }
    ensures shelf { result.shelf ≡ refused.shelf }
{
    let NotEntered { cause, shelf } = refused;
    let outcome = match cause {
        EnterErr::DiskFault => Outcome::DiskFault,
        EnterErr::NoMemory => Outcome::NoMemory,
    };
    Ended { outcome, shelf }
}

/// Opens the spool of a command; the error is the command's end. It is `DiskFault`, only if the
/// shelf's count of faults rose, or `NoMemory`.
pub fn entered<D: Shelf>(alloc: Global, shelf: D) -> Result<Spool<D, Indexed>, Ended<D>>
    // what is opened
    ensures opens { (first : Log) → D.log shelf ≡ Some first → MatchResult result
        (λ s. Enters IsWholePair first (D.log s.shelf) s.state)
        (λ ended. KeepsPairs first (D.log ended.shelf) ended.outcome) }
    ensures state { IfOk result (λ s. s.state ≡ opened LIMIT s.state.stamps s.state.last) }
    // what stays, and when it ends
    ensures same { IfOk result (λ s. (D.faults s.shelf ≡ D.faults shelf)
        × (D.id s.shelf ≡ D.id shelf) × (D.loans s.shelf ≡ D.loans shelf)) }
    ensures ended { IfErr result (λ ended. HasDiskFault (D.faults shelf) (D.faults ended.shelf)
        ended.outcome × IsUnentered ended.outcome
        × (D.id ended.shelf ≡ D.id shelf) × (D.loans ended.shelf ≡ D.loans shelf)) }
{
    let opened: Result<Spool<D, Indexed>, NotEntered<D>> = Spool::enter(alloc, shelf, LIMIT);
    match opened {
        Ok(spool) => Ok(spool),
        Err(refused) => Err(unentered(refused)),
    }
}

// Writes this report: a line for each pair of the shelf.
fn report_shelf<D: Shelf, O: Sink>(report: Report, alloc: Global, shelf: D, out: &mut O) -> Ended<D>
    // What it writes and what crashes leave, if what is on the disk is known.
    ensures lines { (first : Log) (pairs : List Entry) → D.log shelf ≡ Some first
        → PairsIn (reads first) pairs
        → Reports report pairs (O.written out.old) (O.written out.new) result.outcome }
    ensures images { (first : Log) → D.log shelf ≡ Some first
        → KeepsPairs first (D.log result.shelf) result.outcome }

    // When it ends in a fault.
    ensures disk { HasDiskFault (D.faults shelf) (D.faults result.shelf) result.outcome }
    ensures write { HasWriteFault (O.faults out.old) (O.faults out.new) result.outcome }

    // What stays as it was.
    ensures loans { GivesAllBack (D.loans shelf) (D.loans result.shelf) }
    ensures rest { (D.id result.shelf ≡ D.id shelf) × (O.beside out.new ≡ O.beside out.old) }
{
    let mut spool = match entered(alloc, shelf) {
        Ok(spool) => spool,
        Err(ended) => return ended,
    };
    let hold = match spool.hold() {
        Ok(hold) => hold,
        Err(_) => {
            return Ended {
                outcome: Outcome::NoMemory,
                shelf: spool.close(),
            };
        }
    };
    let outcome = report_pairs(report, alloc, &mut spool, &hold, out);
    spool.release(hold);
    Ended {
        outcome,
        shelf: spool.close(),
    }
}

/// Writes for each pair of the shelf, by stamp, what its summary row says: the stamp, the number of
/// packets, and the least and the greatest time, in seconds since 1970 with nine decimals.
///
/// `Damaged` comes at the first pair that has no summary, and only of a pair that is not whole; the
/// lines of the pairs before it are written. `WriteFault` comes only if the output's count of
/// faults rose, and a prefix of the lines is then written. `DiskFault` comes only if the shelf's
/// count rose; after it and after `NoMemory` the lines of the first pairs are written. No pair is
/// changed.
/// Source: docs/FORMAT.md, "Lines of `list` and `check`".
pub fn list<D: Shelf, O: Sink>(alloc: Global, shelf: D, out: &mut O) -> Ended<D>
    // What it writes and what crashes leave, if what is on the disk is known.
    ensures lines { (first : Log) (pairs : List Entry) → D.log shelf ≡ Some first
        → PairsIn (reads first) pairs
        → Reports Report.Summaries pairs (O.written out.old) (O.written out.new) result.outcome }
    ensures images { (first : Log) → D.log shelf ≡ Some first
        → KeepsPairs first (D.log result.shelf) result.outcome }

    // When it ends in a fault.
    ensures disk { HasDiskFault (D.faults shelf) (D.faults result.shelf) result.outcome }
    ensures write { HasWriteFault (O.faults out.old) (O.faults out.new) result.outcome }

    // What stays as it was.
    ensures loans { GivesAllBack (D.loans shelf) (D.loans result.shelf) }
    ensures rest { (D.id result.shelf ≡ D.id shelf) × (O.beside out.new ≡ O.beside out.old) }
{
    report_shelf(Report::Summaries, alloc, shelf, out)
}

/// Writes for each pair of the shelf, by stamp, whether it is whole: the stamp, `whole` and the
/// number of packets; or the stamp, `damaged`, and the first check that fails, by its part, its
/// place, what was found and what was wanted.
///
/// `Damaged` comes after all lines, and has the first pair that is not whole. `WriteFault` comes
/// only if the output's count of faults rose, and a prefix of the lines is then written.
/// `DiskFault` comes only if the shelf's count rose; after it and after `NoMemory` the lines of the
/// first pairs are written. No pair is changed.
/// Source: docs/FORMAT.md, "Lines of `list` and `check`" and "What a check of a pair looks at".
pub fn check<D: Shelf, O: Sink>(alloc: Global, shelf: D, out: &mut O) -> Ended<D>
    // What it writes and what crashes leave, if what is on the disk is known.
    ensures lines { (first : Log) (pairs : List Entry) → D.log shelf ≡ Some first
        → PairsIn (reads first) pairs
        → Reports Report.Verdicts pairs (O.written out.old) (O.written out.new) result.outcome }
    ensures images { (first : Log) → D.log shelf ≡ Some first
        → KeepsPairs first (D.log result.shelf) result.outcome }

    // When it ends in a fault.
    ensures disk { HasDiskFault (D.faults shelf) (D.faults result.shelf) result.outcome }
    ensures write { HasWriteFault (O.faults out.old) (O.faults out.new) result.outcome }

    // What stays as it was.
    ensures loans { GivesAllBack (D.loans shelf) (D.loans result.shelf) }
    ensures rest { (D.id result.shelf ≡ D.id shelf) × (O.beside out.new ≡ O.beside out.old) }
{
    report_shelf(Report::Verdicts, alloc, shelf, out)
}
