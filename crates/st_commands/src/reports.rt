//! The lines of all pairs of a held set.

ghost use Rattle.std.specs.Prelude.{◌≡◌, ◌≢◌, List, Some, Contains};
ghost use Rattle.st_base.specs.Faults.{Rose};
ghost use Rattle.st_disk.specs.Disks.{Log};
ghost use Rattle.st_disk.specs.Events.{Event};
ghost use Rattle.st_disk.specs.Pairs.{Files};
ghost use Rattle.st_spool.specs.Standing.{StandsFor};
ghost use Rattle.st_spool.specs.States.{held};
ghost use Rattle.st_commands.specs.Commands.{Stays, HasWriteFault};
ghost use Rattle.st_pairs.specs.Pairs.{IsWholePair};
ghost use Rattle.st_commands.specs.Reports.{Reports, first_of_two};
ghost use Rattle.st_commands.specs.Telling.{Stops};

use crate::outcomes::{Outcome, PairErr, Report};
use crate::pairs::line_at;
use st_base::{Sink, put};
use st_pairs::Indexed;
use st_shelf::Shelf;
use st_spool::{Hold, Spool};
use std::alloc::Global;

// The first of two outcomes, or the next if the first is `Done`.
fn first_of(first: Outcome, next: Outcome) -> Outcome
    ensures { result ≡ first_of_two first next }
{
    match first {
        Outcome::Done => next,
        _ => first,
    }
}

// How a command ends if there is no line of the pair with this stamp, for this cause.
fn stopped(stamp: u64, error: PairErr) -> Outcome
    ensures stops { Stops stamp error result }
    ensures disk { result ≡ Outcome.DiskFault → error ≡ PairErr.DiskFault }
    ensures other { result ≢ Outcome.WriteFault }
{
    match error {
        PairErr::DiskFault => Outcome::DiskFault,
        PairErr::Damaged(damage) => Outcome::Damaged { stamp, damage },
        PairErr::NoMemory => Outcome::NoMemory,
    }
}

/// Writes to `out` a line for each pair of the hold, by stamp, each by one `put`.
///
/// It ends at the first pair that has no line. After all lines it ends `Damaged` with the first
/// pair that a line says is not whole, or else `Done`. `DiskFault` comes only if the shelf's count
/// of faults rose, `WriteFault` only if the output's did.
pub fn report_pairs<D: Shelf, O: Sink>(
    report: Report,
    alloc: Global,
    spool: &mut Spool<D, Indexed>,
    hold: &Hold,
    out: &mut O,
) -> Outcome
    requires { Contains spool.old.state.holds hold.now }
    // what is written, and what stays
    ensures lines { (log : Log) (earlier h : List Event) (f : Files)
        → D.log spool.old.shelf ≡ Some log
        → StandsFor IsWholePair (D.log spool.old.shelf) spool.old.state earlier h f
        → Reports report (held hold.now h) (O.written out.old) (O.written out.new) result }
    ensures stays { Stays D.log D.id D.faults D.loans spool.old spool.new }
    // the faults
    ensures disk { result ≡ Outcome.DiskFault
        → Rose (D.faults spool.old.shelf) (D.faults spool.new.shelf) }
    ensures write { HasWriteFault (O.faults out.old) (O.faults out.new) result }
    ensures rest { O.beside out.new ≡ O.beside out.old }
{
    let mut found = Outcome::Done;
    let count = spool.count(hold);
    'pairs: for i in 0..count {
        let stamp = spool.stamp_of(hold, i);
        let line = match line_at(report, alloc, spool, hold, i) {
            Ok(line) => line,
            Err(error) => return stopped(stamp, error),
        };
        match put(out, line.text.as_bytes()) {
            Ok(()) => {}
            Err(_) => return Outcome::WriteFault,
        }
        found = first_of(found, line.outcome);
    }
    found
}
