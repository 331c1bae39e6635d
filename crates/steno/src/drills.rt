//! The command `drill`: packets that are made up become pairs of a spool, and are queried.

ghost use Rattle.std.specs.Prelude.{Option, ◌≡◌, ◌≢◌, ◌≤◌, ℕ, List};
ghost use Rattle.st_plan.specs.declared.limits.TheConstants.{MAX_PACKETS};
ghost use Rattle.steno.specs.Causes.{HasCauses, counts};
ghost use Rattle.steno.specs.Drilling.{DrillsShelf, SaysDrill};
ghost use Rattle.steno.specs.Messages.{line_of};
ghost use Rattle.steno.specs.Scenes.{scene};

use crate::loads::with_line;
use crate::message::spent_text;
use crate::report::{Report, Reported, plain};
use crate::spooling::pair_damaged;
use crate::status::Status;
use st_base::{Clock, Sink};
use st_drill::{DrillEnd, Drilled};
use st_plan::DrillPlan;
use st_shelf::Shelf;
use std::alloc::Global;

/// Makes as many packets as the plan says, loads them into the shelf's spool, asks four queries
/// over all of its pairs, and writes the summary to `out`.
///
/// The clock is read once for each new pair, in microseconds since 1970. Nothing is written unless
/// all packets were loaded and all queries answered. The report has the status, and the line that
/// the cause has.
/// Source: docs/FORMAT.md, "Drill", "Statuses" and "Messages".
pub fn drill<D: Shelf, O: Sink, C: Clock>(
    alloc: Global,
    plan: &DrillPlan<'_>,
    shelf: D,
    out: &mut O,
    clock: &mut C,
) -> Reported<D>
    requires { plan.now.packets ≤ MAX_PACKETS }
    // What it does and has to say, whatever the input is.
    ensures does { (input : Option (List ℕ)) → DrillsShelf plan.now
        (scene input (O.written out.old) (C.to_come clock.old) (D.log shelf) (D.loans shelf))
        (scene input (O.written out.new) (C.to_come clock.new)
        (D.log result.shelf) (D.loans result.shelf))
        result.report.status (line_of result.report) }

    // When each way to end comes.
    ensures asked { (result.report.status ≢ Status.Usage)
        × (result.report.status ≢ Status.BadQuery) }
    ensures fault { (input : ℕ)
        → HasCauses (counts input (O.faults out.old) (D.faults shelf))
        (counts input (O.faults out.new) (D.faults result.shelf)) result.report.status }
    ensures still { result.report.status ≢ Status.WriteFault
        → O.faults out.new ≡ O.faults out.old }

    // What stays as it was.
    ensures rest { (O.beside out.new ≡ O.beside out.old) × (D.id result.shelf ≡ D.id shelf) }
{
    let Drilled { end, shelf } = st_drill::drill(alloc, shelf, plan.packets, out, clock);
    Reported {
        report: drill_ended(alloc, end),
        shelf,
    }
}

// The report of a drill that ended so. Its line names the damage, if there is any; `NoMemory` if
// there is no memory for the line.
fn drill_ended(alloc: Global, end: DrillEnd) -> Report
    ensures { SaysDrill end result.status (line_of result) }
{
    match end {
        DrillEnd::Done => plain(Status::Done),
        DrillEnd::WriteFault => plain(Status::WriteFault),
        DrillEnd::DiskFault => plain(Status::DiskFault),
        DrillEnd::Damaged { stamp, damage } => pair_damaged(alloc, stamp, damage),
        DrillEnd::StampsSpent { last } => with_line(Status::StampsSpent, spent_text(alloc, last)),
        DrillEnd::NoMemory => plain(Status::NoMemory),
    }
}
