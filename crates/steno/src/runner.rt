//! A run of the program, over whatever its streams, its clock and its shelf are.

ghost use Rattle.std.specs.Prelude.{◌≡◌, ℕ, List, [], map, string_bytes};
ghost use Rattle.st_plan.specs.Plans.{IsPlan};
ghost use Rattle.st_plan.specs.declared.jobs.Plan.{Plan as Planned};
ghost use Rattle.steno.specs.Causes.{HasFaultCause, HasPlanFaults, NoneRose, counts};
ghost use Rattle.steno.specs.Messages.{line_of};
ghost use Rattle.steno.specs.Reports.{Tells};
ghost use Rattle.steno.specs.Running.{Does, EndsRun, EndsUnfailed, HasPlanCause, HasArgumentsCause, IsSoundPlan};
ghost use Rattle.steno.specs.Scenes.{scene};
ghost use Rattle.steno.specs.Staying.{IsUnsaid, LeavesAlone, Spares};

use crate::drills::drill;
use crate::loads::load;
use crate::once::once;
use crate::query::query;
use crate::report::{Reported, plain, tell};
use crate::spooling::{check_ended, outcome_ended};
use crate::status::{Ended, Status};
use st_base::{Clock, NoMemory, Sink, Source};
use st_commands::{check, list};
use st_plan::{Plan, plan_of};
use st_shelf::Shelf;
use std::alloc::Global;

/// Does what the arguments after the program's name, `words`, ask for, and gives the shelf back.
///
/// - `once QUERY` writes to `out` the packets of the pcap in `input` that match, by second,
///   nanosecond and place, as a pcap in the unit and within the limits that the options say. A
///   refused record ends the input, and the answer is that over the records before it; nothing is
///   written if the file head is refused, the input fails, or memory runs out.
/// - `query FOLDER QUERY` writes to `out` the packets of the shelf's pairs that match, by second,
///   nanosecond, stamp and position, as such a pcap.
/// - `load FOLDER` makes the packets of the pcap in `input` pairs of the shelf, and writes a line
///   `STAMP PACKETS` to `out` for each pair that it published.
/// - `list FOLDER` and `check FOLDER` write a line to `out` for each pair of the shelf, by stamp.
/// - `drill FOLDER N` makes N packets pairs of the shelf, asks four queries over all of its pairs,
///   and writes a summary to `out`.
///
/// The folder is the caller's to open. The clock is in microseconds since 1970: `once` and `query`
/// read it once, before the query is parsed, `load` and `drill` once for each new pair.
///
/// At the end of the run the line of its status is written to `err` by one `put`, unless the status
/// is `Done`, or `Damaged` of a check; a failure of this is passed over.
/// Source: docs/FORMAT.md, "Command line", "Statuses" and "Messages".
pub fn run<D: Shelf, I: Source, O: Sink, E: Sink, C: Clock>(
    alloc: Global,
    words: &[String],
    shelf: D,
    input: &mut I,
    out: &mut O,
    err: &mut E,
    clock: &mut C,
) -> Ended<D>
    // What it does and says.
    ensures ends { (message : List ℕ)
        × Tells (E.written err.old) (E.written err.new)
        (E.faults err.old) (E.faults err.new) message
        × EndsRun (map string_bytes words.now)
        (scene (I.left input.old) (O.written out.old) (C.to_come clock.old)
        (D.log shelf) (D.loans shelf))
        (scene (I.left input.new) (O.written out.new) (C.to_come clock.new)
        (D.log result.shelf) (D.loans result.shelf))
        result.status message }

    // When each way to end comes.
    ensures asked { HasArgumentsCause (map string_bytes words.now) result.status }
    ensures fault { HasFaultCause (map string_bytes words.now)
        (counts (I.faults input.old) (O.faults out.old) (D.faults shelf))
        (counts (I.faults input.new) (O.faults out.new) (D.faults result.shelf)) result.status }
    ensures complete { (p : Planned) → IsPlan (map string_bytes words.now) p
        → NoneRose (counts (I.faults input.old) (O.faults out.old) (D.faults shelf))
        (counts (I.faults input.new) (O.faults out.new) (D.faults result.shelf))
        → EndsUnfailed p
        (scene (I.left input.old) (O.written out.old) (C.to_come clock.old)
        (D.log shelf) (D.loans shelf))
        result.status }

    // What stays as it was.
    ensures alone { LeavesAlone (map string_bytes words.now) result.status input.old input.new
        out.old out.new clock.old clock.new shelf result.shelf }
    ensures unsaid { IsUnsaid (map string_bytes words.now) result.status → err.new ≡ err.old }
    ensures rest { (I.beside input.new ≡ I.beside input.old)
        × (O.beside out.new ≡ O.beside out.old) × (E.beside err.new ≡ E.beside err.old)
        × (D.id result.shelf ≡ D.id shelf) }
{
    let Reported { report, shelf } = obey(alloc, words, shelf, input, out, clock);
    tell(err, &report);
    Ended {
        status: report.status,
        shelf,
    }
}

// Does what the arguments ask for, and reports how that ended: with `Usage` if they have no plan.
fn obey<D: Shelf, I: Source, O: Sink, C: Clock>(
    alloc: Global,
    words: &[String],
    shelf: D,
    input: &mut I,
    out: &mut O,
    clock: &mut C,
) -> Reported<D>
    // What it does and has to say.
    ensures ends { EndsRun (map string_bytes words.now)
        (scene (I.left input.old) (O.written out.old) (C.to_come clock.old)
        (D.log shelf) (D.loans shelf))
        (scene (I.left input.new) (O.written out.new) (C.to_come clock.new)
        (D.log result.shelf) (D.loans result.shelf))
        result.report.status (line_of result.report) }

    // When each way to end comes.
    ensures asked { HasArgumentsCause (map string_bytes words.now) result.report.status }
    ensures fault { HasFaultCause (map string_bytes words.now)
        (counts (I.faults input.old) (O.faults out.old) (D.faults shelf))
        (counts (I.faults input.new) (O.faults out.new) (D.faults result.shelf))
        result.report.status }

    // What stays as it was.
    ensures alone { LeavesAlone (map string_bytes words.now) result.report.status
        input.old input.new out.old out.new clock.old clock.new shelf result.shelf }
    ensures unsaid { IsUnsaid (map string_bytes words.now) result.report.status
        → line_of result.report ≡ [] }
    ensures rest { (I.beside input.new ≡ I.beside input.old)
        × (O.beside out.new ≡ O.beside out.old) × (D.id result.shelf ≡ D.id shelf) }
{
    match plan_of(alloc, words) {
        Ok(Some(plan)) => follow(alloc, &plan, shelf, input, out, clock),
        Ok(None) => Reported {
            report: plain(Status::Usage),
            shelf,
        },
        Err(NoMemory) => Reported {
            report: plain(Status::NoMemory),
            shelf,
        },
    }
}

// Does what the plan asks for, and reports how that ended.
fn follow<D: Shelf, I: Source, O: Sink, C: Clock>(
    alloc: Global,
    plan: &Plan<'_>,
    shelf: D,
    input: &mut I,
    out: &mut O,
    clock: &mut C,
) -> Reported<D>
    requires { IsSoundPlan plan.now }
    // What it does and has to say.
    ensures does { Does plan.now
        (scene (I.left input.old) (O.written out.old) (C.to_come clock.old)
        (D.log shelf) (D.loans shelf))
        (scene (I.left input.new) (O.written out.new) (C.to_come clock.new)
        (D.log result.shelf) (D.loans result.shelf))
        result.report.status (line_of result.report) }

    // When each way to end comes.
    ensures asked { HasPlanCause plan.now result.report.status }
    ensures fault { HasPlanFaults plan.now
        (counts (I.faults input.old) (O.faults out.old) (D.faults shelf))
        (counts (I.faults input.new) (O.faults out.new) (D.faults result.shelf))
        result.report.status }

    // What stays as it was.
    ensures alone { Spares plan.now result.report.status input.old input.new
        out.old out.new clock.old clock.new shelf result.shelf }
    ensures rest { (I.beside input.new ≡ I.beside input.old)
        × (O.beside out.new ≡ O.beside out.old) × (D.id result.shelf ≡ D.id shelf) }
{
    match plan {
        Plan::Once(job) => Reported {
            report: once(alloc, job, input, out, clock),
            shelf,
        },
        Plan::Load(plan) => load(alloc, plan, shelf, input, out, clock),
        Plan::Query(plan) => query(alloc, &plan.job, shelf, out, clock),
        Plan::List(_) => {
            let st_commands::Ended { outcome, shelf } = list(alloc, shelf, out);
            Reported {
                report: outcome_ended(alloc, outcome),
                shelf,
            }
        }
        Plan::Check(_) => {
            let st_commands::Ended { outcome, shelf } = check(alloc, shelf, out);
            Reported {
                report: check_ended(outcome),
                shelf,
            }
        }
        Plan::Drill(plan) => drill(alloc, plan, shelf, out, clock),
    }
}
