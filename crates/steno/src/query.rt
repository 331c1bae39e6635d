//! The command `query`: a query over the pairs of a spool.

ghost use Rattle.std.specs.Prelude.{Option, ◌≡◌, ◌≢◌, ℕ, List};
ghost use Rattle.steno.specs.Asking.{AnswersShelf};
ghost use Rattle.steno.specs.Causes.{HasCauses, counts};
ghost use Rattle.steno.specs.Messages.{line_of};
ghost use Rattle.steno.specs.Once.{HasQueryCause};
ghost use Rattle.steno.specs.Scenes.{scene};

use crate::report::{Reported, query_refused};
use crate::spooling::outcome_ended;
use crate::status::Status;
use st_base::{Clock, Sink};
use st_plan::Job;
use st_query::parse;
use st_shelf::Shelf;
use std::alloc::Global;

/// Writes to `out` the packets of the shelf's pairs that match the plan's query, by second,
/// nanosecond, stamp and position, in the plan's unit and within its limits.
///
/// The clock is read once, in microseconds since 1970, before the query is parsed. Neither the
/// shelf nor the output is touched if the query is refused. The report has the status, and the line
/// that the cause has.
/// Source: docs/FORMAT.md, "pcap", "Statuses" and "Messages".
pub fn query<D: Shelf, O: Sink, C: Clock>(
    alloc: Global,
    plan: &Job<'_>,
    shelf: D,
    out: &mut O,
    clock: &mut C,
) -> Reported<D>
    // What it does and has to say, whatever the input is.
    ensures does { (input : Option (List ℕ)) → AnswersShelf plan.now
        (scene input (O.written out.old) (C.to_come clock.old) (D.log shelf) (D.loans shelf))
        (scene input (O.written out.new) (C.to_come clock.new)
        (D.log result.shelf) (D.loans result.shelf))
        result.report.status (line_of result.report) }

    // When each way to end comes.
    ensures asked { HasQueryCause plan.now result.report.status }
    ensures fault { (input : ℕ)
        → HasCauses (counts input (O.faults out.old) (D.faults shelf))
        (counts input (O.faults out.new) (D.faults result.shelf)) result.report.status }
    ensures still { result.report.status ≢ Status.WriteFault
        → O.faults out.new ≡ O.faults out.old }

    // What stays as it was.
    ensures alone { result.report.status ≡ Status.BadQuery
        → (out.new ≡ out.old) × (result.shelf ≡ shelf) }
    ensures rest { (O.beside out.new ≡ O.beside out.old) × (D.id result.shelf ≡ D.id shelf) }
{
    let now = clock.micros();
    let asked = match parse(alloc, plan.query.as_bytes()) {
        Ok(asked) => asked,
        Err(error) => {
            return Reported {
                report: query_refused(alloc, error),
                shelf,
            };
        }
    };
    let st_commands::Ended { outcome, shelf } = st_commands::query(
        alloc,
        shelf,
        &asked,
        now,
        plan.unit,
        plan.limits,
        out,
    );
    Reported {
        report: outcome_ended(alloc, outcome),
        shelf,
    }
}
