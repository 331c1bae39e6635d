//! The command `once`: a query over one input.

ghost use Rattle.std.specs.Prelude.{◌≡◌, ℕ, List, Some};
ghost use Rattle.st_base.specs.Ticks.{Ticks};
ghost use Rattle.steno.specs.Messages.{line_of};
ghost use Rattle.steno.specs.Once.{EndsInput, EndsJob, IsJobMessage, HasQueryCause, HasStreamCause, LeavesStreams};

use crate::gather::gather;
use crate::report::{Report, input_ended, plain, query_refused};
use crate::status::Status;
use st_base::{Clock, Sink, Source};
use st_plan::Job;
use st_query::parse;
use std::alloc::Global;

/// Writes to `out` the packets of the pcap in `input` that match the plan's query, by second,
/// nanosecond and place, in the plan's unit and within its limits.
///
/// The clock is read once, in microseconds since 1970, before the query is parsed. A refused record
/// ends the input, and the answer is that over the records before it; nothing is written if the
/// query or the file head is refused, the input fails, or memory runs out. The report has the
/// status, and the line that the cause has.
/// Source: docs/FORMAT.md, "pcap", "Statuses" and "Messages".
pub fn once<I: Source, O: Sink, C: Clock>(
    alloc: Global,
    plan: &Job<'_>,
    input: &mut I,
    out: &mut O,
    clock: &mut C,
) -> Report
    // What it was asked for, over an input whose bytes are known, and what is left of that.
    ensures job { (bytes : List ℕ) → I.left input.old ≡ Some bytes
        → EndsJob plan.now (C.to_come clock.old) (C.to_come clock.new) bytes
        (O.written out.old) (O.written out.new) result.status (line_of result) }
    ensures ended { (bytes : List ℕ) → I.left input.old ≡ Some bytes
        → EndsInput bytes result.status (I.left input.new) }

    // What it says and when each way to end comes, over any input.
    ensures says { IsJobMessage plan.now result.status (line_of result) }
    ensures clock { (now : ℕ) × Ticks (C.to_come clock.old) (C.to_come clock.new) now }
    ensures asked { HasQueryCause plan.now result.status }
    ensures fault { HasStreamCause (I.faults input.old) (I.faults input.new)
        (O.faults out.old) (O.faults out.new) result.status }

    // What stays as it was.
    ensures alone { LeavesStreams result.status input.old input.new out.old out.new }
    ensures rest { (I.beside input.new ≡ I.beside input.old)
        × (O.beside out.new ≡ O.beside out.old) }
{
    let now = clock.micros();
    let query = match parse(alloc, plan.query.as_bytes()) {
        Ok(query) => query,
        Err(error) => return query_refused(alloc, error),
    };
    let gathered = gather(alloc, &query, now, plan.unit, input);
    let report = match input_ended(alloc, gathered.end) {
        Ok(report) => report,
        Err(report) => return report,
    };
    let mut packets = gathered.packets;
    match packets.sort_by_time() {
        Ok(()) => {}
        Err(_) => return plain(Status::NoMemory),
    }
    packets.cut(plan.limits);
    match packets.write(out) {
        Ok(()) => report,
        Err(_) => plain(Status::WriteFault),
    }
}
