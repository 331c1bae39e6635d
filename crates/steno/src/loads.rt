//! The command `load`: the packets of the input become pairs of a spool.

ghost use Rattle.std.specs.Prelude.{◌≡◌, ◌≢◌, MatchResult, string_bytes};
ghost use Rattle.steno.specs.Causes.{FailsSo, HasCauses, counts};
ghost use Rattle.steno.specs.Loading.{IsSound, LoadsPairs, SaysLoad};
ghost use Rattle.steno.specs.Messages.{line_of};
ghost use Rattle.steno.specs.Reports.{plain_of};
ghost use Rattle.steno.specs.Scenes.{scene};
ghost use Rattle.steno.specs.Spooling.{Says};

use crate::message::{input_text, spent_text, unfit_text};
use crate::report::{Report, Reported, plain};
use crate::status::Status;
use st_base::{Clock, Sink, Source};
use st_load::{LoadEnd, Loaded};
use st_plan::LoadPlan;
use st_shelf::Shelf;
use std::alloc::{AllocError, Global};

/// Makes the packets of the pcap in `input` pairs of the shelf, laid out as the plan says, removes
/// the oldest pairs above its limit, and writes a line `STAMP PACKETS` to `out` for each new pair.
///
/// The clock is read once for each pair, in microseconds since 1970. A record that is refused or
/// that no block takes ends the input, and the packets before it are loaded. The report has the
/// status, and the line that the cause has.
/// Source: docs/FORMAT.md, "Command line", "Statuses" and "Messages".
pub fn load<D: Shelf, I: Source, O: Sink, C: Clock>(
    alloc: Global,
    plan: &LoadPlan<'_>,
    shelf: D,
    input: &mut I,
    out: &mut O,
    clock: &mut C,
) -> Reported<D>
    requires { IsSound plan.now }
    // What it does and has to say.
    ensures does { LoadsPairs plan.now
        (scene (I.left input.old) (O.written out.old) (C.to_come clock.old)
        (D.log shelf) (D.loans shelf))
        (scene (I.left input.new) (O.written out.new) (C.to_come clock.new)
        (D.log result.shelf) (D.loans result.shelf))
        result.report.status (line_of result.report) }

    // When each way to end comes.
    ensures asked { (result.report.status ≢ Status.Usage)
        × (result.report.status ≢ Status.BadQuery) }
    ensures fault { HasCauses
        (counts (I.faults input.old) (O.faults out.old) (D.faults shelf))
        (counts (I.faults input.new) (O.faults out.new) (D.faults result.shelf))
        result.report.status }
    ensures still { FailsSo
        (counts (I.faults input.old) (O.faults out.old) (D.faults shelf))
        (counts (I.faults input.new) (O.faults out.new) (D.faults result.shelf))
        result.report.status }

    // What stays as it was.
    ensures rest { (I.beside input.new ≡ I.beside input.old)
        × (O.beside out.new ≡ O.beside out.old) × (D.id result.shelf ≡ D.id shelf) }
{
    let Loaded { end, shelf } = st_load::load(
        alloc, shelf, plan.limit, plan.plan, input, out, clock,
    );
    Reported {
        report: load_ended(alloc, plan.plan.size, end),
        shelf,
    }
}

// The report of a load into blocks of `size` bytes that ended so; `NoMemory` if there is no memory
// for its line.
fn load_ended(alloc: Global, size: u32, end: LoadEnd) -> Report
    ensures { SaysLoad size end result.status (line_of result) }
{
    match end {
        LoadEnd::Done => plain(Status::Done),
        LoadEnd::BadInput(error) => with_line(Status::BadInput, input_text(alloc, error)),
        LoadEnd::TooLong { number, len } => {
            with_line(Status::BadInput, unfit_text(alloc, number, len, size))
        }
        LoadEnd::ReadFault => plain(Status::ReadFault),
        LoadEnd::WriteFault => plain(Status::WriteFault),
        LoadEnd::DiskFault => plain(Status::DiskFault),
        LoadEnd::StampsSpent { last } => with_line(Status::StampsSpent, spent_text(alloc, last)),
        LoadEnd::NoMemory => plain(Status::NoMemory),
    }
}

/// The report of this status with this line; one of `NoMemory` if there was no memory for the line.
pub fn with_line(status: Status, line: Result<String, AllocError>) -> Report
    ensures { MatchResult line
        (λ text. Says status (string_bytes text) result.status (line_of result))
        (λ _. result ≡ plain_of Status.NoMemory) }
{
    match line {
        Ok(line) => Report {
            status,
            line: Some(line),
        },
        Err(_) => plain(Status::NoMemory),
    }
}
