//! What a run reports when it ends: its status, with the line that says why.

ghost use Rattle.std.specs.Prelude.{◌≡◌, [], Err};
ghost use Rattle.st_pcap.specs.Reading.{IsOutside};
ghost use Rattle.steno.specs.Messages.{line_of};
ghost use Rattle.steno.specs.Reports.{plain_of, ReportsQuery, ReportsInput, Tells};

use crate::message::{input_text, line_bytes, query_text};
use crate::status::Status;
use st_base::{Sink, put};
use st_pcap::PcapErr;
use st_query::QueryErr;
use std::alloc::Global;

/// How a run ends: its status, and its line if that isn't the one that the status always has.
#[derive(Drop)]
pub struct Report {
    pub status: Status,
    pub line: Option<String>,
}

/// The report of a run, which has not been written yet, and the run's shelf.
pub struct Reported<D> {
    pub report: Report,
    pub shelf: D,
}

/// A report whose line is the one that its status always has.
pub fn plain(status: Status) -> Report
    ensures { result ≡ plain_of status }
{
    Report { status, line: None }
}

/// The report of a query that is refused.
///
/// Its status is `BadQuery`, or `NoMemory` if there was no memory for the query or the line.
pub fn query_refused(alloc: Global, error: QueryErr) -> Report
    ensures { ReportsQuery error result }
{
    match error {
        QueryErr::NoMemory => plain(Status::NoMemory),
        _ => match query_text(alloc, error) {
            Ok(line) => Report {
                status: Status::BadQuery,
                line: Some(line),
            },
            Err(_) => plain(Status::NoMemory),
        },
    }
}

/// The report of a run whose input ended so.
///
/// Ok if the answer over the records before that end is to be written first. Err if the run ends at
/// once, with nothing written: at a file head that is refused, at a fault of the input, and if
/// there was no memory for a record or the line.
pub fn input_ended(alloc: Global, end: Result<(), PcapErr>) -> Result<Report, Report>
    ensures { ReportsInput end result }
{
    match end {
        Ok(()) => Ok(plain(Status::Done)),
        Err(cause) => input_stopped(alloc, cause),
    }
}

// The report of a run whose input fails or is refused, or whose records have no memory, as
// `input_ended` gives it.
fn input_stopped(alloc: Global, cause: PcapErr) -> Result<Report, Report>
    ensures { ReportsInput (Err cause) result }
{
    match cause {
        PcapErr::ReadFault => Err(plain(Status::ReadFault)),
        PcapErr::NoMemory => Err(plain(Status::NoMemory)),
        _ => input_refused(alloc, cause),
    }
}

// The report of a run whose input is refused, as `input_ended` gives it.
fn input_refused(alloc: Global, cause: PcapErr) -> Result<Report, Report>
    requires { IsOutside cause → ⊥ }
    ensures { ReportsInput (Err cause) result }
{
    let line = match input_text(alloc, cause) {
        Ok(line) => line,
        Err(_) => return Err(plain(Status::NoMemory)),
    };
    let report = Report {
        status: Status::BadInput,
        line: Some(line),
    };
    if cause.is_of_file_head() {
        return Err(report);
    }
    Ok(report)
}

/// Writes the report's line, if it has one, by one `put`. A failure of this is passed over: a
/// prefix of the line is then written, and `faults` rose.
pub fn tell<E: Sink>(err: &mut E, report: &Report)
    ensures line { Tells (E.written err.old) (E.written err.new)
        (E.faults err.old) (E.faults err.new) (line_of report.now) }
    ensures quiet { line_of report.now ≡ [] → err.new ≡ err.old }
    ensures rest { E.beside err.new ≡ E.beside err.old }
{
    let line = line_bytes(report);
    if !line.is_empty() {
        let _ = put(err, line);
    }
}
