//! steno: captured packets, kept in a spool and queried, as a program.
//!
//! `once QUERY` answers a query over the pcap on standard input, `query FOLDER QUERY` one over the
//! packets of the spool in a folder. `load FOLDER` makes the packets of the pcap on standard input
//! pairs of that spool; `list FOLDER` and `check FOLDER` write a line for each pair. `drill FOLDER
//! N` makes N packets pairs of it, queries them, and writes how much was found.
//!
//! A run ends with a status, whose number is the exit status of the process, and with a line on
//! standard error that says why it isn't done; if a call of the system failed, a second line names
//! it. docs/FORMAT.md has them all: "Command line", "Statuses" and "Messages".
//!
//! # What it promises
//!
//! `run` says, over any streams, clock and shelf, by the arguments:
//!
//! - What is done, written and said, and what a crash at any moment leaves of the shelf (`ends`).
//!   Of bytes that are known it says which, as those of an object in memory are.
//! - When each way to end comes (`asked`, `fault`), and that nothing but a cause keeps it from
//!   being done (`complete`). Only running out of memory may come at any time.
//! - What it leaves as it was (`alone`, `unsaid`, `rest`).
//!
//! A flush that fails after the run makes its status `WriteFault` (`flushed`).
//!
//! # What it leaves to others
//!
//! What real streams and a real folder give and take is not said: `main` makes them. It gives the
//! output a buffer if packets are written, and none if each line is to go out as it is written.
//!
//! # Where to read
//!
//! `specs/Running.antt` says what a run ensures, for each plan by what is in `specs/Once.antt`,
//! `specs/Asking.antt`, `specs/Loading.antt`, `specs/Spooling.antt` and `specs/Drilling.antt`, and
//! `specs/Staying.antt` what it leaves alone. Then `runner`, `once`, `query`, `loads`, `spooling`
//! and `drills`, and below them `gather`, `packets`, `report`.
#![tactic(auto)]

ghost use Rattle.std.specs.Prelude.{◌≡◌, MatchResult};
ghost use Rattle.steno.specs.Messages.{status_line};
ghost use Rattle.steno.specs.Reports.{Tells};

use crate::report::{plain, tell};
use crate::runner::run;
use crate::status::{Status, code};
use st_base::{CallFailure, Failed, MachineClock, NoMemory, Sink, StreamSink, StreamSource, put};
use st_folder::{RealShelf, failure_line};
use st_plan::{Plan, plan_of, spool_word};
use st_shelf::{MemShelf, Shelf};
use std::alloc::Global;
use std::io::{self, BufReader, BufWriter};
use std::process::ExitCode;

mod drills;
mod gather;
mod loads;
mod message;
mod once;
mod packets;
mod query;
mod report;
mod runner;
mod spooling;
mod status;
#[cfg(test)]
mod tests;

/// The room of the buffers of standard input and output, in bytes.
const BUFFER: usize = 65_536;

fn main(rt: HostRuntime) -> ExitCode {
    ExitCode::from(code(begin(&rt)))
}

// Runs over the real streams, clock and spool folder, and returns how that ended.
fn begin(rt: &HostRuntime) -> Status {
    let alloc = rt.alloc();
    let mut err = StreamSink::over(rt.stderr());
    let words = match arguments_of(rt) {
        Ok(words) => words,
        Err(status) => return told(&mut err, status),
    };
    let words = words.as_slice();
    let setting = match setting_of(alloc, words) {
        Ok(setting) => setting,
        Err(NoMemory) => return told(&mut err, Status::NoMemory),
    };
    let Some(folder) = setting.folder else {
        return run_over(rt, words, MemShelf::empty(alloc), setting.room, &mut err);
    };
    match RealShelf::at(rt, alloc, folder) {
        Ok(shelf) => run_over(rt, words, shelf, setting.room, &mut err),
        Err(NoMemory) => told(&mut err, Status::NoMemory),
    }
}

// What a run of some arguments needs: the spool folder, if their plan has one, and the room of the
// output's buffer in bytes.
#[derive(Drop)]
struct Setting<'a> {
    folder: Option<&'a str>,
    room: usize,
}

// The setting that these arguments ask for; without a plan it has no folder.
fn setting_of<'a>(alloc: Global, words: &'a [String]) -> Result<Setting<'a>, NoMemory> {
    let room = match plan_of(alloc, words)? {
        Some(plan) => output_room(&plan),
        None => BUFFER,
    };
    let folder = match spool_word(alloc, words)? {
        Some(i) => Some(words[i].as_str()),
        None => None,
    };
    Ok(Setting { folder, room })
}

// The room of the output's buffer, in bytes: none if each line is to go out as it is written.
fn output_room(plan: &Plan<'_>) -> usize {
    match plan {
        Plan::Once(_) | Plan::Query(_) => BUFFER,
        Plan::Load(_) | Plan::List(_) | Plan::Check(_) | Plan::Drill(_) => 0,
    }
}

// Runs over the real streams and clock and this shelf, writes which call of the system failed if
// that ended it, and returns how it ended.
fn run_over<D: Shelf + TellsFailure + Drop, E: Sink>(
    rt: &HostRuntime,
    words: &[String],
    shelf: D,
    room: usize,
    err: &mut E,
) -> Status {
    let alloc = rt.alloc();
    let (Ok(reader), Ok(writer)) = (
        BufReader::with_capacity(alloc, BUFFER, rt.reader()),
        BufWriter::with_capacity(alloc, room, io::writer(rt)),
    ) else {
        return told(err, Status::NoMemory);
    };
    let mut out = StreamSink::over(writer);
    let mut input = StreamSource::over(reader);
    let mut clock = MachineClock::of(rt);
    let ended = run(alloc, words, shelf, &mut input, &mut out, err, &mut clock);
    let status = flushed(ended.status, out.flush());
    if status != ended.status {
        told(err, status);
    }
    let line = match status {
        Status::ReadFault => stream_line(alloc, "standard input", input.failure()),
        Status::WriteFault => stream_line(alloc, "standard output", out.failure()),
        Status::DiskFault => ended.shelf.failure_text(alloc),
        _ => None,
    };
    if let Some(line) = line {
        let _ = put(err, line.as_bytes());
    }
    status
}

// The line that names the first call of the system that failed on this stream, if there is one and
// memory for its line.
fn stream_line(alloc: Global, stream: &str, failure: Option<CallFailure>) -> Option<String> {
    match failure {
        Some(failed) => failure_line(alloc, stream, failed).ok(),
        None => None,
    }
}

// A shelf that may tell which call of the system failed first.
trait TellsFailure {
    // The line that names it, if there is one and memory for its line.
    fn failure_text(&self, alloc: Global) -> Option<String>;
}

impl TellsFailure for RealShelf {
    fn failure_text(&self, alloc: Global) -> Option<String> {
        match self.failure_line(alloc) {
            Ok(line) => line,
            Err(_) => None,
        }
    }
}

impl TellsFailure for MemShelf {
    fn failure_text(&self, _alloc: Global) -> Option<String> {
        None
    }
}

// The status of a run that ended so, after the flush of its output: a flush that fails is a fault
// of the output, however the run ended.
fn flushed(status: Status, flush: Result<(), Failed>) -> Status
    ensures { MatchResult flush (λ _. result ≡ status) (λ _. result ≡ Status.WriteFault) }
{
    match flush {
        Ok(()) => status,
        Err(_) => Status::WriteFault,
    }
}

// The arguments after the program's name. If one of them is not UTF-8, the run ends with `Usage`,
// and if there is no memory for them with `NoMemory`.
fn arguments_of(rt: &HostRuntime) -> Result<Vec<String>, Status> {
    let mut words = Vec::new(rt.alloc());
    let all = match std::env::args(rt) {
        Ok(all) => all,
        Err(error) => {
            return Err(match error.kind() {
                io::ErrorKind::OutOfMemory => Status::NoMemory,
                _ => Status::Usage,
            });
        }
    };
    for word in all.skip(1) {
        if words.push(word).is_err() {
            return Err(Status::NoMemory);
        }
    }
    Ok(words)
}

// Writes the line that this status always has, for a run that never began or whose flush failed,
// and returns the status.
fn told<E: Sink>(err: &mut E, status: Status) -> Status
    ensures same { result ≡ status }
    ensures line { Tells (E.written err.old) (E.written err.new)
        (E.faults err.old) (E.faults err.new) (status_line status) }
{
    tell(err, &plain(status));
    status
}
