//! Packet records, and the traits of input and output that all other crates use.
//!
//! A `Record` is a captured packet: its time in seconds since 1970 and nanoseconds, its original
//! length in bytes, and the bytes that were captured (libpcap's savefile format). A `Source` gives
//! bytes, a `Sink` takes them, a `Reader` is a file read at places, an `Outlet` sends an answer
//! piece by piece, a `Clock` gives microseconds since 1970. The content of each may be known to a
//! proof, and all but a clock count their faults.
//!
//! # What it promises
//!
//! - `put` writes all of its bytes, or leaves a prefix of them and a count of faults that rose.
//! - `read_whole` fills its buffer with the bytes of that place by one read.
//! - A call that succeeds leaves the count of faults as it was; one that fails raised it.
//! - `Plain` sends each piece by one `put`.
//! - `MemSource`, `SureSource`, `MemSink`, `MemReader`, `SliceReader` and `MemClock` meet their
//!   traits, and their content is known; the clause of its constructor says what each begins as.
//! - `SureSink` meets its trait, keeps the number of its bytes alone, and never fails.
//! - `StreamSource`, `StreamSink`, `FileReader` and `MachineClock` meet their traits over std's
//!   readers, writers, files and clock, and know no more than these do. The first three keep their
//!   first failure, of which no clause speaks.
//!
//! # What it leaves to others
//!
//! What a real stream, file or clock gives is not said. Buffers are the caller's: a stream's
//! adapter makes one call of its reader or writer for each of its own.
//!
//! # Where to read
//!
//! `specs/Records.antt`, `specs/Faults.antt`, `specs/Pieces.antt`, then `sources`, `sinks`.
#![tactic(auto)]

mod bytes;
mod clocks;
mod damages;
mod failures;
mod file_reader;
mod limits;
mod machine_clock;
mod memory;
mod outlets;
mod readers;
mod records;
mod sinks;
mod sources;
mod streams;
#[cfg(test)]
mod tests;

pub use bytes::Octets;
pub use clocks::Clock;
pub use damages::Damage;
pub use failures::{Call, CallFailure, Failed, NoMemory};
pub use file_reader::{FileReader, PlacedBytes};
pub use limits::Limits;
pub use machine_clock::MachineClock;
pub use memory::{MemClock, MemReader, MemSink, MemSource, SliceReader, SureSink, SureSource};
pub use outlets::{Outlet, Plain};
pub use readers::{Reader, read_whole};
pub use records::{Record, RecordRef};
pub use sinks::{Sink, put};
pub use sources::Source;
pub use streams::{StreamSink, StreamSource};
