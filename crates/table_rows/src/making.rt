//! A table from lines.

use crate::BUFFER;
use crate::hexes::{LineErr, decode, next_line};
use anyhow::{Context, Result, bail};
use st_base::{Sink, StreamSink};
use st_table::{BuildErr, TableBuilder};
use std::io::{self, BufReader, BufWriter};

/// A row that was read, in buffers that are used again.
#[derive(Drop)]
struct Row {
    key: Vec<u8>,
    value: Vec<u8>,
}

impl Row {
    /// Becomes the row of this line.
    fn read(&mut self, line: &[u8]) -> Result<(), LineErr> {
        let Some(space) = line.iter().position(|byte| *byte == b' ') else {
            return Err(LineErr::NoSpace);
        };
        decode(&line[..space], &mut self.key)?;
        decode(&line[space + 1..], &mut self.value)
    }
}

/// Adds the row of a line.
fn add<S: Sink>(
    builder: &mut TableBuilder,
    sink: &mut S,
    row: &mut Row,
    line: &[u8],
) -> Result<(), LineErr> {
    row.read(line)?;
    let (key, value) = (row.key.as_slice(), row.value.as_slice());
    if !builder.takes(key, value) {
        return Err(LineErr::NotNext);
    }
    match builder.add(key, value, sink) {
        Ok(()) => Ok(()),
        Err(BuildErr::WriteFault) => Err(LineErr::WriteFault),
        Err(BuildErr::NoMemory) => Err(LineErr::NoMemory),
    }
}

/// Reads rows on standard input and writes their table on standard output.
pub fn make(rt: &HostRuntime) -> Result<()> {
    let alloc = rt.alloc();
    let mut builder = TableBuilder::new(alloc).ok().context("out of memory")?;
    let mut sink = StreamSink::over(BufWriter::with_capacity(alloc, BUFFER, io::writer(rt))?);
    let mut reader = BufReader::with_capacity(alloc, BUFFER, rt.reader())?;
    let mut row = Row {
        key: Vec::new(alloc),
        value: Vec::new(alloc),
    };
    let mut line = Vec::new(alloc);
    for number in 1..u64::MAX {
        if !next_line(&mut reader, &mut line)? {
            break;
        }
        if let Err(error) = add(&mut builder, &mut sink, &mut row, line.as_slice()) {
            bail!("line {number}: {error}");
        }
    }
    builder.finish(&mut sink)?;
    sink.flush().ok().context("writing the table failed")
}
