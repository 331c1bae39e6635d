//! Checks and queries over the files of a pair.

use crate::BUFFER;
use crate::making::open;
use anyhow::{Context, Result, bail};
use st_answer::{AnswerErr, SlicePair, Store, answer};
use st_base::{Limits, Plain, Sink, StreamSink};
use st_eval::eval;
use st_index::{CheckErr, Part, Verdict, check};
use st_pcap::Unit;
use st_query::{Query, parse};
use st_table::Table;
use std::alloc::Global;
use std::fs;
use std::io::{self, BufRead, BufReader, BufWriter, Write};
use std::time::SystemTime;

/// The name of a part, as it is printed.
fn name_of(part: Part) -> &'static str {
    match part {
        Part::Block => "block",
        Part::Index => "index",
        Part::Rows => "rows",
    }
}

/// Prints whether the pair of these paths is whole, and answers it.
pub fn check_pair(rt: &HostRuntime, blocks: &str, table: &str) -> Result<bool> {
    let mut blocks = open(rt, blocks)?;
    let mut table = open(rt, table)?;
    match check(rt.alloc(), &mut blocks, &mut table) {
        Ok(Verdict::Whole { packets }) => {
            println!(rt; "whole {packets}")?;
            Ok(true)
        }
        Ok(Verdict::Differs { part, damage }) => {
            let part = name_of(part);
            println!(rt;
                "damaged {part} {} {} {}",
                damage.place, damage.found, damage.want
            )?;
            Ok(false)
        }
        Err(CheckErr::ReadFault) => bail!("reading a file failed"),
        Err(CheckErr::NoMemory) => bail!("out of memory"),
    }
}

/// The microseconds since 1970.
fn now(rt: &HostRuntime) -> Result<u64> {
    let since = SystemTime::now(rt)?.duration_since(SystemTime::UNIX_EPOCH)?;
    Ok(u64::try_from(since.as_micros())?)
}

/// The query of a text.
fn query_of(rt: &HostRuntime, text: &str) -> Result<Query> {
    match parse(rt.alloc(), text.as_bytes()) {
        Ok(query) => Ok(query),
        Err(error) => bail!("the query: {error}"),
    }
}

/// Writes the answer to a query over a store's pairs, without limits.
fn reply<S: Store, O: Sink>(
    alloc: Global,
    store: &mut S,
    query: &Query,
    now: u64,
    sink: &mut O,
) -> Result<()> {
    let limits = Limits {
        packets: u64::MAX,
        bytes: u64::MAX,
    };
    let mut outlet = Plain::over(sink);
    match answer(alloc, store, query, now, Unit::Nano, limits, &mut outlet) {
        Ok(_) => Ok(()),
        Err(AnswerErr::WriteFault) => bail!("writing failed"),
        Err(AnswerErr::DiskFault) => bail!("reading failed"),
        Err(AnswerErr::NoMemory) => bail!("out of memory"),
        Err(AnswerErr::Damaged { damage, .. }) => bail!(
            "the pair is damaged at {}: {} for {}",
            damage.place,
            damage.found,
            damage.want
        ),
    }
}

/// Writes the answer to a query over the pair of these paths on standard output.
pub fn answer_over(rt: &HostRuntime, blocks: &str, table: &str, query: &str) -> Result<()> {
    let alloc = rt.alloc();
    let query = query_of(rt, query)?;
    let blocks = fs::read(rt, blocks).context("the block file can't be read")?;
    let table = fs::read(rt, table).context("the index can't be read")?;
    let mut store = SlicePair::over(blocks.as_slice(), table.as_slice());
    let mut sink = StreamSink::over(BufWriter::with_capacity(alloc, BUFFER, io::writer(rt))?);
    let now = now(rt)?;
    reply(alloc, &mut store, &query, now, &mut sink)?;
    sink.flush().ok().context("writing failed")
}

/// Reads queries on standard input, and prints how many packets each selects in the index of this
/// path.
pub fn count(rt: &HostRuntime, table: &str) -> Result<()> {
    let alloc = rt.alloc();
    let mut file = open(rt, table)?;
    let mut table = Table::over(alloc, &mut file);
    table.enter(alloc)?;
    let now = now(rt)?;
    let reader = BufReader::with_capacity(alloc, BUFFER, rt.reader())?;
    let mut out = BufWriter::with_capacity(alloc, BUFFER, io::writer(rt))?;
    for line in reader.lines(alloc) {
        let line = line?;
        let query = query_of(rt, line.as_str())?;
        let positions = eval(alloc, &query, now, &mut table)?;
        writeln!(out, "{}", positions.items().len())?;
    }
    out.flush()?;
    Ok(())
}
