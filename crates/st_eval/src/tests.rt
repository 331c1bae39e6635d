//! Queries and summaries over the index of one packet, and over indexes whose rows are damaged.
//!
//! The index is that of docs/FORMAT.md, "Index rows": a packet of UDP at position 48, from 10.0.0.1
//! port 12345 to 10.0.0.2 port 53, at second 1,000,000,000, which is 2001-09-09T01:46:40Z.

use super::*;
use crate::errors::refused_by;
use st_base::{Damage, MemReader, MemSink, NoMemory};
use st_query::parse;
use st_table::{BuildErr, Table, TableBuilder};
use std::alloc::Global;
use std::test::Fail;

const INDEX: &[u8] =
    b"\x00\x01\x18\x00\x00\x00\x00\x01\x00\x00\x00\x01\x3b\x9a\xca\x00\x07\x5b\xca\x00\x3b\x9a\xca\x00\x07\x5b\xca\x00\
\x00\x02\x04\x01\x11\x00\x00\x00\x30\x00\x03\x04\x02\x00\x35\x00\x00\x00\x30\x01\x02\x04\x30\x39\x00\x00\x00\x30\
\x00\x05\x04\x04\x0a\x00\x00\x01\x00\x00\x00\x30\x04\x01\x04\x02\x00\x00\x00\x30\
\x00\x05\x04\x07\x3b\x9a\xca\x00\x00\x00\x00\x30\x00\x00\x00\x00\x01\x00\x00\x00\x00\xfe\xe7\xa8\xd6\
\x00\x00\x00\x00\x01\x00\x00\x00\x00\xc0\xf2\xa1\xb0\
\x00\x05\x02\x07\x3b\x9a\xca\x00\x00\x60\x00\x00\x00\x00\x01\x00\x00\x00\x00\x76\xe4\xa2\xef\
\x65\x08\x72\x12\x00\x00\x00\x00\x00\x00\x00\x00\x00\x00\x00\x00\x00\x00\x00\x00\x00\x00\x00\x00\
\x00\x00\x00\x00\x00\x00\x00\x00\x00\x00\x00\x00\x00\x00\x00\x00\x57\xfb\x80\x8b\x24\x75\x47\xdb";

/// The key of port 53.
const PORT: &[u8] = b"\x02\x00\x35";

/// The positions that a query selects in an index.
fn selected(alloc: Global, bytes: &[u8], fails: &[u32], text: &[u8]) -> Result<Vec<u32>, EvalErr> {
    let Ok(query) = parse(alloc, text) else {
        return Err(EvalErr::NoMemory);
    };
    let mut file = match MemReader::over(alloc, bytes, fails) {
        Ok(file) => file,
        Err(NoMemory) => return Err(EvalErr::NoMemory),
    };
    let mut table = Table::over(alloc, &mut file);
    match table.enter(alloc) {
        Ok(()) => {}
        Err(error) => return Err(refused_by(error)),
    }
    let found = match eval(alloc, &query, 0, &mut table) {
        Ok(found) => found,
        Err(error) => return Err(error),
    };
    match found.items().to_vec(alloc) {
        Ok(items) => Ok(items),
        Err(_) => Err(EvalErr::NoMemory),
    }
}

/// The summary of an index.
fn summarized(alloc: Global, bytes: &[u8]) -> Result<Summary, EvalErr> {
    let mut file = match MemReader::over(alloc, bytes, &[]) {
        Ok(file) => file,
        Err(NoMemory) => return Err(EvalErr::NoMemory),
    };
    let mut table = Table::over(alloc, &mut file);
    match table.enter(alloc) {
        Ok(()) => summary(alloc, &mut table),
        Err(error) => Err(refused_by(error)),
    }
}

/// A table of one row.
fn one_row(alloc: Global, key: &[u8], value: &[u8]) -> Result<MemSink, BuildErr> {
    let mut sink = match MemSink::new(alloc, &[]) {
        Ok(sink) => sink,
        Err(_) => return Err(BuildErr::NoMemory),
    };
    let mut builder = match TableBuilder::new(alloc) {
        Ok(builder) => builder,
        Err(_) => return Err(BuildErr::NoMemory),
    };
    if !builder.takes(key, value) {
        return Err(BuildErr::NoMemory);
    }
    builder.add(key, value, &mut sink)?;
    builder.finish(&mut sink)?;
    Ok(sink)
}

/// Expects that a query selects these positions in the index of the packet.
fn selects(alloc: Global, text: &[u8], positions: &[u32]) -> Result<(), Fail> {
    let found = selected(alloc, INDEX, &[], text)?;
    if found.as_slice() != positions {
        return Err("other positions")?;
    }
    Ok(())
}

/// Expects that `port 53` is refused by this damage where the row of that port has this value.
fn breaks(alloc: Global, value: &[u8], expected: Damage) -> Result<(), Fail> {
    let sink = one_row(alloc, PORT, value)?;
    match selected(alloc, sink.bytes(), &[], b"port 53") {
        Err(EvalErr::Damaged(damage)) if damage == expected => Ok(()),
        _ => Err("another answer")?,
    }
}

/// Expects that the summary is refused by this damage where the table has only this row.
fn breaks_summary(alloc: Global, key: &[u8], value: &[u8], expected: Damage) -> Result<(), Fail> {
    let sink = one_row(alloc, key, value)?;
    match summarized(alloc, sink.bytes()) {
        Err(EvalErr::Damaged(damage)) if damage == expected => Ok(()),
        _ => Err("another answer")?,
    }
}

#[test]
fn keys_are_looked_up(rt: HostRuntime) -> Result<(), Fail> {
    selects(rt.alloc(), b"port 53", &[48])?;
    selects(rt.alloc(), b"port 54", &[])?;
    selects(rt.alloc(), b"udp", &[48])?;
    selects(rt.alloc(), b"host 10.0.0.2", &[48])?;
    selects(rt.alloc(), b"host 10.0.0.3", &[])
}

#[test]
fn nets_and_times_are_ranges(rt: HostRuntime) -> Result<(), Fail> {
    selects(rt.alloc(), b"net 10.0.0.0/31", &[48])?;
    selects(rt.alloc(), b"net 10.0.0.0/32", &[])?;
    selects(rt.alloc(), b"net 0.0.0.0/0", &[48])?;
    selects(rt.alloc(), b"net ::/0", &[])?;
    selects(rt.alloc(), b"after 2001-09-09T01:46:40Z", &[48])?;
    selects(rt.alloc(), b"after 2001-09-09T01:46:41Z", &[])?;
    selects(rt.alloc(), b"before 2001-09-09T01:46:40Z", &[])?;
    selects(rt.alloc(), b"before 2001-09-09T01:46:41Z", &[48])
}

#[test]
fn parts_are_joined_from_the_left(rt: HostRuntime) -> Result<(), Fail> {
    selects(rt.alloc(), b"port 54 or port 53 and udp", &[48])?;
    selects(rt.alloc(), b"port 53 or port 54 and tcp", &[])?;
    selects(rt.alloc(), b"port 53 or (port 54 and tcp)", &[48])?;
    selects(rt.alloc(), b"tcp and udp or port 53", &[48])?;
    selects(rt.alloc(), b"udp and port 53 and net 10.0.0.0/8", &[48])
}

#[test]
fn positions_are_united_and_intersected(rt: HostRuntime) -> Result<(), Fail> {
    let mut a = Positions::over(rt.alloc(), &[1, 3])?;
    let b = Positions::over(rt.alloc(), &[3, 4])?;
    let all = Positions::either(rt.alloc(), &a, &b)?;
    assert_eq!(rt; all.items(), [1, 3, 4].as_slice());
    a.both(&b);
    assert_eq!(rt; a.items(), [3].as_slice());
    Ok(())
}

#[test]
fn a_summary_is_read(rt: HostRuntime) -> Result<(), Fail> {
    let time = (1_000_000_000, 123_456_000);
    let expected = Summary {
        packets: 1,
        first: time,
        last: time,
    };
    assert_eq!(rt; summarized(rt.alloc(), INDEX)?, expected);
    Ok(())
}

#[test]
fn a_row_with_a_damaged_value_is_refused(rt: HostRuntime) -> Result<(), Fail> {
    breaks(
        rt.alloc(),
        b"\x00\x00\x00\x30\x00",
        Damage {
            place: 0,
            found: 1,
            want: 0,
        },
    )?;
    breaks(
        rt.alloc(),
        b"\x00\x00\x00\x30\x00\x00\x00\x30",
        Damage::broken(0),
    )
}

#[test]
fn a_damaged_summary_row_is_refused(rt: HostRuntime) -> Result<(), Fail> {
    let length = Damage {
        place: 0,
        found: 4,
        want: 24,
    };
    let version = Damage {
        place: 0,
        found: 2,
        want: 1,
    };
    breaks_summary(rt.alloc(), PORT, b"\x00\x00\x00\x30", Damage::broken(0))?;
    breaks_summary(rt.alloc(), b"\x00", b"\x00\x00\x00\x01", length)?;
    breaks_summary(
        rt.alloc(),
        b"\x00",
        b"\x00\x00\x00\x02\x00\x00\x00\x01\x3b\x9a\xca\x00\x07\x5b\xca\x00\x3b\x9a\xca\x00\x07\x5b\xca\x00",
        version,
    )
}

/// The first two reads are those of entering the index, the third one is that of its data block.
#[test]
fn a_failing_file_is_a_fault(rt: HostRuntime) -> Result<(), Fail> {
    for read in 0..3u32 {
        assert_eq!(rt;
            selected(rt.alloc(), INDEX, &[read], b"port 53").err(),
            Some(EvalErr::ReadFault),
            "read {read}"
        );
    }
    Ok(())
}

/// The type byte of the data block is at 96.
#[test]
fn a_compressed_block_is_damage(rt: HostRuntime) -> Result<(), Fail> {
    let (front, rest) = INDEX.split_at(96);
    let mut bytes = front.to_vec(rt.alloc())?;
    bytes.push(1)?;
    bytes.extend_from_slice(rest.split_at(1).1)?;
    let expected = Damage {
        place: 96,
        found: 1,
        want: 0,
    };
    assert_eq!(rt;
        selected(rt.alloc(), bytes.as_slice(), &[], b"port 53").err(),
        Some(EvalErr::Damaged(expected))
    );
    Ok(())
}
