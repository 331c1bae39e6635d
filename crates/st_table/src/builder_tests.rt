//! The index of one packet, byte for byte, a table of several data blocks, and a sink that fails.

use super::*;
use crate::sample_tables::{ROWS, TABLE, write_thousand};
use st_base::MemSink;
use st_tblock::crc32c;
use std::alloc::Global;
use std::test::Fail;

/// Writes the rows of the packet's index.
fn write_rows(alloc: Global, sink: &mut MemSink) -> Result<u64, BuildErr> {
    let mut builder = match TableBuilder::new(alloc) {
        Ok(builder) => builder,
        Err(_) => return Err(BuildErr::NoMemory),
    };
    for (key, value) in ROWS {
        if !builder.takes(key, value) {
            return Ok(0);
        }
        builder.add(key, value, sink)?;
    }
    builder.finish(sink)
}

#[test]
fn a_table_is_written_as_the_format_has_it(rt: HostRuntime) -> Result<(), Fail> {
    let mut sink = MemSink::new(rt.alloc(), &[])?;
    assert_eq!(rt; write_rows(rt.alloc(), &mut sink), Ok(185));
    assert_eq!(rt; sink.bytes(), TABLE);
    Ok(())
}

/// Each write fails in turn: those of the data block, the metaindex block and the index block, each
/// with its trailer, and of the footer.
#[test]
fn a_failing_sink_has_a_prefix_of_the_table(rt: HostRuntime) -> Result<(), Fail> {
    let written = [0, 96, 101, 109, 114, 132, 137];
    for call in 0..7u32 {
        let mut sink = MemSink::new(rt.alloc(), &[call])?;
        assert_eq!(rt;
            write_rows(rt.alloc(), &mut sink),
            Err(BuildErr::WriteFault),
            "call {call}"
        );
        assert_eq!(rt; sink.bytes().len(), written[call as usize], "call {call}");
        assert!(rt; TABLE.starts_with(sink.bytes()), "call {call}");
    }
    let message = format!(in rt.alloc(); "{} or {}", BuildErr::WriteFault, BuildErr::NoMemory)?;
    assert_eq!(rt;
        message.as_str(),
        "writing the table failed or out of memory"
    );
    Ok(())
}

/// The length and the CRC-32C of the file are those of the table that LevelDB 1.23 writes of these
/// rows without compression, with a comparator that shortens no index key: six data blocks.
#[test]
fn a_table_of_a_thousand_rows_has_several_blocks(rt: HostRuntime) -> Result<(), Fail> {
    let mut sink = MemSink::new(rt.alloc(), &[])?;
    assert_eq!(rt; write_thousand(rt.alloc(), &mut sink)?, 24544);
    assert_eq!(rt; sink.bytes().len(), 24544);
    let (most, last) = sink.bytes().split_at(24543);
    assert_eq!(rt; crc32c(most, last[0]), 0xa3d8_c410);
    Ok(())
}
