//! The index of one packet, byte for byte, the rows of several, and a sink that fails.

use super::*;
use crate::row_list::RowList;
use st_base::{MemSink, NoMemory, RecordRef};
use st_block::RECORD_HEAD;
use st_table::BuildErr;
use std::alloc::Global;
use std::test::Fail;

/// A UDP packet of 46 bytes, as docs/FORMAT.md, "Block file", has it.
const UDP: &[u8] = b"\x02\x00\x00\x00\x00\x02\x02\x00\x00\x00\x00\x01\x08\x00\x45\x00\
\x00\x20\x00\x00\x00\x00\x40\x11\x00\x00\x0a\x00\x00\x01\x0a\x00\
\x00\x02\x30\x39\x00\x35\x00\x0c\x00\x00\x64\x6e\x73\x21";

/// Its index, where its head is at 48: the file that docs/FORMAT.md, "Table file", has.
const INDEX: &[u8] = b"\
\x00\x01\x18\x00\x00\x00\x00\x01\x00\x00\x00\x01\x3b\x9a\xca\x00\x07\x5b\xca\x00\
\x3b\x9a\xca\x00\x07\x5b\xca\x00\x00\x02\x04\x01\x11\x00\x00\x00\x30\x00\x03\x04\
\x02\x00\x35\x00\x00\x00\x30\x01\x02\x04\x30\x39\x00\x00\x00\x30\x00\x05\x04\x04\
\x0a\x00\x00\x01\x00\x00\x00\x30\x04\x01\x04\x02\x00\x00\x00\x30\x00\x05\x04\x07\
\x3b\x9a\xca\x00\x00\x00\x00\x30\x00\x00\x00\x00\x01\x00\x00\x00\x00\xfe\xe7\xa8\
\xd6\x00\x00\x00\x00\x01\x00\x00\x00\x00\xc0\xf2\xa1\xb0\x00\x05\x02\x07\x3b\x9a\
\xca\x00\x00\x60\x00\x00\x00\x00\x01\x00\x00\x00\x00\x76\xe4\xa2\xef\x65\x08\x72\
\x12\x00\x00\x00\x00\x00\x00\x00\x00\x00\x00\x00\x00\x00\x00\x00\x00\x00\x00\x00\
\x00\x00\x00\x00\x00\x00\x00\x00\x00\x00\x00\x00\x00\x00\x00\x00\x00\x57\xfb\x80\
\x8b\x24\x75\x47\xdb";

/// The same packet from port 53 to port 53 of one address.
const TWICE: &[u8] = b"\x02\x00\x00\x00\x00\x02\x02\x00\x00\x00\x00\x01\x08\x00\x45\x00\
\x00\x20\x00\x00\x00\x00\x40\x11\x00\x00\x0a\x00\x00\x01\x0a\x00\
\x00\x01\x00\x35\x00\x35\x00\x0c\x00\x00\x64\x6e\x73\x21";

/// TCP from port 80 to port 443, over IPv4 in the VLAN 7.
const TAGGED: &[u8] = b"\x02\x00\x00\x00\x00\x02\x02\x00\x00\x00\x00\x01\x81\x00\x00\x07\
\x08\x00\x45\x00\x00\x18\x00\x00\x00\x00\x40\x06\x00\x00\x0a\x00\
\x00\x01\x0a\x00\x00\x02\x00\x50\x01\xbb";

/// UDP from port 53 to port 80, over IPv6.
const IP6: &[u8] = b"\x02\x00\x00\x00\x00\x02\x02\x00\x00\x00\x00\x01\x86\xdd\x60\x00\
\x00\x00\x00\x04\x11\x40\xfe\x80\x00\x00\x00\x00\x00\x00\x00\x00\
\x00\x00\x00\x00\x00\x01\xfe\x80\x00\x00\x00\x00\x00\x00\x00\x00\
\x00\x00\x00\x00\x00\x02\x00\x35\x00\x50";

/// The label 5, the last of its stack, with nothing after it.
const LABELLED: &[u8] = b"\x02\x00\x00\x00\x00\x02\x02\x00\x00\x00\x00\x01\x88\x47\x00\x00\x51\x40";

/// Adds a packet of this time, and answers whether it may lie there.
fn add(
    maker: &mut IndexMaker,
    time: (u32, u32),
    body: &[u8],
    position: u32,
) -> Result<bool, NoMemory> {
    let (sec, nsec) = time;
    let len = body.len() as u64;
    let at = u64::from(position);
    let lies = maker.end <= at
        && len < 0x1_0000_0000
        && at + RECORD_HEAD as u64 + len <= 0x1_0000_0000;
    if !lies || nsec >= 1_000_000_000 {
        return Ok(false);
    }
    let r = RecordRef {
        sec,
        nsec,
        orig: 100,
        body,
    };
    maker.add(r, position)?;
    Ok(true)
}

/// Writes the index, if there is a packet.
fn write(maker: &IndexMaker, alloc: Global, sink: &mut MemSink) -> Result<u64, BuildErr> {
    if maker.summary.is_none() {
        return Ok(0);
    }
    maker.write(alloc, sink)
}

/// Whether the next row has this key and this value.
fn next_is(rows: &mut RowList<'_>, key: &[u8], value: &[u8]) -> bool {
    matches!(rows.next(), Ok(true)) && rows.key() == key && rows.value() == value
}

#[test]
fn the_index_of_one_packet_is_as_the_format_has_it(rt: HostRuntime) -> Result<(), Fail> {
    let alloc = rt.alloc();
    let mut maker = IndexMaker::new(alloc);
    assert_eq!(rt;
        add(&mut maker, (1_000_000_000, 123_456_000), UDP, 47),
        Ok(false)
    );
    assert_eq!(rt;
        add(&mut maker, (1_000_000_000, 123_456_000), UDP, 48),
        Ok(true)
    );
    let mut sink = MemSink::new(alloc, &[])?;
    assert_eq!(rt; write(&maker, alloc, &mut sink), Ok(185));
    assert_eq!(rt; sink.bytes(), INDEX);
    Ok(())
}

/// Each write fails in turn: those of the data block, the metaindex block and the index block, each
/// with its trailer, and of the footer. The maker is then written again.
#[test]
fn a_failing_sink_has_a_prefix_of_the_index(rt: HostRuntime) -> Result<(), Fail> {
    let alloc = rt.alloc();
    let mut maker = IndexMaker::new(alloc);
    assert_eq!(rt;
        add(&mut maker, (1_000_000_000, 123_456_000), UDP, 48),
        Ok(true)
    );
    for call in 0..7u32 {
        let mut sink = MemSink::new(alloc, &[call])?;
        assert_eq!(rt;
            write(&maker, alloc, &mut sink),
            Err(BuildErr::WriteFault),
            "call {call}"
        );
        assert!(rt; INDEX.starts_with(sink.bytes()), "call {call}");
    }
    Ok(())
}

#[test]
fn a_key_that_a_frame_has_twice_has_its_position_once(rt: HostRuntime) -> Result<(), Fail> {
    let alloc = rt.alloc();
    let mut maker = IndexMaker::new(alloc);
    assert_eq!(rt; add(&mut maker, (9, 8), TWICE, 48), Ok(true));
    let mut rows = RowList::new(alloc, &maker);
    assert!(rt; matches!(rows.next(), Ok(true)));
    assert!(rt; next_is(&mut rows, b"\x01\x11", b"\x00\x00\x00\x30"));
    assert!(rt; next_is(&mut rows, b"\x02\x00\x35", b"\x00\x00\x00\x30"));
    assert!(rt; next_is(&mut rows, b"\x04\x0a\x00\x00\x01", b"\x00\x00\x00\x30"));
    assert!(rt; next_is(&mut rows, b"\x07\x00\x00\x00\x09", b"\x00\x00\x00\x30"));
    assert_eq!(rt; rows.next(), Ok(false));
    Ok(())
}

/// The packets are at 48, 144 and 256. The earliest is the second, the latest the third.
#[test]
fn rows_are_in_the_order_of_kinds_and_then_of_numbers(rt: HostRuntime) -> Result<(), Fail> {
    let alloc = rt.alloc();
    let mut maker = IndexMaker::new(alloc);
    assert_eq!(rt; add(&mut maker, (5, 0), TAGGED, 48), Ok(true));
    assert_eq!(rt; add(&mut maker, (3, 9), IP6, 137), Ok(false));
    assert_eq!(rt; add(&mut maker, (3, 9), IP6, 144), Ok(true));
    assert_eq!(rt; add(&mut maker, (5, 7), LABELLED, 256), Ok(true));
    let mut rows = RowList::new(alloc, &maker);
    assert!(rt;
        next_is(
            &mut rows,
            b"\x00",
            b"\x00\x00\x00\x01\x00\x00\x00\x03\x00\x00\x00\x03\x00\x00\x00\x09\
\x00\x00\x00\x05\x00\x00\x00\x07"
        )
    );
    assert!(rt; next_is(&mut rows, b"\x01\x06", b"\x00\x00\x00\x30"));
    assert!(rt; next_is(&mut rows, b"\x01\x11", b"\x00\x00\x00\x90"));
    assert!(rt; next_is(&mut rows, b"\x02\x00\x35", b"\x00\x00\x00\x90"));
    assert!(rt;
        next_is(
            &mut rows,
            b"\x02\x00\x50",
            b"\x00\x00\x00\x30\x00\x00\x00\x90"
        )
    );
    assert!(rt; next_is(&mut rows, b"\x02\x01\xbb", b"\x00\x00\x00\x30"));
    assert!(rt; next_is(&mut rows, b"\x03\x00\x07", b"\x00\x00\x00\x30"));
    assert!(rt; next_is(&mut rows, b"\x04\x0a\x00\x00\x01", b"\x00\x00\x00\x30"));
    assert!(rt; next_is(&mut rows, b"\x04\x0a\x00\x00\x02", b"\x00\x00\x00\x30"));
    assert!(rt; next_is(&mut rows, b"\x05\x00\x00\x00\x05", b"\x00\x00\x01\x00"));
    assert!(rt;
        next_is(
            &mut rows,
            b"\x06\xfe\x80\x00\x00\x00\x00\x00\x00\x00\x00\x00\x00\x00\x00\x00\x01",
            b"\x00\x00\x00\x90"
        )
    );
    assert!(rt;
        next_is(
            &mut rows,
            b"\x06\xfe\x80\x00\x00\x00\x00\x00\x00\x00\x00\x00\x00\x00\x00\x00\x02",
            b"\x00\x00\x00\x90"
        )
    );
    assert!(rt; next_is(&mut rows, b"\x07\x00\x00\x00\x03", b"\x00\x00\x00\x90"));
    assert!(rt;
        next_is(
            &mut rows,
            b"\x07\x00\x00\x00\x05",
            b"\x00\x00\x00\x30\x00\x00\x01\x00"
        )
    );
    assert_eq!(rt; rows.next(), Ok(false));
    Ok(())
}
