//! One pair, answered: the block file and the index of docs/FORMAT.md, "Block file" and "Table
//! file", whose one packet is of UDP, from 10.0.0.1 port 12345 to 10.0.0.2 port 53, at second
//! 1,000,000,000 and 123,456 microseconds.

use super::*;
use st_base::{Limits, MemSink, Plain};
use st_pcap::Unit;
use st_query::parse;
use std::alloc::Global;
use std::test::Fail;

/// The used bytes of the block of 4,096 bytes.
const BLOCK: &[u8] = b"\x01\x00\x00\x00\x00\x10\x00\x00\x01\x00\x00\x00\x01\x00\x00\x00\
\x30\x00\x00\x00\x90\x00\x00\x00\x00\x00\x00\x00\x00\x00\x00\x00\
\x00\xca\x9a\x3b\x00\xca\x5b\x07\x00\xca\x9a\x3b\x00\xca\x5b\x07\
\x00\x00\x00\x00\x00\xca\x9a\x3b\x00\xca\x5b\x07\x2e\x00\x00\x00\
\x2e\x00\x00\x00\x00\x00\x00\x00\x30\x00\x30\x00\x00\x00\x00\x00\
\x00\x00\x00\x00\x00\x00\x00\x00\x00\x00\x00\x00\x00\x00\x00\x00\
\x02\x00\x00\x00\x00\x02\x02\x00\x00\x00\x00\x01\x08\x00\x45\x00\
\x00\x20\x00\x00\x00\x00\x40\x11\x00\x00\x0a\x00\x00\x01\x0a\x00\
\x00\x02\x30\x39\x00\x35\x00\x0c\x00\x00\x64\x6e\x73\x21\x00\x00";

/// The index.
const INDEX: &[u8] =
    b"\x00\x01\x18\x00\x00\x00\x00\x01\x00\x00\x00\x01\x3b\x9a\xca\x00\x07\x5b\xca\x00\x3b\x9a\xca\x00\x07\x5b\xca\x00\
\x00\x02\x04\x01\x11\x00\x00\x00\x30\x00\x03\x04\x02\x00\x35\x00\x00\x00\x30\x01\x02\x04\x30\x39\x00\x00\x00\x30\
\x00\x05\x04\x04\x0a\x00\x00\x01\x00\x00\x00\x30\x04\x01\x04\x02\x00\x00\x00\x30\
\x00\x05\x04\x07\x3b\x9a\xca\x00\x00\x00\x00\x30\x00\x00\x00\x00\x01\x00\x00\x00\x00\xfe\xe7\xa8\xd6\
\x00\x00\x00\x00\x01\x00\x00\x00\x00\xc0\xf2\xa1\xb0\
\x00\x05\x02\x07\x3b\x9a\xca\x00\x00\x60\x00\x00\x00\x00\x01\x00\x00\x00\x00\x76\xe4\xa2\xef\
\x65\x08\x72\x12\x00\x00\x00\x00\x00\x00\x00\x00\x00\x00\x00\x00\x00\x00\x00\x00\x00\x00\x00\x00\
\x00\x00\x00\x00\x00\x00\x00\x00\x00\x00\x00\x00\x00\x00\x00\x00\x57\xfb\x80\x8b\x24\x75\x47\xdb";

/// The pcap of the packet in microseconds: docs/FORMAT.md, "pcap".
const ANSWER: &[u8] = b"\xd4\xc3\xb2\xa1\x02\x00\x04\x00\x00\x00\x00\x00\x00\x00\x00\x00\
\x00\x00\x04\x00\x01\x00\x00\x00\x00\xca\x9a\x3b\x40\xe2\x01\x00\x2e\x00\x00\x00\
\x2e\x00\x00\x00\x02\x00\x00\x00\x00\x02\x02\x00\x00\x00\x00\x01\x08\x00\x45\x00\
\x00\x20\x00\x00\x00\x00\x40\x11\x00\x00\x0a\x00\x00\x01\x0a\x00\
\x00\x02\x30\x39\x00\x35\x00\x0c\x00\x00\x64\x6e\x73\x21";

/// The length of the file head alone.
const HEAD: usize = 24;

/// All packets.
const ALL: Limits = Limits {
    packets: u64::MAX,
    bytes: u64::MAX,
};

/// What a query is answered over the pair of these bytes, whether the sink has a prefix of the pcap
/// of the packet, and how many bytes it has. The sink fails at the numbered writes.
fn answered(
    alloc: Global,
    index: &[u8],
    text: &[u8],
    limits: Limits,
    fails: &[u32],
) -> Result<(Result<Told, AnswerErr>, bool, usize), Fail> {
    let query = parse(alloc, text)?;
    let mut block = vec![in alloc; 0u8; 4096]?;
    block.as_mut_slice()[..BLOCK.len()].copy_from_slice(BLOCK);
    let mut store = SlicePair::over(block.as_slice(), index);
    let mut sink = MemSink::new(alloc, fails)?;
    let result = {
        let mut outlet = Plain::over(&mut sink);
        answer(
            alloc,
            &mut store,
            &query,
            0,
            Unit::Micro,
            limits,
            &mut outlet,
        )
    };
    Ok((result, ANSWER.starts_with(sink.bytes()), sink.bytes().len()))
}

#[test]
fn the_packet_of_port_53_is_sent(rt: HostRuntime) -> Result<(), Fail> {
    let (result, prefix, len) = answered(rt.alloc(), INDEX, b"port 53", ALL, &[])?;
    assert!(rt; prefix);
    assert_eq!(rt; len, ANSWER.len());
    assert_eq!(rt;
        result,
        Ok(Told {
            packets: 1,
            bytes: 86
        })
    );
    Ok(())
}

#[test]
fn no_packet_of_port_54_is_sent(rt: HostRuntime) -> Result<(), Fail> {
    let (result, prefix, len) = answered(rt.alloc(), INDEX, b"port 54", ALL, &[])?;
    assert!(rt; prefix);
    assert_eq!(rt; len, HEAD);
    assert_eq!(rt;
        result,
        Ok(Told {
            packets: 0,
            bytes: 24
        })
    );
    Ok(())
}

#[test]
fn a_packet_past_the_limit_is_not_sent(rt: HostRuntime) -> Result<(), Fail> {
    let limits = Limits {
        packets: 1,
        bytes: 45,
    };
    let (result, prefix, len) = answered(rt.alloc(), INDEX, b"port 53", limits, &[])?;
    assert!(rt; prefix);
    assert_eq!(rt; len, HEAD);
    assert_eq!(rt;
        result,
        Ok(Told {
            packets: 0,
            bytes: 24
        })
    );
    Ok(())
}

#[test]
fn a_failed_write_ends_the_answer(rt: HostRuntime) -> Result<(), Fail> {
    let (result, prefix, len) = answered(rt.alloc(), INDEX, b"port 53", ALL, &[2])?;
    assert!(rt; prefix);
    assert_eq!(rt; len, 40);
    assert_eq!(rt; result, Err(AnswerErr::WriteFault));
    Ok(())
}

#[test]
fn a_pair_without_an_index_is_damaged(rt: HostRuntime) -> Result<(), Fail> {
    let (result, _, len) = answered(rt.alloc(), b"", b"port 53", ALL, &[])?;
    assert_eq!(rt; len, 0);
    match result {
        Err(AnswerErr::Damaged { stamp, .. }) => assert_eq!(rt; stamp, SLICE_STAMP),
        other => assert_eq!(rt; other, Err(AnswerErr::NoMemory), "no damage"),
    }
    Ok(())
}
