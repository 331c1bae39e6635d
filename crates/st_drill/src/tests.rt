//! The packets of drills. Expected bytes, sums and counts are those of `tests/drill.py`, which
//! makes the packets from docs/FORMAT.md.

use crate::{DrillEnd, DrillQuery, DrillSource, Drilled, drill};
use st_base::{MemClock, MemSink, Source};
use st_pcap::PcapReader;
use st_query::matches;
use st_shelf::MemShelf;
use std::alloc::Global;
use std::test::Fail;

// The file head, and the records of the first two packets.
const FIRST: &[u8] = b"\x4d\x3c\xb2\xa1\x02\x00\x04\x00\x00\x00\x00\x00\x00\x00\x00\x00\
\x00\x00\x04\x00\x01\x00\x00\x00\
\x00\xca\x9a\x3b\x00\x00\x00\x00\x40\x00\x00\x00\x40\x00\x00\x00\
\x02\x00\x00\x00\x00\x02\x02\x00\x00\x00\x00\x01\x08\x00\x45\x00\x00\x32\x00\x00\x00\x00\x40\x11\
\x00\x00\x0a\x00\x00\x00\xc0\xa8\x00\x00\x04\x00\x00\x35\x00\x00\x00\x00\x00\x00\x00\x00\x00\x00\
\x00\x00\x00\x00\x00\x00\x00\x00\x00\x00\x00\x00\x00\x00\x00\x00\
\x00\xca\x9a\x3b\x80\x96\x98\x00\x40\x00\x00\x00\x40\x00\x00\x00\
\x02\x00\x00\x00\x00\x02\x02\x00\x00\x00\x00\x01\x08\x00\x45\x00\x00\x32\x00\x00\x00\x00\x40\x06\
\x00\x00\x0a\x00\x00\x01\xc0\xa8\x00\x01\x04\x01\x01\xbb\x00\x00\x00\x00\x00\x00\x00\x00\x00\x00\
\x00\x00\x00\x00\x00\x00\x00\x00\x00\x00\x00\x00\x00\x00\x00\x00";

#[test]
fn the_first_packets_are_as_documented(rt: HostRuntime) -> Result<(), Fail> {
    let mut source = DrillSource::new(2);
    let mut room = [0; 50];
    let mut all = Vec::new(rt.alloc());
    for _ in 0..9 {
        let count = source.read(&mut room)?;
        all.extend_from_slice(&room[..count])?;
    }
    assert_eq!(rt; all.as_slice(), FIRST);
    Ok(())
}

// The Adler-32 of 20,000 packets, which are 1,600,024 bytes (RFC 1950).
#[test]
fn the_input_has_the_sum_of_another_generator(rt: HostRuntime) -> Result<(), Fail> {
    let mut source = DrillSource::new(20_000);
    let mut room = [0; 1_000];
    let (mut low, mut high, mut size): (u32, u32, u64) = (1, 0, 0);
    for _ in 0..100_000 {
        let count = source.read(&mut room)?;
        for byte in &room[..count] {
            low = low.wrapping_add(u32::from(*byte)) % 65_521;
            high = high.wrapping_add(low) % 65_521;
            size = size.wrapping_add(1);
        }
    }
    assert_eq!(rt; size, 1_600_024);
    assert_eq!(rt; (high, low), (0x1e32, 0x35fb));
    Ok(())
}

// How many of 10,100 packets match.
fn matching(alloc: Global, question: DrillQuery) -> Result<u32, Fail> {
    let query = question.query(alloc)?;
    let mut source = DrillSource::new(10_100);
    let mut reader = PcapReader::new();
    let mut found: u32 = 0;
    for _ in 0..10_101 {
        if let Some(packet) = reader.next(alloc, &mut source)? {
            if matches(&query, 0, packet.lend()) {
                found = found.wrapping_add(1);
            }
        }
    }
    Ok(found)
}

#[test]
fn queries_match_as_many_packets_as_counted_by_hand(rt: HostRuntime) -> Result<(), Fail> {
    let alloc = rt.alloc();
    assert_eq!(rt; matching(alloc, DrillQuery::Dns)?, 1_010);
    assert_eq!(rt; matching(alloc, DrillQuery::NearTcp)?, 64);
    assert_eq!(rt; matching(alloc, DrillQuery::Early)?, 10_000);
    assert_eq!(rt; matching(alloc, DrillQuery::Late)?, 100);
    Ok(())
}

// The summary of 300 packets, and that of as many again over the same shelf.
const ONCE: &[u8] = b"drill 300\npairs 1\nport 53: 30 packets 2424 bytes\n\
ip proto 6 and net 10.0.0.0/25: 64 packets 5144 bytes\n\
before 2001-09-09T01:48:20Z: 300 packets 24024 bytes\n\
after 2001-09-09T01:48:20Z: 0 packets 24 bytes\n";

const TWICE: &[u8] = b"drill 300\npairs 1\nport 53: 60 packets 4824 bytes\n\
ip proto 6 and net 10.0.0.0/25: 128 packets 10264 bytes\n\
before 2001-09-09T01:48:20Z: 600 packets 48024 bytes\n\
after 2001-09-09T01:48:20Z: 0 packets 24 bytes\n";

#[test]
fn a_second_drill_counts_the_first_ones_packets(rt: HostRuntime) -> Result<(), Fail> {
    let alloc = rt.alloc();
    let mut clock = MemClock::over(alloc, &[])?;
    let mut out = MemSink::new(alloc, &[])?;
    let mut again = MemSink::new(alloc, &[])?;
    let Drilled { end, shelf } = drill(alloc, MemShelf::empty(alloc), 300, &mut out, &mut clock);
    let Drilled { end: second, shelf } = drill(alloc, shelf, 300, &mut again, &mut clock);
    let _kept = shelf;
    assert_eq!(rt; end, DrillEnd::Done);
    assert_eq!(rt; out.bytes(), ONCE);
    assert_eq!(rt; second, DrillEnd::Done);
    assert_eq!(rt; again.bytes(), TWICE);
    Ok(())
}
