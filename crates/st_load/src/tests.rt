//! Loads over shelves in memory. What they write was worked out by hand from the layout of block
//! files in docs/FORMAT.md.

use super::*;
use st_base::{MemClock, MemSink, MemSource};
use st_pcap::PcapErr;
use st_plan::LanePlan;
use st_shelf::{MemShelf, Name, Shelf};
use std::alloc::Global;
use std::test::Fail;

/// The file head of a pcap in microseconds over Ethernet.
const HEAD: &[u8] = b"\xd4\xc3\xb2\xa1\x02\x00\x04\x00\x00\x00\x00\x00\x00\x00\x00\x00\
\x00\x00\x04\x00\x01\x00\x00\x00";

/// The smallest blocks, two a file.
const SMALL: LanePlan = LanePlan {
    size: 4096,
    blocks: 2,
};

/// A pcap whose records have bodies of zeros of these lengths.
fn pcap(alloc: Global, lengths: &[u32]) -> Result<Vec<u8>, Fail> {
    let mut bytes = HEAD.to_vec(alloc)?;
    for len in lengths {
        bytes.extend_from_slice(&[0, 0, 0, 0, 0, 0, 0, 0])?;
        bytes.extend_from_slice(&len.to_le_bytes())?;
        bytes.extend_from_slice(&len.to_le_bytes())?;
        for _ in 0..*len {
            bytes.push(0)?;
        }
    }
    Ok(bytes)
}

/// What a load gave: how it ended, and what it wrote.
#[derive(Drop)]
struct Trial {
    end: LoadEnd,
    lines: Vec<u8>,
    shelf: MemShelf,
}

/// A load of these bytes over this shelf, with the smallest blocks. The reads and the writes of
/// these numbers fail.
fn loaded(
    alloc: Global,
    shelf: MemShelf,
    limit: u32,
    bytes: &[u8],
    reads: &[u32],
    writes: &[u32],
) -> Result<Trial, Fail> {
    let mut source = MemSource::over(alloc, bytes, 4096, reads)?;
    let mut out = MemSink::new(alloc, writes)?;
    let mut clock = MemClock::over(alloc, &[7, 5])?;
    let limit = limit.max(1);
    let Loaded { end, shelf } = load(
        alloc,
        shelf,
        limit,
        SMALL,
        &mut source,
        &mut out,
        &mut clock,
    );
    let lines = out.bytes().to_vec(alloc)?;
    Ok(Trial { end, lines, shelf })
}

/// The stamps of the indexes of a shelf.
fn stamps(alloc: Global, shelf: &mut MemShelf) -> Result<Vec<u64>, Fail> {
    let mut stamps = Vec::new(alloc);
    let names = shelf.list(alloc)?;
    for name in names.items() {
        if let Name::Index(stamp) = name {
            stamps.push(*stamp)?;
        }
    }
    Ok(stamps)
}

#[test]
fn each_pair_has_a_line_and_a_greater_stamp(rt: HostRuntime) -> Result<(), Fail> {
    let alloc = rt.alloc();
    // a block of 4,096 bytes holds one packet of 4,000 bytes, and a file two of them
    let bytes = pcap(alloc, &[4000, 3999, 4000, 46, 0])?;
    let shelf = MemShelf::empty(alloc);
    let first = loaded(alloc, shelf, 9, bytes.as_slice(), &[], &[])?;
    assert_eq!(rt; first.end, LoadEnd::Done);
    assert_eq!(rt; first.lines.as_slice(), b"7 2\n8 3\n".as_slice());
    let one = pcap(alloc, &[46])?;
    let second = loaded(alloc, first.shelf, 9, one.as_slice(), &[], &[])?;
    assert_eq!(rt; second.end, LoadEnd::Done);
    assert_eq!(rt; second.lines.as_slice(), b"9 1\n".as_slice());
    let mut shelf = second.shelf;
    assert_eq!(rt; stamps(alloc, &mut shelf)?.as_slice(), [7, 8, 9].as_slice());
    Ok(())
}

#[test]
fn the_oldest_pairs_are_removed_above_the_limit(rt: HostRuntime) -> Result<(), Fail> {
    let alloc = rt.alloc();
    let bytes = pcap(alloc, &[4000, 4000, 4000, 4000, 4000])?;
    let shelf = MemShelf::empty(alloc);
    let first = loaded(alloc, shelf, 2, bytes.as_slice(), &[], &[])?;
    assert_eq!(rt; first.lines.as_slice(), b"7 2\n8 2\n9 1\n".as_slice());
    let mut shelf = first.shelf;
    assert_eq!(rt; stamps(alloc, &mut shelf)?.as_slice(), [8, 9].as_slice());
    // before an input without records too
    let second = loaded(alloc, shelf, 1, HEAD, &[], &[])?;
    assert_eq!(rt; second.end, LoadEnd::Done);
    assert_eq!(rt; second.lines.len(), 0);
    let mut shelf = second.shelf;
    assert_eq!(rt; stamps(alloc, &mut shelf)?.as_slice(), [9].as_slice());
    Ok(())
}

#[test]
fn packets_before_a_refused_one_are_loaded(rt: HostRuntime) -> Result<(), Fail> {
    let alloc = rt.alloc();
    let mut bytes = pcap(alloc, &[46])?;
    bytes.extend_from_slice(&[0; 10])?;
    let cut = loaded(alloc, MemShelf::empty(alloc), 9, bytes.as_slice(), &[], &[])?;
    let cause = PcapErr::Truncated {
        number: 2,
        have: 10,
        want: 16,
    };
    assert_eq!(rt; cut.end, LoadEnd::BadInput(cause));
    assert_eq!(rt; cut.lines.as_slice(), b"7 1\n".as_slice());
    // 4,096 less two heads of 48 bytes
    let bytes = pcap(alloc, &[4000, 4000, 0, 4001, 0])?;
    let long = loaded(alloc, MemShelf::empty(alloc), 9, bytes.as_slice(), &[], &[])?;
    assert_eq!(rt;
        long.end,
        LoadEnd::TooLong {
            number: 4,
            len: 4001
        }
    );
    assert_eq!(rt; long.lines.as_slice(), b"7 2\n8 1\n".as_slice());
    let bytes = pcap(alloc, &[4001])?;
    let alone = loaded(alloc, MemShelf::empty(alloc), 9, bytes.as_slice(), &[], &[])?;
    assert_eq!(rt;
        alone.end,
        LoadEnd::TooLong {
            number: 1,
            len: 4001
        }
    );
    assert_eq!(rt; alone.lines.len(), 0);
    let other = loaded(alloc, MemShelf::empty(alloc), 9, &[0; 24], &[], &[])?;
    assert_eq!(rt; other.end, LoadEnd::BadInput(PcapErr::NotPcap { found: 0 }));
    assert_eq!(rt; other.lines.len(), 0);
    Ok(())
}

#[test]
fn a_failed_read_or_write_gives_up_what_is_not_published(rt: HostRuntime) -> Result<(), Fail> {
    let alloc = rt.alloc();
    let bytes = pcap(alloc, &[4000, 4000, 4000])?;
    // the file head, then each record by two reads
    let read = loaded(
        alloc,
        MemShelf::empty(alloc),
        9,
        bytes.as_slice(),
        &[6],
        &[],
    )?;
    assert_eq!(rt; read.end, LoadEnd::ReadFault);
    assert_eq!(rt; read.lines.len(), 0);
    let read = loaded(
        alloc,
        MemShelf::empty(alloc),
        9,
        bytes.as_slice(),
        &[7],
        &[],
    )?;
    assert_eq!(rt; read.end, LoadEnd::ReadFault);
    assert_eq!(rt; read.lines.as_slice(), b"7 2\n".as_slice());
    let mut shelf = read.shelf;
    assert_eq!(rt; stamps(alloc, &mut shelf)?.as_slice(), [7].as_slice());
    assert_eq!(rt; shelf.list(alloc)?.items().len(), 2);
    let write = loaded(
        alloc,
        MemShelf::empty(alloc),
        9,
        bytes.as_slice(),
        &[],
        &[0],
    )?;
    assert_eq!(rt; write.end, LoadEnd::WriteFault);
    let mut shelf = write.shelf;
    assert_eq!(rt; stamps(alloc, &mut shelf)?.as_slice(), [7].as_slice());
    assert_eq!(rt; shelf.list(alloc)?.items().len(), 2);
    Ok(())
}

#[test]
fn each_call_of_the_shelf_fails_in_turn(rt: HostRuntime) -> Result<(), Fail> {
    let alloc = rt.alloc();
    let bytes = pcap(alloc, &[4000, 4000, 4000])?;
    let mut call = 0;
    for fails in 0..200 {
        call = fails;
        let shelf = MemShelf::with(alloc, &[fails], None)?;
        let trial = loaded(alloc, shelf, 1, bytes.as_slice(), &[], &[])?;
        let mut shelf = trial.shelf;
        let left = shelf.fault_count();
        if left == 0 {
            assert_eq!(rt; trial.end, LoadEnd::Done, "call {fails}");
            break;
        }
        // a removal of a file that fails is passed over
        if trial.end == LoadEnd::Done {
            assert_eq!(rt;
                trial.lines.as_slice(),
                b"7 2\n8 1\n".as_slice(),
                "call {fails}"
            );
        } else {
            assert_eq!(rt; trial.end, LoadEnd::DiskFault, "call {fails}");
        }
    }
    assert!(rt; call > 20 && call < 199, "call {call}");
    Ok(())
}
