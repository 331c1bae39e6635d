//! Lines and packets over shelves in memory. The pair is that of docs/FORMAT.md; its packet is at
//! second 1,000,000,000 and microsecond 123,456. The lines and the pcap were written by hand.

ghost use Rattle.std.specs.Prelude.{◌≡◌, ⊤, [], IfSome};

use crate::commands::{Ended, check, list};
use crate::outcomes::Outcome;
use crate::queries::query;
use st_base::{Damage, Limits, MemSink, put};
use st_pcap::Unit;
use st_query::parse;
use st_shelf::{Draft, End, Kind, MemShelf, SealedPair, Shelf};
use st_spool::{NotEntered, PairRule, PublishErr, Spool};
use std::alloc::Global;
use std::process::Abort;
use std::test::Fail;

// Each pair may be published.
struct AnyPair;

impl PairRule for AnyPair {
    ghost is_whole = { λ block index. ⊤ };
}

// The block file of docs/FORMAT.md without the zeros after its packet.
const FILLED: &[u8] = b"\x01\x00\x00\x00\x00\x10\x00\x00\x01\x00\x00\x00\x01\x00\x00\x00\
\x30\x00\x00\x00\x90\x00\x00\x00\x00\x00\x00\x00\x00\x00\x00\x00\x00\xca\x9a\x3b\x00\xca\x5b\x07\
\x00\xca\x9a\x3b\x00\xca\x5b\x07\x00\x00\x00\x00\x00\xca\x9a\x3b\x00\xca\x5b\x07\x2e\x00\x00\x00\
\x2e\x00\x00\x00\x00\x00\x00\x00\x30\x00\x30\x00\x00\x00\x00\x00\x00\x00\x00\x00\x00\x00\x00\x00\
\x00\x00\x00\x00\x00\x00\x00\x00\x02\x00\x00\x00\x00\x02\x02\x00\x00\x00\x00\x01\x08\x00\x45\x00\
\x00\x20\x00\x00\x00\x00\x40\x11\x00\x00\x0a\x00\x00\x01\x0a\x00\x00\x02\x30\x39\x00\x35\x00\x0c\
\x00\x00\x64\x6e\x73\x21";

// The index of docs/FORMAT.md.
const INDEX: &[u8] =
    b"\x00\x01\x18\x00\x00\x00\x00\x01\x00\x00\x00\x01\x3b\x9a\xca\x00\x07\x5b\xca\x00\
\x3b\x9a\xca\x00\x07\x5b\xca\x00\x00\x02\x04\x01\x11\x00\x00\x00\x30\x00\x03\x04\x02\x00\x35\x00\
\x00\x00\x30\x01\x02\x04\x30\x39\x00\x00\x00\x30\x00\x05\x04\x04\x0a\x00\x00\x01\x00\x00\x00\x30\
\x04\x01\x04\x02\x00\x00\x00\x30\x00\x05\x04\x07\x3b\x9a\xca\x00\x00\x00\x00\x30\x00\x00\x00\x00\
\x01\x00\x00\x00\x00\xfe\xe7\xa8\xd6\x00\x00\x00\x00\x01\x00\x00\x00\x00\xc0\xf2\xa1\xb0\x00\x05\
\x02\x07\x3b\x9a\xca\x00\x00\x60\x00\x00\x00\x00\x01\x00\x00\x00\x00\x76\xe4\xa2\xef\x65\x08\x72\
\x12\x00\x00\x00\x00\x00\x00\x00\x00\x00\x00\x00\x00\x00\x00\x00\x00\x00\x00\x00\x00\x00\x00\x00\
\x00\x00\x00\x00\x00\x00\x00\x00\x00\x00\x00\x00\x00\x57\xfb\x80\x8b\x24\x75\x47\xdb";

// The block file, with this first byte.
fn block_file(alloc: Global, first: u8) -> Result<Vec<u8>, Fail> {
    let mut bytes = FILLED.to_vec(alloc)?;
    bytes.resize(4_096, 0)?;
    if let Some(byte) = bytes.get_mut(0) {
        *byte = first;
    }
    Ok(bytes)
}

// A sealed file of these bytes.
fn sealed<D: Shelf>(
    spool: &mut Spool<D, AnyPair>,
    kind: Kind,
    bytes: &[u8],
) -> Option<<D::Draft as Draft>::Sealed>
    ensures origin { IfSome result (λ s. ((D.Draft.sealed_origin s).kind ≡ kind)
        × ((D.Draft.sealed_origin s).home ≡ D.id spool.old.shelf)) }
    ensures rest { (spool.new.state ≡ spool.old.state)
        × (D.id spool.new.shelf ≡ D.id spool.old.shelf) }
{
    let Ok(mut draft) = spool.create(kind) else {
        return None;
    };
    if let Err(_) = put(&mut draft, bytes) {
        spool.abandon(End::Unsealed(draft));
        return None;
    }
    match draft.seal() {
        Ok(sealed) => Some(sealed),
        Err(draft) => {
            spool.abandon(End::Unsealed(draft));
            None
        }
    }
}

// Publishes a pair, and returns its stamp.
fn publish<D: Shelf>(
    spool: &mut Spool<D, AnyPair>,
    block: &[u8],
    index: &[u8],
    floor: u64,
) -> Option<u64>
    ensures { spool.new.state.holds ≡ spool.old.state.holds }
{
    let Some(block) = sealed(spool, Kind::Block, block) else {
        return None;
    };
    let Some(index) = sealed(spool, Kind::Index, index) else {
        spool.abandon(End::Sealed(block));
        return None;
    };
    if let Err(_) = spool.reserve() {
        spool.abandon(End::Sealed(block));
        spool.abandon(End::Sealed(index));
        return None;
    }
    match spool.publish(SealedPair { block, index }, floor) {
        Ok(stamp) => Some(stamp),
        Err(PublishErr::DiskFault) => None,
        Err(
            PublishErr::Halted {
                since: _since,
                pair,
            },
        ) => {
            let SealedPair { block, index } = pair;
            spool.abandon(End::Sealed(block));
            spool.abandon(End::Sealed(index));
            None
        }
        Err(PublishErr::StampsSpent { last: _last, pair }) => {
            let SealedPair { block, index } = pair;
            spool.abandon(End::Sealed(block));
            spool.abandon(End::Sealed(index));
            None
        }
    }
}

// The shelf with two pairs: one of stamp 9, whose files these are, and the whole one of stamp 10.
// What fails is given by numbers of calls.
fn two_pairs(alloc: Global, block: &[u8], index: &[u8], fails: &[u64]) -> Result<MemShelf, Fail> {
    let shelf = MemShelf::with(alloc, fails, None)?;
    let whole = block_file(alloc, 1)?;
    let entered: Result<Spool<MemShelf, AnyPair>, NotEntered<MemShelf>> = Spool::enter(
        alloc, shelf, 4,
    );
    let mut spool = match entered {
        Ok(spool) => spool,
        Err(
            NotEntered {
                cause: _cause,
                shelf: _shelf,
            },
        ) => Err("not opened")?,
    };
    let first = publish(&mut spool, block, index, 9);
    let second = publish(&mut spool, whole.as_slice(), INDEX, 0);
    let shelf = spool.close();
    if first != Some(9) || second != Some(10) {
        Err("not published")?;
    }
    Ok(shelf)
}

// How a list ends over this shelf, and what it writes, if these writes of the output fail.
fn listed(
    alloc: Global,
    shelf: MemShelf,
    fails: &[u32],
) -> Result<(Outcome, Vec<u8>, MemShelf), Fail> {
    let mut out = MemSink::new(alloc, fails)?;
    let Ended { outcome, shelf } = list(alloc, shelf, &mut out);
    let bytes = out.bytes().to_vec(alloc)?;
    Ok((outcome, bytes, shelf))
}

// How a check ends over this shelf, and what it writes, if these writes of the output fail.
fn checked(
    alloc: Global,
    shelf: MemShelf,
    fails: &[u32],
) -> Result<(Outcome, Vec<u8>, MemShelf), Fail> {
    let mut out = MemSink::new(alloc, fails)?;
    let Ended { outcome, shelf } = check(alloc, shelf, &mut out);
    let bytes = out.bytes().to_vec(alloc)?;
    Ok((outcome, bytes, shelf))
}

const FIRST_LINE: &[u8] = b"9 1 1000000000.123456000 1000000000.123456000\n";

const BOTH_LINES: &[u8] = b"9 1 1000000000.123456000 1000000000.123456000\n\
10 1 1000000000.123456000 1000000000.123456000\n";

#[test]
fn an_empty_shelf_has_no_lines(rt: HostRuntime) -> Result<(), Fail> {
    let alloc = rt.alloc();
    let (outcome, lines, shelf) = listed(alloc, MemShelf::empty(alloc), &[0])?;
    assert_eq!(rt; outcome, Outcome::Done);
    assert!(rt; lines.is_empty());
    let (outcome, lines, _shelf) = checked(alloc, shelf, &[0])?;
    assert_eq!(rt; outcome, Outcome::Done);
    assert!(rt; lines.is_empty());
    Ok(())
}

// By their names stamp 10 would come before stamp 9.
#[test]
fn whole_pairs_have_a_line_each_by_stamp(rt: HostRuntime) -> Result<(), Fail> {
    let alloc = rt.alloc();
    let block = block_file(alloc, 1)?;
    let shelf = two_pairs(alloc, block.as_slice(), INDEX, &[])?;
    let (outcome, lines, shelf) = listed(alloc, shelf, &[])?;
    assert_eq!(rt; outcome, Outcome::Done);
    assert_eq!(rt; lines.as_slice(), BOTH_LINES);
    let (outcome, lines, shelf) = checked(alloc, shelf, &[])?;
    assert_eq!(rt; outcome, Outcome::Done);
    assert_eq!(rt; lines.as_slice(), b"9 whole 1\n10 whole 1\n".as_slice());
    let (outcome, lines, _shelf) = listed(alloc, shelf, &[1])?;
    assert_eq!(rt; outcome, Outcome::WriteFault);
    assert_eq!(rt; lines.as_slice(), FIRST_LINE);
    Ok(())
}

// A list doesn't look at block files, and a check goes on after a damaged pair.
#[test]
fn a_damaged_block_file_is_named(rt: HostRuntime) -> Result<(), Fail> {
    let alloc = rt.alloc();
    let block = block_file(alloc, 2)?;
    let shelf = two_pairs(alloc, block.as_slice(), INDEX, &[])?;
    let damage = Damage {
        place: 0,
        found: 2,
        want: 1,
    };
    let (outcome, lines, shelf) = checked(alloc, shelf, &[])?;
    assert_eq!(rt; outcome, Outcome::Damaged { stamp: 9, damage });
    assert_eq!(rt;
        lines.as_slice(),
        b"9 damaged block 0 2 1\n10 whole 1\n".as_slice()
    );
    let (outcome, lines, _shelf) = listed(alloc, shelf, &[])?;
    assert_eq!(rt; outcome, Outcome::Done);
    assert_eq!(rt; lines.as_slice(), BOTH_LINES);
    Ok(())
}

// An index of 47 bytes has no room for a footer of 48.
#[test]
fn a_pair_without_a_summary_ends_a_list(rt: HostRuntime) -> Result<(), Fail> {
    let alloc = rt.alloc();
    let block = block_file(alloc, 1)?;
    let shelf = two_pairs(alloc, block.as_slice(), &INDEX[..47], &[])?;
    let damage = Damage {
        place: 0,
        found: 47,
        want: 48,
    };
    let (outcome, lines, shelf) = listed(alloc, shelf, &[])?;
    assert_eq!(rt; outcome, Outcome::Damaged { stamp: 9, damage });
    assert!(rt; lines.is_empty());
    let (outcome, lines, _shelf) = checked(alloc, shelf, &[])?;
    assert_eq!(rt; outcome, Outcome::Damaged { stamp: 9, damage });
    assert_eq!(rt;
        lines.as_slice(),
        b"9 damaged index 0 47 48\n10 whole 1\n".as_slice()
    );
    Ok(())
}

// The calls after two publications are those of the command: two flushes and a list at opening, and
// then at least three of each pair's index: it is lent, read and taken back.
#[test]
fn a_fault_of_the_disk_ends_a_command(rt: HostRuntime) -> Result<(), Fail> {
    let alloc = rt.alloc();
    let block = block_file(alloc, 1)?;
    let calls = two_pairs(alloc, block.as_slice(), INDEX, &[])?.calls();
    for more in 0..5_u64 {
        let fails = [calls.saturating_add(more)];
        let shelf = two_pairs(alloc, block.as_slice(), INDEX, &fails)?;
        let (outcome, lines, _shelf) = listed(alloc, shelf, &[])?;
        assert_eq!(rt; outcome, Outcome::DiskFault, "a list at {more}");
        assert!(rt; lines.is_empty(), "a list at {more}");
        let shelf = two_pairs(alloc, block.as_slice(), INDEX, &fails)?;
        let (outcome, lines, _shelf) = checked(alloc, shelf, &[])?;
        assert_eq!(rt; outcome, Outcome::DiskFault, "a check at {more}");
        assert!(rt; lines.is_empty(), "a check at {more}");
    }
    Ok(())
}

// The pcap of both packets in microseconds: the file head, and twice the record head and the frame,
// the last 46 bytes of `FILLED`.
const BOTH_PACKETS: &[u8] = b"\xd4\xc3\xb2\xa1\x02\x00\x04\x00\x00\x00\x00\x00\x00\x00\x00\x00\
\x00\x00\x04\x00\x01\x00\x00\x00\
\x00\xca\x9a\x3b\x40\xe2\x01\x00\x2e\x00\x00\x00\x2e\x00\x00\x00\
\x02\x00\x00\x00\x00\x02\x02\x00\x00\x00\x00\x01\x08\x00\x45\x00\
\x00\x20\x00\x00\x00\x00\x40\x11\x00\x00\x0a\x00\x00\x01\x0a\x00\
\x00\x02\x30\x39\x00\x35\x00\x0c\x00\x00\x64\x6e\x73\x21\
\x00\xca\x9a\x3b\x40\xe2\x01\x00\x2e\x00\x00\x00\x2e\x00\x00\x00\
\x02\x00\x00\x00\x00\x02\x02\x00\x00\x00\x00\x01\x08\x00\x45\x00\
\x00\x20\x00\x00\x00\x00\x40\x11\x00\x00\x0a\x00\x00\x01\x0a\x00\
\x00\x02\x30\x39\x00\x35\x00\x0c\x00\x00\x64\x6e\x73\x21";

// These limits take two packets of 46 bytes and no more.
#[test]
fn a_query_writes_the_packets_of_all_pairs(rt: HostRuntime) -> Result<(), Fail> {
    let alloc = rt.alloc();
    let block = block_file(alloc, 1)?;
    let shelf = two_pairs(alloc, block.as_slice(), INDEX, &[])?;
    let asked = parse(alloc, b"port 53")?;
    let limits = Limits {
        packets: 2,
        bytes: 92,
    };
    let mut out = MemSink::new(alloc, &[])?;
    let Ended {
        outcome,
        shelf: _shelf,
    } = query(alloc, shelf, &asked, 0, Unit::Micro, limits, &mut out);
    assert_eq!(rt; outcome, Outcome::Done);
    assert_eq!(rt; out.bytes(), BOTH_PACKETS);
    Ok(())
}
