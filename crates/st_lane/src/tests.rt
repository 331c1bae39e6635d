//! The pair of one packet, byte for byte, where blocks and files end, and each write that fails.

ghost use Rattle.std.specs.Prelude.{◌≡◌, ◌≤◌, ℕ, false, None, Some, IfSome, IsSome, IfOk, OnOk};
ghost use Rattle.st_disk.specs.declared.naming.Kind.{Kind};
ghost use Rattle.st_disk.specs.Disks.{log_of};
ghost use Rattle.st_disk.specs.LoggedCalls.{Reads};
ghost use Rattle.st_disk.specs.Names.{published};

use super::*;
use st_base::{Reader, RecordRef};
use st_disk::published_name;
use st_shelf::{End, Kind, MemDraft, MemShelf, Name, SealedPair, Shelf};
use std::alloc::Global;
use std::process::Abort;
use std::test::Fail;

/// A UDP packet of 46 bytes, as docs/FORMAT.md, "Block file", has it.
const UDP: &[u8] = b"\x02\x00\x00\x00\x00\x02\x02\x00\x00\x00\x00\x01\x08\x00\x45\x00\
\x00\x20\x00\x00\x00\x00\x40\x11\x00\x00\x0a\x00\x00\x01\x0a\x00\
\x00\x02\x30\x39\x00\x35\x00\x0c\x00\x00\x64\x6e\x73\x21";

/// The used bytes of its block of 4,096 bytes, from the same page.
const BLOCK: &[u8] = b"\x01\x00\x00\x00\x00\x10\x00\x00\x01\x00\x00\x00\x01\x00\x00\x00\
\x30\x00\x00\x00\x90\x00\x00\x00\x00\x00\x00\x00\x00\x00\x00\x00\
\x00\xca\x9a\x3b\x00\xca\x5b\x07\x00\xca\x9a\x3b\x00\xca\x5b\x07\
\x00\x00\x00\x00\x00\xca\x9a\x3b\x00\xca\x5b\x07\x2e\x00\x00\x00\
\x2e\x00\x00\x00\x00\x00\x00\x00\x30\x00\x30\x00\x00\x00\x00\x00\
\x00\x00\x00\x00\x00\x00\x00\x00\x00\x00\x00\x00\x00\x00\x00\x00\
\x02\x00\x00\x00\x00\x02\x02\x00\x00\x00\x00\x01\x08\x00\x45\x00\
\x00\x20\x00\x00\x00\x00\x40\x11\x00\x00\x0a\x00\x00\x01\x0a\x00\
\x00\x02\x30\x39\x00\x35\x00\x0c\x00\x00\x64\x6e\x73\x21\x00\x00";

/// Its index: the file that docs/FORMAT.md, "Table file", has, with the sums that a program in
/// Python computed.
const INDEX: &[u8] = b"\x00\x01\x18\x00\x00\x00\x00\x01\x00\x00\x00\x01\x3b\x9a\xca\x00\
\x07\x5b\xca\x00\x3b\x9a\xca\x00\x07\x5b\xca\x00\x00\x02\x04\x01\
\x11\x00\x00\x00\x30\x00\x03\x04\x02\x00\x35\x00\x00\x00\x30\x01\
\x02\x04\x30\x39\x00\x00\x00\x30\x00\x05\x04\x04\x0a\x00\x00\x01\
\x00\x00\x00\x30\x04\x01\x04\x02\x00\x00\x00\x30\x00\x05\x04\x07\
\x3b\x9a\xca\x00\x00\x00\x00\x30\x00\x00\x00\x00\x01\x00\x00\x00\
\x00\xfe\xe7\xa8\xd6\x00\x00\x00\x00\x01\x00\x00\x00\x00\xc0\xf2\
\xa1\xb0\x00\x05\x02\x07\x3b\x9a\xca\x00\x00\x60\x00\x00\x00\x00\
\x01\x00\x00\x00\x00\x76\xe4\xa2\xef\x65\x08\x72\x12\x00\x00\x00\
\x00\x00\x00\x00\x00\x00\x00\x00\x00\x00\x00\x00\x00\x00\x00\x00\
\x00\x00\x00\x00\x00\x00\x00\x00\x00\x00\x00\x00\x00\x00\x00\x00\
\x00\x57\xfb\x80\x8b\x24\x75\x47\xdb";

/// A body of zeros, one byte too long for a block of 4,096 bytes.
const ZEROS: [u8; 4001] = [0; 4001];

/// A lane of at most `blocks` blocks of 4,096 bytes, or none if a draft was not created or memory
/// ran out. It takes no name that files are settled under.
fn begin(shelf: &mut MemShelf, alloc: Global, blocks: u32) -> Option<Lane<MemDraft>>
    requires some { 1 ≤ blocks }
    requires most { blocks ≤ 4095 }
    ensures whole { IfSome result (λ l. (l.broken ≡ false) × (l.filling.records ≡ 0)) }
    ensures free { (k : Kind) (s : ℕ) → IsSome result
        → Reads (⟦<MemShelf as Shelf>⟧.log shelf.old) (published k s) (λ v. v ≡ None)
        → Reads (⟦<MemShelf as Shelf>⟧.log shelf.new) (published k s) (λ v. v ≡ None) }
{
    let Ok(block) = shelf.create(Kind::Block) else {
        return None;
    };
    let index = match shelf.create(Kind::Index) {
        Ok(index) => index,
        Err(_) => {
            shelf.abandon(End::Unsealed(block));
            return None;
        }
    };
    match Lane::new(alloc, block, index, 4096, blocks) {
        Ok(lane) => Some(lane),
        Err(LaneRefused { block, index }) => {
            shelf.abandon(End::Unsealed(block));
            shelf.abandon(End::Unsealed(index));
            None
        }
    }
}

/// Takes a lane back.
fn give_up(shelf: &mut MemShelf, lane: Lane<MemDraft>) {
    let (block, index) = lane.give_up();
    shelf.abandon(End::Unsealed(block));
    shelf.abandon(End::Unsealed(index));
}

/// What pushing a body of zeros answers, of a lane that isn't broken.
fn push(lane: &mut Lane<MemDraft>, len: usize) -> Option<Result<Pushed, LaneErr>> {
    if lane.is_broken() || len > ZEROS.len() {
        return None;
    }
    Some(lane.push(RecordRef {
        sec: 7,
        nsec: 8,
        orig: 9,
        body: &ZEROS[..len],
    }))
}

#[test]
fn a_lane_is_ready_where_no_block_is_left(rt: HostRuntime) -> Result<(), Fail> {
    let alloc = rt.alloc();
    let mut shelf = MemShelf::empty(alloc);
    let mut lane = begin(&mut shelf, alloc, 2).ok_or("no lane")?;
    // 4,096 less two heads of 48 bytes
    let long = push(&mut lane, 4001);
    let whole = push(&mut lane, 4000);
    // of the second block two packets of 48 and 1,952 bytes leave 48
    let first = push(&mut lane, 1952);
    let second = push(&mut lane, 1950);
    let full = push(&mut lane, 1);
    let again = push(&mut lane, 4001);
    let fits = push(&mut lane, 0);
    let last = push(&mut lane, 0);
    let records = lane.records();
    give_up(&mut shelf, lane);
    assert_eq!(rt; long, Some(Err(LaneErr::TooLong { len: 4001 })));
    assert_eq!(rt; whole, Some(Ok(Pushed::Kept)));
    assert_eq!(rt; first, Some(Ok(Pushed::Kept)));
    assert_eq!(rt; second, Some(Ok(Pushed::Kept)));
    assert_eq!(rt; full, Some(Ok(Pushed::Ready)));
    assert_eq!(rt; again, Some(Err(LaneErr::TooLong { len: 4001 })));
    assert_eq!(rt; fits, Some(Ok(Pushed::Kept)));
    assert_eq!(rt; last, Some(Ok(Pushed::Ready)));
    assert_eq!(rt; records, 4);
    Ok(())
}

/// Takes the drafts of a lane that was not sealed back, and says how far it came and how many
/// records it names as lost.
fn take_back(shelf: &mut MemShelf, error: SealErr<MemDraft>) -> (&'static str, u64) {
    match error {
        SealErr::NoMemory { lane } => {
            give_up(shelf, lane);
            ("no memory", 0)
        }
        SealErr::DiskFault { lost, block, index } => {
            let step = match (&block, &index) {
                (End::Unsealed(_), End::Unsealed(_)) => "written or the block sealed",
                (End::Sealed(_), End::Unsealed(_)) => "the index sealed",
                _ => "none",
            };
            shelf.abandon(block);
            shelf.abandon(index);
            (step, lost)
        }
    }
}

/// Fills a lane of two blocks with two packets and seals it: the step that failed, and how many
/// records are named as lost.
fn run(shelf: &mut MemShelf, alloc: Global) -> (&'static str, u64) {
    let Some(mut lane) = begin(shelf, alloc, 2) else {
        return ("begun", 0);
    };
    let _ = push(&mut lane, 4000);
    let answer = push(&mut lane, 1952);
    if lane.is_broken() || lane.records() == 0 {
        let records = lane.records();
        give_up(shelf, lane);
        return match answer {
            Some(Err(LaneErr::DiskFault { lost })) if lost == records => ("pushed", lost),
            _ => ("none", 0),
        };
    }
    match lane.seal() {
        Ok(SealedPair { block, index }) => {
            shelf.abandon(End::Sealed(block));
            shelf.abandon(End::Sealed(index));
            ("all", 0)
        }
        Err(error) => take_back(shelf, error),
    }
}

/// Checks a run on a shelf whose call of this number fails: how far it comes, how many records are
/// lost, how often the shelf failed, and that no file is left.
fn fails_at(
    rt: &impl Abort,
    alloc: Global,
    call: u64,
    answer: (&'static str, u64),
    faults: u64,
) -> Result<(), Fail> {
    let mut shelf = MemShelf::with(alloc, &[call], None)?;
    assert_eq!(rt; run(&mut shelf, alloc), answer, "call {call}");
    assert_eq!(rt; shelf.fault_count(), faults, "call {call}");
    assert_eq!(rt; shelf.list(alloc)?.items().len(), 0, "call {call}");
    Ok(())
}

#[test]
fn each_write_and_each_seal_fails_and_the_drafts_come_back(rt: HostRuntime) -> Result<(), Fail> {
    let alloc = rt.alloc();
    fails_at(&rt, alloc, 1, ("begun", 0), 1)?;
    fails_at(&rt, alloc, 2, ("pushed", 1), 1)?;
    fails_at(&rt, alloc, 3, ("written or the block sealed", 2), 1)?;
    fails_at(&rt, alloc, 4, ("written or the block sealed", 2), 1)?;
    fails_at(&rt, alloc, 5, ("written or the block sealed", 2), 1)?;
    fails_at(&rt, alloc, 6, ("the index sealed", 2), 1)?;
    fails_at(&rt, alloc, 100, ("all", 0), 0)
}

/// Reads the file of this name from its first byte on: how many bytes it has, and how many of them
/// fill `out`.
fn read(shelf: &mut MemShelf, name: Name, out: &mut [u8]) -> Option<(u64, usize)>
    requires { Reads (⟦<MemShelf as Shelf>⟧.log shelf.old) name IsSome }
{
    let Ok(mut file) = shelf.reader(name) else {
        return None;
    };
    let size = file.size();
    let read = file.read_at(0, out);
    shelf.close(file);
    Some((size, read.ok()?))
}

/// Makes the pair of the one packet and reads its file of this kind: how many bytes it has, and how
/// many of them fill `out`.
fn read_file(alloc: Global, kind: Kind, out: &mut [u8]) -> Option<(u64, usize)> {
    let mut shelf = MemShelf::empty(alloc);
    let mut lane = begin(&mut shelf, alloc, 1)?;
    let packet = RecordRef {
        sec: 1_000_000_000,
        nsec: 123_456_000,
        orig: 46,
        body: UDP,
    };
    match lane.push(packet) {
        Ok(Pushed::Kept) => {}
        _ => {
            give_up(&mut shelf, lane);
            return None;
        }
    }
    let SealedPair { block, index } = match lane.seal() {
        Ok(pair) => pair,
        Err(error) => {
            take_back(&mut shelf, error);
            return None;
        }
    };
    let (file, other) = match kind {
        Kind::Block => (block, index),
        Kind::Index => (index, block),
    };
    let name = published_name(kind, 1);
    let read = match shelf.settle(file, name) {
        Ok(()) => read(&mut shelf, name, out),
        Err(file) => {
            shelf.abandon(End::Sealed(file));
            None
        }
    };
    shelf.abandon(End::Sealed(other));
    read
}

#[test]
fn the_pair_of_one_packet_is_as_the_format_has_it(rt: HostRuntime) -> Result<(), Fail> {
    let alloc = rt.alloc();
    let mut block = [7; 5000];
    let mut index = [7; 200];
    let read = read_file(alloc, Kind::Block, &mut block);
    assert_eq!(rt; read, Some((4096, 4096)));
    assert!(rt; block.starts_with(BLOCK));
    assert!(rt; block[144..4096].iter().all(|b| *b == 0));
    let read = read_file(alloc, Kind::Index, &mut index);
    assert_eq!(rt; read, Some((185, 185)));
    assert!(rt; index.starts_with(INDEX));
    Ok(())
}
