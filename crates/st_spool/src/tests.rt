ghost use Rattle.std.specs.Prelude.{Option, ◌≡◌, ◌≤◌, ◌∷◌, [], List, ⊤, IfSome, IfOk, MatchOption, Contains};
ghost use Rattle.st_disk.specs.declared.naming.Kind.TheVariants as kind;

use super::*;
use st_base::{Reader, put};
use st_shelf::{Draft, End, Kind, MemShelf, Name, SealedPair, Shelf};
use std::alloc::Global;
use std::test::Fail;

// Each pair is whole.
struct AnyPair;

impl PairRule for AnyPair {
    ghost is_whole = { λ block index. ⊤ };
}

type TestSpool = Spool<MemShelf, AnyPair>;

// A sealed file of one byte.
fn sealed<D: Shelf>(
    spool: &mut Spool<D, AnyPair>,
    kind: Kind,
    byte: u8,
) -> Option<<D::Draft as Draft>::Sealed>
    ensures origin { IfSome result (λ s. ((D.Draft.sealed_origin s).kind ≡ kind)
        × ((D.Draft.sealed_origin s).home ≡ D.id spool.old.shelf)) }
    ensures rest { (spool.new.state ≡ spool.old.state)
        × (D.id spool.new.shelf ≡ D.id spool.old.shelf) }
{
    let Ok(mut draft) = spool.create(kind) else {
        return None;
    };
    if let Err(_) = put(&mut draft, &[byte]) {
        spool.abandon(End::Unsealed(draft));
        return None;
    }
    match draft.seal() {
        Ok(sealed) => Some(sealed),
        Err(draft) => {
            spool.abandon(End::Unsealed(draft));
            None
        }
    }
}

#[derive(Clone, Copy, Debug, PartialEq, Eq)]
enum Answer {
    Stamp(u64),
    NoDraft,
    DiskFault,
    Halted(u64),
    StampsSpent(u64),
}

// Publishes a pair whose files are this byte and the next one.
fn publish<D: Shelf>(spool: &mut Spool<D, AnyPair>, byte: u8, floor: u64) -> Answer
    ensures { spool.new.state.holds ≡ spool.old.state.holds }
{
    let Some(block) = sealed(spool, Kind::Block, byte) else {
        return Answer::NoDraft;
    };
    let Some(index) = sealed(spool, Kind::Index, byte.wrapping_add(1)) else {
        spool.abandon(End::Sealed(block));
        return Answer::NoDraft;
    };
    if let Err(_) = spool.reserve() {
        spool.abandon(End::Sealed(block));
        spool.abandon(End::Sealed(index));
        return Answer::NoDraft;
    }
    match spool.publish(SealedPair { block, index }, floor) {
        Ok(stamp) => Answer::Stamp(stamp),
        Err(PublishErr::DiskFault) => Answer::DiskFault,
        Err(PublishErr::Halted { since, pair }) => {
            let SealedPair { block, index } = pair;
            spool.abandon(End::Sealed(block));
            spool.abandon(End::Sealed(index));
            Answer::Halted(since)
        }
        Err(PublishErr::StampsSpent { last, pair }) => {
            let SealedPair { block, index } = pair;
            spool.abandon(End::Sealed(block));
            spool.abandon(End::Sealed(index));
            Answer::StampsSpent(last)
        }
    }
}

// The stamp of one pair of a hold, and the bytes of its two files.
fn read_pair<D: Shelf>(
    spool: &mut Spool<D, AnyPair>,
    hold: &Hold,
    i: usize,
) -> Option<(u64, u8, u8)>
    requires { Contains spool.old.state.holds hold.now }
    ensures { spool.new.state.holds ≡ spool.old.state.holds }
{
    if i >= spool.count(hold) {
        return None;
    }
    let stamp = spool.stamp_of(hold, i);
    let Ok(mut file) = spool.block_of(hold, i) else {
        return None;
    };
    let mut block = [0];
    let read = file.read_at(0, &mut block);
    spool.close_file(file);
    let Ok(_) = read else {
        return None;
    };
    let Ok(mut file) = spool.index_of(hold, i) else {
        return None;
    };
    let mut index = [0];
    let read = file.read_at(0, &mut index);
    spool.close_file(file);
    let Ok(_) = read else {
        return None;
    };
    Some((stamp, block[0], index[0]))
}

// What an opening finds: the first two stamps, and how many there are.
fn found(alloc: Global, shelf: MemShelf) -> Option<(usize, [u64; 2])> {
    let mut spool: TestSpool = match Spool::enter(alloc, shelf, 4) {
        Ok(spool) => spool,
        Err(
            NotEntered {
                cause: _cause,
                shelf: _shelf,
            },
        ) => return None,
    };
    let Ok(hold) = spool.hold() else {
        let _shelf = spool.close();
        return None;
    };
    let count = spool.count(&hold);
    let mut stamps = [0; 2];
    if count > 0 {
        stamps[0] = spool.stamp_of(&hold, 0);
    }
    if count > 1 {
        stamps[1] = spool.stamp_of(&hold, 1);
    }
    spool.release(hold);
    let _shelf = spool.close();
    Some((count, stamps))
}

fn opened(alloc: Global, shelf: MemShelf, limit: u32) -> Option<TestSpool>
    requires { 1 ≤ limit }
    ensures { IfSome result (λ s. s.state.holds ≡ []) }
{
    match Spool::enter(alloc, shelf, limit) {
        Ok(spool) => Some(spool),
        Err(
            NotEntered {
                cause: _cause,
                shelf: _shelf,
            },
        ) => None,
    }
}

// Publishes two pairs, and gives the shelf back.
fn two_pairs(alloc: Global, shelf: MemShelf) -> Option<(Answer, Answer, MemShelf)> {
    let mut spool = opened(alloc, shelf, 4)?;
    let first = publish(&mut spool, 10, 0);
    let second = publish(&mut spool, 20, 0);
    Some((first, second, spool.close()))
}

// An opening of an empty shelf is three calls, two flushes and a list. A publication here is six:
// two drafts are made, the index and the block are settled, the folders flushed. So the second
// pair's block is settled by call 13 and durable after call 15. At most four changes are not
// flushed.
#[test]
fn a_crash_leaves_the_second_pair_whole_or_not_at_all(rt: HostRuntime) -> Result<(), Fail> {
    let alloc = rt.alloc();
    let shelf = MemShelf::with(alloc, &[], None)?;
    let (first, second, shelf) = two_pairs(alloc, shelf).ok_or("the disk failed")?;
    assert_eq!(rt; (first, second), (Answer::Stamp(1), Answer::Stamp(2)));
    let last = shelf.moments();
    assert_eq!(rt; last, 15);
    let mut whole = 0_u64;
    for moment in 9..16 {
        for choice in 0..16 {
            let image = shelf.crash(alloc, last.min(moment), choice)?;
            let (count, stamps) = found(alloc, image).ok_or("not opened")?;
            if count == 1 {
                assert!(rt; moment < 15, "{choice} at {moment}");
                assert_eq!(rt; stamps, [1, 0], "{choice} at {moment}");
            } else {
                assert!(rt; moment > 12, "{choice} at {moment}");
                assert_eq!(rt; (count, stamps), (2, [1, 2]), "{choice} at {moment}");
                whole = whole.saturating_add(1);
            }
        }
    }
    // At moment 13 one choice of 16 has all four changes, at 14 four have both of the block folder.
    assert_eq!(rt; whole, 1 + 4 + 16);
    Ok(())
}

// The calls of drafts count here: the first publication is ten calls from 3 on, of which the last
// is the flush of the block folder.
#[test]
fn a_failed_last_flush_halts_the_spool(rt: HostRuntime) -> Result<(), Fail> {
    let alloc = rt.alloc();
    let shelf = MemShelf::with(alloc, &[12], None)?;
    let (first, second, shelf) = two_pairs(alloc, shelf).ok_or("not opened")?;
    assert_eq!(rt; (first, second), (Answer::DiskFault, Answer::Halted(1)));
    // The pair may stand, and here it does. A new spool goes on after it.
    let (first, second, shelf) = two_pairs(alloc, shelf).ok_or("not opened")?;
    assert_eq!(rt; (first, second), (Answer::Stamp(2), Answer::Stamp(3)));
    assert_eq!(rt; shelf.fault_count(), 1);
    Ok(())
}

// The names on a shelf that was given back, of which there are two.
fn two_names(alloc: Global, shelf: MemShelf) -> Option<[Name; 2]> {
    let mut shelf = shelf;
    let Ok(names) = shelf.list(alloc) else {
        return None;
    };
    let items = names.items();
    if items.len() != 2 {
        return None;
    }
    Some([items[0], items[1]])
}

// After call 12 only the index of the second pair is settled, here together with the block's draft.
// After call 13 the block may be there without the index. Each is removed, and its stamp not used
// again.
#[test]
fn a_half_is_removed_at_opening(rt: HostRuntime) -> Result<(), Fail> {
    let alloc = rt.alloc();
    let shelf = MemShelf::with(alloc, &[], None)?;
    let (_, _, shelf) = two_pairs(alloc, shelf).ok_or("the disk failed")?;
    let last = shelf.moments();
    for (moment, choice) in [(12, 7), (13, 3)] {
        let image = shelf.crash(alloc, last.min(moment), choice)?;
        let spool = opened(alloc, image, 4).ok_or("not opened")?;
        let cleared = two_names(alloc, spool.close()).ok_or("names are left")?;
        assert_eq!(rt; cleared, [Name::Block(1), Name::Index(1)], "{moment}");
        let image = shelf.crash(alloc, last.min(moment), choice)?;
        let (answer, _, _) = two_pairs(alloc, image).ok_or("not opened")?;
        assert_eq!(rt; answer, Answer::Stamp(3), "{moment}");
    }
    Ok(())
}

#[derive(Clone, Copy, Debug, PartialEq, Eq)]
struct Seen {
    stamps: [Answer; 3],
    aged: [bool; 3],
    held: Option<(u64, u8, u8)>,
    count: usize,
}

// Holds the first of three pairs while two are removed.
fn hold_beside_age(alloc: Global, shelf: MemShelf) -> Option<(Seen, MemShelf)> {
    let mut spool = opened(alloc, shelf, 1)?;
    let first = publish(&mut spool, 10, 0);
    let Ok(hold) = spool.hold() else {
        let _shelf = spool.close();
        return None;
    };
    let second = publish(&mut spool, 20, 0);
    let one = matches!(spool.age(), Ok(true));
    let third = publish(&mut spool, 30, 7);
    let two = matches!(spool.age(), Ok(true));
    let held = read_pair(&mut spool, &hold, 0);
    let count = spool.count(&hold);
    spool.release(hold);
    let three = matches!(spool.age(), Ok(true));
    let stamps = [first, second, third];
    let aged = [one, two, three];
    let seen = Seen {
        stamps,
        aged,
        held,
        count,
    };
    Some((seen, spool.close()))
}

// The third pair's floor is 7. The held files outlive both removals, and go with the release.
#[test]
fn a_hold_keeps_its_files_beside_age(rt: HostRuntime) -> Result<(), Fail> {
    let alloc = rt.alloc();
    let shelf = MemShelf::with(alloc, &[], None)?;
    let (seen, shelf) = hold_beside_age(alloc, shelf).ok_or("the disk failed")?;
    assert_eq!(rt;
        seen.stamps,
        [Answer::Stamp(1), Answer::Stamp(2), Answer::Stamp(7)]
    );
    assert_eq!(rt; seen.aged, [true, true, false]);
    assert_eq!(rt; (seen.held, seen.count), (Some((1, 10, 11)), 1));
    let names = two_names(alloc, shelf).ok_or("names are left")?;
    assert_eq!(rt; names, [Name::Block(7), Name::Index(7)]);
    Ok(())
}

// What was answered beside two holds, what they read, and what is left at the end.
#[derive(Clone, Copy, Debug, PartialEq, Eq)]
struct Two {
    stamps: [Answer; 5],
    aged: [Option<bool>; 3],
    early: [Option<(u64, u8, u8)>; 2],
    late: [Option<(u64, u8, u8)>; 2],
    parked: usize,
    files: usize,
}

// Ends the first of two holds.
fn release_first<D: Shelf>(spool: &mut Spool<D, AnyPair>, first: Hold, second: &Hold)
    requires { spool.old.state.holds ≡ first ∷ second.now ∷ [] }
    ensures { spool.new.state.holds ≡ second.now ∷ [] }
{
    spool.release(first);
}

// How many names there are on a shelf, and how many of them are parked.
fn names_left(alloc: Global, shelf: &mut MemShelf) -> Option<(usize, usize)> {
    let Ok(names) = shelf.list(alloc) else {
        return None;
    };
    let items = names.items();
    let mut parked = 0_usize;
    for i in 0..items.len() {
        if let Name::Parked(_) = items[i] {
            parked = parked.saturating_add(1);
        }
    }
    Some((items.len(), parked))
}

// The first two pairs of a hold.
fn read_two<D: Shelf>(spool: &mut Spool<D, AnyPair>, hold: &Hold) -> [Option<(u64, u8, u8)>; 2]
    requires { Contains spool.old.state.holds hold.now }
    ensures { spool.new.state.holds ≡ spool.old.state.holds }
{
    let one = read_pair(spool, hold, 0);
    let two = read_pair(spool, hold, 1);
    [one, two]
}

// What was removed and published beside a hold.
#[derive(Clone, Copy, Debug, PartialEq, Eq)]
struct Beside {
    aged: Option<bool>,
    stamp: Answer,
}

// Removes a pair and publishes one.
fn go_on<D: Shelf>(spool: &mut Spool<D, AnyPair>, stamp: u8) -> Beside
    ensures { spool.new.state.holds ≡ spool.old.state.holds }
{
    let aged = spool.age().ok();
    let stamp = publish(spool, stamp, u64::from(stamp));
    Beside { aged, stamp }
}

// Holds what is there beside a hold.
fn hold_second<D: Shelf>(spool: &mut Spool<D, AnyPair>, first: &Hold) -> Option<Hold>
    requires { spool.old.state.holds ≡ first.now ∷ [] }
    ensures { MatchOption result (spool.new.state.holds ≡ first.now ∷ [])
        (λ second. spool.new.state.holds ≡ first.now ∷ second ∷ []) }
{
    spool.hold().ok()
}

// Reads the first of two holds and ends it; then the second one, and ends that. A further hold and
// its release try again what failed.
fn read_and_release<D: Shelf>(
    spool: &mut Spool<D, AnyPair>,
    first: Hold,
    second: Hold,
) -> [[Option<(u64, u8, u8)>; 2]; 2]
    requires { spool.old.state.holds ≡ first ∷ second ∷ [] }
    ensures { spool.new.state.holds ≡ [] }
{
    let early = read_two(spool, &first);
    release_first(spool, first, &second);
    let late = read_two(spool, &second);
    spool.release(second);
    if let Ok(last) = spool.hold() {
        spool.release(last);
    }
    [early, late]
}

// Publishes four pairs and removes three beside two holds that share a pair. The limit is 1, and a
// pair's first byte is its stamp.
fn two_holds(alloc: Global, shelf: MemShelf) -> Option<(Two, MemShelf)> {
    let mut spool = opened(alloc, shelf, 1)?;
    let one = publish(&mut spool, 10, 10);
    let two = publish(&mut spool, 20, 20);
    let Ok(first) = spool.hold() else {
        let _shelf = spool.close();
        return None;
    };
    let third = go_on(&mut spool, 30);
    let Some(second) = hold_second(&mut spool, &first) else {
        spool.release(first);
        let _shelf = spool.close();
        return None;
    };
    let fourth = go_on(&mut spool, 40);
    let last = go_on(&mut spool, 50);
    let [early, late] = read_and_release(&mut spool, first, second);
    let mut shelf = spool.close();
    let (files, parked) = names_left(alloc, &mut shelf)?;
    let stamps = [one, two, third.stamp, fourth.stamp, last.stamp];
    let aged = [third.aged, fourth.aged, last.aged];
    let seen = Two {
        stamps,
        aged,
        early,
        late,
        parked,
        files,
    };
    Some((seen, shelf))
}

fn is_pair(read: Option<(u64, u8, u8)>) -> bool {
    let Some((stamp, block, index)) = read else {
        return true;
    };
    u64::from(block) == stamp && u64::from(index) == stamp.saturating_add(1)
}

// Each hold reads its two pairs, the later one too after the earlier one ended. Whatever single
// call fails, what is read is as it was published; and unless the spool halted, no parked name is
// left at the end.
#[test]
fn two_holds_read_beside_ageing_whatever_call_fails(rt: HostRuntime) -> Result<(), Fail> {
    let alloc = rt.alloc();
    let shelf = MemShelf::with(alloc, &[], None)?;
    let (two, _shelf) = two_holds(alloc, shelf).ok_or("the disk failed")?;
    assert_eq!(rt; two.aged, [Some(true), Some(true), Some(true)]);
    assert_eq!(rt; two.early, [Some((10, 10, 11)), Some((20, 20, 21))]);
    assert_eq!(rt; two.late, [Some((20, 20, 21)), Some((30, 30, 31))]);
    assert_eq!(rt; (two.files, two.parked), (4, 0));
    let mut tried = 0_u64;
    for call in 3..100 {
        let shelf = MemShelf::with(alloc, &[call], None)?;
        let Some((two, _shelf)) = two_holds(alloc, shelf) else {
            continue;
        };
        for read in two.early {
            assert!(rt; is_pair(read), "call {call}");
        }
        for read in two.late {
            assert!(rt; is_pair(read), "call {call}");
        }
        let halts = two.stamps.contains(&Answer::DiskFault) || two.aged.contains(&None);
        assert!(rt; halts || two.parked == 0, "call {call}");
        tried = tried.saturating_add(1);
    }
    assert!(rt; tried > 80, "{tried}");
    Ok(())
}
