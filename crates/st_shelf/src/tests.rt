ghost use Rattle.std.specs.Prelude.{◌≡◌, ◌↔◌, IsTrue, IsSome};
ghost use Rattle.st_disk.specs.LoggedCalls.{Reads};

use super::*;
use st_base::{Failed, Reader, put};
use st_disk::published_name;
use std::alloc::Global;
use std::test::Fail;

impl MemShelf {
    // Whether a name is there. This is no call of the shelf.
    fn has(&self, name: Name) -> bool
        ensures { Reads (⟦<MemShelf as Shelf>⟧.log self.now) name (λ v. IsTrue result ↔ IsSome v) }
    {
        self.book.get(name).is_some()
    }
}

// Puts a file of three bytes under a free name, or gives the draft up.
fn put_file(shelf: &mut MemShelf, kind: Kind, stamp: u64) -> Result<(), u64> {
    let Ok(mut draft) = shelf.create(kind) else {
        return Err(0);
    };
    if put(&mut draft, b"abc").is_err() {
        shelf.abandon(End::Unsealed(draft));
        return Err(1);
    }
    let sealed = match draft.seal() {
        Ok(sealed) => sealed,
        Err(draft) => {
            shelf.abandon(End::Unsealed(draft));
            return Err(2);
        }
    };
    let name = published_name(kind, stamp);
    if shelf.has(name) {
        shelf.abandon(End::Sealed(sealed));
        return Err(u64::MAX);
    }
    match shelf.settle(sealed, name) {
        Ok(()) => Ok(()),
        Err(sealed) => {
            shelf.abandon(End::Sealed(sealed));
            Err(3)
        }
    }
}

// Reads two bytes of the index of stamp 7, by three calls.
fn read_file(shelf: &mut MemShelf) -> Result<[u8; 2], u64> {
    if !shelf.has(Name::Index(7)) {
        return Err(u64::MAX);
    }
    let Ok(mut file) = shelf.reader(Name::Index(7)) else {
        return Err(6);
    };
    let mut part = [0; 2];
    let read = file.read_at(1, &mut part);
    shelf.close(file);
    match read {
        Ok(_) => Ok(part),
        Err(Failed) => Err(7),
    }
}

// A run of eleven calls that leaves nothing, or the number of the first that was refused. That of
// `close`, 8, never is.
fn run(shelf: &mut MemShelf, alloc: Global) -> Result<[u8; 2], u64> {
    put_file(shelf, Kind::Index, 7)?;
    if shelf.flush(Kind::Index).is_err() {
        return Err(4);
    }
    match shelf.list(alloc) {
        Ok(_) => {}
        Err(ListErr::DiskFault) => return Err(5),
        Err(ListErr::NoMemory) => return Err(u64::MAX),
    }
    let part = read_file(shelf)?;
    if !shelf.has(Name::Index(7)) || shelf.has(Name::Parked(7)) {
        return Err(u64::MAX);
    }
    if shelf.hide(7).is_err() {
        return Err(9);
    }
    match shelf.remove(Name::Parked(7)) {
        Ok(()) => Ok(part),
        Err(Failed) => Err(10),
    }
}

const DRAFT: Name = Name::Draft {
    kind: Kind::Index,
    number: 0,
};

// Of each call that fails, alone or with all that follow it: what the run returns, how often the
// shelf failed, and what is read at the end.
#[test]
fn each_listed_call_fails(rt: HostRuntime) -> Result<(), Fail> {
    let alloc = rt.alloc();
    let (nothing, draft) = ([].as_slice(), [DRAFT].as_slice());
    let (index, parked) = ([Name::Index(7)].as_slice(), [Name::Parked(7)].as_slice());
    let cases = [
        (0, (Err(0), 1, nothing), (Err(0), 1, nothing)),
        (1, (Err(1), 1, nothing), (Err(1), 2, draft)),
        (2, (Err(2), 1, nothing), (Err(2), 2, draft)),
        (3, (Err(3), 1, nothing), (Err(3), 2, draft)),
        (4, (Err(4), 1, index), (Err(4), 1, index)),
        (5, (Err(5), 1, index), (Err(5), 1, index)),
        (6, (Err(6), 1, index), (Err(6), 1, index)),
        (7, (Err(7), 1, index), (Err(7), 1, index)),
        (8, (Ok(*b"bc"), 1, nothing), (Err(9), 2, index)),
        (9, (Err(9), 1, index), (Err(9), 1, index)),
        (10, (Err(10), 1, parked), (Err(10), 1, parked)),
        (11, (Ok(*b"bc"), 0, nothing), (Ok(*b"bc"), 0, nothing)),
    ];
    for (call, alone, stopped) in cases {
        let once = MemShelf::with(alloc, &[call], None)?;
        let stop = MemShelf::with(alloc, &[], Some(call))?;
        for (mut shelf, (answer, faults, left)) in [(once, alone), (stop, stopped)] {
            assert_eq!(rt; run(&mut shelf, alloc), answer, "call {call}");
            assert_eq!(rt; shelf.fault_count(), faults, "call {call}");
            // One file was out where the call of number 6, `reader`, was Ok.
            assert_eq!(rt; shelf.peak_lent(), u64::from(call > 6), "call {call}");
            // All changes that were not flushed, of which there are fewer than 64.
            let mut image = shelf.crash(alloc, shelf.moments(), u64::MAX)?;
            assert_eq!(rt; image.list(alloc)?.items(), left, "call {call}");
        }
    }
    Ok(())
}

// Of the run's calls those of the shelf are moments, one that fails and `close` too.
#[test]
fn each_call_of_the_shelf_is_a_moment(rt: HostRuntime) -> Result<(), Fail> {
    let alloc = rt.alloc();
    for (call, moments) in [(0, 1), (2, 2), (3, 3), (7, 6), (8, 8), (9, 7), (11, 8)] {
        let mut shelf = MemShelf::with(alloc, &[call], None)?;
        let _ = run(&mut shelf, alloc);
        assert_eq!(rt; shelf.moments(), moments, "call {call}");
    }
    Ok(())
}

// A block file and then an index are put and flushed the other way round. Before the flushes bits 0
// and 1 of a choice are the block's making and renaming, bits 2 and 3 the index's.
#[test]
fn a_crash_leaves_what_the_choice_says(rt: HostRuntime) -> Result<(), Fail> {
    let alloc = rt.alloc();
    let mut shelf = MemShelf::with(alloc, &[], None)?;
    assert_eq!(rt; put_file(&mut shelf, Kind::Block, 7), Ok(()));
    assert_eq!(rt; put_file(&mut shelf, Kind::Index, 7), Ok(()));
    shelf.flush(Kind::Index)?;
    shelf.flush(Kind::Block)?;
    let (block, index) = (Name::Block(7), Name::Index(7));
    let (number, kind) = (0, Kind::Block);
    let first = Name::Draft { kind, number };
    let (number, kind) = (1, Kind::Index);
    let second = Name::Draft { kind, number };
    let images = [
        (0, u64::MAX, [None, None]),
        (1, 0, [None, None]),
        (1, 1, [Some(first), None]),
        (2, 1, [Some(first), None]),
        // A renaming of what was never made is skipped.
        (2, 2, [None, None]),
        (2, 3, [Some(block), None]),
        (3, 4, [Some(second), None]),
        (3, 7, [Some(block), Some(second)]),
        (4, 0, [None, None]),
        (4, 3, [Some(block), None]),
        (4, 5, [Some(first), Some(second)]),
        (4, 12, [Some(index), None]),
        (4, 15, [Some(block), Some(index)]),
        (5, 0, [Some(index), None]),
        (5, 3, [Some(block), Some(index)]),
        (6, 0, [Some(block), Some(index)]),
    ];
    assert_eq!(rt;
        (shelf.moments(), shelf.calls(), shelf.peak_lent()),
        (6, 10, 0)
    );
    for (moment, choice, left) in images {
        let mut image = shelf.crash(alloc, shelf.moments().min(moment), choice)?;
        let names: Vec<Name> = left.into_iter().flatten().collect(alloc)?;
        assert_eq!(rt;
            image.list(alloc)?.items(),
            names.as_slice(),
            "{choice} at {moment}"
        );
    }
    let mut sure = MemShelf::empty(alloc);
    assert_eq!(rt; put_file(&mut sure, Kind::Index, 7), Ok(()));
    assert_eq!(rt; (sure.moments(), sure.calls()), (2, 0));
    Ok(())
}
