//! One caller with one pass, which makes each call of a shared spool.

ghost use Rattle.std.specs.Prelude.{◌≡◌, ◌<◌, [], ◌∷◌, Contains};
ghost use Rattle.st_spool.specs.Holding.{size_of};
ghost use Rattle.st_turn.specs.Passes.{IsOf, IsSame};

use st_shelf::{End, Kind, MemShelf, Name, Shelf};
use st_spool::Hold;
use st_turn::{NotShared, share};
use std::alloc::Global;
use std::sync::Wait;
use turn_trials::{SharedSpool, SpoolPass, age, block_byte, index_byte, opened, publish};

// The stamp of one pair of a hold, and the bytes of its two files.
fn read_pair<D: Shelf, R: Wait>(
    rt: &R,
    shared: &SharedSpool<D>,
    pass: &mut SpoolPass<D>,
    hold: &Hold,
    i: usize,
) -> Option<(u64, u8, u8)>
    // whose pass it is, and which pair
    requires of { IsOf shared.now pass.old }
    requires held { Contains pass.old.state.held hold.now }
    requires within { i < size_of hold.now }
    // the pass
    ensures same { IsSame pass.old pass.new }
    ensures holds { pass.new.state.held ≡ pass.old.state.held }
{
    let stamp = shared.stamp_of(rt, pass, hold, i);
    let block = block_byte(rt, shared, pass, hold, i)?;
    let index = index_byte(rt, shared, pass, hold, i)?;
    Some((stamp, block, index))
}

/// What was answered beside one hold of two pairs.
#[derive(Clone, Copy, Debug, PartialEq, Eq)]
pub struct Seen {
    /// The stamps of two publications.
    pub stamps: [Option<u64>; 2],
    /// Whether each of two ageings removed a pair.
    pub aged: [Option<bool>; 2],
    /// How many pairs were held.
    pub count: usize,
    /// The stamps of the first two, and the byte of each of their files.
    pub pairs: [Option<(u64, u8, u8)>; 2],
}

// How many pairs a hold has, and the first two of them.
fn read_two<D: Shelf, R: Wait>(
    rt: &R,
    shared: &SharedSpool<D>,
    pass: &mut SpoolPass<D>,
    hold: &Hold,
) -> (usize, [Option<(u64, u8, u8)>; 2])
    requires of { IsOf shared.now pass.old }
    requires held { Contains pass.old.state.held hold.now }
    ensures same { IsSame pass.old pass.new }
    ensures holds { pass.new.state.held ≡ pass.old.state.held }
{
    let count = shared.count(rt, pass, hold);
    if count < 2 {
        return (count, [None, None]);
    }
    let first = read_pair(rt, shared, pass, hold, 0);
    let second = read_pair(rt, shared, pass, hold, 1);
    (count, [first, second])
}

// Makes a draft and gives it up.
fn give_up_draft<D: Shelf, R: Wait>(rt: &R, shared: &SharedSpool<D>, pass: &mut SpoolPass<D>)
    requires { IsOf shared.now pass.old }
    ensures same { IsSame pass.old pass.new }
    ensures holds { pass.new.state.held ≡ pass.old.state.held }
{
    if let Ok(draft) = shared.create(rt, pass, Kind::Index) {
        shared.abandon(rt, pass, End::Unsealed(draft));
    }
}

// Publishes two pairs, removes one while both are held, reads both and releases them.
fn each_call<D: Shelf, R: Wait>(
    rt: &R,
    shared: &SharedSpool<D>,
    pass: &mut SpoolPass<D>,
) -> Option<Seen>
    requires of { IsOf shared.now pass.old }
    requires empty { pass.old.state.held ≡ [] }
    ensures same { IsSame pass.old pass.new }
    ensures empty { pass.new.state.held ≡ [] }
{
    give_up_draft(rt, shared, pass);
    let first = publish(rt, shared, pass, &[10], &[11]);
    let second = publish(rt, shared, pass, &[20], &[21]);
    let Ok(hold) = shared.hold(rt, pass) else {
        return None;
    };
    let one = age(rt, shared, pass);
    let (count, pairs) = read_two(rt, shared, pass, &hold);
    shared.release(rt, pass, hold);
    let two = age(rt, shared, pass);
    Some(Seen {
        stamps: [first, second],
        aged: [one, two],
        count,
        pairs,
    })
}

/// Shares a spool over this shelf, whose limit is one pair, and takes it back.
pub fn one_caller<R: Wait>(rt: &R, alloc: Global, shelf: MemShelf) -> Option<(Seen, MemShelf)> {
    let spool = opened(alloc, shelf, 1)?;
    let (shared, mut passes) = match share(alloc, spool, 1) {
        Ok(both) => both,
        Err(NotShared { spool }) => {
            let _shelf = spool.close();
            return None;
        }
    };
    let seen = each_call(rt, &shared, &mut passes[0]);
    let spool = shared.finish(passes);
    let shelf = spool.close();
    Some((seen?, shelf))
}

/// The names on a shelf, of which there are two.
pub fn two_names(alloc: Global, shelf: MemShelf) -> Option<[Name; 2]> {
    let mut shelf = shelf;
    let Ok(names) = shelf.list(alloc) else {
        return None;
    };
    let items = names.items();
    if items.len() != 2 {
        return None;
    }
    Some([items[0], items[1]])
}
