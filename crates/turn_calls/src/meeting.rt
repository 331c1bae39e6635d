//! Two callers with a pass each, of which one tells the other what it saw.

ghost use Rattle.std.specs.Prelude.{◌≡◌, ◌<◌, Contains};
ghost use Rattle.st_spool.specs.Holding.{size_of};
ghost use Rattle.st_turn.specs.Passes.{IsOf, IsSame};
ghost use Rattle.turn_trials.specs.Resting.{Rests, Rested};

use st_shelf::{MemShelf, Shelf};
use st_spool::Hold;
use st_turn::{NotShared, share};
use std::alloc::Global;
use std::sync::Wait;
use turn_trials::{SharedSpool, SpoolPass, opened, publish};

/// What two callers were answered: one before they met, and the other one after it.
#[derive(Clone, Copy, Debug, PartialEq, Eq)]
pub struct Told {
    /// The stamp of the pair that the first one published.
    pub stamp: Option<u64>,
    /// How many pairs the second one held.
    pub count: usize,
    /// The stamp of the oldest of them.
    pub oldest: Option<u64>,
}

// Publishes a pair by one pass, which then meets the other one.
fn publish_and_meet<D: Shelf, R: Wait>(
    rt: &R,
    shared: &SharedSpool<D>,
    a: &mut SpoolPass<D>,
    b: &mut SpoolPass<D>,
) -> Option<u64>
    requires { Rests shared.now a.old × Rests shared.now b.old }
    ensures a { Rested a.old a.new }
    ensures b { Rested b.old b.new }
    // both have seen the same history, after the publication
    ensures seen { b.new.state.card.seen ≡ a.new.state.card.seen }
{
    let stamp = publish(rt, shared, a, &[10], &[11]);
    shared.meet(a, b);
    stamp
}

// How many pairs a hold has, and the stamp of the oldest of them.
fn read_oldest<D: Shelf, R: Wait>(
    rt: &R,
    shared: &SharedSpool<D>,
    pass: &mut SpoolPass<D>,
    hold: &Hold,
) -> (usize, Option<u64>)
    requires of { IsOf shared.now pass.old }
    requires held { Contains pass.old.state.held hold.now }
    ensures same { IsSame pass.old pass.new }
    ensures holds { pass.new.state.held ≡ pass.old.state.held }
{
    let count = shared.count(rt, pass, hold);
    if count == 0 {
        return (count, None);
    }
    let stamp = shared.stamp_of(rt, pass, hold, 0);
    (count, Some(stamp))
}

// What a pass reads of all pairs, while it holds them.
fn hold_and_read<D: Shelf, R: Wait>(
    rt: &R,
    shared: &SharedSpool<D>,
    pass: &mut SpoolPass<D>,
) -> (usize, Option<u64>)
    requires { Rests shared.now pass.old }
    ensures { Rested pass.old pass.new }
{
    let Ok(hold) = shared.hold(rt, pass) else {
        return (0, None);
    };
    let read = read_oldest(rt, shared, pass, &hold);
    shared.release(rt, pass, hold);
    read
}

// Publishes a pair by one pass, and reads by the other one, which met it.
fn meet_and_read<D: Shelf, R: Wait>(
    rt: &R,
    shared: &SharedSpool<D>,
    a: &mut SpoolPass<D>,
    b: &mut SpoolPass<D>,
) -> Told
    requires { Rests shared.now a.old × Rests shared.now b.old }
    ensures a { Rested a.old a.new }
    ensures b { Rested b.old b.new }
{
    let stamp = publish_and_meet(rt, shared, a, b);
    let (count, oldest) = hold_and_read(rt, shared, b);
    Told {
        stamp,
        count,
        oldest,
    }
}

/// Shares a spool over this shelf, whose limit is one pair, between two passes, and takes it back.
/// None if memory ran out before.
pub fn two_callers<R: Wait>(rt: &R, alloc: Global, shelf: MemShelf) -> Option<Told> {
    let spool = opened(alloc, shelf, 1)?;
    let (shared, mut passes) = match share(alloc, spool, 2) {
        Ok(both) => both,
        Err(NotShared { spool }) => {
            let _shelf = spool.close();
            return None;
        }
    };
    let second = passes.pop();
    let first = passes.pop();
    let Some(mut a) = first else { unreachable!() };
    let Some(mut b) = second else { unreachable!() };
    let told = meet_and_read(rt, &shared, &mut a, &mut b);
    let pushed = passes.push(a);
    let Ok(()) = pushed else { unreachable!() };
    let pushed = passes.push(b);
    let Ok(()) = pushed else { unreachable!() };
    let spool = shared.finish(passes);
    let _shelf = spool.close();
    Some(told)
}
