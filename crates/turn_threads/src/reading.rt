//! Pairs of small files, read in turns. The index's one byte is the block's and one more.

ghost use Rattle.std.specs.Prelude.{◌≡◌, ◌∷◌, Contains};
ghost use Rattle.st_turn.specs.Passes.{IsOf, IsSame};
ghost use Rattle.turn_trials.specs.Resting.{Rests, Rested};

use st_shelf::Shelf;
use st_spool::Hold;
use std::sync::Wait;
use turn_trials::{SharedSpool, SpoolPass, block_byte, index_byte};

// How many pairs of a hold are not read as they were published.
fn unread<D: Shelf, R: Wait>(
    rt: &R,
    shared: &SharedSpool<D>,
    pass: &mut SpoolPass<D>,
    hold: &Hold,
) -> u64
    requires of { IsOf shared.now pass.old }
    requires held { Contains pass.old.state.held hold.now }
    ensures same { IsSame pass.old pass.new }
    ensures holds { pass.new.state.held ≡ pass.old.state.held }
{
    let mut count: u64 = 0;
    for i in 0..shared.count(rt, pass, hold) {
        let block = block_byte(rt, shared, pass, hold, i);
        let index = index_byte(rt, shared, pass, hold, i);
        if index.is_none() || index != block.map(|byte| byte.wrapping_add(1)) {
            count = count.saturating_add(1);
        }
    }
    count
}

/// Holds the set of all pairs, reads both files of each, and releases it. It answers how many pairs
/// were not read, and None if there was no memory to hold them.
pub fn read_all<D: Shelf, R: Wait>(
    rt: &R,
    shared: &SharedSpool<D>,
    pass: &mut SpoolPass<D>,
) -> Option<u64>
    requires { Rests shared.now pass.old }
    ensures { Rested pass.old pass.new }
{
    let Ok(hold) = shared.hold(rt, pass) else {
        return None;
    };
    let count = unread(rt, shared, pass, &hold);
    shared.release(rt, pass, hold);
    Some(count)
}
