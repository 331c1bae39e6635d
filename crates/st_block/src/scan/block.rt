ghost use Rattle.std.specs.Prelude.{◌≡◌, ◌≤◌, ◌+◌, ◌*◌, ◌%◌, ◌^◌, length, None, Some, MatchResult, IfOk, OnOk, option_map};
ghost use Rattle.st_base.specs.Damages.{damage_view};
ghost use Rattle.st_block.specs.Checks.{join_wrong, block_wrong};
ghost use Rattle.st_block.specs.Layout.{IsLayout, IsWholeBlock};

use crate::fields::{captured_at, first_of};
use crate::format::{ALIGNMENT, BLOCK_HEAD, LEN_AT, MIN_BLOCK, RECORD_HEAD};
use crate::scan::block_fields::fields_wrong;
use crate::scan::layout::{Layout, lay_out};
use st_base::Damage;

/// The damage at the first record of a block that follows one with `before` used bytes, unless it
/// had no room there.
fn join_wrong(place: u64, before: Option<usize>, block: &[u8]) -> Option<Damage>
    requires least { MIN_BLOCK ≤ length block.now }
    requires place { place + length block.now ≤ 2 ^ 32 }
    ensures { option_map damage_view result ≡ join_wrong (length block.now) place before block.now }
{
    let before = before?;
    let found = captured_at(block.split_at(BLOCK_HEAD).1) as u64;
    let most = block.len() as u64 - (RECORD_HEAD as u64 - 1);
    let want = most.saturating_sub(before as u64);
    if found < want {
        return Some(Damage {
            place: place + (BLOCK_HEAD + LEN_AT) as u64,
            found,
            want,
        });
    }
    None
}

/// Checks a block whole: how its records are laid out, or the first check that fails.
///
/// `number` is the block's in its file, counted from 0, `before` how many bytes are used of the
/// block before, if there is one.
#[tactic(auto, unfolding(crate::specs::Checks::block_wrong))]
pub fn check_block(number: u32, before: Option<usize>, block: &[u8]) -> Result<Layout, Damage>
    // the block's size and place
    requires least { MIN_BLOCK ≤ length block.now }
    requires whole { length block.now % ALIGNMENT ≡ 0 }
    requires place { length block.now * number + length block.now ≤ 2 ^ 32 }
    // the first check that fails
    ensures wrong { MatchResult result
        (λ _. block_wrong (length block.now) number before block.now ≡ None)
        (λ d. block_wrong (length block.now) number before block.now ≡ Some (damage_view d)) }
    // a block that passes
    ensures whole { OnOk result (IsWholeBlock block.now) }
    ensures laid { IfOk result (IsLayout block.now) }
{
    let place = block.len() as u64 * number as u64;
    let layout = match lay_out(place, block) {
        Ok(layout) => layout,
        Err(damage) => return Err(damage),
    };
    let join = join_wrong(place, before, block);
    match first_of(join, fields_wrong(place, number, layout, block)) {
        Some(damage) => Err(damage),
        None => Ok(layout),
    }
}
