ghost use Rattle.std.specs.Prelude.{◌≡◌, ◌≤◌, ◌+◌, ◌*◌, ◌%◌, ◌^◌, ◌-◌, length, drop, None, Some, MatchResult, IfOk};
ghost use Rattle.st_base.specs.Damages.{damage_view};
ghost use Rattle.st_block.specs.BlockText.{used_bytes, last_of, padded_len};
ghost use Rattle.st_block.specs.Checks.{captured_length, room_at, count_of, record_at, records_of, layout_wrong};
ghost use Rattle.st_block.specs.Layout.{RecordsFit, IsLayout};

use crate::fields::{captured_at, number_at};
use crate::format::{ALIGNMENT, BLOCK_HEAD, COUNT_AT, LEN_AT, MIN_BLOCK, RECORD_HEAD};
use crate::sizes::room_of;
use st_base::Damage;

/// Where the records of a block stand, in bytes from the block's beginning: how many they are,
/// where the head of the last one is, and where its padded body ends.
#[derive(Clone, Copy)]
pub struct Layout {
    pub count: u32,
    pub last: usize,
    pub end: usize,
}

/// The number of records that a block's head says.
#[tactic(auto, unfolding(crate::specs::Checks::count_of))]
fn count_at(block: &[u8]) -> u32
    requires { BLOCK_HEAD ≤ length block.now }
    ensures { result ≡ count_of block.now }
{
    number_at(COUNT_AT, block)
}

/// Lays out the records of a block that begins at `place` of its file.
pub fn lay_out(place: u64, block: &[u8]) -> Result<Layout, Damage>
    // the block's place and size
    requires place { place + length block.now ≤ 2 ^ 32 }
    requires least { MIN_BLOCK ≤ length block.now }
    requires whole { length block.now % ALIGNMENT ≡ 0 }
    // the damage, or the layout
    ensures wrong { MatchResult result (λ _. layout_wrong place block.now ≡ None)
        (λ d. layout_wrong place block.now ≡ Some (damage_view d)) }
    ensures laid { IfOk result (IsLayout block.now) }
{
    let count = count_at(block);
    if count == 0 {
        return Err(Damage {
            place: place + COUNT_AT as u64,
            found: 0,
            want: 1,
        });
    }
    let mut last = BLOCK_HEAD;
    let mut at = BLOCK_HEAD;
    'records: for had in 0..count {
        let rest = block.split_at(at).1;
        if rest.len() < RECORD_HEAD {
            return Err(Damage {
                place: place + COUNT_AT as u64,
                found: count as u64,
                want: had as u64,
            });
        }
        let len = captured_at(rest);
        if (rest.len() as u64) < room_of(len) {
            return Err(Damage {
                place: place + at as u64 + LEN_AT as u64,
                found: len as u64,
                want: rest.len() as u64 - RECORD_HEAD as u64,
            });
        }
        last = at;
        at += room_of(len) as usize;
    }
    Ok(Layout {
        count,
        last,
        end: at,
    })
}
