//! What is wrong with the value of one row of an index.

ghost use Rattle.std.specs.Prelude.{◌≡◌, ◌≤◌, List, ℕ, length, option_map, Some};
ghost use Rattle.byteorder.specs.Endian.{big_number};
ghost use Rattle.st_base.specs.Damages.{damage_view};
ghost use Rattle.st_rows.specs.Positions.{positions_in};
ghost use Rattle.st_index.specs.CheckRows.{is_summary_key, summary_wrong, rises, positions_wrong, value_wrong};

use byteorder::{BigEndian, ByteOrder};
use st_base::Damage;
use st_rows::{INDEX_VERSION, POSITION_SIZE, SUMMARY_KIND, SUMMARY_SIZE};

/// Whether this is the key of the summary row.
pub fn is_summary(key: &[u8]) -> bool
    ensures { result ≡ is_summary_key key.now }
{
    match key {
        [kind] => *kind == SUMMARY_KIND,
        _ => false,
    }
}

/// The first check of the summary row's value that fails: its length in bytes, of which 24 is
/// wanted, and its version, of which 1 is wanted. The place is always 0.
pub fn summary_damage(value: &[u8]) -> Option<Damage>
    ensures { option_map damage_view result ≡ summary_wrong (Some value.now) }
{
    if value.len() != SUMMARY_SIZE {
        return Some(Damage {
            place: 0,
            found: value.len() as u64,
            want: SUMMARY_SIZE as u64,
        });
    }
    let version = BigEndian::read_u32(value);
    if version != INDEX_VERSION {
        return Some(Damage {
            place: 0,
            found: u64::from(version),
            want: u64::from(INDEX_VERSION),
        });
    }
    None
}

/// Whether the positions in a row's value rise.
fn are_rising(value: &[u8]) -> bool
    ensures { result ≡ rises (positions_in value.now) }
{
    let mut left = value;
    'positions: while left.len() >= 2 * POSITION_SIZE {
        let more = left.split_at(POSITION_SIZE).1;
        if BigEndian::read_u32(left) >= BigEndian::read_u32(more) {
            return false;
        }
        left = more;
    }
    true
}

/// The first check of a row's positions that fails: the remainder by 4 of their length in bytes,
/// of which 0 is wanted, and whether they rise, with 0 found and 1 wanted. The place is always 0.
pub fn positions_damage(value: &[u8]) -> Option<Damage>
    ensures { option_map damage_view result ≡ positions_wrong value.now }
{
    let remainder = value.len() % POSITION_SIZE;
    if remainder != 0 {
        return Some(Damage {
            place: 0,
            found: remainder as u64,
            want: 0,
        });
    }
    if are_rising(value) {
        return None;
    }
    Some(Damage::broken(0))
}
