//! Numbers at offsets of a head, and the checks of one field.

ghost use Rattle.std.specs.Prelude.{◌≡◌, ◌≤◌, ◌<◌, ◌+◌, ◌^◌, length, drop, option_map};
ghost use Rattle.std.specs.Option.{option_or};
ghost use Rattle.byteorder.specs.Endian.{little_number};
ghost use Rattle.st_base.specs.Damages.{damage_view};
ghost use Rattle.st_block.specs.Fields.{not_same, above, not_zero};
ghost use Rattle.st_block.specs.Checks.{captured_length};

use crate::format::{LEN_AT, RECORD_HEAD};
use byteorder::{ByteOrder, LittleEndian};
use st_base::Damage;

/// The number of two bytes from the offset `at` on.
pub fn short_at(at: usize, bytes: &[u8]) -> u16
    requires { at + 2 ≤ length bytes.now }
    ensures { result ≡ little_number 2 (drop at bytes.now) }
{
    LittleEndian::read_u16(bytes.split_at(at).1)
}

/// The number of four bytes from the offset `at` on.
pub fn number_at(at: usize, bytes: &[u8]) -> u32
    requires { at + 4 ≤ length bytes.now }
    ensures { result ≡ little_number 4 (drop at bytes.now) }
{
    LittleEndian::read_u32(bytes.split_at(at).1)
}

/// The number of eight bytes from the offset `at` on.
pub fn long_at(at: usize, bytes: &[u8]) -> u64
    requires { at + 8 ≤ length bytes.now }
    ensures { result ≡ little_number 8 (drop at bytes.now) }
{
    LittleEndian::read_u64(bytes.split_at(at).1)
}

/// The captured length that the record's head says with which `bytes` begin.
#[tactic(auto, unfolding(crate::specs::Checks::captured_length))]
pub fn captured_at(bytes: &[u8]) -> u32
    requires { RECORD_HEAD ≤ length bytes.now }
    ensures { result ≡ captured_length bytes.now }
{
    number_at(LEN_AT, bytes)
}

/// The first of two damages, where there is one.
pub fn first_of(one: Option<Damage>, other: Option<Damage>) -> Option<Damage>
    ensures { option_map damage_view result
        ≡ option_or (option_map damage_view one) (option_map damage_view other) }
{
    match one {
        Some(damage) => Some(damage),
        None => other,
    }
}

/// The damage at `place`, unless `found` is `want`.
pub fn not_same(place: u64, found: u64, want: u64) -> Option<Damage>
    ensures { option_map damage_view result ≡ not_same place found want }
{
    if found == want {
        return None;
    }
    Some(Damage { place, found, want })
}

/// The damage at `place`, unless `found` is at most `want`.
pub fn above(place: u64, found: u64, want: u64) -> Option<Damage>
    ensures { option_map damage_view result ≡ above place found want }
{
    if want < found {
        return Some(Damage { place, found, want });
    }
    None
}

/// The damage at the first byte that isn't zero, of bytes that begin at `place`.
pub fn not_zero(place: u64, bytes: &[u8]) -> Option<Damage>
    requires { place + length bytes.now < 2 ^ 64 }
    ensures { option_map damage_view result ≡ not_zero place bytes.now }
{
    let mut at = place;
    'bytes: for byte in bytes {
        if *byte != 0 {
            return Some(Damage {
                place: at,
                found: *byte as u64,
                want: 0,
            });
        }
        at += 1;
    }
    None
}
