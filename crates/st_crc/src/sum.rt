//! The sum by slicing by 16: sixteen bytes a step, with a table for each.

ghost use Rattle.std.specs.Prelude.{◌≡◌, ◌≤◌, ◌<◌, ◌^◌, ◌/◌, ◌%◌, ◌*◌, ◌++◌, ◌∷◌, [], length, bit_xor};
ghost use Rattle.st_crc.specs.Sum.{bits_out, crc_over_byte, crc_over, crc_of, masked};

use crate::numbers::{ALL_ONES, MASK_DELTA, MASK_TURN};
use crate::tables::TABLES;
use byteorder::{ByteOrder, LittleEndian};

/// The lowest byte of a word after the bits of this many bytes, 1 to 16, were shifted out.
fn lowest_out(bytes: usize, word: u64) -> u32
    requires at_least { 1 ≤ bytes }
    requires at_most { bytes ≤ 16 }
    ensures { result ≡ bits_out (8 * bytes) (word % 256) }
{
    TABLES[bytes - 1][(word % 256) as usize]
}

/// A word after the bits of this many bytes, 8 to 16, were shifted out.
///
/// Its lowest bytes wait for the remainder of the step before, so they are read last.
#[inline(always)]
fn word_out(bytes: usize, word: u64) -> u32
    requires at_least { 8 ≤ bytes }
    requires at_most { bytes ≤ 16 }
    ensures { result ≡ bits_out (8 * bytes) word }
{
    lowest_out(bytes - 7, word >> 56)
        ^ lowest_out(bytes - 6, word >> 48)
        ^ lowest_out(bytes - 5, word >> 40)
        ^ lowest_out(bytes - 4, word >> 32)
        ^ lowest_out(bytes - 3, word >> 24)
        ^ lowest_out(bytes - 2, word >> 16)
        ^ lowest_out(bytes - 1, word >> 8)
        ^ lowest_out(bytes, word)
}

/// The remainder after one more byte.
fn after_byte(state: u32, byte: u8) -> u32
    ensures { result ≡ crc_over_byte state byte }
{
    lowest_out(1, u64::from(state ^ u32::from(byte))) ^ (state >> 8)
}

/// The remainder after eight bytes.
fn after_eight(state: u32, eight: &[u8]) -> u32
    requires { length eight.now ≡ 8 }
    ensures { result ≡ crc_over state eight.now }
{
    let word = u64::from(state) ^ LittleEndian::read_u64(eight);
    word_out(8, word)
}

/// The remainder after sixteen bytes.
fn after_sixteen(state: u32, sixteen: &[u8]) -> u32
    requires { length sixteen.now ≡ 16 }
    ensures { result ≡ crc_over state sixteen.now }
{
    let (low, high) = sixteen.split_at(8);
    let first = u64::from(state) ^ LittleEndian::read_u64(low);
    let second = LittleEndian::read_u64(high);
    // The second word waits for no step before, so it goes first.
    word_out(8, second) ^ word_out(16, first)
}

/// The remainder after all these bytes, one at a time.
fn after_each(start: u32, bytes: &[u8]) -> u32
    ensures { result ≡ crc_over start bytes.now }
{
    let mut state = start;
    'bytes: for byte in bytes {
        state = after_byte(state, *byte);
    }
    state
}

/// The remainder after all these bytes, of which the first eight are taken in one step.
fn after_few(start: u32, bytes: &[u8]) -> u32
    ensures { result ≡ crc_over start bytes.now }
{
    if bytes.len() < 8 {
        return after_each(start, bytes);
    }
    let (eight, rest) = bytes.split_at(8);
    after_each(after_eight(start, eight), rest)
}

/// The remainder after all these bytes.
fn after_bytes(start: u32, bytes: &[u8]) -> u32
    ensures { result ≡ crc_over start bytes.now }
{
    let mut state = start;
    let mut rest = bytes;
    'sixteens: while rest.len() >= 16 {
        let (sixteen, more) = rest.split_at(16);
        state = after_sixteen(state, sixteen);
        rest = more;
    }
    after_few(state, rest)
}

/// The CRC-32C of `bytes` followed by the byte `kind`.
///
/// It takes no memory. Source: RFC 3720, section 12.1; docs/FORMAT.md, "Table file".
pub fn crc32c(bytes: &[u8], kind: u8) -> u32
    ensures { result ≡ crc_of (bytes.now ++ kind ∷ []) }
{
    after_byte(after_bytes(ALL_ONES, bytes), kind) ^ ALL_ONES
}

/// A sum as a table stores it: turned right by 15 bits, plus a constant.
///
/// A table's bytes may themselves hold sums, which a plain sum over them would not tell apart
/// well. Source: LevelDB, util/crc32c.h; docs/FORMAT.md, "Table file".
#[tactic(auto, unfolding(crate::specs::Sum::masked))]
pub fn mask(crc: u32) -> u32
    ensures { result ≡ masked crc }
{
    crc.rotate_right(MASK_TURN).wrapping_add(MASK_DELTA)
}
