//! The first byte at which a row of an index differs from the row that is wanted.

ghost use Rattle.std.specs.Prelude.{◌≡◌, ◌≢◌, ◌<◌, ◌-◌, ◌^◌, List, ℕ, [], length, IfSome, Some};
ghost use Rattle.st_index.specs.CheckRows.{first_difference, length_text, row_text};

/// What stands for a byte where there is none: no byte is as large.
pub const NO_BYTE: u64 = 256;

/// The first byte at which `found` differs from `wanted`, and the byte of `wanted` in its place.
/// [`NO_BYTE`] stands for the byte of the one that ends there.
fn differing_byte(found: &[u8], wanted: &[u8]) -> Option<(u64, u64)>
    ensures first { result ≡ first_difference found.now wanted.now }
    ensures differs { IfSome result (λ x. x.0 ≢ x.1) }
{
    let mut left = found;
    let mut wanted_left = wanted;
    'bytes: loop {
        match (left.split_first(), wanted_left.split_first()) {
            (Some((a, more)), Some((b, wanted_more))) => {
                if *a != *b {
                    return Some((u64::from(*a), u64::from(*b)));
                }
                left = more;
                wanted_left = wanted_more;
            }
            (Some((a, _)), None) => return Some((u64::from(*a), NO_BYTE)),
            (None, Some((b, _))) => return Some((NO_BYTE, u64::from(*b))),
            (None, None) => return None,
        }
    }
}

/// The length of a key in four bytes, the highest first, or the greatest number of four bytes where
/// the key is longer.
#[tactic(auto, unfolding(crate::specs::CheckRows::length_text))]
fn length_bytes(key: &[u8]) -> [u8; 4]
    ensures { result ≡ length_text key.now }
{
    let size = if key.len() < u32::MAX as usize {
        key.len() as u32
    } else {
        u32::MAX
    };
    size.to_be_bytes()
}

/// The first byte at which a row differs from the one that is wanted, and what that one has there:
/// of the lengths of the keys in four bytes, of the keys, and of the values.
#[tactic(auto, using(crate::proofs::Differences::by_parts))]
pub fn row_difference(
    key: &[u8],
    value: &[u8],
    wanted_key: &[u8],
    wanted_value: &[u8],
) -> Option<(u64, u64)>
    requires { length wanted_key.now < 2 ^ 32 - 1 }
    ensures first { result ≡ first_difference (row_text (key.now, value.now))
        (row_text (wanted_key.now, wanted_value.now)) }
    ensures differs { IfSome result (λ x. x.0 ≢ x.1) }
{
    let length = length_bytes(key);
    let wanted_length = length_bytes(wanted_key);
    if let Some(difference) = differing_byte(&length, &wanted_length) {
        return Some(difference);
    }
    if let Some(difference) = differing_byte(key, wanted_key) {
        return Some(difference);
    }
    differing_byte(value, wanted_value)
}

/// The first byte of a row with this key, and [`NO_BYTE`], which no byte is.
#[tactic(auto, unfolding(crate::specs::CheckRows::length_text))]
pub fn first_byte(key: &[u8]) -> u64
    ensures first { (value : List ℕ)
        → first_difference (row_text (key.now, value)) [] ≡ Some (result, NO_BYTE) }
    ensures wanted { (value : List ℕ)
        → first_difference [] (row_text (key.now, value)) ≡ Some (NO_BYTE, result) }
    ensures byte { result < 256 }
{
    u64::from(length_bytes(key)[0])
}
