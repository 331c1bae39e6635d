ghost use Rattle.std.specs.Prelude.{◌≡◌, ◌≤◌, ◌<◌, ◌^◌, ◌++◌, List, ℕ, length, IfSome, Some};
ghost use Rattle.arrayvec.specs.ArrayVec.{array_vec_len};
ghost use Rattle.st_tblock.specs.Varint.{groups_in, varint_in, varint32_in, varint_of};

use arrayvec::ArrayVec;

/// The number in the groups that `bytes` begin with, of which there may be `room`, and how many
/// bytes they take.
#[tactic(auto, using(crate::proofs::Groups::powers))]
fn groups(bytes: &[u8], room: u32) -> Option<(u128, usize)>
    requires { room ≤ 10 }
    // what comes
    ensures value { result ≡ groups_in room bytes.now }
    // how large the number is
    ensures fits { IfSome result (λ x. x.0 < 128 ^ room) }
    // how many bytes it takes
    ensures size { IfSome result (λ x. x.1 ≤ room) }
    ensures some { IfSome result (λ x. 1 ≤ x.1) }
    ensures within { IfSome result (λ x. x.1 ≤ length bytes.now) }
{
    let (first, rest) = bytes.split_first()?;
    if room == 0 {
        return None;
    }
    if *first < 128 {
        return Some((u128::from(*first), 1));
    }
    let (high, size) = groups(rest, room - 1)?;
    Some((u128::from(*first - 128) + 128 * high, size + 1))
}

/// The number in the two groups that `bytes` begin with, where no more come.
fn pair(bytes: &[u8]) -> Option<u16>
    ensures value { IfSome result (λ n. (room : ℕ) → 2 ≤ room
        → groups_in room bytes.now ≡ Some (n, 2)) }
    ensures within { IfSome result (λ n. 2 ≤ length bytes.now) }
{
    let [first, second, ..] = bytes else {
        return None;
    };
    if *first < 128 || *second >= 128 {
        return None;
    }
    Some(u16::from(*first - 128) + 128 * u16::from(*second))
}

/// The varint64 that `bytes` begin with: the number, below 2^64, and how many bytes it takes, 1
/// to 10.
///
/// `None` comes if and only if no varint64 begins the bytes: the bytes end within it, its tenth
/// byte says that more come, or the number is 2^64 or above. Leading zero groups are allowed.
/// Source: LevelDB, util/coding.h; docs/FORMAT.md, "Table file".
pub fn get_varint(bytes: &[u8]) -> Option<(u64, usize)>
    ensures value { result ≡ varint_in bytes.now }
    ensures some { IfSome result (λ x. 1 ≤ x.1) }
    ensures within { IfSome result (λ x. x.1 ≤ length bytes.now) }
{
    let (first, _) = bytes.split_first()?;
    if *first < 128 {
        return Some((u64::from(*first), 1));
    }
    if let Some(number) = pair(bytes) {
        return Some((u64::from(number), 2));
    }
    let (number, size) = groups(bytes, 10)?;
    let number = u64::try_from(number).ok()?;
    Some((number, size))
}

/// The varint32 that `bytes` begin with: the number, below 2^32, and how many bytes it takes, 1
/// to 5.
///
/// `None` comes if and only if no varint32 begins the bytes.
/// Source: LevelDB, util/coding.h; docs/FORMAT.md, "Table file".
pub fn get_varint32(bytes: &[u8]) -> Option<(u32, usize)>
    ensures value { result ≡ varint32_in bytes.now }
    ensures some { IfSome result (λ x. 1 ≤ x.1) }
    ensures within { IfSome result (λ x. x.1 ≤ length bytes.now) }
{
    let (first, _) = bytes.split_first()?;
    if *first < 128 {
        return Some((u32::from(*first), 1));
    }
    if let Some(number) = pair(bytes) {
        return Some((u32::from(number), 2));
    }
    let (number, size) = groups(bytes, 5)?;
    let number = u32::try_from(number).ok()?;
    Some((number, size))
}

/// The groups of `value`, as few as there can be.
#[tactic(auto, using(crate::proofs::Groups::groups_last))]
fn groups_text(value: u64) -> ArrayVec<u8, 10>
    ensures { result.items ≡ varint_of value }
{
    let mut out = ArrayVec::new();
    let mut rest = value;
    'groups: while rest >= 128 && out.len() < 9 {
        out.push(128 + (rest % 128) as u8);
        rest /= 128;
    }
    out.push((rest % 128) as u8);
    out
}

/// The varint of `value`: 1 to 10 bytes, as few as there can be.
///
/// It takes no memory. Source: LevelDB, util/coding.h; docs/FORMAT.md, "Table file".
pub fn put_varint(value: u64) -> ArrayVec<u8, 10>
    ensures text { result.items ≡ varint_of value }
    ensures read { (rest : List ℕ)
        → varint_in (result.items ++ rest) ≡ Some (value, length result.items) }
{
    groups_text(value)
}
