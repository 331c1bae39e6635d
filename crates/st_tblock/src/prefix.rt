//! The prefix that two keys have in common, and how they compare after it.

ghost use Rattle.std.specs.Prelude.{◌≡◌, ◌≤◌, length, nat_eq};
ghost use Rattle.std.specs.List.{common_prefix_len};
ghost use Rattle.st_tblock.specs.Search.{Compares};

use std::cmp::Ordering;

/// How many bytes the prefix that two keys have in common has.
#[tactic(auto, using(crate::proofs::Shared::commons))]
pub fn common(last: &[u8], key: &[u8]) -> usize
    ensures same { result ≡ common_prefix_len nat_eq last.now key.now }
    ensures last { result ≤ length last.now }
    ensures key { result ≤ length key.now }
{
    let mut shared = 0;
    'bytes: while shared < last.len() && shared < key.len() {
        if last[shared] != key[shared] {
            return shared;
        }
        shared += 1;
    }
    shared
}

/// How the key of an entry, `unshared` after the first `shared` bytes of the key before it, compares
/// with `key`, and how many bytes the prefix that the two have in common has.
///
/// The key before it must be before `key`, and have `matched` bytes in common with it.
pub fn against(matched: usize, shared: usize, unshared: &[u8], key: &[u8]) -> (Ordering, usize)
    requires { matched ≤ length key.now }
    ensures compares { Compares key.now matched shared unshared.now result }
    ensures within { result.1 ≤ length key.now }
{
    if matched < shared {
        return (Ordering::Less, matched);
    }
    let wanted = key.split_at(shared).1;
    let same = common(unshared, wanted);
    let order = unshared.split_at(same).1.cmp(wanted.split_at(same).1);
    (order, shared + same)
}
