//! The answer's order, its limits, and its counts.

ghost use Rattle.std.specs.Prelude.{◌≡◌, ◌≤◌, length, IsTrue};
ghost use Rattle.std.specs.List.Sorted.{IsPermutation, IsSortedBy};
ghost use Rattle.st_answer.specs.Order.{comes_before, AreWithin, AreInOrder, IsOrdered, TellsPicks};

use crate::errors::Told;
use crate::picked::Picked;
use st_base::Limits;
use st_pcap::{FILE_HEAD_SIZE, RECORD_HEAD_SIZE};

/// How many of the picks, from the first on, are together within the limits.
fn within(picked: &[Picked], limits: Limits) -> usize
    ensures { AreWithin limits picked.now result }
{
    let mut room = limits.bytes;
    let mut count = 0usize;
    'picks: for pick in picked {
        let len = u64::from(pick.len);
        if count as u64 >= limits.packets {
            return count;
        }
        if len > room {
            return count;
        }
        room -= len;
        count += 1;
    }
    count
}

/// Whether the one pick comes before the other in an answer.
#[tactic(auto, unfolding(crate::specs::Order::comes_before))]
fn comes_before(one: &Picked, other: &Picked) -> bool
    ensures { result ≡ comes_before one.now other.now }
{
    one.cmp(other).is_lt()
}

/// Whether the picks are in the answer's order.
fn is_sorted(picked: &[Picked]) -> bool
    ensures { IsTrue result → IsSortedBy comes_before picked.now }
{
    'picks: for next in 1..picked.len() {
        if comes_before(&picked[next], &picked[next - 1]) {
            return false;
        }
    }
    true
}

/// Sorts the picks into the answer's order, unless they are in it.
#[tactic(auto, unfolding(crate::specs::Order::comes_before))]
fn sort(picked: &mut Vec<Picked>)
    ensures same { IsPermutation picked.old.items picked.new.items }
    ensures order { AreInOrder picked.new.items }
{
    if is_sorted(picked.as_slice()) {
        return;
    }
    picked.sort_unstable();
}

/// The picks in the answer's order, as far as the limits go. It takes no memory.
pub fn in_order(picked: Vec<Picked>, limits: Limits) -> Vec<Picked>
    ensures { IsOrdered limits picked.items result.items }
{
    let mut picked = picked;
    sort(&mut picked);
    let count = within(picked.as_slice(), limits);
    picked.truncate(count);
    picked
}

/// How many packets these picks are, and how many bytes the file head and their records have.
pub fn told_of(picked: &[Picked]) -> Told
    ensures { TellsPicks picked.now result }
{
    let mut bytes = FILE_HEAD_SIZE as u64;
    'picks: for pick in picked {
        bytes = bytes.saturating_add(RECORD_HEAD_SIZE as u64 + u64::from(pick.len));
    }
    Told {
        packets: picked.len() as u64,
        bytes,
    }
}
