//! Lists of positions that rise.

ghost use Rattle.std.specs.Prelude.{◌≡◌, ◌&&◌, ◌||◌, ◌<◌, ◌≤◌, ◌↔◌, ℕ, IfOk, IsTrue, length, slice_index};
ghost use Rattle.std.specs.List.{filter};
ghost use Rattle.st_rows.specs.Positions.{has, Rising};
ghost use Rattle.st_rows.specs.Values.{rises};

use st_base::NoMemory;
use std::alloc::Global;
use std::marker::Model;

/// Positions of packets in a block file, in rising order and each once. Contracts see the list.
#[derive(Drop)]
pub struct Positions {
    items: Vec<u32>,
}

impl Model for Positions {
    ghost use Rattle.std.specs.Prelude.{List, ℕ};
    ghost use Rattle.st_rows.specs.Positions.{Rising};

    ghost Value = { List ℕ };

    ghost view = { λ a. a.items.items };

    ghost invariant = { λ a. Rising a.items.items };
}

/// Whether each number is below the next.
pub fn rises(items: &[u32]) -> bool
    ensures { result ≡ rises items.now }
{
    for i in 1..items.len() {
        if items[i - 1] >= items[i] {
            return false;
        }
    }
    true
}

/// The same positions in rising order and each once. It takes no memory.
pub fn sorted(mut items: Vec<u32>) -> Positions
    ensures same { (p : ℕ) → has result p ≡ has items.items p }
    ensures rising { Rising result }
{
    if rises(&items) {
        return Positions { items };
    }
    items.sort_unstable();
    items.dedup();
    Positions { items }
}

/// The first place from `at` on where `items` has no number below `bound`, or their end.
fn skip_below(items: &[u32], at: usize, bound: u32) -> usize
    requires { at ≤ length items.now }
    // Where the place is.
    ensures from { at ≤ result }
    ensures within { result ≤ length items.now }
    // What is passed over, and what stops it.
    ensures below { (k : ℕ) → at ≤ k → k < result → slice_index items.now k < bound }
    ensures stops { result < length items.now → bound ≤ slice_index items.now result }
{
    let mut next = at;
    'numbers: while next < items.len() {
        if items[next] >= bound {
            return next;
        }
        next += 1;
    }
    next
}

/// Whether the number at this place, if there is one, is `item`.
fn is_at(items: &[u32], at: usize, item: u32) -> bool
    ensures { IsTrue result ↔ ((at < length items.now) × (slice_index items.now at ≡ item)) }
{
    at < items.len() && items[at] == item
}

/// Keeps the numbers that `other` has too, in their place. Both rise, so each is gone along once.
fn keep_common(items: &mut Vec<u32>, other: &[u32])
    requires items { Rising items.old.items }
    requires other { Rising other.now }
    ensures { items.new.items ≡ filter (has other.now) items.old.items }
{
    let mut kept = 0;
    let mut at = 0;
    for i in 0..items.len() {
        let item = items[i];
        at = skip_below(other, at, item);
        if !is_at(other, at, item) {
            continue;
        }
        items[kept] = item;
        kept += 1;
    }
    items.truncate(kept);
}

impl Positions {
    ghost use Rattle.std.specs.Prelude.{◌≡◌, ◌&&◌, ◌||◌, ℕ, IfOk};
    ghost use Rattle.st_rows.specs.Positions.{has, Rising};

    /// The positions `items`, in an allocation of their own.
    pub fn over(alloc: Global, items: &[u32]) -> Result<Positions, NoMemory>
        requires { Rising items.now }
        ensures { IfOk result (λ ps. ps ≡ items.now) }
    {
        let copy = items.to_vec(alloc)?;
        Ok(Positions { items: copy })
    }

    /// Keeps the positions that `other` has too, in their place. It goes along each list once, and
    /// takes no memory.
    pub fn both(&mut self, other: &Positions)
        ensures { (p : ℕ) → has self.new p ≡ (has self.old p && has other.now p) }
    {
        keep_common(&mut self.items, other.items());
    }

    /// The positions that `a` has, or `b`, or both.
    pub fn either(alloc: Global, a: &Positions, b: &Positions) -> Result<Positions, NoMemory>
        ensures { IfOk result (λ ps. (p : ℕ) → has ps p ≡ (has a.now p || has b.now p)) }
    {
        let mut all = a.items.to_vec(alloc)?;
        all.extend_from_slice(&b.items)?;
        Ok(sorted(all))
    }

    /// All the positions.
    pub fn items(&self) -> &[u32]
        ensures same { result.now ≡ self.now }
        ensures rising { Rising self.now }
    {
        self.items.as_slice()
    }
}
