// The removal of the files of pairs that were removed and that no hold has.
ghost use Rattle.std.specs.Prelude.{Option, ◌≡◌, ◌≤◌, ◌<◌, ℕ, List, [], None, true, false, OnOk, length, slice_index, slice_index_or, Contains, MatchOption};
ghost use Rattle.st_base.specs.Faults.{Rose, HasCause};
ghost use Rattle.st_disk.specs.declared.naming.Name.{Name};
ghost use Rattle.st_disk.specs.Disks.{Log};
ghost use Rattle.st_disk.specs.LoggedCalls.{Reads, KnownBefore};
ghost use Rattle.st_spool.specs.Rows.{Row, Past, RanBy};
ghost use Rattle.st_spool.specs.States.{covers};
ghost use Rattle.st_spool.specs.Holding.{IsGone, IsOther, IsWithout, StayRead, Sweeps};

use crate::state::Span;
use st_base::Failed;
use st_shelf::{Name, Shelf};

// Whether some hold has the pair at this place.
fn is_covered(holds: &[Span], place: usize) -> bool
    ensures { result ≡ covers holds.now place }
{
    holds.iter().any(|h| h.from <= place && place < h.to)
}

// Removes the files of a pair that was removed and that no hold has, the parked index first: a
// crash may leave the block alone, which is no pair.
fn forget<D: Shelf>(shelf: &mut D, stamp: u64) -> Result<(), Failed>
    ensures forgotten { (first : Log) (rows : ℕ → Row) → rows stamp ≡ Past
        → RanBy first (D.log shelf.old) [] rows rows
        → RanBy first (D.log shelf.new) [] rows rows }
    // what is read
    ensures gone { OnOk result (IsGone (D.log shelf.new) stamp) }
    ensures still { (n : Name) → Reads (D.log shelf.old) n (λ v. v ≡ None)
        → Reads (D.log shelf.new) n (λ v. v ≡ None) }
    ensures spares { StayRead (D.log shelf.old) (D.log shelf.new) (IsOther stamp) }
    // the counts
    ensures known { KnownBefore (D.log shelf.old) (D.log shelf.new) }
    ensures cause { HasCause (D.faults shelf.old) (D.faults shelf.new) result }
    ensures rest { (D.id shelf.new ≡ D.id shelf.old) × (D.loans shelf.new ≡ D.loans shelf.old) }
{
    if let Err(error) = shelf.remove(Name::Parked(stamp)) {
        return Err(error);
    }
    if let Err(error) = shelf.remove(Name::Block(stamp)) {
        return Err(error);
    }
    Ok(())
}

// Removes the files of each removed pair from the place `from` on that no hold has. A removal that
// fails is passed over. Returns a place before which no file of these pairs is left.
pub(crate) fn sweep<D: Shelf>(
    shelf: &mut D,
    stamps: &[u64],
    from: usize,
    removed: usize,
    holds: &[Span],
) -> usize
    requires { removed ≤ length stamps.now }
    ensures swept { (first : Log) (rows : ℕ → Row)
        → ((n : ℕ) → n < removed → covers holds.now n ≡ false
        → rows (slice_index stamps.now n) ≡ Past)
        → RanBy first (D.log shelf.old) [] rows rows
        → RanBy first (D.log shelf.new) [] rows rows }
    // what is read
    ensures sweeps { Sweeps (D.log shelf.new) stamps.now holds.now from result removed
        (D.faults shelf.old) (D.faults shelf.new) }
    ensures still { (n : Name) → Reads (D.log shelf.old) n (λ v. v ≡ None)
        → Reads (D.log shelf.new) n (λ v. v ≡ None) }
    ensures spares { StayRead (D.log shelf.old) (D.log shelf.new)
        (λ n. (i : ℕ) → i < removed → IsOther (slice_index stamps.now i) n) }
    // the counts
    ensures known { KnownBefore (D.log shelf.old) (D.log shelf.new) }
    ensures cause { D.faults shelf.old ≤ D.faults shelf.new }
    ensures rest { (D.id shelf.new ≡ D.id shelf.old) × (D.loans shelf.new ≡ D.loans shelf.old) }
{
    let mut swept = from;
    'places: for i in from..removed {
        if is_covered(holds, i) {
            continue;
        }
        if let Err(_) = forget(shelf, stamps[i]) {
            continue;
        }
        if i != swept {
            continue;
        }
        swept += 1;
    }
    swept
}

// A place that has this hold, if there is one.
fn place_of(holds: &[Span], hold: Span) -> Option<usize>
    ensures { MatchOption result (Contains holds.now hold → ⊥)
        (λ k. (k < length holds.now) × (slice_index_or holds.now k hold ≡ hold)) }
{
    'holds: for i in 0..holds.len() {
        if holds[i] == hold {
            return Some(i);
        }
    }
    None
}

// Takes one hold out of all.
pub(crate) fn take_out(holds: &mut Vec<Span>, hold: Span)
    requires { Contains holds.old.items hold }
    ensures { IsWithout hold holds.old.items holds.new.items }
{
    if let Some(k) = place_of(holds.as_slice(), hold) {
        let _ = holds.remove(k);
    }
}
