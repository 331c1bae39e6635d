// What a publication and a removal do to a shelf, seen by stamps alone.
ghost use Rattle.std.specs.Prelude.{Option, ◌≡◌, ◌≤◌, ℕ, List, None, OnErr, IfErr, IsSome, ◌<◌, length, slice_index, false, true, Contains, MatchResult, OnOk, ◌↔◌};
ghost use Rattle.st_base.specs.Faults.{Rose, HasCause};
ghost use Rattle.st_disk.specs.declared.naming.Kind.TheVariants as kind;
ghost use Rattle.st_disk.specs.declared.naming.Name.TheVariants as name;
ghost use Rattle.st_disk.specs.Disks.{Log};
ghost use Rattle.st_disk.specs.Runs.{Each};
ghost use Rattle.st_disk.specs.LoggedCalls.{Reads, KnownBefore};
ghost use Rattle.st_disk.specs.Folders.{given};
ghost use Rattle.st_disk.specs.Pairs.{Files};
ghost use Rattle.st_disk.specs.Events.{Event};
ghost use Rattle.st_spool.specs.Rows.{Row, Free, Past, Pair, Has, RanBy};
ghost use Rattle.st_spool.specs.Holding.{is_parked, index_name};
ghost use Rattle.st_spool.specs.Settling.{SettlesPair, Hidden, FailsToHide, files};

use crate::state::Doubt;
use st_shelf::{End, Kind, Name, SealedPair, Shelf};

/// Where a call on a pair was stopped: before it settled the block or hid the index, or after.
#[derive(Clone, Copy, Debug, PartialEq, Eq)]
pub enum Stopped {
    Before,
    After,
}

// Settles the index of a pair, then its block, under a stamp of which nothing is there, and makes
// both durable. The index comes first: a crash may then leave the index alone, which is no pair.
// A file that was not settled is abandoned.
pub(crate) fn settle_pair<D: Shelf>(
    shelf: &mut D,
    pair: SealedPair<D::Draft>,
    stamp: u64,
) -> Result<(), Stopped>
    requires home { ((D.Draft.sealed_origin pair.block).home ≡ D.id shelf.old)
        × ((D.Draft.sealed_origin pair.index).home ≡ D.id shelf.old) }
    requires kinds { ((D.Draft.sealed_origin pair.block).kind ≡ kind.Block)
        × ((D.Draft.sealed_origin pair.index).kind ≡ kind.Index) }
    requires free { Reads (D.log shelf.old) (name.Index stamp) (λ v. v ≡ None)
        × Reads (D.log shelf.old) (name.Block stamp) (λ v. v ≡ None) }
    // what it does
    ensures placed { (first : Log) (rows : ℕ → Row) → D.log shelf.old ≡ Some first
        → Each first (Has rows) → rows stamp ≡ Free
        → SettlesPair first (D.log shelf.new) rows stamp
        (files (given (D.Draft.sealed_bytes pair.block))
        (given (D.Draft.sealed_bytes pair.index))) result }
    // the counts
    ensures known { KnownBefore (D.log shelf.old) (D.log shelf.new) }
    ensures cause { HasCause (D.faults shelf.old) (D.faults shelf.new) result }
    ensures rest { (D.id shelf.new ≡ D.id shelf.old) × (D.loans shelf.new ≡ D.loans shelf.old) }
{
    let SealedPair { block, index } = pair;
    if let Err(index) = shelf.settle(index, Name::Index(stamp)) {
        shelf.abandon(End::Sealed(index));
        shelf.abandon(End::Sealed(block));
        return Err(Stopped::Before);
    }
    if let Err(unsettled) = shelf.settle(block, Name::Block(stamp)) {
        shelf.abandon(End::Sealed(unsettled));
        return Err(Stopped::Before);
    }
    if let Err(_) = shelf.flush(Kind::Index) {
        return Err(Stopped::After);
    }
    if let Err(_) = shelf.flush(Kind::Block) {
        return Err(Stopped::After);
    }
    Ok(())
}

// Parks the index of a stamp and makes that durable.
pub(crate) fn hide_out<D: Shelf>(shelf: &mut D, stamp: u64) -> Result<(), Stopped>
    requires there { Reads (D.log shelf.old) (name.Index stamp) IsSome }
    requires free { Reads (D.log shelf.old) (name.Parked stamp) (λ v. v ≡ None) }
    ensures hidden { (first : Log) (rows : ℕ → Row) (f : Files) → D.log shelf.old ≡ Some first
        → Each first (Has rows) → rows stamp ≡ Pair f
        → Hidden first (D.log shelf.new) rows stamp f result }
    ensures stopped { IfErr result (FailsToHide (D.log shelf.old) (D.log shelf.new) stamp) }
    // the counts
    ensures known { KnownBefore (D.log shelf.old) (D.log shelf.new) }
    ensures cause { HasCause (D.faults shelf.old) (D.faults shelf.new) result }
    ensures rest { (D.id shelf.new ≡ D.id shelf.old) × (D.loans shelf.new ≡ D.loans shelf.old) }
{
    if let Err(_) = shelf.hide(stamp) {
        return Err(Stopped::Before);
    }
    if let Err(_) = shelf.flush(Kind::Index) {
        return Err(Stopped::After);
    }
    Ok(())
}

// The name of the index of the pair at a place. It is parked if the pair was removed, or if the
// removal that failed hid it.
pub(crate) fn index_file(doubt: Doubt, removed: usize, place: usize, stamp: u64) -> Name
    ensures { result ≡ index_name (is_parked doubt removed place) stamp }
{
    let hidden = match doubt {
        Doubt::Hidden(_) => place == removed,
        _ => false,
    };
    if place < removed || hidden {
        return Name::Parked(stamp);
    }
    Name::Index(stamp)
}
