// The calls of an opening: what is found, and the removal of what is no part of a pair.
ghost use Rattle.std.specs.Prelude.{Option, ◌≡◌, ◌≤◌, ◌<◌, ◌↔◌, ℕ, List, [], None, Some, IsSome, IsTrue, false, IfOk, OnOk, OnErr, MatchOption, MatchResult, Contains, AllPairs};
ghost use Rattle.st_base.specs.Faults.{HasCause, HasCauseOf};
ghost use Rattle.st_disk.specs.declared.naming.Name.{Name};
ghost use Rattle.st_disk.specs.declared.naming.Name.TheVariants.{Block, Index};
ghost use Rattle.st_disk.specs.Folders.{Folder};
ghost use Rattle.st_disk.specs.Names.{AreSorted, number_of};
ghost use Rattle.st_disk.specs.Disks.{Log};
ghost use Rattle.st_disk.specs.Runs.{Each, Ran};
ghost use Rattle.st_disk.specs.LoggedCalls.{Reads, KnownBefore};
ghost use Rattle.st_spool.specs.Rows.{RanBy};
ghost use Rattle.st_spool.specs.Entering.{pairs_alone, Is, SamePairs, found_rows, IsPart, AreThere, ReadsCleared, ArePaired, IsLastStamp, IsStamped, flushed_log, FailsToFlush, FailsToEnter, Opens};

use st_base::{Failed, NoMemory};
use st_disk::number_of_name;
use st_shelf::{Kind, ListErr, Name, Shelf};
use std::alloc::Global;

/// Why a spool was not opened.
#[derive(Clone, Copy, Debug, PartialEq, Eq)]
pub enum EnterErr {
    /// The disk failed: the shelf's count of faults rose in the call.
    DiskFault,
    /// Out of memory.
    NoMemory,
}

// Makes all changes of both folders so far durable.
pub(crate) fn flush_both<D: Shelf>(shelf: &mut D) -> Result<(), Failed>
    ensures flushed { (first : Log) → D.log shelf.old ≡ Some first → MatchResult result
        (λ _. D.log shelf.new ≡ Some (flushed_log first))
        (λ _. FailsToFlush first (D.log shelf.new)) }
    ensures known { KnownBefore (D.log shelf.old) (D.log shelf.new) }
    ensures cause { HasCause (D.faults shelf.old) (D.faults shelf.new) result }
    ensures rest { (D.id shelf.new ≡ D.id shelf.old) × (D.loans shelf.new ≡ D.loans shelf.old) }
{
    if let Err(error) = shelf.flush(Kind::Block) {
        return Err(error);
    }
    if let Err(error) = shelf.flush(Kind::Index) {
        return Err(error);
    }
    Ok(())
}

// Whether the name is that of one file of a pair, and the other one is among the names.
fn is_part(names: &[Name], name: Name) -> bool
    ensures { IsTrue result ↔ IsPart (Contains names.now) name }
{
    match name {
        Name::Block(stamp) => names.contains(&Name::Index(stamp)),
        Name::Index(stamp) => names.contains(&Name::Block(stamp)),
        _ => false,
    }
}

// The stamp of the name, if it is a block's and the index is among the names.
fn pair_stamp(names: &[Name], name: Name) -> Option<u64>
    ensures { MatchOption result
        ((s : ℕ) → name ≡ Block s → Contains names.now (Index s) → ⊥)
        (λ s. (name ≡ Block s) × Contains names.now (Index s)) }
{
    match name {
        Name::Block(stamp) => {
            if names.contains(&Name::Index(stamp)) {
                return Some(stamp);
            }
            None
        }
        _ => None,
    }
}

// The stamps of all pairs among the names, in order.
fn pair_stamps(alloc: Global, names: &[Name]) -> Result<Vec<u64>, NoMemory>
    requires { AreSorted names.now }
    ensures { IfOk result (λ v. ArePaired (Contains names.now) v.items) }
{
    let mut stamps = Vec::new(alloc);
    'names: for i in 0..names.len() {
        let Some(stamp) = pair_stamp(names, names[i]) else {
            continue;
        };
        if let Err(_) = stamps.push(stamp) {
            return Err(NoMemory);
        }
    }
    Ok(stamps)
}

// The stamp of a name, unless it is a draft's.
fn file_stamp(name: Name) -> Option<u64>
    ensures { MatchOption result (IsStamped name → ⊥)
        (λ s. IsStamped name × (number_of name ≡ s)) }
{
    match name {
        Name::Draft { .. } => None,
        _ => Some(number_of_name(name)),
    }
}

// The greatest stamp among the names, or 0. A draft's name has none.
fn last_stamp(names: &[Name]) -> u64
    ensures { IsLastStamp (Contains names.now) result }
{
    let mut last = 0;
    'names: for i in 0..names.len() {
        let Some(stamp) = file_stamp(names[i]) else {
            continue;
        };
        last = stamp.max(last);
    }
    last
}

// Whether some name is no part of a pair.
fn has_strays(names: &[Name]) -> bool
    ensures { result ≡ false → (n : Name) → Contains names.now n → IsPart (Contains names.now) n }
{
    'names: for i in 0..names.len() {
        if !is_part(names, names[i]) {
            return true;
        }
    }
    false
}

// Removes each file that is no part of a pair. The names are those of all files that are there.
fn clear<D: Shelf>(shelf: &mut D, names: &[Name]) -> Result<(), Failed>
    // what is removed, and what is read then
    ensures cleared { (first : Log) (f : Folder) → AreThere names.now f
        → RanBy first (D.log shelf.old) [] (found_rows f) (found_rows f)
        → RanBy first (D.log shelf.new) [] (found_rows f) (found_rows f) }
    ensures reads { OnOk result
        (ReadsCleared (D.log shelf.old) (D.log shelf.new) names.now) }
    // the counts
    ensures known { KnownBefore (D.log shelf.old) (D.log shelf.new) }
    ensures cause { HasCause (D.faults shelf.old) (D.faults shelf.new) result }
    ensures rest { (D.id shelf.new ≡ D.id shelf.old) × (D.loans shelf.new ≡ D.loans shelf.old) }
{
    'names: for i in 0..names.len() {
        let name = names[i];
        if is_part(names, name) {
            continue;
        }
        if let Err(error) = shelf.remove(name) {
            return Err(error);
        }
    }
    Ok(())
}

// Clears the folders of what is no part of a pair, and makes that durable. The names are those of
// all files that are there.
fn tidy<D: Shelf>(shelf: &mut D, names: &[Name]) -> Result<(), Failed>
    ensures tidied { (first : Log) (f : Folder) → AreThere names.now f
        → D.log shelf.old ≡ Some first → Each first (Is f) → MatchResult result
        (λ _. Ran first (D.log shelf.new) [] (SamePairs f) (Is (pairs_alone f)))
        (λ _. Ran first (D.log shelf.new) [] (SamePairs f) (SamePairs f)) }
    ensures known { KnownBefore (D.log shelf.old) (D.log shelf.new) }
    ensures cause { HasCause (D.faults shelf.old) (D.faults shelf.new) result }
    ensures rest { (D.id shelf.new ≡ D.id shelf.old) × (D.loans shelf.new ≡ D.loans shelf.old) }
{
    if !has_strays(names) {
        return Ok(());
    }
    if let Err(error) = clear(shelf, names) {
        return Err(error);
    }
    if let Err(error) = flush_both(shelf) {
        return Err(error);
    }
    Ok(())
}

/// What an opening found: the stamps of all pairs, in order, and the greatest stamp of any file.
#[derive(Drop)]
pub(crate) struct Opening {
    pub(crate) stamps: Vec<u64>,
    pub(crate) last: u64,
}

// Makes durable what is there, and clears the folders of what is no part of a pair.
pub(crate) fn open<D: Shelf>(alloc: Global, shelf: &mut D) -> Result<Opening, EnterErr>
    // what is found
    ensures opened { (first : Log) → D.log shelf.old ≡ Some first → MatchResult result
        (λ o. Opens first (D.log shelf.new) o.stamps.items o.last)
        (λ _. FailsToEnter first (D.log shelf.new)) }
    ensures stamps { IfOk result (λ o. AllPairs (λ s t. s < t) o.stamps.items
        × ((s : ℕ) → Contains o.stamps.items s → s ≤ o.last)) }
    // the counts
    ensures known { KnownBefore (D.log shelf.old) (D.log shelf.new) }
    ensures cause { HasCauseOf EnterErr.DiskFault (D.faults shelf.old) (D.faults shelf.new) result }
    ensures rest { (D.id shelf.new ≡ D.id shelf.old) × (D.loans shelf.new ≡ D.loans shelf.old) }
{
    if let Err(_) = flush_both(shelf) {
        return Err(EnterErr::DiskFault);
    }
    let names = match shelf.list(alloc) {
        Ok(names) => names,
        Err(ListErr::DiskFault) => return Err(EnterErr::DiskFault),
        Err(ListErr::NoMemory) => return Err(EnterErr::NoMemory),
    };
    let items = names.items();
    let stamps = match pair_stamps(alloc, items) {
        Ok(stamps) => stamps,
        Err(_) => return Err(EnterErr::NoMemory),
    };
    let last = last_stamp(items);
    if let Err(_) = tidy(shelf, items) {
        return Err(EnterErr::DiskFault);
    }
    Ok(Opening { stamps, last })
}
