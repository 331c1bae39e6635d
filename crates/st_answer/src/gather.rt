//! The packets of a held set that match, as picks.

ghost use Rattle.std.specs.Prelude.{Option, ◌≡◌, ◌<◌, ◌≤◌, ◌+◌, ℕ, List, Some, [], length, map, All, IfOk, IfErr, OnOk, MatchResult, sum_by};
ghost use Rattle.st_disk.specs.Pairs.{Entry};
ghost use Rattle.st_shelf.specs.Loans.{LoansView};
ghost use Rattle.st_block.specs.Scan.{PositionedRecord};
ghost use Rattle.st_rows.specs.Whole.{IsWhole};
ghost use Rattle.st_answer.specs.Picks.{IsPlaced};
ghost use Rattle.st_answer.specs.Heads.{IsReadErr, Unhurt};
ghost use Rattle.st_answer.specs.Stores.{IsSameStore, OfEntry};
ghost use Rattle.st_answer.specs.Lending.{LendsMore, LendsIndex};
ghost use Rattle.st_answer.specs.Replies.{HasDiskCause};
ghost use Rattle.st_answer.specs.Gathering.{PicksPair, AddsOfPair, AddsFile, HasFaultCause, PicksFound, ReadsSet, PicksSet, FailsIn};

use crate::choosing::choose;
use crate::errors::AnswerErr;
use crate::heads::heads;
use crate::picked::Picked;
use crate::store::Store;
use st_query::Query;
use std::alloc::Global;

/// Lends the block file of the `i`-th pair of the held set, counted from 0, puts it into `files`,
/// and adds a pick for each of its packets that match, whose heads are read.
fn gather_one<S: Store>(
    alloc: Global,
    store: &mut S,
    hold: &S::Held,
    i: usize,
    query: &Query,
    now: u64,
    files: &mut Vec<S::File>,
    picked: &mut Vec<Picked>,
) -> Result<(), AnswerErr>
    requires held { 0 < S.times_held store.old hold.now }
    requires below { i < S.size store.old hold.now }
    // what comes
    ensures adds { AddsOfPair (S.set store.old hold.now) i picked.old.items picked.new.items
        result }
    ensures picks { OfEntry (S.set store.old hold.now) i (λ e. (given : List PositionedRecord)
        → IsWhole e.block e.index given
        → PicksPair query.now now given i e.stamp picked.old.items picked.new.items
        (sum_by S.File.reads files.old.items) (sum_by S.File.reads files.new.items)
        (sum_by S.File.asked files.old.items) (sum_by S.File.asked files.new.items) result) }
    ensures file { AddsFile S.File.content (λ f. (S.origin f).home) (S.id store.old)
        (S.set store.old hold.now) i files.old.items files.new.items result }
    ensures cause { HasFaultCause (S.faults store.old) (S.faults store.new)
        (sum_by S.File.faults files.new.items) result }
    // what stays
    ensures loans { (start : LoansView)
        → LendsMore (length files.old.items) start (S.loans store.old)
        → LendsMore (length files.new.items) start (S.loans store.new) }
    ensures stays { IsSameStore (S.becomes store.old store.new) (S.id store.old) (S.id store.new)
        (S.holds store.old) (S.holds store.new) (S.times_held store.old) (S.times_held store.new)
        (S.size store.old) (S.size store.new) (S.set store.old) (S.set store.new) }
{
    let stamp = store.stamp_of(hold, i);
    if files.reserve(1).is_err() {
        return Err(AnswerErr::NoMemory);
    }
    let positions = match choose(alloc, store, hold, i, stamp, query, now) {
        Ok(positions) => positions,
        Err(error) => return Err(error),
    };
    match store.block_of(hold, i) {
        Ok(file) => {
            let mut file = file;
            let result = heads(&mut file, i, stamp, positions.items(), picked);
            files.push_reserved(file);
            result
        }
        Err(_) => Err(AnswerErr::DiskFault),
    }
}

/// A pick for each packet of the held set that matches, pair by pair, each by one read of the
/// packet's head. The block files of all pairs are lent and put into `files`, in the set's order;
/// after an error those of the first pairs.
///
/// `DiskFault` comes only if the count of faults of the store or of a lent file rose. `Damaged`
/// names a pair that isn't whole.
pub fn gather<S: Store>(
    alloc: Global,
    store: &mut S,
    hold: &S::Held,
    query: &Query,
    now: u64,
    files: &mut Vec<S::File>,
) -> Result<Vec<Picked>, AnswerErr>
    requires held { 0 < S.times_held store.old hold.now }
    requires none { files.old.items ≡ [] }
    // what comes
    ensures found { IfOk result (λ v. All (IsPlaced (length files.new.items)) v.items
        × PicksFound query.now now (S.set store.old hold.now)
        (map S.File.content files.new.items) v.items
        × PicksSet query.now now (S.set store.old hold.now)
        (sum_by S.File.reads files.new.items) (sum_by S.File.asked files.new.items) v.items) }
    ensures fails { IfErr result (FailsIn (S.set store.old hold.now)) }
    ensures cause { HasFaultCause (S.faults store.old) (S.faults store.new)
        (sum_by S.File.faults files.new.items) result }
    // what the files were asked
    ensures reads { ReadsSet query.now now (S.set store.old hold.now)
        (sum_by S.File.reads files.new.items) (sum_by S.File.asked files.new.items) }
    // what stays
    ensures files { All (λ f. (S.origin f).home ≡ S.id store.old) files.new.items
        × LendsMore (length files.new.items) (S.loans store.old) (S.loans store.new) }
    ensures stays { IsSameStore (S.becomes store.old store.new) (S.id store.old) (S.id store.new)
        (S.holds store.old) (S.holds store.new) (S.times_held store.old) (S.times_held store.new)
        (S.size store.old) (S.size store.new) (S.set store.old) (S.set store.new) }
{
    let mut picked = Vec::new(alloc);
    let count = store.count(hold);
    'entries: for i in 0..count {
        match gather_one(alloc, store, hold, i, query, now, files, &mut picked) {
            Ok(()) => {}
            Err(error) => return Err(error),
        }
    }
    Ok(picked)
}
