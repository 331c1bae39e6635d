//! A reading of the rows of a table between two keys.

ghost use Rattle.std.specs.Prelude.{◌≡◌, ◌+◌, ◌-◌, ◌<◌, ◌≤◌, List, ℕ, [], ◌∷◌, length, Some, IfOk, OnOk, OnErr, MatchOption, MatchResult, true, false};
ghost use Rattle.st_base.specs.Faults.{HasCauseOf};
ghost use Rattle.st_base.specs.PlacedReads.{IsSameFile};
ghost use Rattle.st_tblock.specs.Block.{RowView};
ghost use Rattle.st_table.specs.TableFile.{footer_at};
ghost use Rattle.st_table.specs.Index.{Decodes};
ghost use Rattle.st_table.specs.Cursor.{unread, with_row, Advances, Fills, IsDone, ReadsNext, RefusesNext, Steps};

use crate::errors::TableErr;
use crate::index::{IndexEntry, block_at, key_before};
use crate::rows::{Row, rows_in};
use crate::stored::read_block;
use st_base::{NoMemory, Octets, Reader};
use std::alloc::Global;
use std::collections::VecDeque;
use std::marker::Model;

/// How far the rows between two keys were read.
///
/// It is seen as `CursorView`: the two keys, the rows of the block at hand that are still to come,
/// and the number of the index entry that names the next block.
#[derive(Drop)]
pub struct Cursor {
    low: Octets,
    high: Octets,
    rows: VecDeque<Row>,
    next: usize,
}

impl Model for Cursor {
    ghost use Rattle.st_table.specs.Cursor.{CursorView};

    ghost Value = { CursorView };

    ghost view = { λ a. record { low = a.low; high = a.high; rows = a.rows.items; next = a.next } };
}

impl Cursor {
    /// Before the first row from `low` to `high`, with the number of the index entry that names the
    /// first block.
    pub fn begin(alloc: Global, low: &[u8], high: &[u8], next: usize) -> Result<Cursor, NoMemory>
        ensures { IfOk result (λ c. c ≡ unread low.now high.now next) }
    {
        let low = Octets::copy_of(alloc, low)?;
        let high = Octets::copy_of(alloc, high)?;
        Ok(Cursor {
            low,
            high,
            rows: VecDeque::new(alloc),
            next,
        })
    }

    /// Takes the first of the rows at hand.
    fn take_row(&mut self) -> Option<Row>
        ensures { MatchOption result ((self.old.rows ≡ []) × (self.new ≡ self.old))
            (λ r. self.old ≡ with_row r self.new) }
    {
        self.rows.pop_front()
    }

    /// Whether no block is left that may have rows in the range.
    fn is_done(&self, entries: &[IndexEntry]) -> bool
        ensures left { result ≡ false → self.now.next < length entries.now }
        ensures done { (index : List RowView) → Decodes index entries.now → result ≡ true
            → IsDone index self.now.next self.now.high }
    {
        ends(entries, self.next, self.high.bytes())
    }

    /// Reads the next block, by one read at most, and has its rows in the range at hand.
    fn fill<R: Reader>(
        &mut self,
        alloc: Global,
        file: &mut R,
        entries: &[IndexEntry],
        block: &mut Vec<u8>,
    ) -> Result<(), TableErr>
        requires { self.old.next < length entries.now }
        // Which rows are at hand then, or why not.
        ensures fills { (bytes : List ℕ) (index : List RowView) → R.content file.old ≡ Some bytes
            → Decodes index entries.now
            → Fills (footer_at bytes) bytes index self.old self.new result }
        ensures next { OnOk result (self.new.next ≡ self.old.next + 1) }
        ensures few { OnOk result (length self.new.rows ≤ R.extent file.old) }
        ensures err { OnErr result (self.new ≡ self.old) }
        // What becomes of the file.
        ensures reads { R.reads file.new ≤ R.reads file.old + 1 }
        ensures cause { HasCauseOf TableErr.ReadFault (R.faults file.old)
            (R.faults file.new) result }
        ensures same { IsSameFile (R.content file.old) (R.content file.new) (R.extent file.old)
            (R.extent file.new) (R.beside file.old) (R.beside file.new) }
    {
        let (low, high) = (self.low.bytes(), self.high.bytes());
        match read_rows(alloc, file, entries, block, self.next, low, high) {
            Ok(rows) => {
                self.rows = rows;
                self.next += 1;
                Ok(())
            }
            Err(error) => Err(error),
        }
    }
}

/// Whether the blocks from the index entry of this number on have no rows up to `high`, as far as
/// the index says.
fn ends(entries: &[IndexEntry], next: usize, high: &[u8]) -> bool
    ensures left { result ≡ false → next < length entries.now }
    ensures done { (index : List RowView) → Decodes index entries.now → result ≡ true
        → IsDone index next high.now }
{
    if next >= entries.len() {
        return true;
    }
    match key_before(entries, next) {
        Some(key) => !key.cmp(high).is_lt(),
        None => false,
    }
}

/// The rows from `low` to `high` of the block that the index entry of this number names, by one
/// read at most.
fn read_rows<R: Reader>(
    alloc: Global,
    file: &mut R,
    entries: &[IndexEntry],
    block: &mut Vec<u8>,
    next: usize,
    low: &[u8],
    high: &[u8],
) -> Result<VecDeque<Row>, TableErr>
    requires { next < length entries.now }
    // Which rows come, or why not.
    ensures rows { (bytes : List ℕ) (index : List RowView) → R.content file.old ≡ Some bytes
        → Decodes index entries.now
        → MatchResult result
        (λ kept. ReadsNext (footer_at bytes) bytes index next low.now high.now kept.items)
        (λ e. RefusesNext (footer_at bytes) bytes index next e) }
    ensures few { IfOk result (λ kept. length kept.items ≤ R.extent file.old) }
    // What becomes of the file.
    ensures reads { R.reads file.new ≤ R.reads file.old + 1 }
    ensures cause { HasCauseOf TableErr.ReadFault (R.faults file.old) (R.faults file.new) result }
    ensures same { IsSameFile (R.content file.old) (R.content file.new) (R.extent file.old)
        (R.extent file.new) (R.beside file.old) (R.beside file.new) }
{
    let (bounds, handle) = block_at(entries, next);
    match read_block(file, handle, block) {
        Ok(()) => {}
        Err(error) => return Err(error),
    }
    rows_in(alloc, block.as_slice(), handle.offset, &bounds, low, high)
}

/// The next row of `cursor`, over a table of these index entries.
pub fn step_in<R: Reader>(
    alloc: Global,
    file: &mut R,
    entries: &[IndexEntry],
    block: &mut Vec<u8>,
    cursor: &mut Cursor,
) -> Result<Option<Row>, TableErr>
    ensures steps { (bytes : List ℕ) (index : List RowView) → R.content file.old ≡ Some bytes
        → Decodes index entries.now
        → Steps (footer_at bytes) bytes index cursor.old cursor.new result }
    ensures advances { Advances (length entries.now) (R.extent file.old)
        (R.reads file.old) (R.reads file.new) cursor.old cursor.new result }
    ensures cause { HasCauseOf TableErr.ReadFault (R.faults file.old) (R.faults file.new) result }
    ensures same { IsSameFile (R.content file.old) (R.content file.new) (R.extent file.old)
        (R.extent file.new) (R.beside file.old) (R.beside file.new) }
{
    'steps: loop {
        if let Some(row) = cursor.take_row() {
            return Ok(Some(row));
        }
        if cursor.is_done(entries) {
            return Ok(None);
        }
        match cursor.fill(alloc, file, entries, block) {
            Ok(()) => {}
            Err(error) => return Err(error),
        }
    }
}
