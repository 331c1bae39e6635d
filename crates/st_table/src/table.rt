ghost use Rattle.std.specs.Prelude.{◌≡◌, ◌≤◌, ◌+◌, ◌-◌, List, ℕ, [], length, Some, None, All, IfOk, IfErr, OnOk, OnErr, IsTrue};
ghost use Rattle.st_base.specs.Faults.{HasCauseOf};
ghost use Rattle.st_base.specs.PlacedReads.{IsSameFile};
ghost use Rattle.st_tblock.specs.Block.{RowView, key_or_empty};
ghost use Rattle.st_table.specs.TableFile.{IsTable, is_at_most, footer_at};
ghost use Rattle.st_table.specs.IndexLookup.{entry_for, found_at};
ghost use Rattle.st_table.specs.RowOrder.{in_range, KeysRiseAbove, last_key};
ghost use Rattle.st_table.specs.Cursor.{unread, Advances, Steps, Coming, StepsRow, HoldsNamed, GivesNamed};
ghost use Rattle.st_table.specs.Errors.{NoCheckFailed};
ghost use Rattle.st_table.specs.Index.{Decodes, Entered};
ghost use Rattle.st_table.specs.Table.{Enters, Gets, GetsRow};
ghost use Rattle.st_table.specs.Marks.{Checked};

use crate::cursor::{Cursor, step_in};
use crate::errors::TableErr;
use crate::index::{IndexEntry, block_at, last_of, lower_bound, read_index};
use crate::marks::{is_checked, mark, unmarked};
use crate::rows::{Row, value_found, value_in};
use crate::stored::read_block;
use st_base::{NoMemory, Octets, Reader};
use std::alloc::Global;

/// What a table keeps of its file: the entries of its index, a mark for each whose data block was
/// checked to its end, and the memory of the block that was read last.
#[derive(Drop)]
pub struct Kept {
    entries: Vec<IndexEntry>,
    checked: Vec<bool>,
    block: Vec<u8>,
}

/// A table in a file that it reads at restarts.
///
/// What it keeps has a parameter's type, which is always `Kept`: so a drop says what becomes of
/// the file, which it could not of a struct whose own fields hold memory.
/// Source: LevelDB, doc/table_format.md; docs/FORMAT.md, "Table file".
pub struct Table<'a, R, K = Kept> {
    file: &'a mut R,
    kept: K,
}

impl<R, K: Drop> Drop for Table<'_, R, K> {
    fn drop(self)
        ensures { self.exit.0.now ≡ self.entry.file.now }
    {
        let Table {
            file: _file,
            kept: _kept,
        } = self;
    }
}

/// The value of `key`, by one read at most, of the block that the index names for it.
///
/// In a block that is marked `key` is only looked up; another one is checked to its end, and marked
/// where no check fails.
fn get_in<R: Reader>(
    alloc: Global,
    file: &mut R,
    entries: &[IndexEntry],
    marks: &mut [bool],
    block: &mut Vec<u8>,
    key: &[u8],
) -> Result<Option<Octets>, TableErr>
    // What comes, and what the marks then say.
    ensures gets { (bytes : List ℕ) (index : List RowView) → R.content file.old ≡ Some bytes
        → Decodes index entries.now → KeysRiseAbove None index
        → Checked (footer_at bytes) bytes None entries.now marks.old
        → Gets (footer_at bytes) bytes key.now index result }
    ensures checked { (bytes : List ℕ) (index : List RowView) → R.content file.old ≡ Some bytes
        → Decodes index entries.now
        → Checked (footer_at bytes) bytes None entries.now marks.old
        → Checked (footer_at bytes) bytes None entries.now marks.new }
    // What becomes of the file.
    ensures cause { HasCauseOf TableErr.ReadFault (R.faults file.old) (R.faults file.new) result }
    ensures reads { R.reads file.new ≤ R.reads file.old + 1 }
    ensures same { IsSameFile (R.content file.old) (R.content file.new) (R.extent file.old)
        (R.extent file.new) (R.beside file.old) (R.beside file.new) }
{
    let i = lower_bound(entries, key);
    if i >= entries.len() {
        return Ok(None);
    }
    let (bounds, handle) = block_at(entries, i);
    match read_block(file, handle, block) {
        Ok(()) => {}
        Err(error) => return Err(error),
    }
    if is_checked(marks, i) {
        return value_found(alloc, block.as_slice(), key);
    }
    match value_in(alloc, block.as_slice(), handle.offset, &bounds, key) {
        Ok(value) => {
            mark(marks, i);
            Ok(value)
        }
        Err(refusal) => Err(refusal),
    }
}

impl<'a, R: Reader> Table<'a, R> {
    /// A table over `file`, which is yet to be entered: it has no rows. It takes no memory.
    pub fn over(alloc: Global, file: &'a mut R) -> Table<'a, R>
        ensures same_reference { result.file.ghost_name ≡ file.entry.ghost_name }
        ensures same { result.file.now ≡ file.old }
        ensures none { result.kept.entries.items ≡ [] }
        ensures unmarked { result.kept.checked.items ≡ [] }
    {
        Table {
            file,
            kept: Kept {
                entries: Vec::new(alloc),
                checked: Vec::new(alloc),
                block: Vec::new(alloc),
            },
        }
    }

    /// Reads the footer and the index block, by two reads at most. The metaindex block is not read.
    ///
    /// Damage is that of the first check that fails, in the order of docs/FORMAT.md, "Checks of a
    /// table": the file holds a footer, its magic number, its handles; the index block's end, its
    /// type byte, its sum, its restarts; each entry, its key above the last one, its value one
    /// handle.
    /// `Compressed` comes if and only if the type byte is 1. `ReadFault` comes only if the file
    /// failed in this call. Where it succeeds, no data block counts as checked yet. After an error
    /// the table has the entries that it had, and the same data blocks count as checked.
    pub fn enter(&mut self, alloc: Global) -> Result<(), TableErr>
        ensures enters { (bytes : List ℕ) → R.content self.old.file.now ≡ Some bytes
            → Enters bytes self.new.kept.entries.items result }
        ensures table { (bytes : List ℕ) (rows : List RowView)
            → R.content self.old.file.now ≡ Some bytes
            → IsTable bytes rows → IfErr result NoCheckFailed }
        ensures checked { OnOk result ((bytes : List ℕ)
            → Checked (footer_at bytes) bytes None
            self.new.kept.entries.items self.new.kept.checked.items) }
        ensures err { OnErr result ((self.new.kept.entries ≡ self.old.kept.entries)
            × (self.new.kept.checked ≡ self.old.kept.checked)) }

        // What becomes of the file.
        ensures same_reference { self.new.file.ghost_name ≡ self.old.file.ghost_name }
        ensures cause { HasCauseOf TableErr.ReadFault (R.faults self.old.file.now)
            (R.faults self.new.file.now) result }
        ensures reads { R.reads self.new.file.now ≤ R.reads self.old.file.now + 2 }
        ensures same { IsSameFile (R.content self.old.file.now) (R.content self.new.file.now)
            (R.extent self.old.file.now) (R.extent self.new.file.now) (R.beside self.old.file.now)
            (R.beside self.new.file.now) }
    {
        match read_index(alloc, self.file, &mut self.kept.block) {
            Ok(entries) => match unmarked(alloc, entries.len()) {
                Ok(checked) => {
                    self.kept.entries = entries;
                    self.kept.checked = checked;
                    Ok(())
                }
                Err(NoMemory) => Err(TableErr::NoMemory),
            },
            Err(error) => Err(error),
        }
    }

    /// The value of `key`, or `None` where the table has no row of that key; by one read at most.
    ///
    /// The data block that the index names for `key` is read whole. Damage is that of its first
    /// check that fails, in the order of docs/FORMAT.md, "Checks of a table": its end, its type
    /// byte, its sum, its restarts; each entry, its key above the last one and between the index
    /// keys around the block. `Compressed` comes if and only if the type byte is 1. `ReadFault`
    /// comes only if the file failed in this call. The table's entries stay.
    ///
    /// Restarts and entries are checked until no check fails: from then on the block counts as
    /// checked, and only its end, its type byte and its sum are checked at each call.
    pub fn get(&mut self, alloc: Global, key: &[u8]) -> Result<Option<Octets>, TableErr>
        ensures gets { (bytes : List ℕ) → R.content self.old.file.now ≡ Some bytes
            → (entered : Entered bytes self.old.kept.entries.items)
            → Checked (footer_at bytes) bytes None
            self.old.kept.entries.items self.old.kept.checked.items
            → Gets (footer_at bytes) bytes key.now entered.index result }
        ensures table { (bytes : List ℕ) (rows : List RowView)
            → R.content self.old.file.now ≡ Some bytes
            → Entered bytes self.old.kept.entries.items
            → Checked (footer_at bytes) bytes None
            self.old.kept.entries.items self.old.kept.checked.items
            → IsTable bytes rows → GetsRow key.now rows result }
        ensures checked { (bytes : List ℕ) → R.content self.old.file.now ≡ Some bytes
            → Entered bytes self.old.kept.entries.items
            → Checked (footer_at bytes) bytes None
            self.old.kept.entries.items self.old.kept.checked.items
            → Checked (footer_at bytes) bytes None
            self.new.kept.entries.items self.new.kept.checked.items }
        ensures entries { self.new.kept.entries ≡ self.old.kept.entries }

        // What becomes of the file.
        ensures same_reference { self.new.file.ghost_name ≡ self.old.file.ghost_name }
        ensures cause { HasCauseOf TableErr.ReadFault (R.faults self.old.file.now)
            (R.faults self.new.file.now) result }
        ensures reads { R.reads self.new.file.now ≤ R.reads self.old.file.now + 1 }
        ensures same { IsSameFile (R.content self.old.file.now) (R.content self.new.file.now)
            (R.extent self.old.file.now) (R.extent self.new.file.now) (R.beside self.old.file.now)
            (R.beside self.new.file.now) }
    {
        get_in(
            alloc,
            self.file,
            self.kept.entries.as_slice(),
            self.kept.checked.as_mut_slice(),
            &mut self.kept.block,
            key,
        )
    }

    /// A reading of the rows whose keys lie from `low` to `high`, both included, before the first
    /// of them. It reads nothing.
    ///
    /// It is for [`Table::step`] of this table, or of another one over the same bytes.
    pub fn range(&self, alloc: Global, low: &[u8], high: &[u8]) -> Result<Cursor, NoMemory>
        ensures unread { IfOk result (λ c. c ≡ unread low.now high.now c.next) }
        ensures first { (bytes : List ℕ) (entered : Entered bytes self.now.kept.entries.items)
            → IfOk result
            (λ c. entry_for low.now None entered.index ≡ found_at entered.index c.next) }
        ensures table { (bytes : List ℕ) (rows : List RowView)
            (entered : Entered bytes self.now.kept.entries.items)
            → IsTable bytes rows
            → IfOk result
            (λ c. Coming (footer_at bytes) bytes entered.index c
            (in_range low.now high.now rows)) }
    {
        let next = lower_bound(self.kept.entries.as_slice(), low);
        Cursor::begin(alloc, low, high, next)
    }

    /// The next row of `cursor`, in the order of the keys, or `None` after the last one.
    ///
    /// Each data block is read whole, by one read at most, before its first row is given, and once
    /// in a reading. Damage is that of its first check that fails, in the order of docs/FORMAT.md,
    /// "Checks of a table": its end, its type byte, its sum, its restarts; each entry, its key
    /// above the last one and between the index keys around the block. `Compressed` comes if and
    /// only if the type byte is 1. `ReadFault` comes only if the file failed in this call. After an
    /// error `cursor` is before that block.
    ///
    /// Over any file a reading ends: each row that is given leaves fewer to come (`most_left`). A
    /// row at hand is given without a read; a block is passed over only if none of its rows is
    /// in the range.
    pub fn step(&mut self, alloc: Global, cursor: &mut Cursor) -> Result<Option<Row>, TableErr>
        ensures steps { (bytes : List ℕ) → R.content self.old.file.now ≡ Some bytes
            → (entered : Entered bytes self.old.kept.entries.items)
            → Steps (footer_at bytes) bytes entered.index cursor.old cursor.new result }
        ensures table { (bytes : List ℕ) (more : List RowView)
            → R.content self.old.file.now ≡ Some bytes
            → (entered : Entered bytes self.old.kept.entries.items)
            → Coming (footer_at bytes) bytes entered.index cursor.old more
            → StepsRow (footer_at bytes) bytes entered.index more cursor.new result }
        ensures sound { (bytes : List ℕ) → R.content self.old.file.now ≡ Some bytes
            → (entered : Entered bytes self.old.kept.entries.items)
            → HoldsNamed (footer_at bytes) bytes entered.index cursor.old
            → HoldsNamed (footer_at bytes) bytes entered.index cursor.new
            × GivesNamed (footer_at bytes) bytes entered.index result }
        ensures advances { Advances (length self.old.kept.entries.items)
            (R.extent self.old.file.now)
            (R.reads self.old.file.now) (R.reads self.new.file.now) cursor.old cursor.new result }
        ensures kept { (self.new.kept.entries ≡ self.old.kept.entries)
            × (self.new.kept.checked ≡ self.old.kept.checked) }

        // What becomes of the file.
        ensures same_reference { self.new.file.ghost_name ≡ self.old.file.ghost_name }
        ensures cause { HasCauseOf TableErr.ReadFault (R.faults self.old.file.now)
            (R.faults self.new.file.now) result }
        ensures same { IsSameFile (R.content self.old.file.now) (R.content self.new.file.now)
            (R.extent self.old.file.now) (R.extent self.new.file.now) (R.beside self.old.file.now)
            (R.beside self.new.file.now) }
    {
        step_in(
            alloc,
            self.file,
            self.kept.entries.as_slice(),
            &mut self.kept.block,
            cursor,
        )
    }

    /// The last key of the index, at or above every key of the table; no bytes where the index has
    /// no entries.
    pub fn last_key(&self) -> &[u8]
        ensures last { (bytes : List ℕ) (entered : Entered bytes self.now.kept.entries.items)
            → result.now ≡ key_or_empty (last_key None entered.index) }
        ensures table { (bytes : List ℕ) (rows : List RowView)
            → Entered bytes self.now.kept.entries.items
            → IsTable bytes rows → All (λ r. IsTrue (is_at_most result.now r.0)) rows }
    {
        last_of(self.kept.entries.as_slice())
    }
}
