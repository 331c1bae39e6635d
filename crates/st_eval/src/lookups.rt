//! The positions that the rows of one key, or of the keys between two, say.

ghost use Rattle.std.specs.Prelude.{◌≡◌, ℕ, List, IfErr, Some};
ghost use Rattle.st_base.specs.Faults.{HasCauseOf};
ghost use Rattle.st_base.specs.PlacedReads.{IsSameFile};
ghost use Rattle.st_tblock.specs.Block.{RowView};
ghost use Rattle.st_eval.specs.Refusals.{RefusesEval, IsAfterSummary};
ghost use Rattle.st_eval.specs.Selection.{IsEntered, IsOver};
ghost use Rattle.st_eval.specs.Selecting.{any_has, picks};
ghost use Rattle.st_eval.specs.Lookups.{Appends, SoundBetween, HasSoundValues};

use crate::errors::{EvalErr, refused_by};
use crate::values::append_positions;
use st_base::{NoMemory, Reader};
use st_table::Table;
use st_walk::{Key, key_text};
use std::alloc::Global;

/// Appends the positions of the row of one key, by one read at most.
fn append_found<R: Reader>(
    alloc: Global,
    table: &mut Table<'_, R>,
    key: &[u8],
    all: &mut Vec<u32>,
) -> Result<(), EvalErr>
    requires { IsAfterSummary key.now }
    // What is appended, and what is refused.
    ensures appends { (rows : List RowView)
        → IsOver (R.content table.old.file.now) table.old.kept.entries.items
        table.old.kept.checked.items rows
        → Appends (any_has key.now key.now rows) (SoundBetween key.now key.now rows)
        all.old.items all.new.items result }
    ensures refuses { (bytes : List ℕ) (index : List RowView)
        → IsEntered (R.content table.old.file.now) table.old.kept.entries.items
        table.old.kept.checked.items bytes index
        → IfErr result (RefusesEval bytes index) }

    // What becomes of the table.
    ensures entries { table.new.kept.entries ≡ table.old.kept.entries }
    ensures stays { (bytes : List ℕ) (index : List RowView)
        → IsEntered (R.content table.old.file.now) table.old.kept.entries.items
        table.old.kept.checked.items bytes index
        → IsEntered (R.content table.new.file.now) table.new.kept.entries.items
        table.new.kept.checked.items bytes index }

    // What becomes of the file.
    ensures same_reference { table.new.file.ghost_name ≡ table.old.file.ghost_name }
    ensures cause { HasCauseOf EvalErr.ReadFault (R.faults table.old.file.now)
        (R.faults table.new.file.now) result }
    ensures same { IsSameFile (R.content table.old.file.now) (R.content table.new.file.now)
        (R.extent table.old.file.now) (R.extent table.new.file.now) (R.beside table.old.file.now)
        (R.beside table.new.file.now) }
{
    match table.get(alloc, key) {
        Ok(Some(value)) => append_positions(value.bytes(), all),
        Ok(None) => Ok(()),
        Err(error) => Err(refused_by(error)),
    }
}

/// Appends the positions of the rows whose keys lie from `low` to `high`, both included.
fn append_range<R: Reader>(
    alloc: Global,
    table: &mut Table<'_, R>,
    low: &[u8],
    high: &[u8],
    all: &mut Vec<u32>,
) -> Result<(), EvalErr>
    requires { IsAfterSummary low.now }
    // What is appended, and what is refused.
    ensures appends { (rows : List RowView)
        → IsOver (R.content table.old.file.now) table.old.kept.entries.items
        table.old.kept.checked.items rows
        → Appends (any_has low.now high.now rows) (SoundBetween low.now high.now rows)
        all.old.items all.new.items result }
    ensures refuses { (bytes : List ℕ) (index : List RowView)
        → IsEntered (R.content table.old.file.now) table.old.kept.entries.items
        table.old.kept.checked.items bytes index
        → IfErr result (RefusesEval bytes index) }

    // What becomes of the table.
    ensures entries { table.new.kept.entries ≡ table.old.kept.entries }
    ensures stays { (bytes : List ℕ) (index : List RowView)
        → IsEntered (R.content table.old.file.now) table.old.kept.entries.items
        table.old.kept.checked.items bytes index
        → IsEntered (R.content table.new.file.now) table.new.kept.entries.items
        table.new.kept.checked.items bytes index }

    // What becomes of the file.
    ensures same_reference { table.new.file.ghost_name ≡ table.old.file.ghost_name }
    ensures cause { HasCauseOf EvalErr.ReadFault (R.faults table.old.file.now)
        (R.faults table.new.file.now) result }
    ensures same { IsSameFile (R.content table.old.file.now) (R.content table.new.file.now)
        (R.extent table.old.file.now) (R.extent table.new.file.now) (R.beside table.old.file.now)
        (R.beside table.new.file.now) }
{
    let mut cursor = match table.range(alloc, low, high) {
        Ok(cursor) => cursor,
        Err(NoMemory) => return Err(EvalErr::NoMemory),
    };
    'rows: loop {
        match table.step(alloc, &mut cursor) {
            Ok(Some(row)) => match append_positions(row.value.bytes(), all) {
                Ok(()) => {}
                Err(error) => return Err(error),
            },
            Ok(None) => return Ok(()),
            Err(error) => return Err(refused_by(error)),
        }
    }
}

/// Appends the positions of the rows of the keys from `low` to `high`, both included; by one read
/// at most if they are equal.
pub fn append_between<R: Reader>(
    alloc: Global,
    table: &mut Table<'_, R>,
    low: &Key,
    high: &Key,
    all: &mut Vec<u32>,
) -> Result<(), EvalErr>
    // What is appended, and what is refused.
    ensures appends { (rows : List RowView)
        → IsOver (R.content table.old.file.now) table.old.kept.entries.items
        table.old.kept.checked.items rows
        → Appends (picks rows (Some (low.now, high.now))) (HasSoundValues rows)
        all.old.items all.new.items result }
    ensures refuses { (bytes : List ℕ) (index : List RowView)
        → IsEntered (R.content table.old.file.now) table.old.kept.entries.items
        table.old.kept.checked.items bytes index
        → IfErr result (RefusesEval bytes index) }

    // What becomes of the table.
    ensures entries { table.new.kept.entries ≡ table.old.kept.entries }
    ensures stays { (bytes : List ℕ) (index : List RowView)
        → IsEntered (R.content table.old.file.now) table.old.kept.entries.items
        table.old.kept.checked.items bytes index
        → IsEntered (R.content table.new.file.now) table.new.kept.entries.items
        table.new.kept.checked.items bytes index }

    // What becomes of the file.
    ensures same_reference { table.new.file.ghost_name ≡ table.old.file.ghost_name }
    ensures cause { HasCauseOf EvalErr.ReadFault (R.faults table.old.file.now)
        (R.faults table.new.file.now) result }
    ensures same { IsSameFile (R.content table.old.file.now) (R.content table.new.file.now)
        (R.extent table.old.file.now) (R.extent table.new.file.now) (R.beside table.old.file.now)
        (R.beside table.new.file.now) }
{
    let first = key_text(low);
    if *low == *high {
        return append_found(alloc, table, first.as_slice(), all);
    }
    let last = key_text(high);
    append_range(alloc, table, first.as_slice(), last.as_slice(), all)
}
