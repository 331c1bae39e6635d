//! The rows of an index, read against those that are wanted.

ghost use Rattle.std.specs.Prelude.{◌≡◌, ◌≢◌, ◌+◌, List, ℕ, [], ◌∷◌, ◌++◌, ◌<◌, ◌-◌, ◌^◌, length, None, Some, Ok, IfOk, option_map};
ghost use Rattle.st_base.specs.Damages.{damage_view};
ghost use Rattle.st_base.specs.Faults.{HasCauseOf};
ghost use Rattle.st_base.specs.PlacedReads.{IsSameFile};
ghost use Rattle.st_tblock.specs.Block.{RowView};
ghost use Rattle.st_table.specs.TableFile.{footer_at};
ghost use Rattle.st_table.specs.Index.{Entered};
ghost use Rattle.st_index.specs.RowList.{rows_left, held_row};
ghost use Rattle.st_index.specs.CheckRows.{row_wrong, row_text, rows_wrong};
ghost use Rattle.st_index.specs.CheckWalk.{Compares, Walks};

use crate::checker::content::Content;
use crate::checker::difference::{NO_BYTE, first_byte, row_difference};
use crate::row_list::RowList;
use st_base::{Damage, NoMemory, Reader};
use st_table::{Cursor, Row, Table, TableErr};
use std::alloc::Global;

/// What is wrong with the rows of an index.
#[derive(Clone, Copy)]
pub struct Found {
    /// With what they say.
    pub content: Content,
    /// With the first row that differs from the one that is wanted.
    pub rows: Option<Damage>,
}

/// The damage at the row of this number, unless its bytes are those of the row that is held.
fn row_damage(number: u64, row: &Row, wanted: &RowList<'_>) -> Option<Damage>
    requires { length wanted.now.key.items < 2 ^ 32 - 1 }
    ensures { option_map damage_view result
        ≡ row_wrong number (row_text row.now) (row_text (held_row wanted.now)) }
{
    let (found, want) = row_difference(
        row.key.bytes(),
        row.value.bytes(),
        wanted.key(),
        wanted.value(),
    )?;
    Some(Damage {
        place: number,
        found,
        want,
    })
}

/// The damage at a row of this number where none is wanted.
fn extra_damage(number: u64, row: &Row) -> Damage
    ensures { row_wrong number (row_text row.now) [] ≡ Some (damage_view result) }
{
    Damage {
        place: number,
        found: first_byte(row.key.bytes()),
        want: NO_BYTE,
    }
}

/// The damage at this number where the row that is held is wanted, and there is none.
fn missing_damage(number: u64, wanted: &RowList<'_>) -> Damage
    ensures { row_wrong number [] (row_text (held_row wanted.now)) ≡ Some (damage_view result) }
{
    Damage {
        place: number,
        found: NO_BYTE,
        want: first_byte(wanted.key()),
    }
}

/// Compares the row of this number with the next of those that are wanted, unless a row before it
/// differs. The damage is that of the first row that differs.
fn compare_row(
    number: u64,
    differs: Option<Damage>,
    row: &Row,
    wanted: &mut RowList<'_>,
) -> Result<Option<Damage>, NoMemory>
    ensures { (rows all : List RowView)
        → Compares number (option_map damage_view differs) rows (rows_left wanted.old) all
        → IfOk result (λ d. Compares (number + 1) (option_map damage_view d)
        (rows ++ row.now ∷ []) (rows_left wanted.new) all) }
{
    if let Some(damage) = differs {
        return Ok(Some(damage));
    }
    match wanted.next() {
        Ok(true) => Ok(row_damage(number, row, wanted)),
        Ok(false) => Ok(Some(extra_damage(number, row))),
        Err(error) => Err(error),
    }
}

/// Compares the end of the rows, of which there are this many, with those that are wanted, unless a
/// row differs. The damage is that of the first row that differs or isn't there.
fn compare_end(
    number: u64,
    differs: Option<Damage>,
    wanted: &mut RowList<'_>,
) -> Result<Option<Damage>, NoMemory>
    ensures { (rows all : List RowView)
        → Compares number (option_map damage_view differs) rows (rows_left wanted.old) all
        → IfOk result (λ d. option_map damage_view d ≡ rows_wrong 0 rows all) }
{
    if let Some(damage) = differs {
        return Ok(Some(damage));
    }
    match wanted.next() {
        Ok(true) => Ok(Some(missing_damage(number, wanted))),
        Ok(false) => Ok(None),
        Err(error) => Err(error),
    }
}

/// What is wrong with the rows of `table` from where `cursor` is, to their end.
///
/// The number of a row is counted from 0. A table that has 2^64 rows or more is given up as out of
/// memory.
pub fn walk<R: Reader>(
    alloc: Global,
    table: &mut Table<'_, R>,
    cursor: &mut Cursor,
    wanted: &mut RowList<'_>,
) -> Result<Found, TableErr>
    ensures walks { (bytes : List ℕ) → R.content table.old.file.now ≡ Some bytes
        → (entered : Entered bytes table.old.kept.entries.items)
        → Walks (footer_at bytes) bytes entered.index cursor.old cursor.new
        (rows_left wanted.old) result }
    // What becomes of the file.
    ensures same_reference { table.new.file.ghost_name ≡ table.old.file.ghost_name }
    ensures cause { HasCauseOf TableErr.ReadFault (R.faults table.old.file.now)
        (R.faults table.new.file.now) result }
    ensures same { IsSameFile (R.content table.old.file.now) (R.content table.new.file.now)
        (R.extent table.old.file.now) (R.extent table.new.file.now)
        (R.beside table.old.file.now) (R.beside table.new.file.now) }
{
    let mut content = Content::none();
    let mut differs = None;
    'rows: for number in 0..u64::MAX {
        match table.step(alloc, cursor) {
            Ok(Some(row)) => {
                content = content.after(row.key.bytes(), row.value.bytes());
                match compare_row(number, differs, &row, wanted) {
                    Ok(found) => differs = found,
                    Err(NoMemory) => return Err(TableErr::NoMemory),
                }
            }
            Ok(None) => match compare_end(number, differs, wanted) {
                Ok(rows) => return Ok(Found { content, rows }),
                Err(NoMemory) => return Err(TableErr::NoMemory),
            },
            Err(error) => return Err(error),
        }
    }
    Err(TableErr::NoMemory)
}
