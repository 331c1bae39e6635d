//! An index against the rows that are wanted.

ghost use Rattle.std.specs.Prelude.{◌≡◌, List, ℕ, Some, IfOk};
ghost use Rattle.st_base.specs.Faults.{HasCauseOf};
ghost use Rattle.st_base.specs.PlacedReads.{IsSameFile};
ghost use Rattle.st_table.specs.Index.{Entered};
ghost use Rattle.st_index.specs.RowList.{rows_left};
ghost use Rattle.st_index.specs.Verdict.{HasVerdictCause};
ghost use Rattle.st_index.specs.CheckIndex.{ReadsTable, Refuses, JudgesFound, JudgesIndex};

use crate::checker::walk::{Found, walk};
use crate::checker::{CheckErr, Part, Verdict};
use crate::row_list::RowList;
use st_base::{Damage, NoMemory, Reader};
use st_table::{Table, TableErr};
use st_tblock::{PLAIN, SNAPPY};
use std::alloc::Global;

/// The verdict on an index that is refused as a table. A compressed block fails the check of its
/// type byte.
fn refused(error: TableErr) -> Result<Verdict, CheckErr>
    ensures { Refuses error result }
{
    let damage = match error {
        TableErr::ReadFault => return Err(CheckErr::ReadFault),
        TableErr::NoMemory => return Err(CheckErr::NoMemory),
        TableErr::Damaged(damage) => damage,
        TableErr::Compressed { place } => Damage {
            place,
            found: u64::from(SNAPPY),
            want: u64::from(PLAIN),
        },
    };
    Ok(Verdict::Differs {
        part: Part::Index,
        damage,
    })
}

/// The verdict on an index whose table is good, by what is wrong with its rows.
fn judge_rows(found: Found, packets: u32) -> Verdict
    ensures { JudgesFound found packets result }
{
    if let Some(damage) = found.content.damage() {
        return Verdict::Differs {
            part: Part::Index,
            damage,
        };
    }
    match found.rows {
        Some(damage) => Verdict::Differs {
            part: Part::Rows,
            damage,
        },
        None => Verdict::Whole { packets },
    }
}

/// What is wrong with the rows of a table that was entered.
fn read_table<R: Reader>(
    alloc: Global,
    table: &mut Table<'_, R>,
    wanted: &mut RowList<'_>,
) -> Result<Found, TableErr>
    ensures reads { (bytes : List ℕ) → R.content table.old.file.now ≡ Some bytes
        → Entered bytes table.old.kept.entries.items
        → ReadsTable bytes (rows_left wanted.old) result }
    // What becomes of the file.
    ensures same_reference { table.new.file.ghost_name ≡ table.old.file.ghost_name }
    ensures cause { HasCauseOf TableErr.ReadFault (R.faults table.old.file.now)
        (R.faults table.new.file.now) result }
    ensures same { IsSameFile (R.content table.old.file.now) (R.content table.new.file.now)
        (R.extent table.old.file.now) (R.extent table.new.file.now)
        (R.beside table.old.file.now) (R.beside table.new.file.now) }
{
    match table.range(alloc, &[], table.last_key()) {
        Ok(cursor) => {
            let mut cursor = cursor;
            walk(alloc, table, &mut cursor, wanted)
        }
        Err(NoMemory) => Err(TableErr::NoMemory),
    }
}

/// The verdict on an index whose rows are to be `wanted`, those of this number of packets.
///
/// `ReadFault` comes only if the index failed in this call.
pub fn judge_index<R: Reader>(
    alloc: Global,
    index: &mut R,
    wanted: &mut RowList<'_>,
    packets: u32,
) -> Result<Verdict, CheckErr>
    ensures judges { (bytes : List ℕ) → R.content index.old ≡ Some bytes
        → IfOk result (JudgesIndex bytes (rows_left wanted.old) packets) }
    ensures cause { HasVerdictCause CheckErr.ReadFault (R.faults index.old)
        (R.faults index.new) result }
    ensures same { IsSameFile (R.content index.old) (R.content index.new) (R.extent index.old)
        (R.extent index.new) (R.beside index.old) (R.beside index.new) }
{
    let mut table = Table::over(alloc, index);
    match table.enter(alloc) {
        Ok(()) => {}
        Err(error) => return refused(error),
    }
    match read_table(alloc, &mut table, wanted) {
        Ok(found) => Ok(judge_rows(found, packets)),
        Err(error) => refused(error),
    }
}
