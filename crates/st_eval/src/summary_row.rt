//! Reading the summary row of an index.

ghost use Rattle.std.specs.Prelude.{◌≡◌, ◌≢◌, ◌+◌, ◌^◌, ◌<◌, ◌≤◌, ℕ, List, length, IfOk, IfErr, OnOk, Some, None};
ghost use Rattle.st_base.specs.Faults.{HasCauseOf};
ghost use Rattle.st_base.specs.PlacedReads.{IsSameFile};
ghost use Rattle.st_tblock.specs.Block.{RowView};
ghost use Rattle.st_block.specs.Scan.{PositionedRecord};
ghost use Rattle.st_rows.specs.Values.{summary_wrong};
ghost use Rattle.st_eval.specs.Refusals.{RefusesSummary, damage_in};
ghost use Rattle.st_eval.specs.Selection.{IsEntered, IsOver, IsIndexOf, Summarizes, summary_view};
ghost use Rattle.st_eval.specs.SummaryRow.{number_at, summary_at};

use crate::errors::{EvalErr, refused_by};
use crate::summaries::Summary;
use byteorder::{BigEndian, ByteOrder};
use st_base::{Damage, Reader};
use st_rows::{INDEX_VERSION, POSITION_SIZE, SUMMARY_KIND, SUMMARY_SIZE};
use st_table::Table;
use std::alloc::Global;

/// Where the number of packets is in the summary row's value. Source: docs/FORMAT.md, "Index rows".
const PACKETS_AT: usize = 4;

/// Where the time of the first packet is in it: seconds, and then nanoseconds.
const FIRST_AT: usize = 8;

/// Where the time of the last packet is in it.
const LAST_AT: usize = 16;

/// The number at the offset `at`.
fn number_at(value: &[u8], at: usize) -> u32
    requires { at + POSITION_SIZE ≤ length value.now }
    ensures { result ≡ number_at at value.now }
{
    BigEndian::read_u32(&value[at..])
}

/// The summary that the summary row's value says.
///
/// `Damaged` comes if the value's length is not 24, or else if its version is not 1.
fn summary_in(value: &[u8]) -> Result<Summary, EvalErr>
    ensures says { IfOk result (λ s. summary_view s ≡ summary_at value.now) }
    ensures sound { OnOk result (summary_wrong (Some value.now) ≡ None) }
    ensures refuses { IfErr result (λ e. damage_in e ≡ summary_wrong (Some value.now)) }
    ensures cause { IfErr result (λ e. e ≢ EvalErr.ReadFault) }
{
    if value.len() != SUMMARY_SIZE {
        return Err(EvalErr::Damaged(Damage {
            place: 0,
            found: value.len() as u64,
            want: SUMMARY_SIZE as u64,
        }));
    }
    let version = number_at(value, 0);
    if version != INDEX_VERSION {
        return Err(EvalErr::Damaged(Damage {
            place: 0,
            found: u64::from(version),
            want: u64::from(INDEX_VERSION),
        }));
    }
    Ok(Summary {
        packets: number_at(value, PACKETS_AT),
        first: (
            number_at(value, FIRST_AT),
            number_at(value, FIRST_AT + POSITION_SIZE),
        ),
        last: (
            number_at(value, LAST_AT),
            number_at(value, LAST_AT + POSITION_SIZE),
        ),
    })
}

/// What the summary row of an index says, by one read at most. The index was entered.
///
/// `Damaged` comes if a check of the data block that is read fails, as `Table::get` has it, a
/// compressed block by its type byte; or with place 0 if there is no summary row, if its value has
/// not 24 bytes, or if its version is not 1. It never comes over the index of fewer than 2^32
/// packets. `ReadFault` comes only if the file failed in this call. The table's entries stay.
/// Source: docs/FORMAT.md, "Index rows".
pub fn summary<R: Reader>(alloc: Global, table: &mut Table<'_, R>) -> Result<Summary, EvalErr>
    // What is answered, and what is refused.
    ensures summarizes { (rows : List RowView) (given : List PositionedRecord)
        → IsOver (R.content table.old.file.now) table.old.kept.entries.items
        table.old.kept.checked.items rows
        → IsIndexOf given rows → length given < 2 ^ 32 → Summarizes given result }
    ensures refuses { (bytes : List ℕ) (index : List RowView)
        → IsEntered (R.content table.old.file.now) table.old.kept.entries.items
        table.old.kept.checked.items bytes index
        → IfErr result (RefusesSummary bytes index) }

    // What becomes of the table.
    ensures entries { table.new.kept.entries ≡ table.old.kept.entries }
    ensures stays { (bytes : List ℕ) (index : List RowView)
        → IsEntered (R.content table.old.file.now) table.old.kept.entries.items
        table.old.kept.checked.items bytes index
        → IsEntered (R.content table.new.file.now) table.new.kept.entries.items
        table.new.kept.checked.items bytes index }

    // What becomes of the file.
    ensures same_reference { table.new.file.ghost_name ≡ table.old.file.ghost_name }
    ensures cause { HasCauseOf EvalErr.ReadFault (R.faults table.old.file.now)
        (R.faults table.new.file.now) result }
    ensures reads { R.reads table.new.file.now ≤ R.reads table.old.file.now + 1 }
    ensures same { IsSameFile (R.content table.old.file.now) (R.content table.new.file.now)
        (R.extent table.old.file.now) (R.extent table.new.file.now) (R.beside table.old.file.now)
        (R.beside table.new.file.now) }
{
    match table.get(alloc, &[SUMMARY_KIND]) {
        Ok(Some(value)) => summary_in(value.bytes()),
        Ok(None) => Err(EvalErr::Damaged(Damage::broken(0))),
        Err(error) => Err(refused_by(error)),
    }
}
