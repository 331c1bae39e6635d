//! The rows of a maker's index, one by one, in the order of a table.

ghost use Rattle.std.specs.Prelude.{◌≡◌, ◌++◌, OnOk};
ghost use Rattle.st_rows.specs.Positions.{positions_value};
ghost use Rattle.st_rows.specs.Rows.{summary_key, summary_value};
ghost use Rattle.st_walk.specs.KeyText.{key_text};
ghost use Rattle.st_index.specs.Summaries.{summary_view};

use crate::key_lists::KeyLists;
use crate::maker::IndexMaker;
use crate::summary::Summary;
use st_base::NoMemory;
use st_rows::{INDEX_VERSION, SUMMARY_KIND};
use st_walk::key_text;
use std::alloc::{AllocError, Global};

// The value of the summary row, in place of what was there.
fn put_summary(value: &mut Vec<u8>, summary: Summary) -> Result<(), AllocError>
    ensures { OnOk result (value.new.items ≡ summary_value (summary_view summary)) }
{
    value.clear();
    value.extend_from_slice(&INDEX_VERSION.to_be_bytes())?;
    value.extend_from_slice(&summary.packets.to_be_bytes())?;
    value.extend_from_slice(&summary.first.0.to_be_bytes())?;
    value.extend_from_slice(&summary.first.1.to_be_bytes())?;
    value.extend_from_slice(&summary.last.0.to_be_bytes())?;
    value.extend_from_slice(&summary.last.1.to_be_bytes())?;
    Ok(())
}

// The value of a row with these positions, in place of what was there.
fn put_positions(value: &mut Vec<u8>, positions: &[u32]) -> Result<(), AllocError>
    ensures { OnOk result (value.new.items ≡ positions_value positions.now) }
{
    value.clear();
    for position in positions {
        value.extend_from_slice(&position.to_be_bytes())?;
    }
    Ok(())
}

// These bytes, in place of what was there.
fn put_bytes(text: &mut Vec<u8>, bytes: &[u8]) -> Result<(), AllocError>
    ensures { OnOk result (text.new.items ≡ bytes.now) }
{
    text.clear();
    text.extend_from_slice(bytes)?;
    Ok(())
}

/// The rows of a maker's index that are still to come: the summary row, if there are packets, and
/// then the rows of the keys that have positions, in the order of a table.
///
/// It holds the bytes of one row, that of the last call of `next`.
#[derive(Drop)]
pub(crate) struct RowList<'a> {
    summary: Option<Summary>,
    lists: KeyLists<'a>,
    key: Vec<u8>,
    value: Vec<u8>,
}

impl<'a> RowList<'a> {
    ghost use Rattle.std.specs.Prelude.{◌≡◌, ◌+◌, ◌*◌, ◌≤◌, ◌^◌, List, IsSome};
    ghost use Rattle.st_block.specs.Scan.{PositionedRecord};
    ghost use Rattle.st_block.specs.declared.format.TheConstants.{BLOCK_HEAD};
    ghost use Rattle.st_rows.specs.Rows.{AreRowsOf};
    ghost use Rattle.st_index.specs.KeyLists.{lists_left, AreLists, count_of};
    ghost use Rattle.st_index.specs.Maker.{HasRecords};
    ghost use Rattle.st_index.specs.RowList.{rows_of, rows_left, NextRow, RowFits};

    /// The rows of a maker's index. No row is held yet.
    pub(crate) fn new(alloc: Global, maker: &'a IndexMaker) -> RowList<'a>
        ensures left { rows_left result ≡ rows_of maker.now }
        ensures summary { result.summary ≡ maker.now.summary }
        // The lists that the rows are made of, and how many positions they have.
        ensures lists { AreLists maker.now.lists (lists_left result.lists) }
        ensures few { 4 * count_of (lists_left result.lists) + BLOCK_HEAD ≤ 2 ^ 32 }
        // The rows of the packets.
        ensures records { IsSome maker.now.summary → (given : List PositionedRecord)
            → HasRecords maker.now given → AreRowsOf given (rows_of maker.now) }
    {
        RowList {
            summary: maker.summary,
            lists: KeyLists::new(&maker.lists),
            key: Vec::new(alloc),
            value: Vec::new(alloc),
        }
    }

    /// Holds the next row, and answers whether there is one. After `NoMemory` it can only be
    /// dropped.
    pub(crate) fn next(&mut self) -> Result<bool, NoMemory>
        ensures row { NextRow (rows_left self.old) (rows_left self.new) self.new result }
        ensures fits { RowFits self.old self.new result }
    {
        if let Some(summary) = self.summary {
            self.summary = None;
            put_bytes(&mut self.key, &[SUMMARY_KIND])?;
            put_summary(&mut self.value, summary)?;
            return Ok(true);
        }
        let Some((key, positions)) = self.lists.next() else {
            return Ok(false);
        };
        put_bytes(&mut self.key, key_text(&key).as_slice())?;
        put_positions(&mut self.value, positions)?;
        Ok(true)
    }

    /// The key of the row that is held.
    pub(crate) fn key(&self) -> &[u8]
        ensures { result.now ≡ self.now.key.items }
    {
        self.key.as_slice()
    }

    /// The value of the row that is held.
    pub(crate) fn value(&self) -> &[u8]
        ensures { result.now ≡ self.now.value.items }
    {
        self.value.as_slice()
    }
}
