ghost use Rattle.std.specs.Prelude.{◌≡◌, ◌≤◌, ◌<◌, ◌+◌, ◌^◌, ◌++◌, ◌∷◌, [], List, ℕ, length, OnOk, IfOk, IsTrue, Some, Ok, ◌↔◌};
ghost use Rattle.st_base.specs.Faults.{HasCauseOf};
ghost use Rattle.st_base.specs.Pieces.{Puts};
ghost use Rattle.st_tblock.specs.Block.{RowView, IsBlock, key_or_empty, is_above};
ghost use Rattle.st_tblock.specs.Builder.{empty, block_size, block_text, HasRows};
ghost use Rattle.st_tblock.specs.Handles.{handle_text, footer_text, footer_in};
ghost use Rattle.st_table.specs.TableFile.{IsTable};
ghost use Rattle.st_table.specs.TableBuilderView.{builder_view, no_rows, room_of, next_handle, stored_text, after_row, written_by, ending_at, finishing};
ghost use Rattle.st_table.specs.Builder.{Builds, Indexes, MayAdd, MayName, MayEnd, last_added, Names};

use crate::build_errors::BuildErr;
use crate::limits::{
    BLOCK_SIZE, DATA_INTERVAL, INDEX_INTERVAL, MAX_KEY, ROOM_LIMIT, ROW_ROOM, VALUE_LIMIT,
};
use crate::puts::{put_block, put_stored};
use st_base::{Failed, NoMemory, Sink, put};
use st_tblock::{EntryBlock, FOOTER_SIZE, Handle, RESTART_SIZE, TRAILER_SIZE, footer, put_handle};
use std::alloc::Global;
use std::marker::Model;

/// The size of a block without entries, in bytes: one restart and the number of restarts.
const METAINDEX_SIZE: usize = 2 * RESTART_SIZE;

/// A block without entries, as the metaindex block is.
const METAINDEX: [u8; METAINDEX_SIZE] = [0, 0, 0, 0, 1, 0, 0, 0];

/// Puts a data block and names it in the index under its last key. The data block stays as it was.
fn put_named<S: Sink>(
    block: &mut EntryBlock,
    index: &mut EntryBlock,
    handle: Handle,
    sink: &mut S,
) -> Result<(), BuildErr>
    requires { MayName block.old index.old }
    // What is written.
    ensures bytes { Puts (S.written sink.old) (S.written sink.new)
        (stored_text (block_text block.old)) result }
    ensures good { OnOk result ((rows : List RowView) → HasRows block.old rows
        → IsBlock (block_text block.old) rows) }
    // What the index then is.
    ensures index { Names index.old index.new (key_or_empty block.old.last) handle result }
    ensures named { OnOk result ((rows : List RowView) → HasRows index.old rows
        → HasRows index.new (rows ++ (key_or_empty block.old.last, handle_text handle) ∷ [])) }
    // When it fails, and what stays.
    ensures same { block.new ≡ block.old }
    ensures cause { HasCauseOf BuildErr.WriteFault (S.faults sink.old) (S.faults sink.new) result }
    ensures rest { S.beside sink.new ≡ S.beside sink.old }
{
    match put_block(block, sink) {
        Ok(()) => match index.add(block.last_key(), put_handle(handle).as_slice()) {
            Ok(()) => Ok(()),
            Err(NoMemory) => Err(BuildErr::NoMemory),
        },
        Err(error) => Err(error),
    }
}

/// Puts the data block at hand, names it in the index and empties it. `at` is the offset of the
/// next block in the file.
fn close<S: Sink>(
    block: &mut EntryBlock,
    index: &mut EntryBlock,
    at: &mut u64,
    sink: &mut S,
) -> Result<(), BuildErr>
    requires may { MayName block.old index.old }
    requires at { at.old + block_size block.old < 2 ^ 63 }
    // What is written.
    ensures bytes { Puts (S.written sink.old) (S.written sink.new)
        (stored_text (block_text block.old)) result }
    ensures good { OnOk result ((rows : List RowView) → HasRows block.old rows
        → IsBlock (block_text block.old) rows) }
    // What the index then is, and the block that begins.
    ensures index { Names index.old index.new (key_or_empty block.old.last)
        (next_handle at.old (block_size block.old)) result }
    ensures named { OnOk result ((rows : List RowView) → HasRows index.old rows
        → HasRows index.new
        (rows
        ++ (
          key_or_empty block.old.last,
          handle_text
              (next_handle at.old (block_size block.old)),
        ) ∷ [])) }
    ensures next { (block.new ≡ empty block.old.interval)
        × (at.new ≡ at.old + (block_size block.old + TRAILER_SIZE)) }
    // When it fails, and what stays.
    ensures sink { HasCauseOf BuildErr.WriteFault (S.faults sink.old) (S.faults sink.new) result
        × (S.beside sink.new ≡ S.beside sink.old) }
{
    let offset = *at;
    let size = block.size();
    let written = put_named(block, index, Handle { offset, size }, sink);
    block.clear();
    *at = offset + size + TRAILER_SIZE as u64;
    written
}

/// Puts the index block, and then the footer.
fn put_index<S: Sink>(
    index: &mut EntryBlock,
    meta: Handle,
    named: Handle,
    sink: &mut S,
) -> Result<(), BuildErr>
    // What is written.
    ensures bytes { Puts (S.written sink.old) (S.written sink.new)
        (stored_text (block_text index.old) ++ footer_text meta named) result }
    ensures good { OnOk result ((rows : List RowView) → HasRows index.old rows
        → IsBlock (block_text index.old) rows) }
    // The footer.
    ensures size { length (footer_text meta named) ≡ FOOTER_SIZE }
    ensures read { footer_in (footer_text meta named) ≡ Ok (meta, named) }
    // When it fails, and what stays.
    ensures cause { HasCauseOf BuildErr.WriteFault (S.faults sink.old) (S.faults sink.new) result }
    ensures rest { S.beside sink.new ≡ S.beside sink.old }
{
    let foot = footer(meta, named);
    match put_block(index, sink) {
        Ok(()) => match put(sink, &foot) {
            Ok(()) => Ok(()),
            Err(Failed) => Err(BuildErr::WriteFault),
        },
        Err(error) => Err(error),
    }
}

/// Puts what follows the last data block, at the offset `at`, and returns the file's length.
fn put_ending<S: Sink>(index: &mut EntryBlock, at: u64, sink: &mut S) -> Result<u64, BuildErr>
    requires at { at < 2 ^ 62 }
    requires room { block_size index.old < 2 ^ 62 }
    // What is written, and the file's length.
    ensures bytes { Puts (S.written sink.old) (S.written sink.new) (ending_at at index.old) result }
    ensures length { IfOk result (λ n. n ≡ at + length (ending_at at index.old)) }
    // The table that it completes.
    ensures table { OnOk result ((bytes : List ℕ) (rows : List RowView) → length bytes ≡ at
        → Indexes index.old bytes rows → IsTable (bytes ++ ending_at at index.old) rows) }
    // When it fails, and what stays.
    ensures cause { HasCauseOf BuildErr.WriteFault (S.faults sink.old) (S.faults sink.new) result }
    ensures rest { S.beside sink.new ≡ S.beside sink.old }
{
    let meta = Handle {
        offset: at,
        size: METAINDEX_SIZE as u64,
    };
    let named = Handle {
        offset: at + (METAINDEX_SIZE + TRAILER_SIZE) as u64,
        size: index.size(),
    };
    match put_stored(sink, &METAINDEX) {
        Ok(()) => match put_index(index, meta, named, sink) {
            Ok(()) => Ok(named.offset + named.size + (TRAILER_SIZE + FOOTER_SIZE) as u64),
            Err(error) => Err(error),
        },
        Err(Failed) => Err(BuildErr::WriteFault),
    }
}

/// Puts the data block at hand, if it has rows, and what follows the last one, and returns the
/// file's length. `at` is the offset of the next block in the file.
fn put_rest<S: Sink>(
    block: &mut EntryBlock,
    index: &mut EntryBlock,
    at: u64,
    sink: &mut S,
) -> Result<u64, BuildErr>
    requires { MayEnd block.old index.old at }
    // What is written, and the file's length.
    ensures bytes { Puts (S.written sink.old) (S.written sink.new)
        (finishing (builder_view block.old index.old at 0)) result }
    ensures length { IfOk result
        (λ n. n ≡ at + length (finishing (builder_view block.old index.old at 0))) }
    // The table that it completes.
    ensures table { OnOk result ((bytes : List ℕ) (rows : List RowView)
        → Builds (builder_view block.old index.old at 0) bytes rows
        → IsTable (bytes ++ finishing (builder_view block.old index.old at 0)) rows) }
    // When it fails, and what stays.
    ensures cause { HasCauseOf BuildErr.WriteFault (S.faults sink.old) (S.faults sink.new) result }
    ensures rest { S.beside sink.new ≡ S.beside sink.old }
{
    if block.is_empty() {
        return put_ending(index, at, sink);
    }
    let mut at = at;
    match close(block, index, &mut at, sink) {
        Ok(()) => put_ending(index, at, sink),
        Err(error) => Err(error),
    }
}

/// A table that is being written: rows in the order of their keys, in data blocks of 4,096 bytes
/// or little more.
///
/// It keeps the data block at hand and the index block, and neither the rows nor the bytes that
/// were written: `Builds` says which of these it represents. Lengths are in bytes.
#[derive(Drop)]
pub struct TableBuilder {
    block: EntryBlock,
    index: EntryBlock,
    at: u64,
    spent: u64,
}

impl Model for TableBuilder {
    ghost use Rattle.st_table.specs.TableBuilderView.{TableBuilderView, builder_view};
    ghost use Rattle.st_table.specs.Builder.{IsSteady};

    ghost Value = { TableBuilderView };

    ghost view = { λ a. builder_view a.block a.index a.at a.spent };

    ghost invariant = { λ a. IsSteady (builder_view a.block a.index a.at a.spent) };
}

impl TableBuilder {
    /// A builder without rows. Its sink must be at the file's first byte.
    ///
    /// Source: LevelDB, table/table_builder.cc; docs/FORMAT.md, "Table file".
    pub fn new(alloc: Global) -> Result<TableBuilder, NoMemory>
        ensures no_rows { IfOk result (λ b. b ≡ no_rows) }
        ensures builds { IfOk result (λ b. Builds b [] []) }
    {
        let block = EntryBlock::new(alloc, DATA_INTERVAL)?;
        let index = EntryBlock::new(alloc, INDEX_INTERVAL)?;
        Ok(TableBuilder {
            block,
            index,
            at: 0,
            spent: 0,
        })
    }

    /// Whether `key` is above the last key.
    fn is_above(&self, key: &[u8]) -> bool
        ensures { result ≡ is_above (last_added self.now) key.now }
    {
        if self.block.is_empty() {
            self.index.takes(key)
        } else {
            self.block.takes(key)
        }
    }

    /// Whether the row may come next. Its key rises above the one before it and has 64 bytes or
    /// fewer; its value has fewer than 2^32; and the rows with this one, at their bytes and 32 more
    /// each, come to less than 2^37.
    pub fn takes(&self, key: &[u8], value: &[u8]) -> bool
        ensures { IsTrue result ↔ MayAdd self.now (key.now, value.now) }
    {
        key.len() <= MAX_KEY
            && (value.len() as u64) < VALUE_LIMIT
            && self.spent + (key.len() as u64 + value.len() as u64 + ROW_ROOM) < ROOM_LIMIT
            && self.is_above(key)
    }

    /// Adds a row, and puts the data block where it is full by that: two `put`s.
    ///
    /// `WriteFault` comes only if the sink's `faults` rose in this call. After an error a prefix of
    /// what the row writes follows what the sink had, and the builder can only be dropped.
    /// Source: LevelDB, table/table_builder.cc; docs/FORMAT.md, "Table file".
    pub fn add<S: Sink>(&mut self, key: &[u8], value: &[u8], sink: &mut S) -> Result<(), BuildErr>
        requires { MayAdd self.old (key.now, value.now) }
        // What is written, and what the builder then is.
        ensures bytes { Puts (S.written sink.old) (S.written sink.new)
            (written_by self.old (key.now, value.now)) result }
        ensures kept { OnOk result (self.new ≡ after_row self.old (key.now, value.now)) }
        ensures last { OnOk result (last_added self.new ≡ Some key.now) }
        ensures spent { OnOk result
            (self.new.spent ≡ self.old.spent + room_of (key.now, value.now)) }
        // The rows that it represents.
        ensures builds { OnOk result ((bytes : List ℕ) (rows : List RowView)
            → Builds self.old bytes rows
            → Builds self.new (bytes ++ written_by self.old (key.now, value.now))
            (rows ++ (key.now, value.now) ∷ [])) }
        // When it fails, and what stays.
        ensures cause { HasCauseOf BuildErr.WriteFault (S.faults sink.old)
            (S.faults sink.new) result }
        ensures rest { S.beside sink.new ≡ S.beside sink.old }
    {
        match self.block.add(key, value) {
            Ok(()) => {}
            Err(NoMemory) => return Err(BuildErr::NoMemory),
        }
        self.spent += key.len() as u64 + value.len() as u64 + ROW_ROOM;
        let size = self.block.size();
        if size < BLOCK_SIZE {
            return Ok(());
        }
        close(&mut self.block, &mut self.index, &mut self.at, sink)
    }

    /// Puts the data block at hand, if it has rows, and what follows the last one, and returns the
    /// file's length in bytes.
    ///
    /// `WriteFault` comes only if the sink's `faults` rose in this call. After an error a prefix of
    /// the table's end follows what the sink had.
    /// Source: LevelDB, table/table_builder.cc; docs/FORMAT.md, "Table file".
    pub fn finish<S: Sink>(self, sink: &mut S) -> Result<u64, BuildErr>
        // What is written, and the file's length.
        ensures bytes { Puts (S.written sink.old) (S.written sink.new) (finishing self) result }
        ensures length { IfOk result (λ n. n ≡ self.at + length (finishing self)) }
        // The table that it completes.
        ensures table { OnOk result ((bytes : List ℕ) (rows : List RowView) → Builds self bytes rows
            → IsTable (bytes ++ finishing self) rows) }
        // When it fails, and what stays.
        ensures cause { HasCauseOf BuildErr.WriteFault (S.faults sink.old)
            (S.faults sink.new) result }
        ensures rest { S.beside sink.new ≡ S.beside sink.old }
    {
        let TableBuilder {
            mut block,
            mut index,
            at,
            spent: _,
        } = self;
        put_rest(&mut block, &mut index, at, sink)
    }
}
