//! Writing the index of a pair.

ghost use Rattle.std.specs.Prelude.{◌≡◌, true, Ok, IsTrue, OnOk, IfOk, IsSome, length, List};
ghost use Rattle.st_base.specs.Faults.{HasCauseOf};
ghost use Rattle.st_base.specs.Pieces.{Puts};
ghost use Rattle.st_block.specs.Scan.{PositionedRecord};
ghost use Rattle.st_table.specs.TableFile.{IsTable};
ghost use Rattle.st_index.specs.KeyLists.{lists_left};
ghost use Rattle.st_index.specs.Maker.{HasRecords};
ghost use Rattle.st_index.specs.RowList.{rows_of, rows_left};
ghost use Rattle.st_index.specs.Write.{index_text, IsIndexOf, IsReady, PutsRow, PutsRows};

use crate::maker::IndexMaker;
use crate::row_list::RowList;
use st_base::{NoMemory, Sink};
use st_table::{BuildErr, TableBuilder};
use std::alloc::Global;

// Adds the next row to the table, and answers whether there was one.
fn put_next<S: Sink>(
    rows: &mut RowList<'_>,
    builder: &mut TableBuilder,
    sink: &mut S,
) -> Result<bool, BuildErr>
    requires { IsReady builder.old rows.old.summary (lists_left rows.old.lists) }
    ensures row { PutsRow builder.old builder.new (rows_left rows.old) (rows_left rows.new)
        (S.written sink.old) (S.written sink.new) result }
    ensures ready { result ≡ Ok true
        → IsReady builder.new rows.new.summary (lists_left rows.new.lists) }
    // When it fails, and what stays.
    ensures cause { HasCauseOf BuildErr.WriteFault (S.faults sink.old) (S.faults sink.new) result }
    ensures rest { S.beside sink.new ≡ S.beside sink.old }
{
    match rows.next() {
        Ok(true) => match builder.add(rows.key(), rows.value(), sink) {
            Ok(()) => Ok(true),
            Err(error) => Err(error),
        },
        Ok(false) => Ok(false),
        Err(NoMemory) => Err(BuildErr::NoMemory),
    }
}

// Adds all rows to the table.
fn put_rows<S: Sink>(
    rows: &mut RowList<'_>,
    builder: &mut TableBuilder,
    sink: &mut S,
) -> Result<(), BuildErr>
    requires { IsReady builder.old rows.old.summary (lists_left rows.old.lists) }
    ensures rows { PutsRows builder.old builder.new (rows_left rows.old)
        (S.written sink.old) (S.written sink.new) result }
    ensures cause { HasCauseOf BuildErr.WriteFault (S.faults sink.old) (S.faults sink.new) result }
    ensures rest { S.beside sink.new ≡ S.beside sink.old }
{
    'rows: while put_next(rows, builder, sink)? {}
    Ok(())
}

impl IndexMaker {
    /// Writes the index of the packets: a table of exactly their rows, and returns its length in
    /// bytes. There is at least one packet. The sink must be at the file's first byte.
    ///
    /// `WriteFault` comes only if the sink's `faults` rose in this call. After an error a prefix of
    /// the index follows what the sink had. Writing changes nothing: it may be called again.
    /// Source: docs/FORMAT.md, "Index rows".
    pub fn write<S: Sink>(&self, alloc: Global, sink: &mut S) -> Result<u64, BuildErr>
        requires { IsSome self.now.summary }
        // Which bytes are written, and how many.
        ensures bytes { Puts (S.written sink.old) (S.written sink.new) (index_text self.now)
            result }
        ensures length { IfOk result (λ n. n ≡ length (index_text self.now)) }
        // What they are.
        ensures table { OnOk result (IsTable (index_text self.now) (rows_of self.now)) }
        ensures index { OnOk result ((given : List PositionedRecord) → HasRecords self.now given
            → IsIndexOf given (index_text self.now)) }
        // When it fails, and what stays.
        ensures cause { HasCauseOf BuildErr.WriteFault (S.faults sink.old)
            (S.faults sink.new) result }
        ensures rest { S.beside sink.new ≡ S.beside sink.old }
    {
        let mut rows = RowList::new(alloc, self);
        let mut builder = match TableBuilder::new(alloc) {
            Ok(builder) => builder,
            Err(NoMemory) => return Err(BuildErr::NoMemory),
        };
        match put_rows(&mut rows, &mut builder, sink) {
            Ok(()) => builder.finish(sink),
            Err(error) => Err(error),
        }
    }
}
