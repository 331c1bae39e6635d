//! Blocks as they are written: each with its trailer after it.

ghost use Rattle.std.specs.Prelude.{◌≡◌, ◌∷◌, List, OnOk};
ghost use Rattle.byteorder.specs.Endian.{little_bytes};
ghost use Rattle.st_base.specs.Faults.{HasCause, HasCauseOf};
ghost use Rattle.st_base.specs.Pieces.{Puts};
ghost use Rattle.st_tblock.specs.Block.{RowView, IsBlock};
ghost use Rattle.st_tblock.specs.Builder.{block_text, HasRows};
ghost use Rattle.st_table.specs.TableFile.{sum_of};
ghost use Rattle.st_table.specs.TableBuilderView.{stored_text};

use crate::build_errors::BuildErr;
use byteorder::{ByteOrder, LittleEndian};
use st_base::{Failed, NoMemory, Sink, put};
use st_tblock::{EntryBlock, PLAIN, TRAILER_SIZE, crc32c, mask};

/// The trailer of a block: its type byte and the masked sum of both.
#[tactic(auto, unfolding(crate::specs::TableFile::sum_of))]
fn trailer(block: &[u8]) -> [u8; TRAILER_SIZE]
    ensures { result ≡ PLAIN ∷ little_bytes 4 (sum_of PLAIN block.now) }
{
    let sum = mask(crc32c(block, PLAIN));
    let mut bytes = [PLAIN; TRAILER_SIZE];
    LittleEndian::write_u32(&mut bytes[1..], sum);
    bytes
}

/// Puts a block by one `put`, and its trailer by another.
pub fn put_stored<S: Sink>(sink: &mut S, block: &[u8]) -> Result<(), Failed>
    ensures bytes { Puts (S.written sink.old) (S.written sink.new) (stored_text block.now) result }
    ensures cause { HasCause (S.faults sink.old) (S.faults sink.new) result }
    ensures rest { S.beside sink.new ≡ S.beside sink.old }
{
    match put(sink, block) {
        Ok(()) => put(sink, &trailer(block)),
        Err(error) => Err(error),
    }
}

/// Puts the block that was built, which itself stays as it was.
pub fn put_block<S: Sink>(block: &mut EntryBlock, sink: &mut S) -> Result<(), BuildErr>
    // What is written.
    ensures bytes { Puts (S.written sink.old) (S.written sink.new)
        (stored_text (block_text block.old)) result }
    ensures good { OnOk result ((rows : List RowView) → HasRows block.old rows
        → IsBlock (block_text block.old) rows) }
    // When it fails, and what stays.
    ensures same { block.new ≡ block.old }
    ensures cause { HasCauseOf BuildErr.WriteFault (S.faults sink.old) (S.faults sink.new) result }
    ensures rest { S.beside sink.new ≡ S.beside sink.old }
{
    match block.finish() {
        Ok(bytes) => match put_stored(sink, bytes) {
            Ok(()) => Ok(()),
            Err(Failed) => Err(BuildErr::WriteFault),
        },
        Err(NoMemory) => Err(BuildErr::NoMemory),
    }
}
