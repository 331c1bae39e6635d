//! Whether a block file and an index are a whole pair.

ghost use Rattle.std.specs.Prelude.{◌≡◌, List, ℕ, length, Some, IfOk};
ghost use Rattle.st_base.specs.PlacedReads.{IsSameFile};
ghost use Rattle.st_block.specs.Scan.{PositionedRecord};
ghost use Rattle.st_rows.specs.Whole.{IsWhole};
ghost use Rattle.st_index.specs.Verdict.{Judges, HasCauseOfEither};

mod content;
mod difference;
mod index;
mod laws;
mod packets;
mod values;
mod walk;

use crate::maker::IndexMaker;
use crate::row_list::RowList;
use index::judge_index;
pub use laws::{one_failure, one_verdict, whole_unhurt};
pub use packets::make_index;
use packets::packets_of;
use st_base::{Damage, Reader};
use st_block::BlockErr;
use std::alloc::Global;

/// Which part of a pair a failing check is of.
#[derive(Clone, Copy, Debug, PartialEq, Eq)]
pub enum Part {
    /// The block file.
    Block,
    /// The index: its blocks as a table, its summary row, or a row's positions.
    Index,
    /// The rows of the index, compared with those of the packets.
    Rows,
}

/// Whether a pair is whole.
#[derive(Clone, Copy, Debug, PartialEq, Eq)]
pub enum Verdict {
    /// The index is that of the block file, which has this many packets.
    Whole { packets: u32 },
    /// The pair isn't whole: the first check that fails is of this part.
    ///
    /// The place is an offset in the block file or in the index, in bytes; in a comparison of rows
    /// it is the number of the row, counted from 0.
    Differs { part: Part, damage: Damage },
}

/// Why a pair can't be checked.
#[derive(Clone, Copy, Debug, PartialEq, Eq)]
pub enum CheckErr {
    /// A file failed in this call: its count of faults rose.
    ReadFault,
    /// Out of memory.
    NoMemory,
}

/// Whether the block file and the index are a whole pair: the block file is that of some packets,
/// and the index is a table of exactly their rows.
///
/// `Whole` comes if and only if it is so, with the number of the packets. `Differs` has the first
/// check that fails, in the order of docs/FORMAT.md, "Checks": of the block file, then of the index
/// as a table, of its summary row, of the positions of its other rows, and last the first row that
/// differs from that of the packets. A compressed block of the index fails the check of its type
/// byte. `ReadFault` comes only if one of the files failed in this call. Both files stay.
pub fn check<R: Reader, Q: Reader>(
    alloc: Global,
    block: &mut R,
    index: &mut Q,
) -> Result<Verdict, CheckErr>
    // What comes, where the bytes of both files are known.
    ensures judges { (blocks bytes : List ℕ) → R.content block.old ≡ Some blocks
        → Q.content index.old ≡ Some bytes → IfOk result (Judges blocks bytes) }
    ensures whole { (blocks bytes : List ℕ) (given : List PositionedRecord)
        → R.content block.old ≡ Some blocks → Q.content index.old ≡ Some bytes
        → IsWhole blocks bytes given → IfOk result (λ v. v ≡ Verdict.Whole (length given)) }
    // What becomes of the files.
    ensures cause { HasCauseOfEither CheckErr.ReadFault (R.faults block.old) (R.faults block.new)
        (Q.faults index.old) (Q.faults index.new) result }
    ensures block { IsSameFile (R.content block.old) (R.content block.new) (R.extent block.old)
        (R.extent block.new) (R.beside block.old) (R.beside block.new) }
    ensures index { IsSameFile (Q.content index.old) (Q.content index.new) (Q.extent index.old)
        (Q.extent index.new) (Q.beside index.old) (Q.beside index.new) }
{
    let mut maker = IndexMaker::new(alloc);
    match make_index(alloc, block, &mut maker) {
        Ok(()) => {}
        Err(BlockErr::ReadFault) => return Err(CheckErr::ReadFault),
        Err(BlockErr::NoMemory) => return Err(CheckErr::NoMemory),
        Err(BlockErr::Damaged(damage)) => {
            return Ok(Verdict::Differs {
                part: Part::Block,
                damage,
            });
        }
    }
    let packets = packets_of(&maker);
    let mut wanted = RowList::new(alloc, &maker);
    judge_index(alloc, index, &mut wanted, packets)
}

#[cfg(test)]
mod tests;
