//! The packets of a block file, as an index is made of them.

ghost use Rattle.std.specs.Prelude.{◌≡◌, ◌≤◌, List, ℕ, [], Some, length, max};
ghost use Rattle.st_base.specs.Faults.{HasCauseOf};
ghost use Rattle.st_base.specs.PlacedReads.{IsSameFile};
ghost use Rattle.st_block.specs.ScanView.{reached_offset};
ghost use Rattle.st_block.specs.Scan.{PositionedRecord, HasGiven};
ghost use Rattle.st_block.specs.declared.format.TheConstants.{BLOCK_HEAD};
ghost use Rattle.st_index.specs.Maker.{HasRecords};
ghost use Rattle.st_index.specs.CheckPackets.{MakesIndex};

use crate::maker::IndexMaker;
use st_base::{NoMemory, Reader};
use st_block::{BlockErr, HeadErr, Scan};
use std::alloc::Global;

/// The number of packets that a maker has.
pub fn packets_of(maker: &IndexMaker) -> u32
    ensures { (given : List PositionedRecord) → HasRecords maker.now given → result ≡ length given }
{
    match maker.summary {
        Some(summary) => summary.packets,
        None => 0,
    }
}

/// Adds the packets that a scan of a block file gives to a maker that has none.
fn add_packets<R: Reader>(
    alloc: Global,
    scan: &mut Scan<'_, R>,
    maker: &mut IndexMaker,
) -> Result<(), BlockErr>
    requires { maker.old.end ≤ BLOCK_HEAD }
    ensures makes { (bytes : List ℕ) → R.content scan.old.file.now ≡ Some bytes
        → HasGiven scan.old.state bytes [] → HasRecords maker.old []
        → MakesIndex bytes maker.new result }
    // What becomes of the file.
    ensures same_reference { scan.new.file.ghost_name ≡ scan.old.file.ghost_name }
    ensures cause { HasCauseOf BlockErr.ReadFault (R.faults scan.old.file.now)
        (R.faults scan.new.file.now) result }
    ensures same { IsSameFile (R.content scan.old.file.now) (R.content scan.new.file.now)
        (R.extent scan.old.file.now) (R.extent scan.new.file.now)
        (R.beside scan.old.file.now) (R.beside scan.new.file.now) }
{
    'packets: loop {
        match scan.next(alloc) {
            Ok(Some((position, record))) => match maker.add(record.lend(), position) {
                Ok(()) => {}
                Err(NoMemory) => return Err(BlockErr::NoMemory),
            },
            Ok(None) => return Ok(()),
            Err(error) => return Err(error),
        }
    }
}

/// Makes `maker`, which has no packets, that of the packets of a block file.
///
/// `Damaged` is the first check of the file that fails, in the order of docs/FORMAT.md, "Checks".
/// `ReadFault` comes only if the file failed in this call.
pub fn make_index<R: Reader>(
    alloc: Global,
    block: &mut R,
    maker: &mut IndexMaker,
) -> Result<(), BlockErr>
    requires { maker.old.end ≤ BLOCK_HEAD }
    ensures makes { (bytes : List ℕ) → R.content block.old ≡ Some bytes → HasRecords maker.old []
        → MakesIndex bytes maker.new result }
    ensures cause { HasCauseOf BlockErr.ReadFault (R.faults block.old) (R.faults block.new) result }
    ensures same { IsSameFile (R.content block.old) (R.content block.new) (R.extent block.old)
        (R.extent block.new) (R.beside block.old) (R.beside block.new) }
{
    let mut scan = Scan::over(block);
    match scan.enter() {
        Ok(()) => {}
        Err(HeadErr::ReadFault) => return Err(BlockErr::ReadFault),
        Err(HeadErr::Damaged(damage)) => return Err(BlockErr::Damaged(damage)),
    }
    add_packets(alloc, &mut scan, maker)
}
