//! The heads of packets, read from one block file.

ghost use Rattle.std.specs.Prelude.{Option, ◌≡◌, ◌≤◌, ◌+◌, ◌*◌, ℕ, List, Some, length, IfOk, IfErr};
ghost use Rattle.st_base.specs.Records.{Rec};
ghost use Rattle.st_base.specs.Faults.{HasCauseOf};
ghost use Rattle.st_base.specs.PlacedReads.{IsSameFile};
ghost use Rattle.st_block.specs.declared.format.TheConstants.{RECORD_HEAD};
ghost use Rattle.st_block.specs.Record.{IsRecordAt};
ghost use Rattle.st_answer.specs.Picks.{pick_of};
ghost use Rattle.st_answer.specs.Heads.{IsOf, AddsPicks, IsReadErr, Unhurt, PicksRecords};

use crate::errors::AnswerErr;
use crate::picked::Picked;
use st_base::Reader;
use st_block::{HeadErr, record_head_at};

/// The pick of the packet whose record is at `position` in the block file of the pair with this
/// stamp, the number `place` of the held set, counted from 0.
fn head_of<F: Reader>(
    file: &mut F,
    place: usize,
    stamp: u64,
    position: u32,
) -> Result<Picked, AnswerErr>
    // what comes
    ensures of { IfOk result (IsOf place stamp) }
    ensures picks { (r : Rec) → IsRecordAt (F.content file.old) position r
        → Unhurt (λ p. p ≡ pick_of place stamp position r) result }
    ensures fails { IfErr result (IsReadErr stamp) }
    ensures cause { HasCauseOf AnswerErr.DiskFault (F.faults file.old) (F.faults file.new) result }
    // what the file was asked
    ensures reads { F.reads file.new ≤ F.reads file.old + 1 }
    ensures asked { F.asked file.new ≤ F.asked file.old + RECORD_HEAD }
    // what stays
    ensures same { IsSameFile (F.content file.old) (F.content file.new)
        (F.extent file.old) (F.extent file.new) (F.beside file.old) (F.beside file.new) }
{
    match record_head_at(file, position) {
        Ok(head) => Ok(Picked {
            sec: head.sec,
            nsec: head.nsec,
            stamp,
            position,
            len: head.len,
            orig: head.orig,
            place,
        }),
        Err(HeadErr::ReadFault) => Err(AnswerErr::DiskFault),
        Err(HeadErr::Damaged(damage)) => Err(AnswerErr::Damaged { stamp, damage }),
    }
}

/// Reads the heads at these positions, each by one read, and adds their picks to `picked`. The pair
/// has this stamp and is number `place` of the held set, counted from 0.
///
/// `DiskFault` comes only if the file's count of faults rose. `Damaged` has this stamp.
pub fn heads<F: Reader>(
    file: &mut F,
    place: usize,
    stamp: u64,
    positions: &[u32],
    picked: &mut Vec<Picked>,
) -> Result<(), AnswerErr>
    // what comes
    ensures adds { AddsPicks place stamp picked.old.items picked.new.items }
    ensures picks { PicksRecords place stamp (F.content file.old) positions.now
        picked.old.items picked.new.items result }
    ensures fails { IfErr result (IsReadErr stamp) }
    ensures cause { HasCauseOf AnswerErr.DiskFault (F.faults file.old) (F.faults file.new) result }
    // what the file was asked
    ensures reads { F.reads file.new ≤ F.reads file.old + length positions.now }
    ensures asked { F.asked file.new ≤ F.asked file.old + RECORD_HEAD * length positions.now }
    // what stays
    ensures same { IsSameFile (F.content file.old) (F.content file.new)
        (F.extent file.old) (F.extent file.new) (F.beside file.old) (F.beside file.new) }
{
    'heads: for position in positions {
        match head_of(file, place, stamp, *position) {
            Ok(pick) => {
                if picked.push(pick).is_err() {
                    return Err(AnswerErr::NoMemory);
                }
            }
            Err(error) => return Err(error),
        }
    }
    Ok(())
}
