ghost use Rattle.std.specs.Prelude.{◌≡◌, ◌≤◌, ◌<◌, ◌+◌, ◌*◌, ◌^◌, List, ℕ, length, Some, IfOk};
ghost use Rattle.st_base.specs.Faults.{CountsOn, HasCauseOf};
ghost use Rattle.st_base.specs.PlacedReads.{IsSameFile};
ghost use Rattle.st_block.specs.Checks.{nearest_length};
ghost use Rattle.st_block.specs.Scan.{Starts, EntersNew, start_reads};

use crate::errors::HeadErr;
use crate::fields::number_at;
use crate::format::{BLOCK_SIZE_AT, MAX_BLOCKS, MIN_BLOCK, START, VERSION, VERSION_AT};
use crate::scan::state::ScanState;
use crate::sizes::is_block_size;
use st_base::{Damage, Reader, read_whole};

/// The greatest length of whole blocks, at most 4,095, that is no more than `extent`; else one
/// block.
fn nearest_length(size: u32, extent: u64) -> u64
    requires { 1 ≤ size }
    ensures { result ≡ nearest_length size extent }
{
    let blocks = (extent / size as u64).min(MAX_BLOCKS as u64);
    if blocks == 0 {
        return size as u64;
    }
    size as u64 * blocks
}

/// What the first eight bytes of a file and its length say: the first check that fails, or a scan
/// before the first block.
fn start(head: &[u8], extent: u64) -> Result<ScanState, HeadErr>
    requires head { length head.now ≡ START }
    requires extent { START ≤ extent }
    ensures starts { Starts head.now extent result }
    ensures inside { IfOk result (λ p. p.size * p.blocks ≤ extent) }
{
    let version = number_at(VERSION_AT, head);
    if version != VERSION {
        return Err(HeadErr::Damaged(Damage {
            place: VERSION_AT as u64,
            found: version as u64,
            want: VERSION as u64,
        }));
    }
    let size = number_at(BLOCK_SIZE_AT, head);
    if !is_block_size(size) {
        return Err(HeadErr::Damaged(Damage {
            place: BLOCK_SIZE_AT as u64,
            found: size as u64,
            want: MIN_BLOCK as u64,
        }));
    }
    let want = nearest_length(size, extent);
    if extent != want {
        return Err(HeadErr::Damaged(Damage {
            place: 0,
            found: extent,
            want,
        }));
    }
    Ok(ScanState::new(size, (extent / size as u64) as u32))
}

/// Enters a file: reads its first eight bytes, and checks them and its length.
pub fn enter<R: Reader>(file: &mut R) -> Result<ScanState, HeadErr>
    // what comes
    ensures enters { (bytes : List ℕ) → R.content file.old ≡ Some bytes → EntersNew bytes result }
    ensures inside { IfOk result (λ p. p.size * p.blocks ≤ R.extent file.old) }
    ensures cause { HasCauseOf HeadErr.ReadFault (R.faults file.old) (R.faults file.new) result }
    // what the file was asked
    ensures reads { CountsOn (R.reads file.old) (R.reads file.new)
        (start_reads (R.extent file.old)) }
    ensures asked { CountsOn (R.asked file.old) (R.asked file.new)
        (START * start_reads (R.extent file.old)) }
    // what stays
    ensures same { IsSameFile (R.content file.old) (R.content file.new)
        (R.extent file.old) (R.extent file.new) (R.beside file.old) (R.beside file.new) }
{
    let extent = file.size();
    if extent < START as u64 {
        return Err(HeadErr::Damaged(Damage {
            place: 0,
            found: extent,
            want: MIN_BLOCK as u64,
        }));
    }
    let mut head = [0; START];
    match read_whole(file, 0, &mut head) {
        Ok(()) => start(&head, extent),
        Err(_) => Err(HeadErr::ReadFault),
    }
}
