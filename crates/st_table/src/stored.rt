//! Blocks as they are in a table's file, each with its trailer: its type byte and its sum.

ghost use Rattle.std.specs.Prelude.{◌≡◌, ◌≢◌, ◌+◌, ◌-◌, ◌^◌, ◌<◌, ◌≤◌, List, ℕ, length, Some, OnOk, IfErr, IfSome, MatchOption, option_map, vec_len};
ghost use Rattle.st_base.specs.Faults.{HasCauseOf};
ghost use Rattle.st_base.specs.PlacedReads.{HasPart, IsSameFile};
ghost use Rattle.st_table.specs.TableFile.{sum_of, footer_at};
ghost use Rattle.st_table.specs.Errors.{err_view, NoCheckFailed};
ghost use Rattle.st_table.specs.Stored.{handle_wrong, part_wrong, ReadsBlock};

use crate::errors::TableErr;
use byteorder::{ByteOrder, LittleEndian};
use st_base::{Damage, Reader, read_whole};
use st_tblock::{FOOTER_SIZE, Handle, PLAIN, SNAPPY, TRAILER_SIZE, crc32c, mask};

/// The sum that follows `block` where it isn't compressed.
#[tactic(auto, unfolding(crate::specs::TableFile::sum_of))]
fn sum_after(block: &[u8]) -> u32
    ensures { result ≡ sum_of PLAIN block.now }
{
    mask(crc32c(block, PLAIN))
}

/// What is wrong with the type byte or the sum of a block that was read with them.
#[tactic(auto, unfolding(crate::specs::Stored::part_wrong))]
fn part_refused(handle: Handle, part: &[u8]) -> Option<TableErr>
    requires whole { length part.now ≡ handle.size + TRAILER_SIZE }
    requires fits { handle.offset + handle.size + TRAILER_SIZE < 2 ^ 64 }
    ensures value { option_map err_view result ≡ part_wrong handle.offset handle.size part.now }
    ensures found { IfSome result (λ e. e ≢ TableErr.ReadFault) }
{
    let size = handle.size as usize;
    let place = handle.offset + handle.size;
    let kind = part[size];
    if kind == SNAPPY {
        return Some(TableErr::Compressed { place });
    }
    if kind != PLAIN {
        return Some(TableErr::Damaged(Damage {
            place,
            found: u64::from(kind),
            want: u64::from(PLAIN),
        }));
    }
    let found = LittleEndian::read_u32(part.split_at(size + 1).1);
    let want = sum_after(part.split_at(size).0);
    if found == want {
        return None;
    }
    Some(TableErr::Damaged(Damage {
        place: place + 1,
        found: u64::from(found),
        want: u64::from(want),
    }))
}

/// What is wrong with where a block ends with its trailer.
#[tactic(auto, unfolding(crate::specs::Stored::handle_wrong))]
fn handle_refused(limit: u64, handle: Handle) -> Option<TableErr>
    requires { limit < 2 ^ 64 - 1 }
    ensures value { option_map err_view result ≡ handle_wrong limit handle }
    ensures within { MatchOption result (handle.offset + (handle.size + TRAILER_SIZE) ≤ limit)
        (λ e. e ≢ TableErr.ReadFault) }
{
    let end = u128::from(handle.offset) + (u128::from(handle.size) + TRAILER_SIZE as u128);
    if end <= u128::from(limit) {
        return None;
    }
    Some(TableErr::Damaged(Damage {
        place: handle.offset,
        found: end.min(u128::from(u64::MAX)) as u64,
        want: limit,
    }))
}

/// Fills `part` with `len` bytes of the file from `place`, by one read.
fn read_part<R: Reader>(
    file: &mut R,
    place: u64,
    len: usize,
    part: &mut Vec<u8>,
) -> Result<(), TableErr>
    requires { place + len ≤ R.extent file.old }
    // What is read, or why not.
    ensures bytes { OnOk result ((vec_len part.new ≡ len)
        × HasPart (R.content file.old) place part.new.items) }
    ensures error { IfErr result NoCheckFailed }
    // What becomes of the file.
    ensures cause { HasCauseOf TableErr.ReadFault (R.faults file.old) (R.faults file.new) result }
    ensures reads { R.reads file.new ≤ R.reads file.old + 1 }
    ensures asked { R.asked file.new ≤ R.asked file.old + len }
    ensures same { IsSameFile (R.content file.old) (R.content file.new) (R.extent file.old)
        (R.extent file.new) (R.beside file.old) (R.beside file.new) }
{
    if part.resize(len, 0).is_err() {
        return Err(TableErr::NoMemory);
    }
    match read_whole(file, place, part.as_mut_slice()) {
        Ok(()) => Ok(()),
        Err(_) => Err(TableErr::ReadFault),
    }
}

/// Reads the block that `handle` names into `block`, by one read at most.
///
/// Damage is that of the first check that fails: where the block ends, its type byte, its sum.
/// After an error `block` has what the read left in it.
pub fn read_block<R: Reader>(
    file: &mut R,
    handle: Handle,
    block: &mut Vec<u8>,
) -> Result<(), TableErr>
    // What is read, and how long it is.
    ensures block { (bytes : List ℕ) → R.content file.old ≡ Some bytes
        → ReadsBlock (footer_at bytes) bytes handle block.new.items result }
    ensures fits { OnOk result (handle.offset + vec_len block.new < 2 ^ 64) }
    ensures within { OnOk result (vec_len block.new ≤ R.extent file.old) }
    // What becomes of the file.
    ensures cause { HasCauseOf TableErr.ReadFault (R.faults file.old) (R.faults file.new) result }
    ensures reads { R.reads file.new ≤ R.reads file.old + 1 }
    ensures asked { R.asked file.new ≤ R.asked file.old + (handle.size + TRAILER_SIZE) }
    ensures same { IsSameFile (R.content file.old) (R.content file.new) (R.extent file.old)
        (R.extent file.new) (R.beside file.old) (R.beside file.new) }
{
    let limit = file.size().saturating_sub(FOOTER_SIZE as u64);
    if let Some(error) = handle_refused(limit, handle) {
        return Err(error);
    }
    let size = handle.size as usize;
    match read_part(file, handle.offset, size + TRAILER_SIZE, block) {
        Ok(()) => {}
        Err(error) => return Err(error),
    }
    if let Some(error) = part_refused(handle, block.as_slice()) {
        return Err(error);
    }
    block.truncate(size);
    Ok(())
}
