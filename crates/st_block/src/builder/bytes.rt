//! The bytes of a block that is built: its head, and its records.

ghost use Rattle.std.specs.Prelude.{◌≡◌, ◌≤◌, ◌+◌, length};
ghost use Rattle.st_block.specs.Fields.{text};
ghost use Rattle.st_block.specs.BlockText.{block_head, record_head};
ghost use Rattle.st_block.specs.Builder.{with_part, with_distance, with_record};

use crate::format::{
    BLOCK_HEAD, BLOCK_SIZE_AT, BLOCK_STATUS, BLOCK_STATUS_AT, BODY_AGAIN_AT, BODY_AT, COUNT_AT,
    DISTANCE_AT, FIRST_AT, FIRST_NSEC_AT, FIRST_SEC_AT, LAST_NSEC_AT, LAST_SEC_AT, LEN_AT, NSEC_AT,
    NUMBER_AT, ORIG_AT, RECORD_HEAD, RECORD_STATUS, RECORD_STATUS_AT, SEC_AT, USED_AT, VERSION,
    VERSION_AT,
};
use byteorder::{ByteOrder, LittleEndian};
use st_base::RecordRef;

/// The bytes of a block's head.
#[tactic(auto, unfolding(crate::specs::BlockText::block_head))]
pub fn block_head_bytes(
    size: u32,
    number: u32,
    count: u32,
    used: u32,
    first: (u32, u32),
    last: (u32, u32),
) -> [u8; BLOCK_HEAD]
    ensures { result
        ≡ text (block_head size number count used (first.0, first.1) (last.0, last.1)) }
{
    let mut head = [0; BLOCK_HEAD];
    LittleEndian::write_u32(&mut head[VERSION_AT..], VERSION);
    LittleEndian::write_u32(&mut head[BLOCK_SIZE_AT..], size);
    LittleEndian::write_u32(&mut head[BLOCK_STATUS_AT..], BLOCK_STATUS);
    LittleEndian::write_u32(&mut head[COUNT_AT..], count);
    LittleEndian::write_u32(&mut head[FIRST_AT..], BLOCK_HEAD as u32);
    LittleEndian::write_u32(&mut head[USED_AT..], used);
    LittleEndian::write_u64(&mut head[NUMBER_AT..], u64::from(number));
    LittleEndian::write_u32(&mut head[FIRST_SEC_AT..], first.0);
    LittleEndian::write_u32(&mut head[FIRST_NSEC_AT..], first.1);
    LittleEndian::write_u32(&mut head[LAST_SEC_AT..], last.0);
    LittleEndian::write_u32(&mut head[LAST_NSEC_AT..], last.1);
    head
}

/// The bytes of a record's head, at this distance from the next one's.
#[tactic(auto, unfolding(crate::specs::BlockText::record_head))]
pub fn record_head_bytes(next: u32, r: &RecordRef<'_>) -> [u8; RECORD_HEAD]
    ensures { result ≡ text (record_head next r.now) }
{
    let mut head = [0; RECORD_HEAD];
    LittleEndian::write_u32(&mut head[DISTANCE_AT..], next);
    LittleEndian::write_u32(&mut head[SEC_AT..], r.sec);
    LittleEndian::write_u32(&mut head[NSEC_AT..], r.nsec);
    LittleEndian::write_u32(&mut head[LEN_AT..], r.body.len() as u32);
    LittleEndian::write_u32(&mut head[ORIG_AT..], r.orig);
    LittleEndian::write_u32(&mut head[RECORD_STATUS_AT..], RECORD_STATUS);
    LittleEndian::write_u16(&mut head[BODY_AT..], RECORD_HEAD as u16);
    LittleEndian::write_u16(&mut head[BODY_AGAIN_AT..], RECORD_HEAD as u16);
    head
}

/// Writes a part over as many bytes, from the offset `at` on.
#[tactic(auto, unfolding(crate::specs::Builder::with_part))]
pub fn put_at(bytes: &mut [u8], at: usize, part: &[u8])
    requires { at + length part.now ≤ length bytes.old }
    ensures { bytes.new ≡ with_part at part.now bytes.old }
{
    bytes[at..at + part.len()].copy_from_slice(part);
}

/// Writes the distance to the next record over that of the record at the offset `last`, where there
/// is one.
fn link(bytes: &mut [u8], count: u32, last: u32, distance: u32)
    requires { last + 4 ≤ length bytes.old }
    ensures value { bytes.new ≡ with_distance count last distance bytes.old }
    ensures len { length bytes.new ≡ length bytes.old }
{
    if count == 0 {
        return;
    }
    put_at(bytes, last as usize, &distance.to_le_bytes());
}

/// Writes a record at the offset `at`, after the record at the offset `last`, where there is one.
pub fn put_record(bytes: &mut [u8], count: u32, last: u32, at: u32, r: &RecordRef<'_>)
    requires before { last + 4 ≤ at }
    requires room { at + RECORD_HEAD + length r.now.body ≤ length bytes.old }
    ensures { bytes.new ≡ with_record count last at r.now bytes.old }
{
    link(bytes, count, last, at - last);
    put_at(bytes, at as usize, &record_head_bytes(0, r));
    put_at(bytes, at as usize + RECORD_HEAD, r.body);
}
