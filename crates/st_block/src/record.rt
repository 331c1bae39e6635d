ghost use Rattle.std.specs.Prelude.{◌≡◌, ◌≤◌, ◌<◌, ◌+◌, ◌*◌, ◌-◌, length, Ok, IfOk, IsErrOf, option_map, vec_capacity};
ghost use Rattle.std.specs.Result.{result_and};
ghost use Rattle.st_base.specs.Records.{Rec};
ghost use Rattle.st_base.specs.Faults.{CountsOn, HasCauseOf};
ghost use Rattle.st_base.specs.PlacedReads.{IsSameFile};
ghost use Rattle.st_base.specs.Damages.{damage_view};
ghost use Rattle.st_block.specs.Record.{head_outside, body_outside, record_outside, head_wrong, IsHead, GivesHead, GivesBody, head_reads, body_reads, IsRecordAt, GivesHeadOf, GivesBodyOf};

use crate::errors::{BlockErr, HeadErr};
use crate::fields::{above, first_of, not_same, number_at, short_at};
use crate::format::{
    BODY_AGAIN_AT, BODY_AT, LEN_AT, MAX_NSEC, NSEC_AT, ORIG_AT, RECORD_HEAD, RECORD_STATUS,
    RECORD_STATUS_AT, SEC_AT,
};
use st_base::{Damage, Octets, Reader, read_whole};
use std::alloc::Global;

/// A record without its body: its time in seconds since 1970 and nanoseconds (below 10^9 where
/// `record_head_at` gave it), and its captured and original length in bytes.
///
/// Source: docs/FORMAT.md, "Block file".
#[derive(Clone, Copy, Debug, PartialEq, Eq)]
pub struct Head {
    pub sec: u32,
    pub nsec: u32,
    pub len: u32,
    pub orig: u32,
}

/// The damage at `position`, unless a head there lies in a file of this size.
fn head_outside(size: u64, position: u32) -> Option<Damage>
    ensures { option_map damage_view result ≡ head_outside size position }
{
    let place = u64::from(position);
    let want = place + RECORD_HEAD as u64;
    if size < want {
        return Some(Damage {
            place,
            found: size,
            want,
        });
    }
    None
}

/// The damage at the captured length `len` of the head at `position`, unless the body lies in a
/// file of this size.
fn body_outside(size: u64, position: u32, len: u32) -> Option<Damage>
    requires { position + RECORD_HEAD ≤ size }
    ensures { option_map damage_view result ≡ body_outside size position len }
{
    let place = u64::from(position);
    let room = size - place - RECORD_HEAD as u64;
    above(place + LEN_AT as u64, u64::from(len), room)
}

/// The first damage in the head that stands at `position`.
fn head_wrong(size: u64, position: u32, head: &[u8]) -> Option<Damage>
    requires inside { position + RECORD_HEAD ≤ size }
    requires len { length head.now ≡ RECORD_HEAD }
    ensures { option_map damage_view result ≡ head_wrong size position head.now }
{
    let place = u64::from(position);
    let want = RECORD_HEAD as u64;
    let status = u64::from(number_at(RECORD_STATUS_AT, head));
    let status = not_same(
        place + RECORD_STATUS_AT as u64,
        status,
        u64::from(RECORD_STATUS),
    );
    let body = u64::from(short_at(BODY_AT, head));
    let body = not_same(place + BODY_AT as u64, body, want);
    let again = u64::from(short_at(BODY_AGAIN_AT, head));
    let again = not_same(place + BODY_AGAIN_AT as u64, again, want);
    let nsec = u64::from(number_at(NSEC_AT, head));
    let nsec = above(place + NSEC_AT as u64, nsec, u64::from(MAX_NSEC));
    let outside = body_outside(size, position, number_at(LEN_AT, head));
    first_of(
        status,
        first_of(body, first_of(again, first_of(nsec, outside))),
    )
}

/// The numbers of a head's bytes.
fn head_of(head: &[u8]) -> Head
    requires { length head.now ≡ RECORD_HEAD }
    ensures { IsHead head.now result }
{
    Head {
        sec: number_at(SEC_AT, head),
        nsec: number_at(NSEC_AT, head),
        len: number_at(LEN_AT, head),
        orig: number_at(ORIG_AT, head),
    }
}

/// Reads the head at a position at which it lies in the file.
fn read_head<R: Reader>(file: &mut R, position: u32) -> Result<Head, HeadErr>
    requires { position + RECORD_HEAD ≤ R.extent file.old }
    ensures gives { GivesHead (R.content file.old) (R.extent file.old) position result }
    ensures below { IfOk result (λ h. h.nsec ≤ MAX_NSEC) }
    ensures cause { HasCauseOf HeadErr.ReadFault (R.faults file.old) (R.faults file.new) result }
    // what the file was asked
    ensures reads { CountsOn (R.reads file.old) (R.reads file.new) 1 }
    ensures asked { CountsOn (R.asked file.old) (R.asked file.new) RECORD_HEAD }
    // what stays
    ensures same { IsSameFile (R.content file.old) (R.content file.new)
        (R.extent file.old) (R.extent file.new) (R.beside file.old) (R.beside file.new) }
{
    let size = file.size();
    let mut head = [0; RECORD_HEAD];
    match read_whole(file, u64::from(position), &mut head) {
        Ok(()) => match head_wrong(size, position, &head) {
            Some(damage) => Err(HeadErr::Damaged(damage)),
            None => Ok(head_of(&head)),
        },
        Err(_) => Err(HeadErr::ReadFault),
    }
}

/// Reads the head of the record at `position`, an offset in `file` in bytes, by one read of 48
/// bytes. It takes no memory.
///
/// `Damaged` is the first damage, in this order: the head passes the file's end, and then nothing
/// is read; its status, one of the two offsets of its body or its nanoseconds break the layout; the
/// body passes the file's end. `ReadFault` comes only if `file` failed in this call.
/// Source: docs/FORMAT.md, "Block file".
pub fn record_head_at<R: Reader>(file: &mut R, position: u32) -> Result<Head, HeadErr>
    // what comes
    ensures gives { GivesHead (R.content file.old) (R.extent file.old) position result }
    ensures whole { (r : Rec) → IsRecordAt (R.content file.old) position r → GivesHeadOf r result }
    ensures below { IfOk result (λ h. h.nsec ≤ MAX_NSEC) }
    ensures cause { HasCauseOf HeadErr.ReadFault (R.faults file.old) (R.faults file.new) result }
    // what the file was asked
    ensures reads { CountsOn (R.reads file.old) (R.reads file.new)
        (head_reads (R.extent file.old) position) }
    ensures asked { CountsOn (R.asked file.old) (R.asked file.new)
        (RECORD_HEAD * head_reads (R.extent file.old) position) }
    // what stays
    ensures same { IsSameFile (R.content file.old) (R.content file.new)
        (R.extent file.old) (R.extent file.new) (R.beside file.old) (R.beside file.new) }
{
    match head_outside(file.size(), position) {
        Some(damage) => Err(HeadErr::Damaged(damage)),
        None => read_head(file, position),
    }
}

/// The first damage, unless a head at `position` and its body of `len` bytes lie in a file of this
/// size.
fn record_outside(size: u64, position: u32, len: u32) -> Option<Damage>
    ensures { option_map damage_view result ≡ record_outside size position len }
{
    match head_outside(size, position) {
        Some(damage) => Some(damage),
        None => body_outside(size, position, len),
    }
}

/// Reads a body of `len` bytes after the head at a position at which both lie in the file.
fn read_body<R: Reader>(
    file: &mut R,
    position: u32,
    len: u32,
    body: &mut Vec<u8>,
) -> Result<(), BlockErr>
    requires { position + RECORD_HEAD + len ≤ R.extent file.old }
    // what comes
    ensures gives { GivesBody (R.content file.old) (R.extent file.old) position len
        (result_and result (Ok body.new.items)) }
    ensures memory { IsErrOf result BlockErr.NoMemory → vec_capacity body.old < len }
    ensures cause { HasCauseOf BlockErr.ReadFault (R.faults file.old) (R.faults file.new) result }
    // what the file was asked
    ensures reads { CountsOn (R.reads file.old) (R.reads file.new)
        (body_reads len (result_and result (Ok body.new.items))) }
    ensures asked { CountsOn (R.asked file.old) (R.asked file.new)
        (len * body_reads len (result_and result (Ok body.new.items))) }
    // what stays
    ensures same { IsSameFile (R.content file.old) (R.content file.new)
        (R.extent file.old) (R.extent file.new) (R.beside file.old) (R.beside file.new) }
{
    match body.resize(len as usize, 0) {
        Ok(()) => {}
        Err(_) => return Err(BlockErr::NoMemory),
    }
    if len == 0 {
        return Ok(());
    }
    let place = u64::from(position) + RECORD_HEAD as u64;
    match read_whole(file, place, body.as_mut_slice()) {
        Ok(()) => Ok(()),
        Err(_) => Err(BlockErr::ReadFault),
    }
}

/// Reads the body of the record at `position`, an offset in `file` in bytes, whose head was read
/// there, into `body`: by one read of `head.len` bytes, and none if that is 0. What `body` had is
/// gone; its memory is used again, and more is taken only if it has not enough.
///
/// `Damaged` comes if the head or the body passes the file's end; then nothing is read, and no
/// memory taken. `ReadFault` comes only if `file` failed in this call. After an error, what `body`
/// has is not said.
/// Source: docs/FORMAT.md, "Block file".
pub fn record_body_into<R: Reader>(
    file: &mut R,
    position: u32,
    head: &Head,
    body: &mut Vec<u8>,
) -> Result<(), BlockErr>
    // what comes
    ensures gives { GivesBody (R.content file.old) (R.extent file.old) position head.now.len
        (result_and result (Ok body.new.items)) }
    ensures whole { (r : Rec) → IsRecordAt (R.content file.old) position r
        → head.now.len ≡ length r.body → GivesBodyOf r (result_and result (Ok body.new.items)) }
    ensures memory { IsErrOf result BlockErr.NoMemory → vec_capacity body.old < head.now.len }
    ensures cause { HasCauseOf BlockErr.ReadFault (R.faults file.old) (R.faults file.new) result }
    // what the file was asked
    ensures reads { CountsOn (R.reads file.old) (R.reads file.new)
        (body_reads head.now.len (result_and result (Ok body.new.items))) }
    ensures asked { CountsOn (R.asked file.old) (R.asked file.new)
        (head.now.len * body_reads head.now.len (result_and result (Ok body.new.items))) }
    // what stays
    ensures same { IsSameFile (R.content file.old) (R.content file.new)
        (R.extent file.old) (R.extent file.new) (R.beside file.old) (R.beside file.new) }
{
    match record_outside(file.size(), position, head.len) {
        Some(damage) => Err(BlockErr::Damaged(damage)),
        None => read_body(file, position, head.len, body),
    }
}

/// Reads the body of the record at `position`, an offset in `file` in bytes, whose head was read
/// there: by one read of `head.len` bytes, and none if that is 0. The body is one allocation.
///
/// `Damaged` comes if the head or the body passes the file's end; then nothing is read, and no
/// memory taken. `ReadFault` comes only if `file` failed in this call.
/// Source: docs/FORMAT.md, "Block file".
pub fn record_body_at<R: Reader>(
    alloc: Global,
    file: &mut R,
    position: u32,
    head: &Head,
) -> Result<Octets, BlockErr>
    // what comes
    ensures gives { GivesBody (R.content file.old) (R.extent file.old) position
        head.now.len result }
    ensures whole { (r : Rec) → IsRecordAt (R.content file.old) position r
        → head.now.len ≡ length r.body → GivesBodyOf r result }
    ensures cause { HasCauseOf BlockErr.ReadFault (R.faults file.old) (R.faults file.new) result }
    // what the file was asked
    ensures reads { CountsOn (R.reads file.old) (R.reads file.new)
        (body_reads head.now.len result) }
    ensures asked { CountsOn (R.asked file.old) (R.asked file.new)
        (head.now.len * body_reads head.now.len result) }
    // what stays
    ensures same { IsSameFile (R.content file.old) (R.content file.new)
        (R.extent file.old) (R.extent file.new) (R.beside file.old) (R.beside file.new) }
{
    let mut body = Vec::new(alloc);
    match record_body_into(file, position, head, &mut body) {
        Ok(()) => Ok(Octets::of(body)),
        Err(error) => Err(error),
    }
}
