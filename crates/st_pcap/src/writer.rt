ghost use Rattle.std.specs.Prelude.{◌≡◌, ◌+◌, ◌<◌, ◌++◌, length, vec_len, vec_capacity, OnOk, OnErr};
ghost use Rattle.st_base.specs.Faults.{HasCause};
ghost use Rattle.st_base.specs.Pieces.{Puts};
ghost use Rattle.st_pcap.specs.Text.{file_head, record_head, record_text};

use crate::forms::{Unit, fraction_of};
use crate::numbers::{
    CAPTURED_AT, ETHERNET, FILE_HEAD_SIZE, FRACTION_AT, LINK_AT, LITTLE_MICRO, LITTLE_NANO, MAJOR,
    MAJOR_AT, MAX_BODY, MINOR, MINOR_AT, ORIG_AT, RECORD_HEAD_SIZE, SEC_AT, SNAPLEN_AT,
};
use byteorder::{ByteOrder, LittleEndian};
use st_base::{Failed, NoMemory, RecordRef, Sink, put};

/// The 24 bytes of the file head before records in this unit. It takes no memory.
///
/// Source: docs/FORMAT.md, "pcap", written files.
#[tactic(auto, unfolding(crate::specs::Text::file_head))]
pub fn file_head(unit: Unit) -> [u8; FILE_HEAD_SIZE]
    ensures { result ≡ file_head unit }
{
    let mut head = [0; FILE_HEAD_SIZE];
    let magic = match unit {
        Unit::Micro => LITTLE_MICRO,
        Unit::Nano => LITTLE_NANO,
    };
    LittleEndian::write_u32(&mut head, magic);
    LittleEndian::write_u16(&mut head[MAJOR_AT..], MAJOR);
    LittleEndian::write_u16(&mut head[MINOR_AT..], MINOR);
    LittleEndian::write_u32(&mut head[SNAPLEN_AT..], MAX_BODY);
    LittleEndian::write_u32(&mut head[LINK_AT..], ETHERNET);
    head
}

/// The 16 bytes before the body of a record: seconds, the fraction in `unit`, cut off, captured
/// and original length in bytes. It takes no memory.
///
/// Source: docs/FORMAT.md, "pcap", written files.
pub fn record_head(unit: Unit, r: RecordRef<'_>) -> [u8; RECORD_HEAD_SIZE]
    ensures { result ≡ record_head unit r.entry }
{
    head_of(unit, &r)
}

/// The 16 bytes before the body of a record that is used again.
#[tactic(auto, unfolding(crate::specs::Text::record_head))]
fn head_of(unit: Unit, r: &RecordRef<'_>) -> [u8; RECORD_HEAD_SIZE]
    ensures { result ≡ record_head unit r.now }
{
    let mut head = [0; RECORD_HEAD_SIZE];
    LittleEndian::write_u32(&mut head[SEC_AT..], r.sec);
    LittleEndian::write_u32(&mut head[FRACTION_AT..], fraction_of(unit, r.nsec));
    LittleEndian::write_u32(&mut head[CAPTURED_AT..], r.body.len() as u32);
    LittleEndian::write_u32(&mut head[ORIG_AT..], r.orig);
    head
}

/// Writes the 24 bytes of the file head, by one `put`. It takes no memory.
///
/// `Failed` comes only if the sink's `faults` rose in this call; the sink then has a prefix of the
/// head after what it had. A call that succeeds leaves `faults` as it was.
pub fn put_header<S: Sink>(sink: &mut S, unit: Unit) -> Result<(), Failed>
    ensures bytes { Puts (S.written sink.old) (S.written sink.new) (file_head unit) result }
    ensures cause { HasCause (S.faults sink.old) (S.faults sink.new) result }
    ensures rest { S.beside sink.new ≡ S.beside sink.old }
{
    put(sink, &file_head(unit))
}

/// Writes a record: 16 bytes by one `put`, and then its body, if it isn't empty, by another. It
/// takes no memory.
///
/// `Failed` comes only if the sink's `faults` rose in this call; the sink then has a prefix of the
/// record after what it had. A call that succeeds leaves `faults` as it was.
pub fn put_record<S: Sink>(sink: &mut S, unit: Unit, r: RecordRef<'_>) -> Result<(), Failed>
    ensures bytes { Puts (S.written sink.old) (S.written sink.new) (record_text unit r.entry)
        result }
    ensures cause { HasCause (S.faults sink.old) (S.faults sink.new) result }
    ensures rest { S.beside sink.new ≡ S.beside sink.old }
{
    match put(sink, &head_of(unit, &r)) {
        Ok(()) => put(sink, r.body),
        Err(error) => Err(error),
    }
}

/// Appends a record's text to `text`: its head of 16 bytes, and then its body.
///
/// `NoMemory` comes only if `text` had no room for it, and leaves `text` as it was.
pub fn append_record(text: &mut Vec<u8>, unit: Unit, r: &RecordRef<'_>) -> Result<(), NoMemory>
    ensures appended { OnOk result (text.new.items ≡ text.old.items ++ record_text unit r.now) }
    ensures kept { OnErr result (text.new.items ≡ text.old.items) }
    ensures full { OnErr result
        (vec_capacity text.old < vec_len text.old + length (record_text unit r.now)) }
{
    let head = head_of(unit, r);
    match text.reserve(head.len() + r.body.len()) {
        Ok(()) => (),
        Err(_) => return Err(NoMemory),
    }
    match text.extend_from_slice(&head) {
        Ok(()) => (),
        Err(_) => return Err(NoMemory),
    }
    match text.extend_from_slice(r.body) {
        Ok(()) => Ok(()),
        Err(_) => Err(NoMemory),
    }
}
