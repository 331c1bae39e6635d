ghost use Rattle.std.specs.Prelude.{◌≡◌, ◌≤◌, ◌<◌, ◌+◌, ◌^◌, ◌++◌, List, ℕ, length, replicate, IfSome, Some, Ok, Err, MatchResult, option_map};
ghost use Rattle.arrayvec.specs.ArrayVec.{array_vec_len};
ghost use Rattle.byteorder.specs.Endian.{little_bytes};
ghost use Rattle.st_base.specs.Damages.{damage_view};
ghost use Rattle.st_tblock.specs.Parsing.{number_in};
ghost use Rattle.st_tblock.specs.Handles.{handle_in, handle_text, handles_in, zero_filled, footer_text, footer_in, InRange};

use crate::format::{FOOTER_SIZE, MAGIC, MAGIC_OFFSET, MAX_HANDLE};
use crate::varint::{get_varint, put_varint};
use arrayvec::ArrayVec;
use byteorder::{ByteOrder, LittleEndian};
use st_base::Damage;

/// Where a block is in its file: its offset and its size in bytes, without the trailer after it.
#[derive(Clone, Copy, Debug, PartialEq, Eq)]
pub struct Handle {
    pub offset: u64,
    pub size: u64,
}

/// The varint64 that `bytes` begin with, and the bytes after it.
fn number_at(bytes: &[u8]) -> Option<(u64, &[u8])>
    ensures { option_map (λ x. (x.0, x.1.now)) result ≡ number_in bytes.now }
{
    let (number, size) = get_varint(bytes)?;
    Some((number, bytes.split_at(size).1))
}

/// Puts `bytes` after those that `out` has.
fn append<const N: usize>(out: &mut ArrayVec<u8, N>, bytes: &[u8])
    requires { array_vec_len out.old + length bytes.now ≤ N }
    ensures { out.new.items ≡ out.old.items ++ bytes.now }
{
    let _ = out.try_extend_from_slice(bytes);
}

/// Makes zeros a footer that begins with these handles.
#[tactic(auto, using(crate::proofs::Footers::zeros_filled))]
fn lay_footer(bytes: &mut [u8], handles: &[u8])
    requires zeros { bytes.old ≡ replicate FOOTER_SIZE 0 }
    requires fit { length handles.now ≤ MAGIC_OFFSET }
    ensures { bytes.new ≡ zero_filled handles.now ++ little_bytes 8 MAGIC }
{
    let (room, magic) = bytes.split_at_mut(MAGIC_OFFSET);
    room.split_at_mut(handles.len()).0.copy_from_slice(handles);
    LittleEndian::write_u64(magic, MAGIC);
}

/// The handle that `bytes` begin with, and the bytes after it.
///
/// `None` if and only if they don't begin with two varints. Source: LevelDB,
/// doc/table_format.md; docs/FORMAT.md, "Table file".
#[tactic(auto, unfolding(crate::specs::Handles::handle_in))]
pub fn get_handle(bytes: &[u8]) -> Option<(Handle, &[u8])>
    ensures { option_map (λ x. (x.0, x.1.now)) result ≡ handle_in bytes.now }
{
    let (offset, more) = number_at(bytes)?;
    let (size, rest) = number_at(more)?;
    Some((Handle { offset, size }, rest))
}

/// The bytes of a handle.
#[tactic(auto, unfolding(crate::specs::Handles::handle_text))]
fn handle_bytes(handle: Handle) -> ArrayVec<u8, MAX_HANDLE>
    ensures text { result.items ≡ handle_text handle }
    ensures range { InRange handle }
{
    let offset = put_varint(handle.offset);
    let size = put_varint(handle.size);
    let mut out = ArrayVec::new();
    append(&mut out, offset.as_slice());
    append(&mut out, size.as_slice());
    out
}

/// The bytes of a handle: 2 to 20. It takes no memory.
///
/// Source: LevelDB, doc/table_format.md; docs/FORMAT.md, "Table file".
pub fn put_handle(handle: Handle) -> ArrayVec<u8, MAX_HANDLE>
    ensures text { result.items ≡ handle_text handle }
    ensures read { (rest : List ℕ) → handle_in (result.items ++ rest) ≡ Some (handle, rest) }
    ensures range { InRange handle }
{
    handle_bytes(handle)
}

/// The two handles that `bytes` begin with.
#[tactic(auto, unfolding(crate::specs::Handles::handles_in))]
fn handles_at(bytes: &[u8]) -> Option<(Handle, Handle)>
    ensures { result ≡ handles_in bytes.now }
{
    let (meta, more) = get_handle(bytes)?;
    let (index, _) = get_handle(more)?;
    Some((meta, index))
}

/// The bytes of a footer.
#[tactic(auto, unfolding(crate::specs::Handles::footer_text))]
fn footer_bytes(meta: Handle, index: Handle) -> [u8; FOOTER_SIZE]
    ensures text { result ≡ footer_text meta index }
    ensures fit { length (handle_text meta ++ handle_text index) ≤ MAGIC_OFFSET }
    ensures meta { InRange meta }
    ensures index { InRange index }
{
    let (meta, index) = (put_handle(meta), put_handle(index));
    let mut handles: ArrayVec<u8, MAGIC_OFFSET> = ArrayVec::new();
    append(&mut handles, meta.as_slice());
    append(&mut handles, index.as_slice());
    let mut bytes = [0; FOOTER_SIZE];
    lay_footer(&mut bytes, handles.as_slice());
    bytes
}

/// The 48 bytes that a table ends with, which name its metaindex block and its index block. It
/// takes no memory.
///
/// Source: LevelDB, doc/table_format.md; docs/FORMAT.md, "Table file".
pub fn footer(meta: Handle, index: Handle) -> [u8; FOOTER_SIZE]
    ensures text { result ≡ footer_text meta index }
    ensures read { footer_in result ≡ Ok (meta, index) }
{
    footer_bytes(meta, index)
}

/// The metaindex block and the index block that a footer names. It takes no memory.
///
/// `Damage` if and only if the footer doesn't end with the magic number (its place is the number's
/// offset) or the bytes before that don't begin with two handles (place 0, found 0, want 1),
/// whichever comes first. Places count from the footer's first byte.
/// Source: LevelDB, doc/table_format.md; docs/FORMAT.md, "Table file", "Checks of a table".
#[tactic(auto, unfolding(crate::specs::Handles::footer_in))]
pub fn read_footer(bytes: &[u8; FOOTER_SIZE]) -> Result<(Handle, Handle), Damage>
    ensures { MatchResult result (λ x. footer_in bytes.now ≡ Ok x)
        (λ d. footer_in bytes.now ≡ Err (damage_view d)) }
{
    let (handles, magic) = bytes.split_at(MAGIC_OFFSET);
    let found = LittleEndian::read_u64(magic);
    if found != MAGIC {
        return Err(Damage {
            place: MAGIC_OFFSET as u64,
            found,
            want: MAGIC,
        });
    }
    match handles_at(handles) {
        Some(handles) => Ok(handles),
        None => Err(Damage::broken(0)),
    }
}
