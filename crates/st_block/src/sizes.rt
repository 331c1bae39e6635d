ghost use Rattle.std.specs.Prelude.{◌≡◌, ◌+◌, ◌↔◌, IsTrue};
ghost use Rattle.st_block.specs.BlockText.{IsBlockSize, padded_len};
ghost use Rattle.st_block.specs.Checks.{is_block_size};

use crate::format::{ALIGNMENT, BLOCK_SIZES, RECORD_HEAD};

/// Whether this is a block size: a power of two from 4,096 to 1,048,576 bytes.
///
/// Source: docs/FORMAT.md, "Block file".
pub fn is_block_size(size: u32) -> bool
    ensures test { result ≡ is_block_size size }
    ensures exact { IsTrue result ↔ IsBlockSize size }
{
    BLOCK_SIZES.contains(&size)
}

/// A length in bytes up to the next multiple of 16.
pub fn padded_len(len: u32) -> u64
    ensures { result ≡ padded_len len }
{
    let unit = u64::from(ALIGNMENT);
    (u64::from(len) + (unit - 1)) / unit * unit
}

/// How many bytes a record takes whose body has `len` bytes.
pub fn room_of(len: u32) -> u64
    ensures { result ≡ RECORD_HEAD + padded_len len }
{
    RECORD_HEAD as u64 + padded_len(len)
}
