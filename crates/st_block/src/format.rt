//! The numbers of the layout of a block file, as docs/FORMAT.md lists them under "Block file".
//!
//! Sizes and offsets are in bytes. A name that ends in `_AT` is the offset of a field in its head.

/// The layout version, with which each block begins.
pub const VERSION: u32 = 1;

/// The least block size.
pub const MIN_BLOCK: u32 = 4_096;

/// The greatest block size.
pub const MAX_BLOCK: u32 = 1_048_576;

/// The block sizes: the powers of two from the least to the greatest.
pub const BLOCK_SIZES: [u32; 9] = [
    4_096, 8_192, 16_384, 32_768, 65_536, 131_072, 262_144, 524_288, 1_048_576,
];

/// How many blocks a file has at most.
pub const MAX_BLOCKS: u32 = 4_095;

/// A record takes a multiple of this many bytes.
pub const ALIGNMENT: u32 = 16;

/// The most nanoseconds of a time.
pub const MAX_NSEC: u32 = 999_999_999;

/// The length of the beginning of a file that has its version and its block size.
pub const START: usize = 8;

/// The length of a block's head.
pub const BLOCK_HEAD: usize = 48;

/// The layout version.
pub const VERSION_AT: usize = 0;

/// The block size.
pub const BLOCK_SIZE_AT: usize = 4;

/// The status of a block.
pub const BLOCK_STATUS_AT: usize = 8;

/// The number of the block's records.
pub const COUNT_AT: usize = 12;

/// The offset of the first record's head in the block.
pub const FIRST_AT: usize = 16;

/// How many bytes of the block are used.
pub const USED_AT: usize = 20;

/// The number of the block in its file, counted from 0.
pub const NUMBER_AT: usize = 24;

/// The seconds of the first record.
pub const FIRST_SEC_AT: usize = 32;

/// The nanoseconds of the first record.
pub const FIRST_NSEC_AT: usize = 36;

/// The seconds of the last record.
pub const LAST_SEC_AT: usize = 40;

/// The nanoseconds of the last record.
pub const LAST_NSEC_AT: usize = 44;

/// The status of each block.
pub const BLOCK_STATUS: u32 = 1;

/// The length of a record's head.
pub const RECORD_HEAD: usize = 48;

/// The distance to the next record's head.
pub const DISTANCE_AT: usize = 0;

/// The seconds of a record.
pub const SEC_AT: usize = 4;

/// The nanoseconds of a record.
pub const NSEC_AT: usize = 8;

/// The captured length of a record.
pub const LEN_AT: usize = 12;

/// The original length of a record.
pub const ORIG_AT: usize = 16;

/// The status of a record.
pub const RECORD_STATUS_AT: usize = 20;

/// The offset of a record's body in the record.
pub const BODY_AT: usize = 24;

/// The same offset again.
pub const BODY_AGAIN_AT: usize = 26;

/// The zeros that end a record's head.
pub const ZEROS_AT: usize = 28;

/// How many these zeros are.
pub const HEAD_ZEROS: usize = 20;

/// The status of each record.
pub const RECORD_STATUS: u32 = 0;
