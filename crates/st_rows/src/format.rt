//! The numbers of an index's rows, as docs/FORMAT.md lists them under "Index rows".

/// The kind of the summary row, the one byte of its key. It is below the kinds of all keys.
pub const SUMMARY_KIND: u8 = 0;

/// The version of the rows, the first number of the summary row.
pub const INDEX_VERSION: u32 = 1;

/// The size in bytes of a position in a row's value, and of a number in the summary row's.
pub const POSITION_SIZE: usize = 4;

/// The size in bytes of the summary row's value.
pub const SUMMARY_SIZE: usize = 24;
