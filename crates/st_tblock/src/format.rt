//! The numbers of LevelDB's table format, in bytes unless said otherwise.

/// A restart, and the number of restarts at a block's end. Source: LevelDB, table/block_builder.cc.
pub const RESTART_SIZE: usize = 4;

/// The trailer after a stored block: its type byte and its masked sum. Source: LevelDB,
/// table/format.h.
pub const TRAILER_SIZE: usize = 5;

/// The type byte of a block that isn't compressed. Source: LevelDB, include/leveldb/options.h.
pub const PLAIN: u8 = 0;

/// The type byte of a block that is compressed by Snappy. Source: LevelDB,
/// include/leveldb/options.h.
pub const SNAPPY: u8 = 1;

/// A handle has this many bytes at most: two varints. Source: LevelDB, table/format.h.
pub const MAX_HANDLE: usize = 20;

/// The footer, the last bytes of a file. Source: LevelDB, table/format.h.
pub const FOOTER_SIZE: usize = 48;

/// Where the magic number begins in the footer; the handles have the room before it. Source:
/// LevelDB, table/format.h.
pub const MAGIC_OFFSET: usize = 40;

/// The magic number, which a footer ends with. Source: LevelDB, table/format.h.
pub const MAGIC: u64 = 0xdb47_7524_8b80_fb57;
