//! The numbers of CRC-32C and of its mask.

/// The Castagnoli polynomial without its highest power, lowest bit first. Source: RFC 3720, section
/// 12.1.
pub const POLYNOMIAL: u32 = 0x82f6_3b78;

/// What a remainder begins with; at the end each of its bits is turned by the same number. Source:
/// RFC 3720, section 12.1.
pub const ALL_ONES: u32 = 0xffff_ffff;

/// By how many bits a masked sum is turned right. Source: LevelDB, util/crc32c.h.
pub const MASK_TURN: u32 = 15;

/// What is then added to it. Source: LevelDB, util/crc32c.h.
pub const MASK_DELTA: u32 = 0xa282_ead8;
