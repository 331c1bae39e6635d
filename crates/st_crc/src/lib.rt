//! CRC-32C, the sum that follows each block of a table.
//!
//! A sum is a `u32`. It is the remainder of the bytes modulo the Castagnoli polynomial, lowest bit
//! first, as RFC 3720 (iSCSI) has it; a table stores it masked, as LevelDB's util/crc32c.h does.
//!
//! # What it promises
//!
//! - `crc32c` gives the sum of the bytes and the type byte after them, as `specs/Sum.antt` defines
//!   it bit by bit. It takes sixteen bytes a step.
//! - `crc32c_by_bits` gives that sum by the definition's own steps. It is slow, and is here for the
//!   fast one to be compared with.
//! - `mask` gives the form that is stored.
//!
//! None of them takes memory.
//!
//! # What it leaves to others
//!
//! Where a sum stands in a file is st_table's to know.
//!
//! # Where to read
//!
//! `specs/Sum.antt`, then `numbers`, `plain`, `sum` and `tables`.
#![tactic(auto)]

mod numbers;
mod plain;
mod sum;
mod tables;

pub use plain::crc32c_by_bits;
pub use sum::{crc32c, mask};

#[cfg(test)]
mod tests {
    use super::*;
    use std::test::Fail;

    /// Sums of 32 bytes and of a message of 48, from RFC 3720, appendix B.4, and of `123456789`, the
    /// usual check.
    #[test]
    fn the_sums_of_the_standard(rt: HostRuntime) -> Result<(), Fail> {
        let rising = [
            0, 1, 2, 3, 4, 5, 6, 7, 8, 9, 10, 11, 12, 13, 14, 15, 16, 17, 18, 19, 20, 21, 22, 23,
            24, 25, 26, 27, 28, 29, 30,
        ];
        let message = [
            1, 0xc0, 0, 0, 0, 0, 0, 0, 0, 0, 0, 0, 0, 0, 0, 0, 0x14, 0, 0, 0, 0, 0, 4, 0, 0, 0, 0,
            0x14, 0, 0, 0, 0x18, 0x28, 0, 0, 0, 0, 0, 0, 0, 2, 0, 0, 0, 0, 0, 0,
        ];
        assert_eq!(rt; crc32c(&[0; 31], 0), 0x8a91_36aa, "zeros");
        assert_eq!(rt; crc32c(&[0xff; 31], 0xff), 0x62a8_ab43, "ones");
        assert_eq!(rt; crc32c(&rising, 31), 0x46dd_794e, "rising");
        assert_eq!(rt; crc32c_by_bits(&rising, 31), 0x46dd_794e, "rising, by bits");
        assert_eq!(rt; crc32c(&message, 0), 0xd996_3a56, "message");
        assert_eq!(rt; crc32c(b"12345678", b'9'), 0xe306_9283, "digits");
        assert_eq!(rt; mask(0xe306_9283), 0xc78a_b0e5, "masked");
        Ok(())
    }
}
