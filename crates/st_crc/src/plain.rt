//! The sum as its definition reads, a bit at a time: what `crc32c` is compared with.

ghost use Rattle.std.specs.Prelude.{◌≡◌, ◌≤◌, ◌<◌, ◌^◌, ◌++◌, ◌∷◌, []};
ghost use Rattle.st_crc.specs.Sum.{bit_out, crc_over_byte, crc_over, crc_of};

use crate::numbers::{ALL_ONES, POLYNOMIAL};

/// The remainder after its lowest bit was shifted out.
#[tactic(auto, unfolding(crate::specs::Sum::bit_out))]
fn shift(remainder: u32) -> u32
    ensures { result ≡ bit_out remainder }
{
    let polynomial = if remainder % 2 == 0 { 0 } else { POLYNOMIAL };
    remainder / 2 ^ polynomial
}

/// The remainder after one more byte.
fn after_byte(remainder: u32, byte: u8) -> u32
    ensures { result ≡ crc_over_byte remainder byte }
{
    let mut shifted = remainder ^ u32::from(byte);
    'bits: for _bit in 0..8u8 {
        shifted = shift(shifted);
    }
    shifted
}

/// The CRC-32C of `bytes` followed by the byte `kind`, a bit at a time.
///
/// It takes no memory. Source: RFC 3720, section 12.1.
pub fn crc32c_by_bits(bytes: &[u8], kind: u8) -> u32
    ensures { result ≡ crc_of (bytes.now ++ kind ∷ []) }
{
    let mut remainder = ALL_ONES;
    'bytes: for byte in bytes {
        remainder = after_byte(remainder, *byte);
    }
    after_byte(remainder, kind) ^ ALL_ONES
}
