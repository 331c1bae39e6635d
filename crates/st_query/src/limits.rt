//! The limits of the query language: docs/QUERY.md, "Grammar" and "Words".

/// A query's text has at most this many bytes.
pub const MAX_TEXT: usize = 4096;

/// At most this many parentheses are open at once.
pub const MAX_OPEN: usize = 64;

/// The greatest port (RFC 9293, 3.1).
pub const MAX_PORT: u64 = 65_535;

/// The greatest protocol number (RFC 791, 3.1).
pub const MAX_PROTO: u64 = 255;

/// The greatest VLAN number (IEEE 802.1Q, 9.6).
pub const MAX_VLAN: u64 = 4_095;

/// The greatest label (RFC 3032, 2.1).
pub const MAX_LABEL: u64 = 1_048_575;

/// A number has at most this many decimal digits.
pub const NUMBER_DIGITS: usize = 10;

/// The bits of a net have at most this many decimal digits.
pub const BITS_DIGITS: usize = 3;

/// How many bits an IPv4 address has (RFC 791, 3.1).
pub const V4_BITS: u8 = 32;

/// How many bits an IPv6 address has (RFC 4291, 2).
pub const V6_BITS: u8 = 128;
