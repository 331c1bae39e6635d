//! The numbers of the pcap format, as docs/FORMAT.md lists them under "pcap": libpcap's ("pcap
//! savefile format", "File Header" and "Packet Record"), and the limits, which are ours. Sizes and
//! offsets are in bytes.

/// The first four bytes of a little-endian file in microseconds, read as a little-endian number.
pub const LITTLE_MICRO: u32 = 0xa1b2_c3d4;

/// The first four bytes of a big-endian file in microseconds, read as a little-endian number.
pub const BIG_MICRO: u32 = 0xd4c3_b2a1;

/// The first four bytes of a little-endian file in nanoseconds, read as a little-endian number.
pub const LITTLE_NANO: u32 = 0xa1b2_3c4d;

/// The first four bytes of a big-endian file in nanoseconds, read as a little-endian number.
pub const BIG_NANO: u32 = 0x4d3c_b2a1;

/// The size of each number of a file but the two of its version.
pub const NUMBER_SIZE: usize = 4;

/// The size of each number of the version.
pub const SHORT_SIZE: usize = 2;

/// The size of a file head.
pub const FILE_HEAD_SIZE: usize = 24;

/// The offset of the major version in a file head.
pub const MAJOR_AT: usize = 4;

/// The offset of the minor version in a file head.
pub const MINOR_AT: usize = 6;

/// The size of the two numbers of older versions that follow the version in a file head.
pub const OLDER_SIZE: usize = 8;

/// The offset of the snaplen in a file head.
pub const SNAPLEN_AT: usize = 16;

/// The offset of the link type in a file head.
pub const LINK_AT: usize = 20;

/// The major version that is read and written.
pub const MAJOR: u16 = 2;

/// The minor version that is read and written.
pub const MINOR: u16 = 4;

/// A link type is the field's number modulo this: its low 16 bits.
pub const LINK_LIMIT: u32 = 65_536;

/// The link type Ethernet.
pub const ETHERNET: u32 = 1;

/// The size of a record's head.
pub const RECORD_HEAD_SIZE: usize = 16;

/// The offset of the seconds in a record's head.
pub const SEC_AT: usize = 0;

/// The offset of the fraction in a record's head.
pub const FRACTION_AT: usize = 4;

/// The offset of the captured length in a record's head.
pub const CAPTURED_AT: usize = 8;

/// The offset of the original length in a record's head.
pub const ORIG_AT: usize = 12;

/// The microseconds of a second.
pub const MICROS: u32 = 1_000_000;

/// The nanoseconds of a second.
pub const NANOS: u32 = 1_000_000_000;

/// The nanoseconds of a microsecond.
pub const NANOS_IN_MICRO: u32 = 1_000;

/// The longest body of a record, libpcap's own limit (`MAXIMUM_SNAPLEN`), which is also the snaplen
/// that is written.
pub const MAX_BODY: u32 = 262_144;

/// No record begins after this many bytes of an input: 2^40.
pub const MAX_INPUT: u64 = 1_099_511_627_776;
