ghost use Rattle.std.specs.Prelude.{◌↔◌, IsTrue};

use thiserror::Error;

/// Why an input is read no further. A reader that answered one answers it from then on.
///
/// Records are numbered from 1, and number 0 is the file head. Lengths are in bytes. `have` counts
/// the bytes of the record, or of the file head, that came, and `want` those that it takes. The
/// texts are those of docs/FORMAT.md, "Messages". Source: docs/FORMAT.md, "pcap".
#[derive(Clone, Copy, Debug, PartialEq, Eq, Error)]
pub enum PcapErr {
    /// The source failed.
    #[error("reading the input failed")]
    ReadFault,
    /// The first four bytes, `found` as a little-endian number, are no magic of a pcap file.
    #[error("input is not a pcap file, it begins with {found:#010x}")]
    NotPcap { found: u32 },
    /// The version is not 2.4.
    #[error("pcap version {major}.{minor} is not read")]
    Version { major: u16, minor: u16 },
    /// The low 16 bits of the link type, `found`, are not 1, Ethernet.
    #[error("link type {found} is not read")]
    LinkType { found: u32 },
    /// The fraction `found` is a second or more: at least 10^6 microseconds or 10^9 nanoseconds.
    #[error("record {number}: fraction {found} is out of range")]
    BadFraction { number: u64, found: u32 },
    /// The captured length `len` is above 262,144.
    #[error("record {number}: captured length {len} is over 262144")]
    TooLong { number: u64, len: u32 },
    /// The input ends in a file head, a record's head or a record's body.
    #[error("record {number}: {have} of {want} bytes")]
    Truncated { number: u64, have: u64, want: u64 },
    /// At least 2^40 bytes come before the place where a record would begin.
    #[error("input stopped after {taken} bytes")]
    TooMuch { taken: u64 },
    /// Out of memory for a record's body.
    #[error("out of memory")]
    NoMemory,
}

impl PcapErr {
    ghost use Rattle.st_pcap.specs.Heads.{IsOfFileHead};

    /// Whether this is a cause for which a file head is refused: `NotPcap`, `Version`, `LinkType`,
    /// or `Truncated` with number 0.
    pub fn is_of_file_head(self) -> bool
        ensures { IsTrue result ↔ IsOfFileHead self }
    {
        match self {
            PcapErr::NotPcap { .. } | PcapErr::Version { .. } | PcapErr::LinkType { .. } => true,
            PcapErr::Truncated { number, .. } => number == 0,
            PcapErr::ReadFault
            | PcapErr::BadFraction { .. }
            | PcapErr::TooLong { .. }
            | PcapErr::TooMuch { .. }
            | PcapErr::NoMemory => false,
        }
    }
}
