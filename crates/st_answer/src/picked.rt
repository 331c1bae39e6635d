//! Picks: packets whose heads were read.

/// A pick: a packet that matches and whose head was read. Its body is still in the block file.
///
/// The order is that of the answer: by second, nanosecond, stamp and position.
#[derive(Clone, Copy, Debug, PartialEq, Eq, PartialOrd, Ord)]
pub struct Picked {
    /// Seconds since 1970.
    pub sec: u32,
    /// Nanoseconds, below 10^9.
    pub nsec: u32,
    /// The stamp of the packet's pair.
    pub stamp: u64,
    /// The position of its record in the pair's block file.
    pub position: u32,
    /// The captured length, in bytes.
    pub len: u32,
    /// The original length, in bytes.
    pub orig: u32,
    /// The number of the pair in the held set, counted from 0.
    pub place: usize,
}
