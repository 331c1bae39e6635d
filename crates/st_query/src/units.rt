//! Units of time.

/// A minute, in seconds.
pub const MINUTE: u64 = 60;

/// An hour, in seconds.
pub const HOUR: u64 = 3_600;

/// A day, in seconds.
pub const DAY: u64 = 86_400;

/// A second, in microseconds.
pub const SECOND: u64 = 1_000_000;
