//! What the summary row of an index says.

/// What the summary row of an index says: the number of packets, and the times of the first and of
/// the last one, each in seconds since 1970 and nanoseconds.
///
/// Source: docs/FORMAT.md, "Index rows".
#[derive(Clone, Copy, Debug, PartialEq, Eq)]
pub struct Summary {
    pub packets: u32,
    pub first: (u32, u32),
    pub last: (u32, u32),
}
