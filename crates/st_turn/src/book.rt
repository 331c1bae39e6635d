//! The book that goes round with the spool: a line for each pass.

/// A pass's line of the book: how many of its turns the shelf's count of faults rose in, and how
/// many of its publications and ageings failed.
#[derive(Clone, Copy, Debug, PartialEq, Eq)]
pub struct Line {
    /// In how many turns the count rose, at most 2^64 - 1.
    pub failed: u64,
    /// How many publications and ageings failed, at most 2^64 - 1.
    pub stops: u64,
}
