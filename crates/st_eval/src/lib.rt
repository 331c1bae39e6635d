//! Evaluation: the positions of the packets that match a query, from the index of a pair.
//!
//! A position is the offset of a packet's record in the pair's block file, in bytes, below 2^32.
//! Times are in seconds since 1970 and nanoseconds, the clock's `now` in microseconds. The rows of
//! an index are docs/FORMAT.md's, "Index rows".
//!
//! # What it promises
//!
//! - Over an index of packets whose positions rise and whose numbers fit, `eval` gives the
//!   positions of exactly the packets that match, each once and in rising order. A key is looked up
//!   by one read at most, and the alternatives of a chain joined by `or` are sorted once.
//! - `summary` gives the number of packets and the times of the first and the last one, if they are
//!   fewer than 2^32, by one read at most.
//! - Over other bytes they refuse by a check of the table's blocks that fails, or of a row's value,
//!   and never so over an index of packets. A fault of the file is answered only if its count rose.
//! - `Positions::both` is the intersection of two lists of positions, in place and without further
//!   memory; `Positions::either` is their union.
//! - Laws: a net is a range of keys (`net_is_range`), as is every primitive (`matches_by_range`,
//!   `ranges_fit`), and the rows of packets select those that match (`selects_matching`).
//!
//! # What it leaves to others
//!
//! Which bytes are a table is st_table's to know, which rows are those of packets st_rows's, and
//! which packets match st_query's. Rows that no query asks for aren't looked at.
//!
//! # Where to read
//!
//! `specs/Selection.antt` says what is selected, and from which index; `specs/Refusals.antt` what
//! is refused. `specs/Ranges.antt` has the keys that a primitive asks for, `specs/Selecting.antt`
//! what rows select for a query. `Lookups` and `SummaryRow` say what the calls of modules give.
//! Then `evaluate`, and below it `lookups`, `values` and `ranges`; `positions`, `summary_row`.
#![tactic(auto)]

mod errors;
mod evaluate;
mod laws;
mod lookups;
mod positions;
mod ranges;
mod summaries;
mod summary_row;
#[cfg(test)]
mod tests;
mod values;

pub use errors::EvalErr;
pub use evaluate::eval;
pub use laws::{matches_by_range, net_is_range, ranges_fit, selects_matching};
pub use positions::Positions;
pub use summaries::Summary;
pub use summary_row::summary;
