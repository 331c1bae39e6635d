//! Lanes: one pair of a block file and its index that is being filled, record by record.
//!
//! A lane has two drafts of a shelf. A block goes to the draft of the block file as soon as the
//! next one begins, so packets are in memory for one block only; of the other blocks' packets only
//! the keys and their positions are. A file has 1 to 4,095 blocks of one size, a power of two from
//! 4,096 to 1,048,576 bytes: docs/FORMAT.md, "Block file" and "Index rows".
//!
//! # What it promises
//!
//! - A push keeps the record, or answers that the lane is ready, if the file has no block left that
//!   takes it, or refuses a record that is longer than any block takes (`Lane::push`). After each
//!   push that succeeds the draft of the block file has all blocks of the lane's records but the
//!   one at hand.
//! - A lane is ready if and only if a list of the cut ends: of all records to come, each pair takes
//!   as many as its file has blocks for (`Lane::push`, `one_cut`, `cut_goes_on`, `cut_ends`).
//! - A sealed pair is whole for the lane's records, and each file is the draft of its kind
//!   (`Lane::seal`). The index is written only then.
//! - `DiskFault` comes only if the count of faults of a draft rose; a push that fails so breaks the
//!   lane. Without memory the lane has the records that it had.
//! - The drafts come back on each path: sealed, with the error, or by `Lane::give_up`.
//!
//! # What it leaves to others
//!
//! Making drafts, publishing a pair, and giving up the files of a lane that failed. Which records a
//! lane has is said where the bytes of its drafts are known; the rest holds for every draft.
//!
//! # Where to read
//!
//! `specs/Cut.antt` says how records are cut into pairs, `specs/Lane.antt` which records a lane
//! represents, `specs/Sealing.antt` what sealing gives. Then `lane`, `filling`, `sealing`.
#![tactic(auto)]

mod errors;
mod filling;
mod lane;
mod laws;
mod sealing;
#[cfg(test)]
mod tests;

pub use errors::{LaneErr, LaneRefused, Pushed, SealErr};
pub use lane::Lane;
pub use laws::{cut_ends, cut_goes_on, cut_of_none, one_cut, one_lane};
