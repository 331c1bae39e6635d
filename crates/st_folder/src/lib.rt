//! The shelf in a folder of the machine's file system: the trusted edge of st_shelf.
//!
//! Source of the names: docs/FORMAT.md, "Folders and names". Which system calls each call makes,
//! and in which order, stands in docs/ARCHITECTURE.md, "What RealShelf does in a file system".
//!
//! # What it promises
//!
//! - `RealShelf` answers by the clauses of `Shelf`: a fault only if the count of faults rose, and
//!   each lent file counted.
//! - A file of a folder is taken for a name if and only if it has the text of that name
//!   (`name_of`).
//! - Drafts are numbered from above all drafts among the names that were read; from 0 if one of
//!   these has the greatest number (`first_number`).
//! - A system call that a signal broke off is made again (`again`).
//! - The first failure is kept if and only if a fault was counted (`RealShelf::failure`), and its
//!   line names the call and the path (`RealShelf::failure_line`, `failure_line`).
//!
//! # What it leaves to others
//!
//! It tells no content, and nothing is proved of what a real disk holds.
//!
//! # Where to read
//!
//! `real/shelf`, which has each call of the trait, then `real/folders`, `real/names` and
//! `real/retries`.
#![tactic(auto)]

mod real;
#[cfg(test)]
mod tests;

pub use real::{Failure, Place, RealDraft, RealFile, RealSealed, RealShelf, failure_line};
