//! Commands over a spool: the answer to a query, and a line for each pair, which says what is in it
//! or whether it is whole.
//!
//! A command opens a spool over a shelf, holds the file set that it finds, writes, and gives the
//! shelf back:
//!
//! - `query`: the packets of all pairs that match a query, as a pcap.
//! - `list`: `STAMP PACKETS TIME TIME`, with the least and the greatest time, in seconds since 1970
//!   with nine decimals.
//! - `check`: `STAMP whole PACKETS`, or `STAMP damaged PART PLACE FOUND WANT` of the first check
//!   that fails.
//!
//! Lines are by stamp, their numbers are decimal, and each ends with a line feed. The layout is
//! ours: docs/FORMAT.md, "Lines of `list` and `check`".
//!
//! # What it promises
//!
//! If what is on the disk is known:
//!
//! - A query over whole pairs that ends `Done` wrote exactly the pcap (`answers`). It reads no more
//!   of the block files than its answer needs, before any limit (`reads`).
//! - A list that ends `Done`, and a check that ends `Done` or `Damaged`, wrote exactly the lines of
//!   all pairs that were found; one that ended early wrote those of the first pairs (`lines`).
//! - After a command each crash leaves the pairs that were found. A command that could not open the
//!   spool may leave what a crash might have left before (`images`).
//! - `Damaged` names a pair that is there and is not whole (`answers`, `damaged_is_hurt`), and a
//!   check ends `Done` only if each pair is whole (`done_is_whole`).
//!
//! `DiskFault` and `WriteFault` come only with their cause, and after every other end than
//! `WriteFault` the output's count of faults stayed (`disk`, `write`). All files that were lent
//! come back (`loans`).
//!
//! # What it leaves to others
//!
//! How a query is answered (st_answer), whether a pair is whole (st_index), the text of messages.
//!
//! # Where to read
//!
//! `specs/Queries.antt` says what a query writes, `specs/Lines.antt` and `specs/Reports.antt` the
//! lines, `specs/Commands.antt` what is left of the shelf. Then `commands`, `queries`, `reports`.
#![tactic(auto)]

mod commands;
mod laws;
mod lines;
mod outcomes;
mod pairs;
mod queries;
mod reports;
#[cfg(test)]
mod tests;

pub use commands::{Ended, check, list};
pub use laws::{damaged_is_hurt, done_is_whole};
pub use outcomes::{Outcome, Report};
pub use queries::query;
