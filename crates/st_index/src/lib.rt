//! The index of a pair, made packet by packet while the block file is filled; and whether a block
//! file and an index are a whole pair.
//!
//! A packet is added with its position, the offset of its head in the block file in bytes. The
//! index then has, for each key that some packet has, a row with the positions of exactly these
//! packets, and before them the summary row: docs/FORMAT.md, "Index rows". Positions rise and are
//! below 2^32; times are in seconds since 1970 and nanoseconds.
//!
//! # What it promises
//!
//! - A maker has exactly the packets that were added, in their order (`IndexMaker::new`,
//!   `IndexMaker::add`), or those of a whole block file (`make_index`). A refusal of `add`, which
//!   comes only without memory, leaves it the same packets.
//! - Writing gives a table of exactly the rows of these packets, and returns its length in bytes
//!   (`IndexMaker::write`); after an error a prefix of it is there. `WriteFault` comes only if the
//!   sink's count rose.
//! - A maker that meets `add`'s conditions never has too many rows or too long values for a table:
//!   a frame has four bytes or more for each of its keys.
//! - A pair that was read is whole, with the number of its packets, or the first check that fails
//!   is named (`check`); a pair has one such verdict (`one_verdict`, `one_failure`), and no check
//!   of a whole pair fails (`whole_unhurt`). `ReadFault` comes only if a file's count rose.
//!
//! # What it leaves to others
//!
//! What a packet's keys are is st_walk's to know, and what the rows of packets are, st_rows's. A
//! maker doesn't compare positions with a block file.
//!
//! # Where to read
//!
//! `specs/Maker.antt` says which packets a maker has, `specs/Write.antt` which bytes are written.
//! What a maker keeps: `specs/NumberedLists.antt`, `Slots`, `AddressLists`, `PositionLists`,
//! `Summaries`; how it is gone over: `EntryLists`, `KeyLists`, `RowList`. Then `lists`,
//! `addresses`, `maker`; `key_lists`, `row_list`, `write`. What a check of a pair answers:
//! `Verdict`, `CheckRows`; then `checker`.
#![tactic(auto)]

mod addresses;
mod checker;
mod key_lists;
mod lists;
mod maker;
mod row_list;
mod summary;
#[cfg(test)]
mod tests;
mod write;

pub use checker::{
    CheckErr, Part, Verdict, check, make_index, one_failure, one_verdict, whole_unhurt,
};
pub use maker::IndexMaker;
