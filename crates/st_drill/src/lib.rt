//! The drill of a spool: packets that are made from their numbers, and four queries over them.
//!
//! Packet k, counted from 0, has 64 bytes, of which protocol, addresses and ports depend on k;
//! there is one every ten milliseconds from 2001-09-09T01:46:40Z on. At most 1,000,000 packets come
//! as a pcap with times in nanoseconds. They are loaded into a spool, and the queries are asked
//! over all of its pairs. All of it is ours: docs/FORMAT.md, "Drill".
//!
//! # What it promises
//!
//! - A `DrillSource` gives the pcap of its packets, made as they are read, takes no memory and
//!   never fails (`DrillSource::new`, and `read` of `Source`).
//! - That pcap is a whole input of these packets, as many as were asked for, in the order of their
//!   numbers (`laws`).
//! - Each query of a drill is the one that its text spells (`DrillQuery::query`,
//!   `DrillQuery::text`).
//! - A drill loads its packets as a load of that pcap does, then asks, then writes. Its summary
//!   has the number of pairs that it published, and the counts of the answers over the spool's file
//!   set, if the pairs that were found are whole; nothing is written before (`drill`, `job`).
//! - A fault comes only if that object's count rose (`disk`, `write`); the shelf comes back, with
//!   no more files lent (`rest`).
//!
//! # What it leaves to others
//!
//! How a pcap is loaded, and how a query is answered. What happened is said if the shelf's log is
//! known.
//!
//! # Where to read
//!
//! `specs/Packets.antt` says what the packets are, `specs/Queries.antt` which queries are asked,
//! `specs/Summary.antt` what is written, `specs/Drilling.antt` what a drill makes of a shelf. Then
//! `drilling`, `asking`, `source`. The numbers of the format are in `numbers`.
#![tactic(auto)]

mod asking;
mod drilling;
mod ends;
mod frame;
pub mod laws;
mod numbers;
mod queries;
mod source;
mod summary;
#[cfg(test)]
mod tests;

pub use drilling::{Drilled, drill};
pub use ends::DrillEnd;
pub use frame::frame_of;
pub use queries::DrillQuery;
pub use source::DrillSource;
pub use summary::Answers;
