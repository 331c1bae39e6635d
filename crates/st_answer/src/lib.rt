//! The answer: the packets of a held file set that match a query, as a pcap.
//!
//! A `Store` has pairs of block files and indexes (docs/FORMAT.md), of which a file set can be held
//! and its files lent. The answer is every packet of the set that matches, once, by second,
//! nanosecond, stamp of its pair and position in its block file. It is sent to an `Outlet` by
//! pieces: the head of a pcap file, then for each packet a head of 16 bytes and, if it isn't empty,
//! its body. Times are in the given unit, lengths in bytes.
//!
//! # What it promises
//!
//! - `answer` sends the pieces of the longest prefix of the answer within the limits, if the pairs
//!   of the set are whole and known, and tells how many packets and bytes these are. After a
//!   failure of the outlet a part of them was sent; after any other error nothing was, or the
//!   pieces of a prefix of the packets.
//! - A fault of the outlet or the disk is answered only if its count rose, and the outlet's stays
//!   after every other end. `Damaged` names a pair of the held set that isn't whole.
//! - If the pairs of the set are whole and known, block files are read at most twice for each
//!   packet of the whole answer, its head and its body, on every path, also after an error.
//! - Every path closes the files that it lent and gives its hold back.
//! - A file set has one answer at most (`one_answer`), and one reply within limits (`one_reply`).
//! - A `Spool` is a `Store`: what it has seen is its history, and a hold takes the whole of it. So
//!   is a `SlicePair`, one pair over bytes in memory.
//!
//! # What it leaves to others
//!
//! Which positions match is st_eval's to know, what a record's bytes are st_block's. All block
//! files of the set are lent at once. How often indexes are read is in no clause.
//!
//! # Where to read
//!
//! `specs/Packets.antt` says which packets a file set has, `specs/Answer.antt` which of them the
//! answer has and in which order, `specs/Limited.antt` where limits cut it, `specs/Bounds.antt` how
//! much may be read. `specs/Replies.antt` says how an answer ends, `specs/Stores.antt` what a
//! store's calls ensure, `specs/Spools.antt` what a spool is as a store. Then `store`, `answering`,
//! and below it `gather` (with `choosing` and `heads`), `order`, `sending` and `closing`.
#![tactic(auto)]

mod answering;
mod choosing;
mod closing;
mod errors;
mod gather;
mod heads;
mod laws;
mod order;
mod picked;
mod sending;
mod slice_pair;
mod spool_store;
mod store;
#[cfg(test)]
mod tests;

pub use answering::answer;
pub use errors::{AnswerErr, Told};
pub use laws::{one_answer, one_reply};
pub use slice_pair::{SLICE_STAMP, SliceHold, SlicePair};
pub use store::Store;
