//! Loading: the packets of a pcap become pairs of a spool.
//!
//! A load removes the oldest pairs of its spool while more than the limit are published, and reads
//! the input record by record. It fills one pair after the other, each as far as the layout of its
//! block files lets it, publishes it, writes the line `STAMP PACKETS`, and removes the oldest pairs
//! again. A stamp is the clock's time in microseconds since 1970, or a greater number. The line is
//! ours: docs/FORMAT.md, "Command line".
//!
//! # What it promises
//!
//! - The input's packets are cut into lists, each as long as a block file of the layout takes. What
//!   was published, written and removed are the first acts of one job, in its order, and all of
//!   them unless a fault ended the load: for each list a whole pair under the next stamp, then its
//!   line, then the removals (`load`, `load_into`: `job`).
//! - At every moment a crash leaves the pairs after some of the job's events, the first ones; at
//!   the return those after all, but for an event in doubt if the shelf failed (clause `job`).
//! - A fault comes only if that object's count rose (`faults`). Over any shelf an input ends a load
//!   only at its end, its refusal or its first packet too long (`input`, `says`).
//! - The shelf comes back on every path, with as many files lent as before (`rest`).
//!
//! # What it leaves to others
//!
//! The text of messages, and what the program does after an end. What happened to the shelf is said
//! if its log is known, and which packets the pairs have if the input's bytes are known too.
//!
//! # Where to read
//!
//! `specs/Acts.antt` has what a load does and the text of a line, `specs/Job.antt` the job,
//! `specs/Loading.antt` what a load did by how it ended, `specs/Opening.antt` what one made of a
//! shelf, `specs/Stopping.antt` how an input ends one. Then `loading`, `filling`, `publishing`,
//! `lanes`.
#![tactic(auto)]

mod ends;
mod filling;
mod lanes;
mod loading;
mod publishing;
#[cfg(test)]
mod tests;

pub use ends::LoadEnd;
pub use loading::{Loaded, load, load_into};
