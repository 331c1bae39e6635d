//! Threads that share a shelf by turns: a stand-in of what the spool does, in the small.
//!
//! A shelf lies in the slot of an `atomic_table` that threads share by reference. Whoever finds the
//! word 0 has the turn, takes the shelf out, makes its calls, and puts it back. All of it is
//! generic in the shelf. No trait asks that its types may be sent to a thread: the bounds stand on
//! `serve` and `look_twice`, which start the threads.
//!
//! # What it promises
//!
//! - Each call returns or waits; the shelf is with one thread at a time (the rule of the table,
//!   which each step is proved to keep).
//!
//! # What it leaves to others
//!
//! What the calls did is said nowhere. That a turn is ever had is not promised.
#![tactic(auto)]

mod desk;
mod jobs;
#[cfg(test)]
mod tests;

pub use desk::{Desk, Home};
pub use jobs::{Job, look_twice, serve};
