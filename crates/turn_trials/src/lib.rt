//! What the programs that try shared spools have in common: pairs of small files, and threads that
//! take a pass each.
//!
//! # What it promises
//!
//! - Each call over a pass leaves it the same pass of its shared spool, with the holds that it had,
//!   whatever fails (`publish_pair`, `publish`, `age`, `block_byte`, `index_byte`: `same`,
//!   `holds`).
//! - Threads leave as many jobs and passes as there were, and each pass as its work says that a run
//!   may leave it, whatever the work is (`all`, whose clause is `Done`).
//!
//! # What it leaves to others
//!
//! What a publication or an ageing makes of the spool: `st_turn` says it of the calls that are made
//! here. No clause says that a pair is published, nor that each job is run once, with the pass at
//! its place, on a thread of its own; the programs try it.
//!
//! # Where to read
//!
//! `specs/Halves.antt` says what threads do to their jobs and passes, `specs/Resting.antt` what a
//! pass is before and after that. Then `pairs` and `halves`.
#![tactic(auto)]

mod halves;
mod pairs;
mod spools;

pub use halves::{Work, all};
pub use pairs::{age, block_byte, index_byte, publish, publish_pair};
pub use spools::{AnyPair, Left, SharedSpool, SpoolPass, closed, opened};
