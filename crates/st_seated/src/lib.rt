//! A pass of a shared spool as a store of pairs, over which queries are answered.
//!
//! A `Seated` is a pass with its shared spool; each call of the store is one turn. What it has seen
//! is the history that its pass saw, in events; its holds, its count of faults and its lent files
//! are those of its pass alone.
//!
//! # What it promises
//!
//! - A `Seated` meets `Store`: a hold takes all that is published at home, and what is held is lent
//!   with its bytes until its release, whatever other passes do in between. No call is an event.
//! - The pass comes back as its last call left it, and may be a store again (`Seated::leave`).
//! - An answer over it is `answer`'s, and its faults, its reads and its lent files are the pass's
//!   own (`answer_shared`).
//! - A pass may be a store as `share` gives it, and also after it met another pass, if it holds
//!   nothing then (`passes_sit`).
//!
//! # What it leaves to others
//!
//! That a turn is ever had. A call that waits may wait for ever. What is said of bytes and sets is
//! said where the shelf's log is known.
//!
//! # Where to read
//!
//! `specs/Seats.antt` says what a pass has as a store. Then `seated` and `answering`.
#![tactic(auto)]

mod answering;
mod laws;
mod seated;

pub use answering::answer_shared;
pub use laws::passes_sit;
pub use seated::Seated;
