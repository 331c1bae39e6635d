//! The spool: pairs of block files and indexes, published and removed one at a time on a shelf that
//! may crash at any moment.
//!
//! A history is a list of events: the pairs that were found at opening, then publications and
//! removals, in order. A stamp orders the pairs; each is above all before it. A hold is a snapshot
//! of the pairs that are published; its files stay, parked if need be, until its release. Which
//! bytes make a whole pair is a `PairRule`'s to say. The order in which files are settled and
//! parked is this project's own; docs/FORMAT.md, "Folders and names", has the names.
//!
//! # What it promises
//!
//! - A spool opens with the pairs of which both files are there, and removes all other files
//!   (`Spool::enter`).
//! - At every moment of a publication a crash leaves the pairs as before or with the new one whole;
//!   after it the new one (`Spool::publish`). So too of a removal (`Spool::age`).
//! - A publication or a removal that failed leaves the history, and the spool keeps what a crash
//!   may leave of it (`Doubt`); from then on `publish` and `age` refuse.
//! - A hold gives its pairs with their bytes, whatever is published or removed meanwhile
//!   (`Spool::block_of`, `index_of`, `holds_stay`).
//! - What a spool keeps and its shelf's log determine its history (`one_history`). Over a whole run
//!   of calls a crash leaves the pairs of the history up to some event, and never less than was
//!   answered Ok (`covers`).
//! - `DiskFault` comes only if the shelf's count of faults rose in that call.
//!
//! # What it leaves to others
//!
//! It reads no file. Threads that share a spool are not its concern. Nor does it find out whether
//! an event in doubt happened: a halted spool is closed and opened anew.
//!
//! # Where to read
//!
//! `specs/History.antt` says which histories there may be, `specs/Rows.antt` and
//! `specs/States.antt` what a crash may leave under the names of a stamp, `specs/Standing.antt`
//! which history a spool represents, `specs/Recalling.antt` how state and log tell it,
//! `specs/Covers.antt` what crashes leave over a run. Then `spool`.
#![tactic(auto)]

mod held;
mod laws;
mod opening;
mod pair_rule;
mod refusals;
mod settling;
mod spool;
mod state;
mod sweeping;
#[cfg(test)]
mod tests;

pub use held::Hold;
pub use laws::{covers, holds_stay, one_history};
pub use opening::EnterErr;
pub use pair_rule::PairRule;
pub use refusals::{AgeErr, DiskFault, NotEntered, PublishErr};
pub use spool::Spool;
pub use state::{Doubt, Span};
