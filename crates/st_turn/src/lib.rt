//! Turns over a spool that many callers share: passes, and one legal history.
//!
//! A spool lies in the one slot of a table that threads share by reference. A caller takes a turn
//! by its pass: it takes the spool out, makes one call of it, and puts it back. What a pass saw
//! begins the one history; `finish` joins all passes and gives the spool back.
//!
//! # What it promises
//!
//! - A turn starts from the spool at home, and its answer is the spool's (the clause `turn` of each
//!   call of `Shared` but `meet` and `finish`).
//! - A pass has the holds that its own turns took, until it releases them, and counts the files
//!   that its turns lent and took back (the clauses `holds` and `loans` of these calls). That a
//!   caller reads or releases only holds of its pass is a condition on the caller (`held`, `hold`).
//! - Two passes that meet have the longer of the two histories that they saw (`Shared::meet`).
//! - The spool comes back with no hold out; each pass saw a beginning of its history, and no two
//!   passes own one event. Its shelf's count of faults rose at least as often as the passes
//!   counted, or stands at its greatest number, and no more publications and ageings failed than
//!   they counted (`Shared::finish`).
//!
//! # What it leaves to others
//!
//! That a turn is ever had, and in which order. A call that waits may wait for ever.
//!
//! # Where to read
//!
//! `specs/Turn.antt` has the rule of turns over any value, `specs/Parts.antt` its parts for a spool
//! and its passes, `specs/Calls.antt` what a turn makes of a pass, `specs/SpoolCalls.antt` and
//! `specs/ReadingCalls.antt` what it makes of the spool. docs/ARCHITECTURE.md, "How callers share a
//! spool", says which step keeps which part. Then `sharing` and `desk`.
#![tactic(auto)]

mod book;
mod desk;
mod drafting;
mod finishing;
mod holding;
mod home;
mod meeting;
mod pass;
mod publishing;
mod reading;
mod refusals;
mod sharing;
mod spools;
mod trail;
mod turned;

pub use book::Line;
pub use desk::{Desk, Place, Rule};
pub use home::{Home, Knowledge};
pub use pass::Pass;
pub use refusals::SharedPublishErr;
pub use sharing::{MOST_PASSES, NotShared, Shared, share};
pub use turned::Turned;
