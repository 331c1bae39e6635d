//! What is reported of the ends of `query`, `list` and `check`, and of damage.

ghost use Rattle.steno.specs.Messages.{line_of};
ghost use Rattle.steno.specs.Spooling.{NamesDamage, SaidDamage, SaysOutcome};

use crate::message::damaged_text;
use crate::report::{Report, plain};
use crate::status::Status;
use st_base::Damage;
use st_commands::Outcome;
use std::alloc::Global;

/// The report of a list or a query over a spool that ended so. Its line names the damage, if there
/// is any; `NoMemory` if there is no memory for the line.
pub fn outcome_ended(alloc: Global, outcome: Outcome) -> Report
    ensures { SaysOutcome NamesDamage outcome result.status (line_of result) }
{
    match outcome {
        Outcome::Done => plain(Status::Done),
        Outcome::WriteFault => plain(Status::WriteFault),
        Outcome::DiskFault => plain(Status::DiskFault),
        Outcome::Damaged { stamp, damage } => pair_damaged(alloc, stamp, damage),
        Outcome::NoMemory => plain(Status::NoMemory),
    }
}

/// The report of a check of a spool that ended so. Its lines have said which pairs are damaged.
pub fn check_ended(outcome: Outcome) -> Report
    ensures { SaysOutcome SaidDamage outcome result.status (line_of result) }
{
    match outcome {
        Outcome::Done => plain(Status::Done),
        Outcome::WriteFault => plain(Status::WriteFault),
        Outcome::DiskFault => plain(Status::DiskFault),
        Outcome::Damaged {
            stamp: _stamp,
            damage: _damage,
        } => plain(Status::Damaged),
        Outcome::NoMemory => plain(Status::NoMemory),
    }
}

/// The report that names the damage of a pair; `NoMemory` if there is no memory for its line.
pub fn pair_damaged(alloc: Global, stamp: u64, damage: Damage) -> Report
    ensures { NamesDamage stamp damage result.status (line_of result) }
{
    match damaged_text(alloc, stamp, damage) {
        Ok(line) => Report {
            status: Status::Damaged,
            line: Some(line),
        },
        Err(_) => plain(Status::NoMemory),
    }
}
