//! The arguments of the command line as a plan: which command, over what, with which options.
//!
//! # What it promises
//!
//! - The arguments have a plan if and only if they are a line of `once`, `load`, `query`, `list`,
//!   `check` or `drill` with the operands and options of that command, and the plan is what they
//!   ask for (`plan_of`).
//! - Arguments have one plan at most (`one_plan`).
//! - The place of the plan's folder among the arguments, if the plan has one (`spool_word`).
//!
//! # What it leaves to others
//!
//! `clap` reads the arguments. Whether the query's text is a query is for st_query to say, and
//! whether there is a spool in the folder, for whoever opens it. `plan_of` and `spool_word` may run
//! out of memory for any arguments.
//!
//! # Where to read
//!
//! `specs/Line.antt` says which arguments are a line, `specs/Plans.antt` what a line asks for, and
//! `specs/Places.antt` where its folder stands. Then `command`, `limits`, `options`, `plans`,
//! `places`.
#![tactic(auto)]

mod command;
mod jobs;
mod laws;
mod limits;
mod operands;
mod options;
mod places;
mod plans;
#[cfg(test)]
mod tests;

pub use jobs::{DrillPlan, Job, LanePlan, LoadPlan, Plan, QueryPlan, SpoolPlan};
pub use laws::one_plan;
pub use limits::{DEFAULT_BLOCKS, DEFAULT_PAIRS, DEFAULT_SIZE, MAX_PACKETS, MAX_PAIRS};
pub use places::spool_word;
pub use plans::plan_of;
