//! Whole pairs: which block files and indexes make a pair of this project's spools.
//!
//! A spool publishes pairs that are whole by a rule, and never looks at their bytes. The rule of
//! the spools that `load` fills and the other commands read is `Indexed`: the block file is that
//! of some packets, and the index has exactly their rows. Source: docs/FORMAT.md, "Block file" and
//! "Index rows".
//!
//! # What it leaves to others
//!
//! It has a definition and no code that runs. st_lane makes whole pairs, st_index checks whether
//! one is whole, st_answer answers over those that are.
//!
//! # Where to read
//!
//! `specs/Pairs.antt` says when a pair is whole, by st_rows' `IsWhole`.
#![tactic(auto)]

mod rule;

pub use rule::Indexed;
