//! What the options that were found say.

ghost use Rattle.std.specs.Prelude.{◌≡◌, MatchOption, option_map};
ghost use Rattle.clap.specs.Words.{found_of};
ghost use Rattle.st_plan.specs.Found.{is_set, options_of};
ghost use Rattle.st_plan.specs.Jobs.{Job as JobView};
ghost use Rattle.st_plan.specs.declared.jobs.LanePlan.{LanePlan as Lane};
ghost use Rattle.st_plan.specs.Plans.{FormsAnswer, FormsLane, has_answer_option, has_load_option};

use crate::jobs::{Job, LanePlan};
use crate::limits::{block_count, block_size, limit};
use clap::ArgMatches;
use st_base::Limits;
use st_pcap::Unit;

// Whether a flag is set, by its text.
fn is_set(flag: Option<&str>) -> bool
    ensures { result ≡ is_set (option_map (λ s. s.now) flag.entry) }
{
    match flag {
        Some(text) => text == "true",
        None => false,
    }
}

/// Whether an option of an answer was given.
pub fn has_answer_option(matches: &ArgMatches<'_>) -> bool
    ensures { result ≡ has_answer_option (options_of (found_of matches.now)) }
{
    is_set(matches.get_str("ns"))
        || matches.get_str("packets").is_some()
        || matches.get_str("bytes").is_some()
}

/// Whether an option of `load` was given.
pub fn has_load_option(matches: &ArgMatches<'_>) -> bool
    ensures { result ≡ has_load_option (options_of (found_of matches.now)) }
{
    matches.get_str("block").is_some()
        || matches.get_str("blocks").is_some()
        || matches.get_str("limit").is_some()
}

/// The job of this query with the options of an answer; None if a number is out of range.
pub fn job<'a>(matches: &ArgMatches<'a>, query: &'a str) -> Option<Job<'a>>
    ensures { MatchOption result
        ((job : JobView) → FormsAnswer (options_of (found_of matches.now)) job → ⊥)
        (λ job. (job.query ≡ query.entry.now)
        × FormsAnswer (options_of (found_of matches.now)) job) }
{
    let unit = if is_set(matches.get_str("ns")) {
        Unit::Nano
    } else {
        Unit::Micro
    };
    let Some(packets) = limit(matches.get_str("packets")) else {
        return None;
    };
    let Some(bytes) = limit(matches.get_str("bytes")) else {
        return None;
    };
    let limits = Limits { packets, bytes };
    Some(Job {
        query,
        unit,
        limits,
    })
}

/// The layout that the options of a lane set; None if a number is out of range.
pub fn lane(matches: &ArgMatches<'_>) -> Option<LanePlan>
    ensures { MatchOption result
        ((lane : Lane) → FormsLane (options_of (found_of matches.now)) lane → ⊥)
        (FormsLane (options_of (found_of matches.now))) }
{
    let Some(size) = block_size(matches.get_str("block")) else {
        return None;
    };
    let Some(blocks) = block_count(matches.get_str("blocks")) else {
        return None;
    };
    Some(LanePlan { size, blocks })
}
