//! The plan of a command line.

ghost use Rattle.std.specs.Prelude.{◌≡◌, List, [], ◌∷◌, IfOk, map, string_bytes, MatchOption, codes};
ghost use Rattle.clap.specs.Words.{found_of};
ghost use Rattle.st_plan.specs.declared.jobs.Plan.{Plan as Planned};
ghost use Rattle.st_plan.specs.Found.{options_of, operands_of};
ghost use Rattle.st_plan.specs.Plans.{Asks, IsPlan};

use crate::command::matches_of;
use crate::jobs::{DrillPlan, LoadPlan, Plan, QueryPlan, SpoolPlan};
use crate::limits::{packet_count, pair_limit};
use crate::operands::{argument, arguments};
use crate::options::{has_answer_option, has_load_option, job, lane};
use clap::ArgMatches;
use st_base::NoMemory;
use std::alloc::Global;

// The plan of `once` with this query.
fn once_of<'a>(matches: &ArgMatches<'a>, query: &'a str) -> Option<Plan<'a>>
    ensures { MatchOption result
        ((p : Planned) → Asks (options_of (found_of matches.now))
        (codes "once" ∷ (query.entry.now ∷ [])) p → ⊥)
        (Asks (options_of (found_of matches.now)) (codes "once" ∷ (query.entry.now ∷ []))) }
{
    if has_load_option(matches) {
        return None;
    }
    match job(matches, query) {
        Some(job) => Some(Plan::Once(job)),
        None => None,
    }
}

// The plan of `load` over this folder.
fn load_of<'a>(matches: &ArgMatches<'a>, folder: &'a str) -> Option<Plan<'a>>
    ensures { MatchOption result
        ((p : Planned) → Asks (options_of (found_of matches.now))
        (codes "load" ∷ (folder.entry.now ∷ [])) p → ⊥)
        (Asks (options_of (found_of matches.now)) (codes "load" ∷ (folder.entry.now ∷ []))) }
{
    if folder.is_empty() || has_answer_option(matches) {
        return None;
    }
    let Some(plan) = lane(matches) else {
        return None;
    };
    let Some(limit) = pair_limit(matches.get_str("limit")) else {
        return None;
    };
    Some(Plan::Load(LoadPlan {
        folder,
        plan,
        limit,
    }))
}

// The plan of `query` over this folder with this query.
fn query_of<'a>(matches: &ArgMatches<'a>, folder: &'a str, query: &'a str) -> Option<Plan<'a>>
    ensures { MatchOption result
        ((p : Planned) → Asks (options_of (found_of matches.now))
        (codes "query" ∷ (folder.entry.now ∷ (query.entry.now ∷ []))) p → ⊥)
        (Asks (options_of (found_of matches.now))
        (codes "query" ∷ (folder.entry.now ∷ (query.entry.now ∷ [])))) }
{
    if folder.is_empty() || has_load_option(matches) {
        return None;
    }
    match job(matches, query) {
        Some(job) => Some(Plan::Query(QueryPlan { folder, job })),
        None => None,
    }
}

// The plan of `list` over this folder.
fn list_of<'a>(matches: &ArgMatches<'a>, folder: &'a str) -> Option<Plan<'a>>
    ensures { MatchOption result
        ((p : Planned) → Asks (options_of (found_of matches.now))
        (codes "list" ∷ (folder.entry.now ∷ [])) p → ⊥)
        (Asks (options_of (found_of matches.now)) (codes "list" ∷ (folder.entry.now ∷ []))) }
{
    if folder.is_empty() || has_answer_option(matches) || has_load_option(matches) {
        return None;
    }
    Some(Plan::List(SpoolPlan { folder }))
}

// The plan of `check` over this folder.
fn check_of<'a>(matches: &ArgMatches<'a>, folder: &'a str) -> Option<Plan<'a>>
    ensures { MatchOption result
        ((p : Planned) → Asks (options_of (found_of matches.now))
        (codes "check" ∷ (folder.entry.now ∷ [])) p → ⊥)
        (Asks (options_of (found_of matches.now)) (codes "check" ∷ (folder.entry.now ∷ []))) }
{
    if folder.is_empty() || has_answer_option(matches) || has_load_option(matches) {
        return None;
    }
    Some(Plan::Check(SpoolPlan { folder }))
}

// The plan of `drill` over this folder with this number of packets.
fn drill_of<'a>(matches: &ArgMatches<'a>, folder: &'a str, packets: &'a str) -> Option<Plan<'a>>
    ensures { MatchOption result
        ((p : Planned) → Asks (options_of (found_of matches.now))
        (codes "drill" ∷ (folder.entry.now ∷ (packets.entry.now ∷ []))) p → ⊥)
        (Asks (options_of (found_of matches.now))
        (codes "drill" ∷ (folder.entry.now ∷ (packets.entry.now ∷ [])))) }
{
    if folder.is_empty() || has_answer_option(matches) || has_load_option(matches) {
        return None;
    }
    match packet_count(packets) {
        Some(packets) => Some(Plan::Drill(DrillPlan { folder, packets })),
        None => None,
    }
}

// What the matches ask for.
fn asked<'a>(matches: &ArgMatches<'a>) -> Option<Plan<'a>>
    ensures { MatchOption result
        ((p : Planned) → Asks (options_of (found_of matches.now))
        (operands_of (found_of matches.now)) p → ⊥)
        (Asks (options_of (found_of matches.now)) (operands_of (found_of matches.now))) }
{
    let Some(operands) = matches.get_raw("words") else {
        return None;
    };
    if let Some(query) = argument("once", operands) {
        return once_of(matches, query);
    }
    if let Some(folder) = argument("load", operands) {
        return load_of(matches, folder);
    }
    if let Some((folder, query)) = arguments("query", operands) {
        return query_of(matches, folder, query);
    }
    if let Some(folder) = argument("list", operands) {
        return list_of(matches, folder);
    }
    if let Some(folder) = argument("check", operands) {
        return check_of(matches, folder);
    }
    if let Some((folder, packets)) = arguments("drill", operands) {
        return drill_of(matches, folder, packets);
    }
    None
}

/// The plan of the arguments after the program's name; None if they have none.
///
/// Options stand anywhere, as `--x value` or `--x=value`, each at most once; after the argument
/// `--` each is an operand. A number is 1 to 10 decimal digits, below 2^32. `NoMemory` may come for
/// any arguments. Source: docs/FORMAT.md, "Command line".
pub fn plan_of<'a>(alloc: Global, words: &'a [String]) -> Result<Option<Plan<'a>>, NoMemory>
    ensures { IfOk result (λ found. MatchOption found
        ((p : Planned) → IsPlan (map string_bytes words.entry.now) p → ⊥)
        (λ p. IsPlan (map string_bytes words.entry.now) p)) }
{
    match matches_of(alloc, words) {
        Ok(Some(matches)) => match asked(&matches) {
            Some(plan) => Ok(Some(plan)),
            None => Ok(None),
        },
        Ok(None) => Ok(None),
        Err(error) => Err(error),
    }
}
