//! Where the folder of a plan stands among the arguments.

ghost use Rattle.std.specs.Prelude.{◌≡◌, ◌<◌, ◌≤◌, ℕ, Some, None, length, take, slice_get, map, option_map, string_bytes, IfOk, MatchOption};
ghost use Rattle.std.specs.Bool.{Decides};
ghost use Rattle.clap.specs.Words.{found_of};
ghost use Rattle.st_plan.specs.declared.jobs.Plan.{Plan as Planned};
ghost use Rattle.st_plan.specs.Found.{operands_of};
ghost use Rattle.st_plan.specs.Places.{HasOperands, IsSecondAt, IsSecond, IsFolderAt};
ghost use Rattle.st_plan.specs.Plans.{IsPlan, folder_of};

use crate::command::matches_of;
use crate::jobs::Plan;
use crate::plans::plan_of;
use clap::ArgMatches;
use st_base::NoMemory;
use std::alloc::Global;

// How many operands were found.
fn operand_count(matches: &ArgMatches<'_>) -> usize
    ensures { result ≡ length (operands_of (found_of matches.now)) }
{
    match matches.get_raw("words") {
        Some(operands) => operands.len(),
        None => 0,
    }
}

// Whether the first `len` arguments are a line with this many operands.
fn has_operands(alloc: Global, words: &[String], len: usize, count: usize) -> Result<bool, NoMemory>
    requires { len ≤ length words.now }
    ensures { IfOk result (λ has. Decides has
        (HasOperands (take len (map string_bytes words.now)) count)) }
{
    match matches_of(alloc, &words[..len]) {
        Ok(Some(matches)) => Ok(operand_count(&matches) == count),
        Ok(None) => Ok(false),
        Err(error) => Err(error),
    }
}

// Whether the argument at place `i` is this one.
fn is_at(words: &[String], i: usize, argument: &str) -> bool
    requires { i < length words.now }
    ensures { Decides result (slice_get (map string_bytes words.now) i ≡ Some argument.now) }
{
    words[i].as_str() == argument
}

// Whether the second operand stands at place `i` and is this one.
fn is_second_at(alloc: Global, words: &[String], i: usize, operand: &str) -> Result<bool, NoMemory>
    requires { i < length words.now }
    ensures { IfOk result (λ is. Decides is
        (IsSecondAt (map string_bytes words.now) i operand.now)) }
{
    if !is_at(words, i, operand) {
        return Ok(false);
    }
    match has_operands(alloc, words, i, 1) {
        Ok(true) => has_operands(alloc, words, i + 1, 2),
        Ok(false) => Ok(false),
        Err(error) => Err(error),
    }
}

// The place of the second operand, if it is this one.
fn second_place(alloc: Global, words: &[String], operand: &str) -> Result<Option<usize>, NoMemory>
    ensures { IfOk result (λ found. MatchOption found
        ((i : ℕ) → i < length words.now
        → IsSecondAt (map string_bytes words.now) i operand.now → ⊥)
        (λ i. IsSecond (map string_bytes words.now) i operand.now)) }
{
    'places: for i in 0..words.len() {
        match is_second_at(alloc, words, i, operand) {
            Ok(true) => return Ok(Some(i)),
            Ok(false) => {}
            Err(error) => return Err(error),
        }
    }
    Ok(None)
}

// The folder of a plan.
fn folder_in<'a>(plan: &Plan<'a>) -> Option<&'a str>
    ensures { option_map (λ s. s.now) result ≡ folder_of plan.now }
{
    match plan {
        Plan::Once(_) => None,
        Plan::Load(load) => Some(load.folder),
        Plan::Query(query) => Some(query.folder),
        Plan::List(spool) => Some(spool.folder),
        Plan::Check(spool) => Some(spool.folder),
        Plan::Drill(drill) => Some(drill.folder),
    }
}

/// The place in `words`, counted from 0, of the folder of the plan that they have; None if they
/// have none, or one without a folder.
///
/// `NoMemory` may come for any arguments. Source: docs/FORMAT.md, "Command line".
pub fn spool_word(alloc: Global, words: &[String]) -> Result<Option<usize>, NoMemory>
    ensures { IfOk result (λ found. MatchOption found
        ((p : Planned) → IsPlan (map string_bytes words.now) p → folder_of p ≡ None)
        (λ i. IsFolderAt (map string_bytes words.now) i)) }
{
    match plan_of(alloc, words) {
        Ok(Some(plan)) => match folder_in(&plan) {
            Some(folder) => second_place(alloc, words, folder),
            None => Ok(None),
        },
        Ok(None) => Ok(None),
        Err(error) => Err(error),
    }
}
