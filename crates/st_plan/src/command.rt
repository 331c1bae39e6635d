//! The arguments after the program's name as one simple command: the options of all commands in any
//! place, and operands.

ghost use Rattle.std.specs.Prelude.{◌≡◌, ◌≢◌, IfOk, IsNone, MatchOption, map, string_bytes, true, false};
ghost use Rattle.clap.specs.Words.{rule_of, app_of, found_of};
ghost use Rattle.clap.specs.declared.error.kind.ErrorKind.TheVariants.{OutOfMemory};
ghost use Rattle.st_plan.specs.Found.{IsTaken, IsNoLine};
ghost use Rattle.st_plan.specs.Rules.{flag_rule, value_rule, words_rule, bare_app, answer_app, line_app};

use clap::error::ErrorKind;
use clap::{Arg, ArgAction, ArgMatches, Command};
use st_base::NoMemory;
use std::alloc::{AllocError, Global};

/// An option without a value.
fn flag<'a>(alloc: Global, name: &'a str) -> Arg<'a>
    ensures rule { rule_of result ≡ flag_rule name.now }
    ensures here { result.global ≡ false }
{
    Arg::new(alloc, name).long(name).action(ArgAction::SetTrue)
}

/// An option with one value.
fn value<'a>(alloc: Global, name: &'a str) -> Arg<'a>
    ensures rule { rule_of result ≡ value_rule name.now }
    ensures here { result.global ≡ false }
{
    Arg::new(alloc, name).long(name).action(ArgAction::Set)
}

/// The operands, as many as there are.
fn arguments<'a>(alloc: Global) -> Arg<'a>
    ensures rule { rule_of result ≡ words_rule }
    ensures here { result.global ≡ false }
{
    Arg::new(alloc, "words").action(ArgAction::Append)
}

/// The command with no option.
fn bare<'a>(alloc: Global) -> Command<'a>
    ensures { app_of result ≡ bare_app }
{
    Command::new(alloc, "steno")
        .no_binary_name(true)
        .disable_help_flag(true)
        .disable_version_flag(true)
}

/// The command with the options of an answer.
fn answer<'a>(alloc: Global) -> Result<Command<'a>, AllocError>
    ensures { IfOk result (λ c. app_of c ≡ answer_app) }
{
    bare(alloc)
        .arg(flag(alloc, "ns"))?
        .arg(value(alloc, "packets"))?
        .arg(value(alloc, "bytes"))
}

/// The command.
fn command<'a>(alloc: Global) -> Result<Command<'a>, AllocError>
    ensures { IfOk result (λ c. app_of c ≡ line_app) }
{
    answer(alloc)?
        .arg(value(alloc, "block"))?
        .arg(value(alloc, "blocks"))?
        .arg(value(alloc, "limit"))?
        .arg(arguments(alloc))
}

// What an error of this kind says of the arguments.
fn refused<'a>(kind: ErrorKind) -> Result<Option<ArgMatches<'a>>, NoMemory>
    ensures { IfOk result (λ found. IsNone found × (kind ≢ OutOfMemory)) }
{
    match kind {
        ErrorKind::OutOfMemory => Err(NoMemory),
        _ => Ok(None),
    }
}

/// What `clap` reads of the arguments; None if they are no line.
pub fn matches_of<'a>(
    alloc: Global,
    words: &'a [String],
) -> Result<Option<ArgMatches<'a>>, NoMemory>
    ensures { IfOk result (λ found. MatchOption found
        (IsNoLine (map string_bytes words.entry.now))
        (λ m. IsTaken (map string_bytes words.entry.now) (found_of m))) }
{
    let command = match command(alloc) {
        Ok(command) => command,
        Err(_) => return Err(NoMemory),
    };
    match command.try_get_matches_from(words) {
        Ok(matches) => Ok(Some(matches)),
        Err(error) => refused(error.kind()),
    }
}
