//! Tries a spool in memory: holds that are read beside publications and removals, at random, on a
//! disk some of whose calls fail.
//!
//! Each line of standard input is a run, `SEED ROUNDS LIMIT APART` in decimal. A run begins with no
//! pair. In each round a hold is taken, then a second one, both are read and released in either
//! order, and between these steps pairs are published and removed; a spool that a failure stopped
//! is closed and opened anew after the round. A call of the shelf fails every APART calls or so,
//! and none if APART is 0. The line that is printed tells what the run did, how often it met
//! something else than it published, and how many parked names it left.
#![tactic(auto)]

ghost use Rattle.std.specs.Prelude.{◌≤◌, IfSome, IfOk};

mod calls;
mod model;
mod numbers;
mod rounds;

use rounds::{Plan, run};
use st_base::NoMemory;
use std::alloc::Global;
use std::io::{self, Write};
use std::process::ExitCode;

fn main(rt: HostRuntime) -> io::Result<ExitCode> {
    let alloc = rt.alloc();
    let mut out = io::writer(&rt);
    for line in rt.lines(alloc) {
        let line = line?;
        let Some(plan) = plan_of(alloc, line.as_str())? else {
            eprintln!(rt; "spool_probe: a line is SEED ROUNDS LIMIT APART")?;
            return Ok(ExitCode::from(2));
        };
        let Ok(seen) = run(alloc, plan) else {
            eprintln!(rt; "spool_probe: out of memory")?;
            return Ok(ExitCode::from(4));
        };
        let seed = plan.seed;
        let text = format!(in alloc; "seed {seed}: {seen}\n")?;
        out.write_all(text.as_bytes())?;
    }
    Ok(ExitCode::SUCCESS)
}

// The run that a line spells.
fn plan_of(alloc: Global, line: &str) -> io::Result<Option<Plan>>
    ensures { IfOk result (λ found. IfSome found (λ plan. 1 ≤ plan.limit)) }
{
    let words: Vec<&str> = line.split_whitespace().collect(alloc)?;
    let [seed, rounds, limit, apart] = words.as_slice() else {
        return Ok(None);
    };
    let (Ok(seed), Ok(rounds), Ok(limit), Ok(apart)) = (
        seed.parse(),
        rounds.parse(),
        limit.parse::<u32>(),
        apart.parse(),
    ) else {
        return Ok(None);
    };
    if limit == 0 {
        return Ok(None);
    }
    Ok(Some(Plan {
        seed,
        rounds,
        limit,
        apart,
    }))
}
