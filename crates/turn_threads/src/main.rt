//! Threads that share a spool by turns, over a shelf in memory and over a folder.
//!
//! Without arguments it tries what a spool is shared for: some threads publish small pairs and age,
//! others hold, read and release. It prints, for each run, how many pairs were published and
//! removed, how many calls failed, how many held pairs were not read as they were published, and
//! how many pairs and parked names are left.
//!
//! - `wait PAIRS` measures what seven callers cost that wait while one has a long turn, the release
//!   of a hold of so many removed pairs.
//! - `turns THREADS TURNS` measures how many turns there are in a second, where so many threads, 1,
//!   2 or 4, take so many turns each and do nothing else.
//!
//! # What it promises
//!
//! - The spool that comes back from the threads has one history, which begins with what each pass
//!   saw; there are as many passes as jobs, and each is counted once (`runs::serve`).
//!
//! # What it leaves to others
//!
//! That the threads end, and what they print, is only tried.
#![tactic(auto)]

ghost use Rattle.std.specs.Prelude.{◌≤◌, length};
ghost use Rattle.st_turn.specs.declared.sharing.TheConstants.{MOST_PASSES};

mod jobs;
mod reading;
mod runs;
mod speed;

use jobs::{Job, Part};
use runs::run;
use st_folder::RealShelf;
use st_shelf::MemShelf;
use std::io::{self, Write};
use std::process::ExitCode;
use std::sync::Wait;
use std::thread::Threads;
use std::time::Instant;
use std::{env, fs};
use turn_trials::Left;

const FOLDER: &str = "turn_threads_spool";

// One thread publishes a hundred pairs, another one reads.
fn two() -> [Job; 2] {
    [Job::new(Part::Publishes(100)), Job::new(Part::Reads(60))]
}

// Two threads publish fifty pairs each, two others read.
fn four() -> [Job; 4] {
    [
        Job::new(Part::Publishes(50)),
        Job::new(Part::Publishes(50)),
        Job::new(Part::Reads(60)),
        Job::new(Part::Reads(60)),
    ]
}

// A line of what a run did and left.
fn tell(rt: &HostRuntime, name: &str, jobs: &[Job], left: Option<Left>) -> io::Result<()> {
    let Some(Left { pairs, parked }) = left else {
        return println!(rt; "{name}: not run");
    };
    let mut published: u64 = 0;
    let mut removed: u64 = 0;
    let mut failed: u64 = 0;
    let mut unread: u64 = 0;
    for job in jobs {
        published = published.saturating_add(job.published);
        removed = removed.saturating_add(job.removed);
        failed = failed.saturating_add(job.failed);
        unread = unread.saturating_add(job.unread);
    }
    println!(rt;
        "{name}: {published} published, {removed} removed, {failed} failed, {unread} unread, \
         {pairs} pairs, {parked} parked"
    )
}

fn try_memory<R: Threads + Wait + Sync>(rt: &R, host: &HostRuntime) -> io::Result<()> {
    let mut jobs = two();
    let left = run(rt, *host, MemShelf::empty(host.alloc()), 2, &mut jobs);
    tell(host, "memory, two threads", &jobs, left)?;
    let mut jobs = four();
    let left = run(rt, *host, MemShelf::empty(host.alloc()), 3, &mut jobs);
    tell(host, "memory, four threads", &jobs, left)
}

// Runs jobs over a new folder, which is removed after it.
fn over_folder<R: Threads + Wait + Sync>(
    rt: &R,
    host: &HostRuntime,
    limit: u32,
    jobs: &mut [Job],
) -> io::Result<Option<Left>>
    requires { (1 ≤ length jobs.old) × (length jobs.old ≤ MOST_PASSES) × (1 ≤ limit) }
{
    let _ = fs::remove_dir_all(host, FOLDER);
    let Ok(shelf) = RealShelf::at(host, host.alloc(), FOLDER) else {
        return Ok(None);
    };
    let left = run(rt, *host, shelf, limit, jobs);
    fs::remove_dir_all(host, FOLDER)?;
    Ok(left)
}

fn try_folder<R: Threads + Wait + Sync>(rt: &R, host: &HostRuntime) -> io::Result<()> {
    let mut jobs = two();
    let left = over_folder(rt, host, 2, &mut jobs)?;
    tell(host, "folder, two threads", &jobs, left)?;
    let mut jobs = four();
    let left = over_folder(rt, host, 3, &mut jobs)?;
    tell(host, "folder, four threads", &jobs, left)
}

// What seven callers cost that wait through one long turn.
fn measure_wait<R: Threads + Wait + Sync>(
    rt: &R,
    host: &HostRuntime,
    pairs: u64,
) -> io::Result<()> {
    let mut jobs = [Job::new(Part::Waits); 8];
    jobs[0] = Job::new(Part::Keeps(pairs));
    let _ = run(rt, *host, MemShelf::empty(host.alloc()), 1, &mut jobs);
    let mut busy: u64 = 0;
    for job in &jobs {
        busy = busy.saturating_add(job.busy);
    }
    let took = jobs[0].took;
    println!(host; "long turn {took} us, seven that waited used {busy} us of a processor")
}

fn measure_turns<R: Threads + Wait + Sync>(
    rt: &R,
    host: &HostRuntime,
    threads: usize,
    turns: u64,
) -> io::Result<()> {
    let start = Instant::now(host)?;
    let job = Job::new(Part::Takes(turns));
    let shelf = MemShelf::empty(host.alloc());
    let _ = match threads {
        1 => run(rt, *host, shelf, 1, &mut [job; 1]),
        2 => run(rt, *host, shelf, 1, &mut [job; 2]),
        _ => run(rt, *host, shelf, 1, &mut [job; 4]),
    };
    let took = start.elapsed(host)?.as_micros();
    println!(host; "{threads} threads, {turns} turns each: {took} us")
}

fn main(rt: HostRuntime) -> io::Result<ExitCode> {
    let host = rt;
    let words: Vec<String> = env::args(&rt)?.collect(rt.alloc())?;
    match words.as_slice() {
        [_] => {
            try_memory(&rt, &host)?;
            try_folder(&rt, &host)?;
        }
        [_, word, pairs] if word.as_str() == "wait" => {
            measure_wait(&rt, &host, pairs.parse().unwrap_or(0))?;
        }
        [_, word, threads, turns] if word.as_str() == "turns" => {
            measure_turns(
                &rt,
                &host,
                threads.parse().unwrap_or(1),
                turns.parse().unwrap_or(0),
            )?;
        }
        _ => {
            eprintln!(rt; "usage: turn_threads [wait PAIRS | turns THREADS TURNS]")?;
            return Ok(ExitCode::from(2));
        }
    }
    Ok(ExitCode::from(0))
}
