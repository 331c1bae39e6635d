//! Answers over a shared spool: by one caller, and by threads that ask while others publish and
//! age.
//!
//! It does so over the shelf in memory and over a folder. A caller publishes three pairs of four
//! packets, asks for the three of each that go to port 53, ages, and asks again. Then threads go on
//! with the pairs that are left: some publish pairs and age, others ask. For each run it prints how
//! many pairs were published and removed, how many calls failed, how many replies there were, how
//! many of them were wrong, and how many pairs and parked names are left.
//!
//! A reply is right if it is a whole pcap, all of whose packets are those of pairs that follow one
//! another, of each maker of pairs by itself, in order and none left out or twice; if there is one;
//! and if the pairs are no older than those of the reply before. Each hold takes such pairs: each
//! maker publishes its pairs in order, and the oldest are removed first.
//!
//! # What it promises
//!
//! - A thread asks by a pass of the spool that it shares, and has it back (`jobs::Turns`).
//! - The spool that comes back from the threads has one history, which begins with what each pass
//!   saw (`runs::serve`).
//!
//! # What it leaves to others
//!
//! That the threads end, and what they print, is only tried.
#![tactic(auto)]

ghost use Rattle.std.specs.Prelude.{◌≤◌};

mod asking;
mod caller;
mod halves;
mod jobs;
mod packets;
mod pairs;
mod replies;
mod runs;

use asking::Heard;
use caller::{Seen, one_caller};
use jobs::{Batch, Job, Part};
use replies::Run;
use runs::run;
use st_folder::RealShelf;
use st_shelf::{Draft, MemShelf, Shelf};
use std::sync::Wait;
use std::thread::Threads;
use std::{fs, io};
use turn_trials::Left;

const FOLDER: &str = "seated_answer_spool";

// The pairs that the one caller leaves are those of the numbers 1 and 2 of maker 0.
const NEXT: u32 = 3;

// One thread publishes a hundred pairs, another one asks.
fn two() -> [Job; 4] {
    [
        Job::new(Part::Publishes(Batch {
            maker: 0,
            first: NEXT,
            count: 100,
        })),
        Job::new(Part::Asks(60)),
        Job::new(Part::Rests),
        Job::new(Part::Rests),
    ]
}

// Two threads publish fifty pairs each, two others ask.
fn four() -> [Job; 4] {
    [
        Job::new(Part::Publishes(Batch {
            maker: 0,
            first: NEXT,
            count: 50,
        })),
        Job::new(Part::Publishes(Batch {
            maker: 1,
            first: 0,
            count: 50,
        })),
        Job::new(Part::Asks(60)),
        Job::new(Part::Asks(60)),
    ]
}

// What was heard, in words.
fn tell_heard(rt: &HostRuntime, heard: Heard) -> io::Result<()> {
    match heard {
        Heard::Right(runs) => match runs.of[0] {
            Some(Run { first, last, .. }) => {
                println!(rt;
                    "  {} packets, of the pairs {first} to {last}",
                    runs.packets
                )
            }
            None => println!(rt; "  {} packets", runs.packets),
        },
        Heard::Wrong => println!(rt; "  a wrong reply"),
        Heard::Failed => println!(rt; "  no reply"),
    }
}

fn tell_seen(rt: &HostRuntime, place: &str, seen: Seen) -> io::Result<()> {
    println!(rt; "{place}, one caller: stamps {:?}", seen.stamps)?;
    tell_heard(rt, seen.heard[0])?;
    println!(rt; "  aged {:?}", seen.aged)?;
    tell_heard(rt, seen.heard[1])
}

// A line of what a run did and left.
fn tell(
    rt: &HostRuntime,
    place: &str,
    threads: &str,
    jobs: &[Job; 4],
    left: Option<Left>,
) -> io::Result<()> {
    let Some(Left { pairs, parked }) = left else {
        return println!(rt; "{place}, {threads}: not run");
    };
    let mut all = Job::new(Part::Rests);
    for job in jobs {
        all.published = all.published.saturating_add(job.published);
        all.removed = all.removed.saturating_add(job.removed);
        all.failed = all.failed.saturating_add(job.failed);
        all.replies = all.replies.saturating_add(job.replies);
        all.wrong = all.wrong.saturating_add(job.wrong);
    }
    println!(rt;
        "{place}, {threads}: {} published, {} removed, {} failed, {} replies, {} wrong, \
         {pairs} pairs, {parked} parked",
        all.published, all.removed, all.failed, all.replies, all.wrong
    )
}

// One caller, and then threads with these jobs, over a shelf.
fn try_over<D: Shelf + Send + Drop, R: Threads + Wait + Sync>(
    rt: &R,
    host: &HostRuntime,
    names: [&str; 2],
    shelf: D,
    limit: u32,
    jobs: &mut [Job; 4],
) -> io::Result<()>
where
    D::Draft: Send,
    D::File: Send,
    <D::Draft as Draft>::Sealed: Send,
    requires { 1 ≤ limit }
{
    let [place, threads] = names;
    let alloc = host.alloc();
    let Some((seen, shelf)) = one_caller(rt, alloc, shelf) else {
        return println!(host; "{place}, one caller: not run");
    };
    tell_seen(host, place, seen)?;
    let left = run(rt, alloc, shelf, limit, jobs);
    tell(host, place, threads, jobs, left)
}

fn try_memory<R: Threads + Wait + Sync>(rt: &R, host: &HostRuntime) -> io::Result<()> {
    let shelf = MemShelf::empty(host.alloc());
    try_over(rt, host, ["memory", "two threads"], shelf, 2, &mut two())?;
    let shelf = MemShelf::empty(host.alloc());
    try_over(rt, host, ["memory", "four threads"], shelf, 3, &mut four())
}

// Tries a new folder, which is removed after it.
fn try_folder<R: Threads + Wait + Sync>(
    rt: &R,
    host: &HostRuntime,
    threads: &str,
    limit: u32,
    jobs: &mut [Job; 4],
) -> io::Result<()>
    requires { 1 ≤ limit }
{
    let _ = fs::remove_dir_all(host, FOLDER);
    let Ok(shelf) = RealShelf::at(host, host.alloc(), FOLDER) else {
        return println!(host; "folder: not there");
    };
    try_over(rt, host, ["folder", threads], shelf, limit, jobs)?;
    fs::remove_dir_all(host, FOLDER)
}

fn main(rt: HostRuntime) -> io::Result<()> {
    let host = rt;
    try_memory(&rt, &host)?;
    try_folder(&rt, &host, "two threads", 2, &mut two())?;
    try_folder(&rt, &host, "four threads", 3, &mut four())
}
