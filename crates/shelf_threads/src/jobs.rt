ghost use Rattle.std.specs.Prelude.{◌≡◌};
ghost use Rattle.std.specs.Thread.{IsSync};

use crate::desk::{Desk, Home};
use st_shelf::{Draft, End, Kind, Shelf};
use std::alloc::Global;
use std::sync::Wait;
use std::thread::{Threads, for_each_mut, join};

/// What one thread is to do, and what it did.
#[derive(Clone, Copy, Debug, PartialEq, Eq)]
pub struct Job {
    /// The kind of the drafts that it makes.
    pub kind: Kind,
    /// How many turns it takes.
    pub turns: u64,
    /// How many drafts it made.
    pub made: u64,
}

// A turn: a draft is made and given up, and its folder flushed.
fn work<D: Shelf>(home: &mut Home<D>, job: &mut Job) {
    if let Ok(draft) = home.shelf.create(job.kind) {
        home.shelf.abandon(End::Unsealed(draft));
        job.made = job.made.saturating_add(1);
    }
    let _ = home.shelf.flush(job.kind);
    home.turns = home.turns.saturating_add(1);
}

fn one<D: Shelf, R: Wait>(rt: &R, desk: &Desk<D>, job: &mut Job) {
    for _ in 0..job.turns {
        let (mut home, place) = desk.take(rt);
        work(&mut home, job);
        desk.give(place, home);
    }
}

/// Runs each job on a thread, all over one shelf. It comes back where memory runs out, and at the
/// end.
pub fn serve<D: Shelf + Send, R: Threads + Wait + Sync>(
    rt: &R,
    alloc: Global,
    home: Home<D>,
    jobs: &mut [Job],
) -> Option<Home<D>>
where
    D::Draft: Send,
    D::File: Send,
    <D::Draft as Draft>::Sealed: Send,
{
    let desk = match Desk::over(alloc, home) {
        Ok(desk) => desk,
        Err(home) => return Some(home),
    };
    let shared = &desk;
    for_each_mut(
        rt,
        jobs,
        4,
        &|_, job: &mut Job|
            requires { IsSync R.row }
        { one(rt, shared, job) },
    );
    desk.into_home()
}

fn look<D: Shelf, R: Wait>(rt: &R, desk: &Desk<D>) -> u64 {
    let (home, place) = desk.take(rt);
    let faults = home.shelf.fault_count();
    desk.give(place, home);
    faults
}

/// Asks for the count of faults from two threads at once.
pub fn look_twice<D: Shelf + Send, R: Threads + Wait + Sync>(rt: &R, desk: &Desk<D>) -> (u64, u64)
where
    D::Draft: Send,
    D::File: Send,
    <D::Draft as Draft>::Sealed: Send,
{
    join(
        rt,
        || -> u64
            requires { IsSync R.row }
        { look(rt, desk) },
        || -> u64
            requires { IsSync R.row }
        { look(rt, desk) },
    )
}
