ghost use Rattle.std.specs.Prelude.{◌≡◌, []};
ghost use Rattle.st_turn.specs.Passes.{IsOf};
ghost use Rattle.seated_answer.specs.Resting.{Rests, Rested};
ghost use Rattle.seated_answer.specs.Seats.{IsReady, IsDone};

use crate::asking::{Heard, QUESTION, ask};
use crate::halves::Work;
use crate::pairs::publish;
use crate::replies::Runs;
use st_query::{Query, parse};
use st_shelf::Shelf;
use std::alloc::Global;
use std::sync::Wait;
use turn_trials::{SharedSpool, SpoolPass, age};

/// So many pairs of one maker, numbered from `first` on.
#[derive(Clone, Copy)]
pub struct Batch {
    pub maker: u8,
    pub first: u32,
    pub count: u32,
}

/// What one caller does.
#[derive(Clone, Copy)]
pub enum Part {
    /// It publishes these pairs, and ages twice after each.
    Publishes(Batch),
    /// It asks so often.
    Asks(u64),
    /// It takes no turn.
    Rests,
}

/// A caller's part, and what came of it.
#[derive(Clone, Copy)]
pub struct Job {
    pub part: Part,
    pub published: u64,
    pub removed: u64,
    /// How many of its calls failed.
    pub failed: u64,
    /// How many replies it had.
    pub replies: u64,
    /// How many of them had no packet, were no whole pcap of whole runs of pairs, or had older runs
    /// than one before.
    pub wrong: u64,
    // the last runs that it heard of
    heard: Runs,
}

impl Job {
    /// A job that has not begun.
    pub fn new(part: Part) -> Job {
        Job {
            part,
            published: 0,
            removed: 0,
            failed: 0,
            replies: 0,
            wrong: 0,
            heard: Runs::none(),
        }
    }

    // Counts what was heard of an answer.
    fn hear(&mut self, heard: Heard) {
        match heard {
            Heard::Right(runs) => {
                self.replies = self.replies.saturating_add(1);
                if runs.packets == 0 || !runs.are_after(&self.heard) {
                    self.wrong = self.wrong.saturating_add(1);
                }
                self.heard = runs.or(self.heard);
            }
            Heard::Wrong => {
                self.replies = self.replies.saturating_add(1);
                self.wrong = self.wrong.saturating_add(1);
            }
            Heard::Failed => self.failed = self.failed.saturating_add(1),
        }
    }
}

/// A caller: its job, and its pass, which is there while the caller doesn't work.
pub struct Seat<D: Shelf> {
    pub job: Job,
    pub pass: Option<SpoolPass<D>>,
}

impl<D: Shelf> Seat<D> {
    /// A caller with this job and pass.
    pub fn new(job: Job, pass: Option<SpoolPass<D>>) -> Seat<D>
        ensures { result.pass ≡ pass }
    {
        Seat { job, pass }
    }
}

/// What all callers share.
#[derive(Drop)]
pub struct Turns<'a, D: Shelf> {
    pub shared: &'a SharedSpool<D>,
    pub alloc: Global,
}

impl<'a, D: Shelf> Work<Seat<D>> for Turns<'a, D> {
    ghost can = { λ t s. IsReady (D.log t.shared.now.base.shelf) t.shared.now s.pass };

    ghost did = { λ t s n. IsDone s.pass n.pass };

    fn run<R: Wait>(&self, rt: &R, place: &mut Seat<D>) {
        let taken = place.pass.take();
        let Some(pass) = taken else { unreachable!() };
        let pass = work(rt, self.alloc, self.shared, &mut place.job, pass);
        let none = place.pass.replace(pass);
        let None = none else { unreachable!() };
    }
}

// Does a job by a pass, which comes back.
fn work<D: Shelf, R: Wait>(
    rt: &R,
    alloc: Global,
    shared: &SharedSpool<D>,
    job: &mut Job,
    pass: SpoolPass<D>,
) -> SpoolPass<D>
    requires { Rests (D.log shared.now.base.shelf) shared.now pass }
    ensures { Rested pass result }
{
    let mut pass = pass;
    match job.part {
        Part::Publishes(batch) => {
            publish_many(rt, alloc, shared, &mut pass, job, batch);
            pass
        }
        Part::Asks(count) => ask_many(rt, alloc, shared, pass, job, count),
        Part::Rests => pass,
    }
}

fn publish_many<D: Shelf, R: Wait>(
    rt: &R,
    alloc: Global,
    shared: &SharedSpool<D>,
    pass: &mut SpoolPass<D>,
    job: &mut Job,
    batch: Batch,
)
    requires of { IsOf shared.now pass.old }
    requires empty { pass.old.state.held ≡ [] }
    ensures { Rested pass.old pass.new }
{
    for n in 0..batch.count {
        let number = batch.first.wrapping_add(n);
        match publish(rt, alloc, shared, pass, batch.maker, number) {
            Some(_) => job.published = job.published.saturating_add(1),
            None => job.failed = job.failed.saturating_add(1),
        }
        age_one(rt, shared, pass, job);
        age_one(rt, shared, pass, job);
    }
}

fn age_one<D: Shelf, R: Wait>(
    rt: &R,
    shared: &SharedSpool<D>,
    pass: &mut SpoolPass<D>,
    job: &mut Job,
)
    requires of { IsOf shared.now pass.old }
    requires empty { pass.old.state.held ≡ [] }
    ensures { Rested pass.old pass.new }
{
    match age(rt, shared, pass) {
        Some(true) => job.removed = job.removed.saturating_add(1),
        Some(false) => (),
        None => job.failed = job.failed.saturating_add(1),
    }
}

fn ask_many<D: Shelf, R: Wait>(
    rt: &R,
    alloc: Global,
    shared: &SharedSpool<D>,
    pass: SpoolPass<D>,
    job: &mut Job,
    count: u64,
) -> SpoolPass<D>
    requires { Rests (D.log shared.now.base.shelf) shared.now pass }
    ensures { Rested pass result }
{
    let Ok(query) = parse(alloc, QUESTION) else {
        job.failed = job.failed.saturating_add(1);
        return pass;
    };
    let mut pass = pass;
    for _ in 0..count {
        pass = ask_one(rt, alloc, shared, pass, &query, job);
    }
    pass
}

fn ask_one<D: Shelf, R: Wait>(
    rt: &R,
    alloc: Global,
    shared: &SharedSpool<D>,
    pass: SpoolPass<D>,
    query: &Query,
    job: &mut Job,
) -> SpoolPass<D>
    requires { Rests (D.log shared.now.base.shelf) shared.now pass }
    ensures rested { Rested pass result }
    ensures rests { Rests (D.log shared.now.base.shelf) shared.now result }
{
    let (pass, heard) = ask(rt, alloc, shared, pass, query);
    job.hear(heard);
    pass
}
