ghost use Rattle.turn_trials.specs.Resting.{Rests, Rested};

use crate::reading::read_all;
use crate::speed::{keep_turn, take_turns, wait_turn};
use st_shelf::Shelf;
use std::sync::Wait;
use std::sync::atomic::AtomicBool;
use turn_trials::{SharedSpool, SpoolPass, Work, age, publish};

/// What one thread does.
#[derive(Clone, Copy)]
pub enum Part {
    /// It publishes so many pairs, and ages twice after each.
    Publishes(u64),
    /// It holds all pairs, reads both files of each and releases them, so often.
    Reads(u64),
    /// It publishes so many pairs, holds and removes them, and then releases them in one long turn.
    Keeps(u64),
    /// It asks for one turn as soon as the long one begins.
    Waits,
    /// It takes so many turns.
    Takes(u64),
}

/// A thread's part, and what came of it.
#[derive(Clone, Copy)]
pub struct Job {
    pub part: Part,
    pub published: u64,
    pub removed: u64,
    /// How many of its calls failed.
    pub failed: u64,
    /// How many held pairs were not read as they were published.
    pub unread: u64,
    /// How long its long turn or its wait took, in microseconds.
    pub took: u64,
    /// How long a processor worked for its wait, in microseconds.
    pub busy: u64,
}

impl Job {
    /// A job that has not begun.
    pub fn new(part: Part) -> Job {
        Job {
            part,
            published: 0,
            removed: 0,
            failed: 0,
            unread: 0,
            took: 0,
            busy: 0,
        }
    }
}

/// What all threads share: the spool, and whether the long turn begins.
#[derive(Drop)]
pub struct Turns<'a, D: Shelf> {
    pub shared: &'a SharedSpool<D>,
    pub due: &'a AtomicBool,
    pub host: HostRuntime,
}

impl<'a, D: Shelf> Work<Job, SpoolPass<D>> for Turns<'a, D> {
    ghost can = { λ s p. Rests s.shared.now p };

    ghost did = { λ s p q. Rested p q };

    fn run<R: Wait>(&self, rt: &R, job: &mut Job, pass: &mut SpoolPass<D>) {
        match job.part {
            Part::Publishes(count) => publish_many(rt, self.shared, pass, job, count),
            Part::Reads(count) => read_many(rt, self.shared, pass, job, count),
            Part::Keeps(count) => {
                publish_all(rt, self.shared, pass, job, count);
                job.took = keep_turn(rt, &self.host, self.shared, pass, self.due, count);
            }
            Part::Waits => {
                let (took, busy) = wait_turn(rt, &self.host, self.shared, pass, self.due);
                job.took = took;
                job.busy = busy;
            }
            Part::Takes(count) => take_turns(rt, self.shared, pass, count),
        }
    }
}

fn publish_many<D: Shelf, R: Wait>(
    rt: &R,
    shared: &SharedSpool<D>,
    pass: &mut SpoolPass<D>,
    job: &mut Job,
    count: u64,
)
    requires { Rests shared.now pass.old }
    ensures { Rested pass.old pass.new }
{
    for n in 0..count {
        publish_one(rt, shared, pass, job, (n & 0xff) as u8);
    }
}

fn publish_all<D: Shelf, R: Wait>(
    rt: &R,
    shared: &SharedSpool<D>,
    pass: &mut SpoolPass<D>,
    job: &mut Job,
    count: u64,
)
    requires { Rests shared.now pass.old }
    ensures { Rested pass.old pass.new }
{
    for _ in 0..count {
        publish_kept(rt, shared, pass, job, 0);
    }
}

fn read_many<D: Shelf, R: Wait>(
    rt: &R,
    shared: &SharedSpool<D>,
    pass: &mut SpoolPass<D>,
    job: &mut Job,
    count: u64,
)
    requires { Rests shared.now pass.old }
    ensures { Rested pass.old pass.new }
{
    for _ in 0..count {
        read_one(rt, shared, pass, job);
    }
}

fn publish_kept<D: Shelf, R: Wait>(
    rt: &R,
    shared: &SharedSpool<D>,
    pass: &mut SpoolPass<D>,
    job: &mut Job,
    byte: u8,
)
    requires { Rests shared.now pass.old }
    ensures { Rested pass.old pass.new }
{
    let published = publish(rt, shared, pass, &[byte], &[byte.wrapping_add(1)]);
    if published.is_some() {
        job.published = job.published.saturating_add(1);
    } else {
        job.failed = job.failed.saturating_add(1);
    }
}

fn publish_one<D: Shelf, R: Wait>(
    rt: &R,
    shared: &SharedSpool<D>,
    pass: &mut SpoolPass<D>,
    job: &mut Job,
    byte: u8,
)
    requires { Rests shared.now pass.old }
    ensures { Rested pass.old pass.new }
{
    publish_kept(rt, shared, pass, job, byte);
    age_one(rt, shared, pass, job);
    age_one(rt, shared, pass, job);
}

fn age_one<D: Shelf, R: Wait>(
    rt: &R,
    shared: &SharedSpool<D>,
    pass: &mut SpoolPass<D>,
    job: &mut Job,
)
    requires { Rests shared.now pass.old }
    ensures { Rested pass.old pass.new }
{
    match age(rt, shared, pass) {
        Some(true) => job.removed = job.removed.saturating_add(1),
        Some(false) => (),
        None => job.failed = job.failed.saturating_add(1),
    }
}

fn read_one<D: Shelf, R: Wait>(
    rt: &R,
    shared: &SharedSpool<D>,
    pass: &mut SpoolPass<D>,
    job: &mut Job,
)
    requires { Rests shared.now pass.old }
    ensures { Rested pass.old pass.new }
{
    match read_all(rt, shared, pass) {
        Some(unread) => job.unread = job.unread.saturating_add(unread),
        None => job.failed = job.failed.saturating_add(1),
    }
}
