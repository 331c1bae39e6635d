ghost use Rattle.turn_trials.specs.Halves.{Ready, Done};
ghost use Rattle.std.specs.Thread.{IsSync};

use std::sync::Wait;
use std::thread::{Threads, join_mut};

/// What threads do, each with a job and a pass.
pub trait Work<P, Q> {
    /// A pass with which it may begin.
    ghost can: { Self → Q → Type 0 };

    /// What it makes of the pass, before and after a run.
    ghost did: { Self → Q → Q → Type 0 };

    /// Does this job by this pass.
    fn run<R: Wait>(&self, rt: &R, job: &mut P, pass: &mut Q)
        requires { can self.now pass.old }
        ensures { did self.now pass.old pass.new };
}

/// Runs each job with the pass at its place, on a thread of its own.
pub fn all<P: Send, Q: Send, J: Work<P, Q> + Sync, R: Threads + Wait + Sync>(
    rt: &R,
    work: &J,
    jobs: &mut [P],
    passes: &mut [Q],
)
    requires { Ready (J.can work.now) jobs.old passes.old }
    ensures { Done (J.did work.now) jobs.old jobs.new passes.old passes.new }
{
    if jobs.is_empty() {
        return;
    }
    if jobs.len() == 1 {
        work.run(rt, &mut jobs[0], &mut passes[0]);
        return;
    }
    let half = jobs.len() / 2;
    let (a, b) = jobs.split_at_mut(half);
    let (c, d) = passes.split_at_mut(half);
    join_mut(
        rt,
        &mut ||
            requires { IsSync R.row × Ready (J.can work.now) a.now c.now }
            ensures { Done (J.did work.entry.now) a.entry.now a.exit.now c.entry.now c.exit.now }
        { all(rt, work, a, c) },
        &mut ||
            requires { IsSync R.row × Ready (J.can work.now) b.now d.now }
            ensures { Done (J.did work.entry.now) b.entry.now b.exit.now d.entry.now d.exit.now }
        { all(rt, work, b, d) },
    );
}
