ghost use Rattle.std.specs.Prelude.{◌≡◌, ◌<◌, ◌≤◌, ◌++◌, [], List, IfOk, IsSome, MatchResult, length, option_to_list, vec_len, vec_capacity};
ghost use Rattle.st_disk.specs.Events.{Event};
ghost use Rattle.st_spool.specs.declared.state.Span.{Span};
ghost use Rattle.st_spool.specs.States.{SpoolView};
ghost use Rattle.st_turn.specs.Parts.{PassState};
ghost use Rattle.st_turn.specs.Ends.{AreNumbered, Ended};
ghost use Rattle.st_turn.specs.Spools.{facts_of, KeepsOf};

use crate::halves::four;
use crate::jobs::{Job, Seat, Turns};
use st_seated::passes_sit;
use st_shelf::{Draft, Shelf};
use st_spool::Spool;
use st_turn::{NotShared, share};
use std::alloc::Global;
use std::sync::Wait;
use std::thread::Threads;
use turn_trials::{AnyPair, Left, SpoolPass, closed, opened};

// Puts the pass of a seat behind others, for which there is room, and answers the job.
fn leave<D: Shelf>(passes: &mut Vec<SpoolPass<D>>, seat: Seat<D>) -> Job
    requires room { vec_len passes.old < vec_capacity passes.old }
    requires there { IsSome seat.pass }
    ensures pass { passes.new.items ≡ passes.old.items ++ option_to_list seat.pass }
    ensures room { vec_capacity passes.old ≤ vec_capacity passes.new }
{
    let Seat { job, pass } = seat;
    let Some(pass) = pass else { unreachable!() };
    let pushed = passes.push(pass);
    let Ok(()) = pushed else { unreachable!() };
    job
}

/// Does four jobs, each on a thread of its own and by a pass of its own, all over one spool, which
/// comes back as it was left; Err where memory ran out before.
pub fn serve<D: Shelf + Send, R: Threads + Wait + Sync>(
    rt: &R,
    alloc: Global,
    spool: Spool<D, AnyPair>,
    jobs: &mut [Job; 4],
) -> Result<Spool<D, AnyPair>, Spool<D, AnyPair>>
where
    D::Draft: Send,
    D::File: Send,
    <D::Draft as Draft>::Sealed: Send,
    requires { spool.state.holds ≡ [] }
    // each of the four passes, which is counted once, saw a beginning of the one history
    ensures ended { IfOk result (λ s. (ps : List (PassState (SpoolView D) Event Span))
        × Ended (facts_of D.log D.faults D.id spool) (facts_of D.log D.faults D.id s) ps
        × AreNumbered 0 ps × (length ps ≡ 4)) }
    ensures keeps { IfOk result (λ s. KeepsOf D.log D.faults D.id spool s) }
    ensures holds { MatchResult result (λ s. s.state.holds ≡ []) (λ s. s ≡ spool) }
{
    let (shared, mut passes) = match share(alloc, spool, 4) {
        Ok(both) => both,
        Err(NotShared { spool }) => return Err(spool),
    };
    let fourth = passes.pop();
    let third = passes.pop();
    let second = passes.pop();
    let first = passes.pop();
    passes_sit::<Spool<D, AnyPair>>();
    let mut a = Seat::new(jobs[0], first);
    let mut b = Seat::new(jobs[1], second);
    let mut c = Seat::new(jobs[2], third);
    let mut d = Seat::new(jobs[3], fourth);
    let turns = Turns {
        shared: &shared,
        alloc,
    };
    four(rt, &turns, &mut a, &mut b, &mut c, &mut d);
    jobs[0] = leave(&mut passes, a);
    jobs[1] = leave(&mut passes, b);
    jobs[2] = leave(&mut passes, c);
    jobs[3] = leave(&mut passes, d);
    Ok(shared.finish(passes))
}

/// Opens a spool of this limit over a shelf, does the jobs, and says what they left.
pub fn run<D: Shelf + Send + Drop, R: Threads + Wait + Sync>(
    rt: &R,
    alloc: Global,
    shelf: D,
    limit: u32,
    jobs: &mut [Job; 4],
) -> Option<Left>
where
    D::Draft: Send,
    D::File: Send,
    <D::Draft as Draft>::Sealed: Send,
    requires { 1 ≤ limit }
{
    let spool = opened(alloc, shelf, limit)?;
    match serve(rt, alloc, spool, jobs) {
        Ok(spool) => closed(alloc, spool),
        Err(spool) => {
            let _shelf = spool.close();
            None
        }
    }
}
