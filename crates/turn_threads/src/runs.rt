ghost use Rattle.std.specs.Prelude.{◌≡◌, ◌≤◌, [], List, IfOk, MatchResult, length};
ghost use Rattle.st_disk.specs.Events.{Event};
ghost use Rattle.st_spool.specs.declared.state.Span.{Span};
ghost use Rattle.st_spool.specs.States.{SpoolView};
ghost use Rattle.st_turn.specs.Parts.{PassState};
ghost use Rattle.st_turn.specs.Ends.{AreNumbered, Ended};
ghost use Rattle.st_turn.specs.Spools.{facts_of, KeepsOf};
ghost use Rattle.st_turn.specs.declared.sharing.TheConstants.{MOST_PASSES};

use crate::jobs::{Job, Turns};
use st_shelf::{Draft, Shelf};
use st_spool::Spool;
use st_turn::{NotShared, share};
use std::sync::Wait;
use std::sync::atomic::AtomicBool;
use std::thread::Threads;
use turn_trials::{AnyPair, Left, all, closed, opened};

/// Runs each job on a thread of its own, all over one spool, which comes back as it was left; Err
/// where memory ran out before.
pub fn serve<D: Shelf + Send, R: Threads + Wait + Sync>(
    rt: &R,
    host: HostRuntime,
    spool: Spool<D, AnyPair>,
    jobs: &mut [Job],
) -> Result<Spool<D, AnyPair>, Spool<D, AnyPair>>
where
    D::Draft: Send,
    D::File: Send,
    <D::Draft as Draft>::Sealed: Send,
    requires count { (1 ≤ length jobs.old) × (length jobs.old ≤ MOST_PASSES) }
    requires holds { spool.state.holds ≡ [] }
    // each pass, which is counted once, saw a beginning of the one history
    ensures ended { IfOk result (λ s. (ps : List (PassState (SpoolView D) Event Span))
        × (length ps ≡ length jobs.old) × AreNumbered 0 ps
        × Ended (facts_of D.log D.faults D.id spool) (facts_of D.log D.faults D.id s) ps) }
    ensures keeps { IfOk result (λ s. KeepsOf D.log D.faults D.id spool s) }
    ensures holds { MatchResult result (λ s. s.state.holds ≡ []) (λ s. s ≡ spool) }
{
    let count = jobs.len() as u32;
    let due = AtomicBool::new(false);
    let (shared, mut passes) = match share(host.alloc(), spool, count) {
        Ok(both) => both,
        Err(NotShared { spool }) => return Err(spool),
    };
    let turns = Turns {
        shared: &shared,
        due: &due,
        host,
    };
    all(rt, &turns, jobs, passes.as_mut_slice());
    Ok(shared.finish(passes))
}

/// Opens a spool of this limit over a shelf, runs the jobs, and says what they left.
pub fn run<D: Shelf + Send + Drop, R: Threads + Wait + Sync>(
    rt: &R,
    host: HostRuntime,
    shelf: D,
    limit: u32,
    jobs: &mut [Job],
) -> Option<Left>
where
    D::Draft: Send,
    D::File: Send,
    <D::Draft as Draft>::Sealed: Send,
    requires { (1 ≤ length jobs.old) × (length jobs.old ≤ MOST_PASSES) × (1 ≤ limit) }
{
    let alloc = host.alloc();
    let spool = opened(alloc, shelf, limit)?;
    match serve(rt, host, spool, jobs) {
        Ok(spool) => closed(alloc, spool),
        Err(spool) => {
            let _shelf = spool.close();
            None
        }
    }
}
