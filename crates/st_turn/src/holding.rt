//! Turns that hold a file set, age it, and release a hold.
ghost use Rattle.std.specs.Prelude.{◌≡◌, ◌++◌, ◌∷◌, [], Contains, MatchResult};
ghost use Rattle.st_spool.specs.States.{SpoolView};
ghost use Rattle.st_turn.specs.Passes.{IsOf, IsSame};
ghost use Rattle.st_turn.specs.Spools.{facts_of};
ghost use Rattle.st_turn.specs.Calls.{IsTurn, Without};
ghost use Rattle.st_turn.specs.SpoolCalls.{IsAtHome, Holds, AgesBy, Releases, age_stopped};
ghost use Rattle.st_turn.specs.Refusing.{AgeRefuses};

use crate::desk::{end, take};
use crate::home::Home;
use crate::pass::Pass;
use crate::sharing::Shared;
use st_base::NoMemory;
use st_shelf::Shelf;
use st_spool::{AgeErr, Hold, PairRule, Spool};
use std::sync::Wait;

// Whether an ageing failed, which stops the spool.
fn stopped(answer: Result<bool, AgeErr>) -> bool
    ensures { result ≡ age_stopped answer }
{
    match answer {
        Ok(_) => false,
        Err(AgeErr::DiskFault) => true,
        Err(AgeErr::Halted { since: _ }) => false,
    }
}

impl<D: Shelf, W: PairRule> Shared<Spool<D, W>> {
    /// Holds the set of all pairs that are published at home, as the spool's `hold` does, in one
    /// turn. The hold must be spent, by `release`. `NoMemory` leaves the pass the holds that it
    /// had.
    pub fn hold<R: Wait>(&self, rt: &R, pass: &mut Pass<Spool<D, W>>) -> Result<Hold, NoMemory>
        requires { IsOf self.now pass.old }
        ensures same { IsSame pass.old pass.new }
        ensures holds { MatchResult result
            (λ k. pass.new.state.held ≡ pass.old.state.held ++ k ∷ [])
            (λ _. pass.new.state.held ≡ pass.old.state.held) }
        ensures loans { pass.new.loans ≡ pass.old.loans }
        // the turn: `v` is the spool as it was found, `w` as it was left
        ensures turn { (v : SpoolView D) × (w : SpoolView D)
            × IsAtHome W.is_whole D.log D.faults D.id self.now.base v
            × IsTurn (facts_of D.log D.faults D.id) v w pass.old.state pass.new.state
            × Holds W.is_whole D.log D.faults D.id D.loans v w result }
    {
        let desk = &self.table.shared;
        let Home { mut spool, lines } = take(rt, desk, &mut pass.place);
        spool.recall();
        let before = spool.fault_count();
        let answer = spool.hold();
        end(
            desk,
            &mut pass.place,
            pass.number,
            (spool, lines),
            before,
            false,
        );
        answer
    }

    /// Removes the oldest pair if there are more than the limit, as the spool's `age` does, in one
    /// turn, and answers whether it did.
    ///
    /// `DiskFault` comes only if the pass's `failed` rose, and raises its `stops`. `Halted` comes
    /// if an earlier publication or ageing of the spool failed.
    pub fn age<R: Wait>(&self, rt: &R, pass: &mut Pass<Spool<D, W>>) -> Result<bool, AgeErr>
        requires { IsOf self.now pass.old }
        ensures same { IsSame pass.old pass.new }
        ensures holds { pass.new.state.held ≡ pass.old.state.held }
        ensures loans { pass.new.loans ≡ pass.old.loans }
        // the turn: `v` is the spool as it was found, `w` as it was left
        ensures turn { (v : SpoolView D) × (w : SpoolView D)
            × IsAtHome W.is_whole D.log D.faults D.id self.now.base v
            × IsTurn (facts_of D.log D.faults D.id) v w pass.old.state pass.new.state
            × AgesBy W.is_whole D.log D.faults D.id D.loans v w result
            × AgeRefuses pass.old.state.card pass.new.state.card result }
    {
        let desk = &self.table.shared;
        let Home { mut spool, lines } = take(rt, desk, &mut pass.place);
        spool.recall();
        let before = spool.fault_count();
        let answer = spool.age();
        let stop = stopped(answer);
        end(
            desk,
            &mut pass.place,
            pass.number,
            (spool, lines),
            before,
            stop,
        );
        answer
    }

    /// Ends a hold of this pass, as the spool's `release` does, in one turn.
    pub fn release<R: Wait>(&self, rt: &R, pass: &mut Pass<Spool<D, W>>, hold: Hold)
        requires of { IsOf self.now pass.old }
        requires hold { Contains pass.old.state.held hold }
        // the pass
        ensures same { IsSame pass.old pass.new }
        ensures holds { Without hold pass.old.state.held pass.new.state.held }
        ensures loans { pass.new.loans ≡ pass.old.loans }
        // the turn: `v` is the spool as it was found, `w` as it was left
        ensures turn { (v : SpoolView D) × (w : SpoolView D)
            × IsAtHome W.is_whole D.log D.faults D.id self.now.base v
            × IsTurn (facts_of D.log D.faults D.id) v w pass.old.state pass.new.state
            × Releases W.is_whole D.log D.faults D.id D.loans v w hold }
    {
        let desk = &self.table.shared;
        let Home { mut spool, lines } = take(rt, desk, &mut pass.place);
        spool.recall();
        let before = spool.fault_count();
        spool.release(hold);
        end(
            desk,
            &mut pass.place,
            pass.number,
            (spool, lines),
            before,
            false,
        );
    }
}
