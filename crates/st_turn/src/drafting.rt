//! Turns that create a pair's draft and abandon one.
ghost use Rattle.std.specs.Prelude.{◌≡◌};
ghost use Rattle.st_shelf.specs.Ends.{end_origin};
ghost use Rattle.st_spool.specs.States.{SpoolView};
ghost use Rattle.st_turn.specs.Passes.{IsOf, IsSame};
ghost use Rattle.st_turn.specs.Spools.{facts_of};
ghost use Rattle.st_turn.specs.Calls.{IsTurn};
ghost use Rattle.st_turn.specs.SpoolCalls.{IsAtHome, Creates, Abandons};

use crate::desk::{end, take};
use crate::home::Home;
use crate::pass::Pass;
use crate::sharing::Shared;
use st_shelf::{End, Kind, Shelf};
use st_spool::{DiskFault, PairRule, Spool};
use std::sync::Wait;

impl<D: Shelf, W: PairRule> Shared<Spool<D, W>> {
    /// Makes an empty draft of this kind, as the spool's `create` does, in one turn.
    ///
    /// `DiskFault` comes only if the pass's `failed` rose.
    pub fn create<R: Wait>(
        &self,
        rt: &R,
        pass: &mut Pass<Spool<D, W>>,
        kind: Kind,
    ) -> Result<D::Draft, DiskFault>
        requires { IsOf self.now pass.old }
        ensures same { IsSame pass.old pass.new }
        ensures holds { pass.new.state.held ≡ pass.old.state.held }
        ensures loans { pass.new.loans ≡ pass.old.loans }
        // the turn: `v` is the spool as it was found, `w` as it was left
        ensures turn { (v : SpoolView D) × (w : SpoolView D)
            × IsAtHome W.is_whole D.log D.faults D.id self.now.base v
            × IsTurn (facts_of D.log D.faults D.id) v w pass.old.state pass.new.state
            × Creates W.is_whole D.log D.faults D.id D.loans v w
            D.Draft.origin D.Draft.written D.Draft.faults kind result }
    {
        let desk = &self.table.shared;
        let Home { mut spool, lines } = take(rt, desk, &mut pass.place);
        spool.recall();
        let before = spool.fault_count();
        let answer = spool.create(kind);
        end(
            desk,
            &mut pass.place,
            pass.number,
            (spool, lines),
            before,
            false,
        );
        answer
    }

    /// Takes back a draft or a sealed file of the shared spool's shelf, and tries to remove it, as
    /// the spool's `abandon` does, in one turn.
    pub fn abandon<R: Wait>(&self, rt: &R, pass: &mut Pass<Spool<D, W>>, draft: End<D::Draft>)
        requires of { IsOf self.now pass.old }
        requires home { (end_origin D.Draft.origin D.Draft.sealed_origin draft).home
            ≡ D.id self.now.base.shelf }
        // the pass
        ensures same { IsSame pass.old pass.new }
        ensures holds { pass.new.state.held ≡ pass.old.state.held }
        ensures loans { pass.new.loans ≡ pass.old.loans }
        // the turn: `v` is the spool as it was found, `w` as it was left
        ensures turn { (v : SpoolView D) × (w : SpoolView D)
            × IsAtHome W.is_whole D.log D.faults D.id self.now.base v
            × IsTurn (facts_of D.log D.faults D.id) v w pass.old.state pass.new.state
            × Abandons W.is_whole D.log D.faults D.id D.loans v w
            D.Draft.faults D.Draft.sealed_faults draft }
    {
        let desk = &self.table.shared;
        let Home { mut spool, lines } = take(rt, desk, &mut pass.place);
        spool.recall();
        let before = spool.fault_count();
        spool.abandon(draft);
        end(
            desk,
            &mut pass.place,
            pass.number,
            (spool, lines),
            before,
            false,
        );
    }
}
