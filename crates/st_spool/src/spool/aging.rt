// Removing the oldest pair.
ghost use Rattle.std.specs.Prelude.{◌≡◌, ◌≤◌, ◌+◌, ◌-◌, ◌∷◌, ◌↔◌, List, None, Some, true, false, IsErrOf, MatchResult};
ghost use Rattle.st_base.specs.Faults.{Rose};
ghost use Rattle.st_disk.specs.Pairs.{Entry, Files};
ghost use Rattle.st_disk.specs.Events.{Event};
ghost use Rattle.st_spool.specs.History.{set_of};
ghost use Rattle.st_spool.specs.Holding.{Sweeps};
ghost use Rattle.st_spool.specs.Aging.{pair_count, MayAge, Ages, AgesTo};
ghost use Rattle.st_spool.specs.Refusing.{RefusesAge};
ghost use Rattle.st_spool.specs.Standing.{StandsFor};

use crate::pair_rule::PairRule;
use crate::refusals::AgeErr;
use crate::settling::{Stopped, hide_out};
use crate::spool::Spool;
use crate::state::Doubt;
use crate::sweeping::sweep;
use st_shelf::Shelf;

impl<D: Shelf, W: PairRule> Spool<D, W> {
    /// Removes the oldest pair, if more are published than the limit, and answers whether it did.
    /// Files of removed pairs that no hold has are removed too; the others stay until their
    /// release.
    ///
    /// A removal of a file that fails raises the shelf's count of faults, and is tried again by
    /// each later `age` and `release`. `DiskFault` comes only if that count rose while the index
    /// was parked: the ageing is in doubt if the index was hidden, and the spool refuses from then
    /// on. `Halted` comes only if an earlier call failed, and changes nothing.
    pub fn age(&mut self) -> Result<bool, AgeErr>
        // what it does, if there is something to remove
        ensures aged { (earlier h : List Event) (f : Files) (e : Entry) (after : List Entry)
            → MayAge self.old.state
            → StandsFor W.is_whole (D.log self.old.shelf) self.old.state earlier h f
            → set_of h ≡ e ∷ after
            → Ages W.is_whole (D.log self.old.shelf) (D.log self.new.shelf)
            self.new.state earlier h e f result }
        ensures state { MayAge self.old.state → AgesTo self.old.state self.new.state
            (D.faults self.new.shelf) result }
        ensures sweeps { result ≡ Ok true → Sweeps (D.log self.new.shelf) self.old.state.stamps
            self.old.state.holds self.old.state.swept self.new.state.swept
            (self.old.state.removed + 1) (D.faults self.old.shelf) (D.faults self.new.shelf) }
        // the other answers
        ensures small { self.old.state.halted ≡ None
            → (result ≡ Ok false) ↔ (pair_count self.old.state ≤ self.old.state.limit) }
        ensures same { result ≡ Ok false → self.new ≡ self.old }
        ensures refused { MatchResult result (λ _. self.old.state.halted ≡ None)
            (λ e. RefusesAge self.old self.new e) }
        // the counts
        ensures cause { (D.faults self.old.shelf ≤ D.faults self.new.shelf)
            × (IsErrOf result AgeErr.DiskFault
            → Rose (D.faults self.old.shelf) (D.faults self.new.shelf)) }
        ensures rest { (D.id self.new.shelf ≡ D.id self.old.shelf)
            × (D.loans self.new.shelf ≡ D.loans self.old.shelf)
            × (self.new.spare ≡ self.old.spare)
            × (self.new.state.holds ≡ self.old.state.holds) }
    {
        if let Some(since) = self.halted {
            return Err(AgeErr::Halted { since });
        }
        let count = self.stamps.len();
        if count - self.removed <= self.limit as usize {
            return Ok(false);
        }
        let stamp = self.stamps[self.removed];
        match hide_out(&mut self.shelf, stamp) {
            Ok(()) => {
                self.removed += 1;
                self.swept = sweep(
                    &mut self.shelf,
                    self.stamps.as_slice(),
                    self.swept,
                    self.removed,
                    self.holds.as_slice(),
                );
                Ok(true)
            }
            Err(Stopped::Before) => {
                self.halted = Some(self.shelf.fault_count());
                self.halts = self.halts.saturating_add(1);
                self.doubt = Doubt::Unhidden(stamp);
                Err(AgeErr::DiskFault)
            }
            Err(Stopped::After) => {
                self.halted = Some(self.shelf.fault_count());
                self.halts = self.halts.saturating_add(1);
                self.doubt = Doubt::Hidden(stamp);
                Err(AgeErr::DiskFault)
            }
        }
    }
}
