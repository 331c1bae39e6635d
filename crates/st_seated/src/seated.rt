ghost use Rattle.std.specs.Prelude.{◌≡◌, length};
ghost use Rattle.st_seated.specs.Seats.{IsSeatable};

use st_answer::Store;
use st_base::{Failed, NoMemory};
use st_shelf::Shelf;
use st_spool::{Hold, PairRule, Spool};
use st_turn::{Pass, Shared};
use std::marker::Model;
use std::sync::Wait;

/// A pass of a shared spool as a store of pairs, each call of which is one turn. It must be spent,
/// by `leave`.
///
/// Its pass is one of the shared spool's. Where the shelf's log is known, each pair that it holds
/// was found or published in what it saw.
pub struct Seated<'a, R: Wait, D: Shelf, W: PairRule> {
    rt: &'a R,
    shared: &'a Shared<Spool<D, W>>,
    pass: Pass<Spool<D, W>>,
}

impl<'a, R: Wait, D: Shelf, W: PairRule> Model for Seated<'a, R, D, W> {
    ghost use Rattle.st_spool.specs.States.{SpoolView};
    ghost use Rattle.st_seated.specs.Seats.{SeatView, IsSeatable};

    ghost Value = { SeatView (SpoolView D) };

    ghost view = { λ s. record {
      shared = s.shared.now;
      pass = s.pass;
    } };

    ghost invariant = { λ s. IsSeatable (D.log s.shared.now.base.shelf) s.shared.now s.pass };
}

impl<'a, R: Wait, D: Shelf, W: PairRule> Seated<'a, R, D, W> {
    /// A store over a pass of this shared spool. It takes no turn and no memory.
    pub fn over(
        rt: &'a R,
        shared: &'a Shared<Spool<D, W>>,
        pass: Pass<Spool<D, W>>,
    ) -> Seated<'a, R, D, W>
        requires { IsSeatable (D.log shared.now.base.shelf) shared.now pass }
        ensures { result ≡ record { shared = shared.now; pass = pass } }
    {
        Seated { rt, shared, pass }
    }

    /// The pass, as its last call left it.
    pub fn leave(self) -> Pass<Spool<D, W>>
        ensures pass { result ≡ self.entry.pass }
        ensures seatable { IsSeatable (D.log self.entry.shared.base.shelf) self.entry.shared
            result }
    {
        let Seated {
            rt: _rt,
            shared: _shared,
            pass,
        } = self;
        pass
    }
}

impl<R: Wait, D: Shelf, W: PairRule> Store for Seated<'_, R, D, W> {
    type Held = Hold;

    type File = D::File;

    ghost use Rattle.st_spool.specs.Holding.{size_of};
    ghost use Rattle.st_answer.specs.Spools.{times_in};
    ghost use Rattle.st_answer.specs.SpoolLaws.{taken_first};
    ghost use Rattle.st_seated.specs.Seats.{Goes, pass_faults, pass_holds, pass_set, seen_by};
    ghost use Rattle.st_seated.specs.SeatLaws.{goes_same, goes_later};

    ghost id = { λ s. D.id s.shared.base.shelf };

    ghost holds = { λ s. pass_holds (D.log s.shared.base.shelf) s.pass.state };

    ghost loans = { λ s. s.pass.loans };

    ghost faults = { λ s. pass_faults s.pass.state };

    ghost becomes = { λ s t. Goes s t };

    ghost times_held = { λ s hold. times_in s.pass.state.held hold };

    ghost size = { λ s hold. size_of hold };

    ghost set = { λ s hold. pass_set (D.log s.shared.base.shelf) s.pass.state hold };

    ghost origin = { λ f. D.file_origin f };

    ghost becomes_same = { λ s. goes_same s };

    ghost becomes_later = { λ a b c one two. goes_later a b c one two };

    ghost took_seen = { λ s. taken_first (length s.pass.state.asked)
        (seen_by (D.log s.shared.base.shelf) s.pass.state) };

    ghost keeps = { λ a b same. D.keeps a b same };

    fn hold(&mut self) -> Result<Hold, NoMemory> {
        self.shared.hold(self.rt, &mut self.pass)
    }

    fn release(&mut self, hold: Hold) {
        self.shared.release(self.rt, &mut self.pass, hold);
    }

    fn count(&mut self, hold: &Hold) -> usize {
        self.shared.count(self.rt, &mut self.pass, hold)
    }

    fn stamp_of(&mut self, hold: &Hold, i: usize) -> u64 {
        self.shared.stamp_of(self.rt, &mut self.pass, hold, i)
    }

    fn block_of(&mut self, hold: &Hold, i: usize) -> Result<D::File, Failed> {
        match self.shared.block_of(self.rt, &mut self.pass, hold, i) {
            Ok(block) => Ok(block),
            Err(_) => Err(Failed),
        }
    }

    fn index_of(&mut self, hold: &Hold, i: usize) -> Result<D::File, Failed> {
        match self.shared.index_of(self.rt, &mut self.pass, hold, i) {
            Ok(index) => Ok(index),
            Err(_) => Err(Failed),
        }
    }

    fn close_file(&mut self, file: D::File) {
        self.shared.close_file(self.rt, &mut self.pass, file);
    }
}
