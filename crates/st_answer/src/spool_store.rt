//! A spool as a store of pairs.

use crate::store::Store;
use st_base::{Failed, NoMemory};
use st_shelf::Shelf;
use st_spool::{Hold, PairRule, Spool};

impl<D: Shelf, W: PairRule> Store for Spool<D, W> {
    type Held = Hold;

    type File = D::File;

    ghost use Rattle.std.proofs.Common.{refl, ◌∙◌};
    ghost use Rattle.st_spool.specs.Holding.{size_of};
    ghost use Rattle.st_spool.specs.Recalling.{history_of, taken_of, taken_count};
    ghost use Rattle.st_answer.specs.Spools.{Remains, spool_holds, times_in, set_in};
    ghost use Rattle.st_answer.specs.SpoolLaws.{taken_first};

    ghost id = { λ s. D.id s.shelf };

    ghost holds = { λ s. spool_holds s.state (history_of D.log s) (taken_of D.log s) };

    ghost loans = { λ s. D.loans s.shelf };

    ghost faults = { λ s. D.faults s.shelf };

    ghost becomes = { λ s t. Remains W.is_whole D.log s t };

    ghost times_held = { λ s hold. times_in s.state.holds hold };

    ghost size = { λ s hold. size_of hold };

    ghost set = { λ s hold. set_in (history_of D.log s) hold };

    ghost origin = { λ f. D.file_origin f };

    ghost becomes_same = { λ s. record {
      history = refl;
      limit = refl;
      doubt = refl;
      still = λ first earlier h f is. is;
    } };

    ghost becomes_later = { λ a b c one two. record {
      history = two.history ∙ one.history;
      limit = two.limit ∙ one.limit;
      doubt = two.doubt ∙ one.doubt;
      still = λ first earlier h f is. two.still first earlier h f (one.still first earlier h f is);
    } };

    ghost took_seen = { λ s. taken_first (taken_count s.state) (history_of D.log s) };

    ghost keeps = { λ a b same. D.keeps a b same };

    fn hold(&mut self) -> Result<Hold, NoMemory> {
        self.recall();
        match Spool::hold(self) {
            Ok(hold) => Ok(hold),
            Err(error) => Err(error),
        }
    }

    fn release(&mut self, hold: Hold) {
        self.recall();
        Spool::release(self, hold);
    }

    fn count(&mut self, hold: &Hold) -> usize {
        self.recall();
        Spool::count(self, hold)
    }

    fn stamp_of(&mut self, hold: &Hold, i: usize) -> u64 {
        self.recall();
        Spool::stamp_of(self, hold, i)
    }

    fn block_of(&mut self, hold: &Hold, i: usize) -> Result<D::File, Failed> {
        self.recall();
        match Spool::block_of(self, hold, i) {
            Ok(file) => Ok(file),
            Err(_) => Err(Failed),
        }
    }

    fn index_of(&mut self, hold: &Hold, i: usize) -> Result<D::File, Failed> {
        self.recall();
        match Spool::index_of(self, hold, i) {
            Ok(file) => Ok(file),
            Err(_) => Err(Failed),
        }
    }

    fn close_file(&mut self, file: D::File) {
        self.recall();
        Spool::close_file(self, file);
    }
}
