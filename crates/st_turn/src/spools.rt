//! A spool as a value that passes share.
use crate::turned::Turned;
use st_shelf::Shelf;
use st_spool::{PairRule, Spool};

impl<D: Shelf, W: PairRule> Turned for Spool<D, W> {
    type File = D::File;

    ghost use Rattle.std.proofs.Common.{refl};
    ghost use Rattle.st_turn.specs.Files.{loans_of};
    ghost use Rattle.st_turn.specs.Spools.{facts_of, KeepsOf};

    ghost facts = { facts_of D.log D.faults D.id };

    ghost counted = { loans_of D.file_origin D.File.reads D.File.asked };

    ghost counted_none = { refl };

    ghost keeps = { KeepsOf D.log D.faults D.id };

    fn fault_count(&self) -> u64 {
        Spool::fault_count(self)
    }

    fn failed_calls(&self) -> u64 {
        Spool::failed_calls(self)
    }

    fn keep(&self) {
        self.recall()
    }
}
