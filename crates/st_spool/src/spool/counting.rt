// Counts that a caller may read off a spool.
ghost use Rattle.std.specs.Prelude.{◌≡◌};

use crate::pair_rule::PairRule;
use crate::spool::Spool;
use st_shelf::Shelf;

impl<D: Shelf, W: PairRule> Spool<D, W> {
    /// The shelf's count of faults.
    pub fn fault_count(&self) -> u64
        ensures { result ≡ D.faults self.now.shelf }
    {
        self.shelf.fault_count()
    }

    /// How many publications and ageings of this spool failed on the disk. A refusal is none.
    pub fn failed_calls(&self) -> u64
        ensures { result ≡ self.now.state.halts }
    {
        self.halts
    }
}
