//! The rule of pairs of a spool whose indexes answer queries.

use st_spool::PairRule;

/// The rule that a block file is that of some packets, and the index a table of exactly their rows.
pub struct Indexed {}

impl PairRule for Indexed {
    ghost use Rattle.st_pairs.specs.Pairs.{IsWholePair};

    ghost is_whole = { IsWholePair };
}
