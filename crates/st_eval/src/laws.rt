//! Laws of the definitions. These functions do nothing; what they ensure is what counts.

ghost use Rattle.st_eval.specs.Ranges.{NetIsRange, MatchesByRange, RangesFit};
ghost use Rattle.st_eval.specs.Selecting.{SelectsMatching};

/// A packet has an address in a net if and only if it has a key from the net's first key to its
/// last one.
pub fn net_is_range()
    ensures { NetIsRange }
{}

/// A packet matches a primitive if and only if it has a key in the primitive's range of keys.
pub fn matches_by_range()
    ensures { MatchesByRange }
{}

/// The ends of the range of a primitive of a query fit their kinds.
pub fn ranges_fit()
    ensures { RangesFit }
{}

/// The rows of an index select the positions of exactly the packets that match.
pub fn selects_matching()
    ensures { SelectsMatching }
{}
