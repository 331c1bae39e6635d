//! Laws of the verdict on a pair. These functions do nothing; what they ensure is what counts.

ghost use Rattle.st_index.specs.CheckLaws.{OneFailure, OneVerdict, WholeUnhurt};

/// No check of a whole pair fails.
pub fn whole_unhurt()
    ensures { WholeUnhurt }
{}

/// One check of a pair at most is the first that fails.
pub fn one_failure()
    ensures { OneFailure }
{}

/// A pair has one verdict at most.
pub fn one_verdict()
    ensures { OneVerdict }
{}
