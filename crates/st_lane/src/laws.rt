//! Laws of lanes and of cuts. Each of these functions does nothing: its contract is the law.

ghost use Rattle.st_lane.specs.Laws.{CutEnds, CutGoesOn, CutOfNone, OneCut, OneLane};

/// Records are cut in one way only.
pub fn one_cut()
    ensures { OneCut }
{}

/// No records are cut into no lists.
pub fn cut_of_none()
    ensures { CutOfNone }
{}

/// Records of which the file has as many blocks as are allowed, or fewer, are one list of the cut.
pub fn cut_ends()
    ensures { CutEnds }
{}

/// Where a list of the cut ends before a record, the other lists are those of that record and all
/// that follow it.
pub fn cut_goes_on()
    ensures { CutGoesOn }
{}

/// If the bytes of its drafts are known, a lane represents one list of records only.
pub fn one_lane()
    ensures { OneLane }
{}
