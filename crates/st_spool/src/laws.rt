//! Laws of histories and of runs. Each of these functions does nothing: its contract is the law.
ghost use Rattle.st_spool.specs.Histories.{HoldsStay, TakesAll, OneHistory, HistoryStays, FailedStays, PublishedGoesOn, RemovedGoesOn};
ghost use Rattle.st_spool.specs.Covers.{CoversAll, CoversOpening, CoversOn, CoversStill, CoversFault, CoversDoubt, CoversMore, CoversWithoutDoubt};

use crate::pair_rule::PairRule;

/// The pairs of a hold stay the same whatever is published or removed later.
pub fn holds_stay()
    ensures { HoldsStay }
{}

/// The history of a spool is a function of its state and of its shelf's log
/// (`specs/Recalling.antt`). A publication or a removal that succeeds adds its event to it; every
/// other call leaves it as it was.
pub fn one_history<W: PairRule>()
    ensures one { OneHistory W.is_whole }
    ensures stays { HistoryStays W.is_whole }
    ensures failed { FailedStays W.is_whole }
    // an event more
    ensures published { PublishedGoesOn W.is_whole }
    ensures removed { RemovedGoesOn W.is_whole }
    // the history of a hold
    ensures taken { TakesAll }
{}

/// What crashes leave in a run of calls that begins with an opening: at every moment the pairs of
/// the history with the first of its events, and after the last call with all. If a call failed,
/// its event may be in doubt from then on.
pub fn covers()
    ensures all { CoversAll }
    // as calls succeed
    ensures opening { CoversOpening }
    ensures on { CoversOn }
    ensures still { CoversStill }
    // as one fails
    ensures fault { CoversFault }
    ensures doubt { CoversDoubt }
    ensures more { CoversMore }
    ensures no_doubt { CoversWithoutDoubt }
{}
