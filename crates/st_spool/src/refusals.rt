use crate::opening::EnterErr;
use st_shelf::{Draft, SealedPair};

/// The disk failed: the shelf's count of faults rose.
#[derive(Clone, Copy, Debug, PartialEq, Eq)]
pub struct DiskFault;

/// A shelf over which no spool was opened, and why.
pub struct NotEntered<D> {
    pub cause: EnterErr,
    pub shelf: D,
}

/// Why a pair was not published.
pub enum PublishErr<T: Draft> {
    /// The shelf's count of faults rose in this call. Files that were not settled are abandoned,
    /// and the spool refuses from now on.
    DiskFault,
    /// An earlier call failed, when the shelf's count of faults was `since`. The spool is as it
    /// was, and the pair comes back.
    Halted { since: u64, pair: SealedPair<T> },
    /// The last stamp, `last`, is the greatest of all. The spool is as it was, and the pair comes
    /// back.
    StampsSpent { last: u64, pair: SealedPair<T> },
}

/// Why no pair was removed.
#[derive(Clone, Copy, Debug, PartialEq, Eq)]
pub enum AgeErr {
    /// The shelf's count of faults rose in this call. The spool refuses from now on.
    DiskFault,
    /// An earlier call failed, when the shelf's count of faults was `since`. The spool is as it
    /// was.
    Halted { since: u64 },
}
