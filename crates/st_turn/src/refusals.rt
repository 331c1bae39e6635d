//! Why a shared publication is refused.
use st_shelf::{Draft, SealedPair};

/// Why a pair was not published by a shared spool.
pub enum SharedPublishErr<T: Draft> {
    /// The shelf failed in this turn, and the pair is spent: its event may be in doubt. From now
    /// on the spool publishes and ages no more.
    DiskFault,
    /// An earlier publication or ageing of the spool failed; the shelf's count of faults was
    /// `since` then. The pair comes back.
    Halted { since: u64, pair: SealedPair<T> },
    /// No stamp is left above `last`, the greatest that there was. The pair comes back.
    StampsSpent { last: u64, pair: SealedPair<T> },
    /// Memory ran out before anything was done. The pair comes back.
    NoMemory { pair: SealedPair<T> },
}
