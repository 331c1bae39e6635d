//! How a drill ends.

use st_base::Damage;

/// How a drill ends. At each end the pairs that were published are in the spool, but for the oldest
/// if there are more than 65,535.
#[derive(Clone, Copy, Debug, PartialEq, Eq)]
pub enum DrillEnd {
    /// All packets are in the spool, and the summary is written.
    Done,
    /// Writing the summary failed: the output's count of faults rose. All packets are in the spool.
    WriteFault,
    /// The shelf failed: its count of faults rose. The last publication or removal may be in doubt.
    DiskFault,
    /// The pair with this stamp is not whole; `damage` is a check of it that failed. All packets
    /// are in the spool.
    Damaged { stamp: u64, damage: Damage },
    /// A pair was not published, since no stamp follows `last`, the greatest that there is.
    StampsSpent { last: u64 },
    /// Out of memory.
    NoMemory,
}
