//! How a command over a spool ends.

use st_base::Damage;

/// How a command over a spool ends.
#[derive(Clone, Copy, Debug, PartialEq, Eq)]
pub enum Outcome {
    /// All is written, and if pairs were checked, all are whole.
    Done,
    /// Writing the output failed: its count of faults rose.
    WriteFault,
    /// The shelf failed: its count of faults rose.
    DiskFault,
    /// The pair with this stamp is not whole; `damage` is a check of it that fails.
    Damaged { stamp: u64, damage: Damage },
    /// Out of memory.
    NoMemory,
}

/// Which line a command writes of a pair.
#[derive(Clone, Copy, Debug, PartialEq, Eq)]
pub enum Report {
    /// What its summary row says.
    Summaries,
    /// Whether it is whole.
    Verdicts,
}

/// Why there is no line of a pair.
#[derive(Clone, Copy, Debug, PartialEq, Eq)]
pub enum PairErr {
    /// The shelf failed: its count of faults rose.
    DiskFault,
    /// A check of what was read of the pair fails.
    Damaged(Damage),
    /// Out of memory.
    NoMemory,
}

/// A line of a pair, with its line feed; and how the command ends by this line: `Damaged` if it
/// says that the pair is not whole, or else `Done`.
#[derive(Drop)]
pub struct Line {
    pub text: String,
    pub outcome: Outcome,
}
