use crate::lane::Lane;
use st_shelf::{Draft, End};

/// What became of a record that was pushed.
#[derive(Clone, Copy, Debug, PartialEq, Eq)]
pub enum Pushed {
    /// The lane has it.
    Kept,
    /// The lane is full and has not taken it: seal the lane and push the record to the next one.
    Ready,
}

/// Why a record was not pushed.
#[derive(Clone, Copy, Debug, PartialEq, Eq)]
pub enum LaneErr {
    /// The draft of the block file failed. The lane is broken, and the `lost` records that it had
    /// are lost with it.
    DiskFault { lost: u64 },
    /// The body has `len` bytes, more than a block holds. The lane is as it was.
    TooLong { len: u32 },
    /// Out of memory. The lane has the records that it had.
    NoMemory,
}

/// The drafts of a lane that was not made, since it ran out of memory.
pub struct LaneRefused<T: Draft> {
    pub block: T,
    pub index: T,
}

/// Why a lane was not sealed.
pub enum SealErr<T: Draft> {
    /// A draft failed. Both come back, sealed or not, and the `lost` records are lost.
    DiskFault {
        lost: u64,
        block: End<T>,
        index: End<T>,
    },
    /// Out of memory. Nothing was written, and the lane is as it was.
    NoMemory {
        lane: Lane<T>,
    },
}
