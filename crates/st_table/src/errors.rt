//! Why a call on a table refuses.

use st_base::Damage;
use thiserror::Error;

/// Why a call on a table refuses.
#[derive(Clone, Copy, Debug, PartialEq, Eq, Error)]
pub enum TableErr {
    /// The file failed: its `faults` rose in this call.
    #[error("reading the table failed")]
    ReadFault,
    /// A check of what was read fails, with its place in the file.
    #[error("damaged at {}: {} for {}", .0.place, .0.found, .0.want)]
    Damaged(Damage),
    /// A block is compressed: its type byte, at the offset `place` of the file, is 1.
    #[error("compressed block: its type byte at {place} is 1")]
    Compressed { place: u64 },
    /// Out of memory.
    #[error("out of memory")]
    NoMemory,
}
