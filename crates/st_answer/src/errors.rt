//! What an answer tells, and why one breaks off.

use st_base::Damage;

/// What was sent: the number of packets, and the number of bytes of all pieces, the heads included.
/// The second stops at the greatest number of a u64.
#[derive(Clone, Copy, Debug, PartialEq, Eq)]
pub struct Told {
    pub packets: u64,
    pub bytes: u64,
}

/// Why an answer broke off.
#[derive(Clone, Copy, Debug, PartialEq, Eq)]
pub enum AnswerErr {
    /// The outlet failed: its count of faults rose. A part of the answer was sent.
    WriteFault,
    /// The store failed, or a file that it lent: its count of faults rose.
    DiskFault,
    /// The pair with this stamp isn't whole; a check of its block file or its index failed.
    Damaged { stamp: u64, damage: Damage },
    /// Out of memory.
    NoMemory,
}
