ghost use Rattle.std.specs.Prelude.{◌≡◌};

use st_base::{Damage, NoMemory};

/// Why a record's head or the beginning of a file can't be read.
#[derive(Clone, Copy, Debug, PartialEq, Eq)]
pub enum HeadErr {
    /// The file failed in this call: its count of faults rose.
    ReadFault,
    /// A check of the head failed, with its place in the file.
    Damaged(Damage),
}

/// Why a record can't be read.
#[derive(Clone, Copy, Debug, PartialEq, Eq)]
pub enum BlockErr {
    /// The file failed in this call: its count of faults rose.
    ReadFault,
    /// A check failed, with its place in the file.
    Damaged(Damage),
    /// The call ran out of memory.
    NoMemory,
}

impl From<NoMemory> for BlockErr {
    fn from(_error: NoMemory) -> BlockErr
        ensures { result ≡ BlockErr.NoMemory }
    {
        BlockErr::NoMemory
    }
}
