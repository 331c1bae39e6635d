use std::alloc::AllocError;
use std::io;

/// Out of memory. What the call that returns it leaves is said at that call.
#[derive(Clone, Copy, Debug, PartialEq, Eq)]
pub struct NoMemory;

impl From<AllocError> for NoMemory {
    fn from(_error: AllocError) -> NoMemory {
        NoMemory
    }
}

/// I/O failed: of a source, a sink, a file or a disk. The count of faults of the object that was
/// called rose in that call.
#[derive(Clone, Copy, Debug, PartialEq, Eq)]
pub struct Failed;

/// A call of the system.
#[derive(Clone, Copy, Debug, PartialEq, Eq)]
pub enum Call {
    Read,
    Write,
    Flush,
    Sync,
    Create,
    Open,
    Lock,
    List,
    Rename,
    Remove,
    MakeFolder,
}

/// A call of the system that failed, and the system's error. It owns no memory, so it is kept and
/// shown even where memory has run out.
#[derive(Clone, Copy, Debug)]
pub struct CallFailure {
    pub call: Call,
    pub error: io::Error,
}
