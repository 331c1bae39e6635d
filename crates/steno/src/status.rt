//! How a run ends.

ghost use Rattle.std.specs.Prelude.{◌≡◌};
ghost use Rattle.steno.specs.Statuses.{code_of};

/// How a run ends; `code` gives its number.
///
/// Source: docs/FORMAT.md, "Statuses".
#[derive(Clone, Copy, Debug, PartialEq, Eq)]
pub enum Status {
    /// All that the arguments ask for is done, and the whole output is written.
    Done,
    /// The arguments ask for nothing that the program does.
    Usage,
    /// The input was refused, for the cause in the message.
    BadInput,
    /// The query was refused, for the cause in the message.
    BadQuery,
    /// Reading the input failed.
    ReadFault,
    /// Writing the output failed.
    WriteFault,
    /// The spool failed.
    DiskFault,
    /// A pair of the spool is not whole.
    Damaged,
    /// The program ran out of memory.
    NoMemory,
    /// There is no greater stamp left for a new pair.
    StampsSpent,
}

/// What a run returns: how it ended, and the shelf that it was given.
#[derive(Drop)]
pub struct Ended<D> {
    pub status: Status,
    pub shelf: D,
}

/// The exit status of a process whose run ended so. Source: docs/FORMAT.md, "Statuses".
pub fn code(status: Status) -> u8
    ensures { result ≡ code_of status }
{
    match status {
        Status::Done => 0,
        Status::Usage => 2,
        Status::BadInput => 3,
        Status::BadQuery => 4,
        Status::ReadFault => 5,
        Status::WriteFault => 6,
        Status::DiskFault => 7,
        Status::Damaged => 8,
        Status::NoMemory => 9,
        Status::StampsSpent => 10,
    }
}
