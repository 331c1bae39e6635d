//! Why an index can't be evaluated.

ghost use Rattle.std.specs.Prelude.{◌≡◌};
ghost use Rattle.st_eval.specs.Refusals.{Repeats};

use st_base::Damage;
use st_table::TableErr;
use st_tblock::{PLAIN, SNAPPY};
use thiserror::Error;

/// Why an index can't be evaluated.
#[derive(Clone, Copy, Debug, PartialEq, Eq, Error)]
pub enum EvalErr {
    /// The file failed: its `faults` rose in this call.
    #[error("reading the index failed")]
    ReadFault,
    /// A check of what was read fails, with its place in the file, which is 0 for a row's value.
    #[error("damaged at {}: {} for {}", .0.place, .0.found, .0.want)]
    Damaged(Damage),
    /// Out of memory.
    #[error("out of memory")]
    NoMemory,
}

/// An error of a table as one of an evaluation: a compressed block is damage at its type byte.
pub fn refused_by(error: TableErr) -> EvalErr
    ensures says { Repeats error result }
    ensures fault { result ≡ EvalErr.ReadFault → error ≡ TableErr.ReadFault }
{
    match error {
        TableErr::ReadFault => EvalErr::ReadFault,
        TableErr::Damaged(damage) => EvalErr::Damaged(damage),
        TableErr::Compressed { place } => EvalErr::Damaged(Damage {
            place,
            found: u64::from(SNAPPY),
            want: u64::from(PLAIN),
        }),
        TableErr::NoMemory => EvalErr::NoMemory,
    }
}
