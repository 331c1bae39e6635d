use thiserror::Error;

/// Why a table could not be written on. The builder can then only be dropped.
#[derive(Clone, Copy, Debug, PartialEq, Eq, Error)]
pub enum BuildErr {
    /// The sink failed.
    #[error("writing the table failed")]
    WriteFault,
    /// Out of memory.
    #[error("out of memory")]
    NoMemory,
}
