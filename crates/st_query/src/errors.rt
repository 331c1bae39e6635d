//! Why a text is refused.

use thiserror::Error;

/// Why a text is no query. A place is an offset in the text in bytes, or the text's length where it
/// ends too early.
#[derive(Clone, Copy, Debug, PartialEq, Eq, Error)]
pub enum QueryErr {
    /// A token that no query has there.
    #[error("syntax at {place}")]
    Syntax { place: usize },
    /// A number is wanted there.
    #[error("number at {place}")]
    Number { place: usize },
    /// An address is wanted there.
    #[error("address at {place}")]
    Address { place: usize },
    /// A time is wanted there.
    #[error("time at {place}")]
    Time { place: usize },
    /// A parenthesis that would be the 65th open one.
    #[error("depth at {place}")]
    Deep { place: usize },
    /// The text has more than 4,096 bytes: this many.
    #[error("{len} bytes are over 4096")]
    Long { len: usize },
    /// There is no memory for the query.
    #[error("out of memory")]
    NoMemory,
}
