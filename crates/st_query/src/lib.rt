//! The query language: a text is read as a query, printed again, and tells which packets match it.
//!
//! A text is bytes, at most 4,096 of them, with at most 64 parentheses open at once. The language
//! follows Stenographer's README, with limits and places of our own: docs/QUERY.md. A refusal has
//! its kind and its place, an offset in the text in bytes. Times are seconds since 1970.
//!
//! # What it promises
//!
//! - A text is read as the query that it spells, or refused with the kind and place that the
//!   grammar gives (`parse`).
//! - A text spells a query or is refused (`some_reading`), one query or one refusal at most, and
//!   not both (`one_reading`).
//! - The printed form is exact, and spells the query again where it has at most 4,096 bytes
//!   (`print`).
//! - A query matches exactly the packets of its meaning, at a clock's `now` (`matches`). It takes
//!   no memory.
//! - A query's numbers are in their ranges, its nets have no host bits, and its printed form opens
//!   at most 64 parentheses at once (`Query::node`).
//! - A list of records has one answer to a query at most (`one_answer`).
//! - The second of a moment, the net of an address and the key of an address are exact
//!   (`second_of`, `network`, `addr_key`), for whoever looks a query up in an index.
//!
//! # What it leaves to others
//!
//! Which keys a packet has is st_walk's to know.
//!
//! # Where to read
//!
//! `specs/Words.antt` and `specs/Times.antt` say what one word means, `specs/Tokens.antt` what a
//! text's tokens are, and `specs/Grammar.antt` which tokens make a query. `specs/Spelling.antt`
//! joins them: what a text spells and how one is refused. `specs/Meaning.antt` says what a query
//! matches, `specs/PrintedForm.antt` its printed form, and `specs/Answer.antt` what the answer over
//! a list of records is. A file of `specs/` with a module's name says what that module's calls
//! ensure. Then `parser`, `automaton`, `lexer`, `matcher`.
#![tactic(auto)]

mod addrs;
mod alternatives;
mod automaton;
mod errors;
mod laws;
mod lexer;
mod limits;
mod matcher;
mod nodes;
mod parser;
mod patterns;
mod printer;
#[cfg(test)]
mod tests;
mod time_reader;
mod tokens;
mod units;
mod word_printer;
mod word_reader;

pub use addrs::Addr;
pub use errors::QueryErr;
pub use laws::{one_answer, one_reading, some_reading};
pub use matcher::{addr_key, matches, second_of};
pub use nodes::{Node, Query, When};
pub use parser::parse;
pub use printer::print;
pub use word_reader::network;
