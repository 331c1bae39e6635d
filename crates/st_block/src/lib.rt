//! Block files: the packets of one pair, in the order in which they were added.
//!
//! A file is 1 to 4,095 blocks of one size, a power of two from 4,096 to 1,048,576 bytes. A block
//! is a head of 48 bytes, then records, each padded with zeros to a multiple of 16 bytes, then
//! zeros. A record is named by its position: the offset of its head in the file, in bytes, below
//! 2^32. Numbers are little-endian. The layout is ours, after the blocks of Linux's TPACKET_V3:
//! docs/FORMAT.md, "Block file".
//!
//! # What it promises
//!
//! - A builder gives the block of the records that were added (`BlockBuilder::finish`), and takes
//!   no memory once it is made.
//! - The block's number and the record's offset in it give its position (`position_in`); positions
//!   rise, fit 32 bits and stay if more records follow (`positions_rise`, `positions_fit`,
//!   `positions_stay`).
//! - A file's bytes are those of one block size and one list of records only (`one_file`).
//! - A record comes back from its position by at most two reads, of 48 bytes and of its captured
//!   length, the body into the caller's buffer if it likes (`record_head_at`, `record_body_into`,
//!   `record_body_at`).
//! - Whether a number is a block size (`is_block_size`).
//! - A scan gives the records of a file with their positions, each of a block that was checked
//!   whole, and reads each block once; it ends if and only if the file is the text of the records
//!   that it gave, and else names the first check that fails (`Scan::next`, `file_unhurt`).
//! - A head that breaks the layout, or that lies with its body past the file's end, is `Damaged`,
//!   with the place, what was found and what was wanted.
//!
//! # What it leaves to others
//!
//! A block has no checksum, so a changed body goes unseen here. It builds blocks, not files: which
//! records go into which block, the blocks' numbers and their order in the file are the caller's.
//! Which records match a query, st_query says.
//!
//! # Where to read
//!
//! `src/format.rt` has the numbers of the layout. `specs/BlockText.antt` says what a file's bytes
//! are, from its records, `specs/Position.antt` where each head lies, `specs/Fields.antt` and
//! `specs/Checks.antt` what is checked in which order. `specs/Builder.antt`, `specs/Record.antt`
//! and `specs/Scan.antt` say what the calls of the modules `builder`, `record` and `scan` give.
#![tactic(auto)]

mod builder;
mod errors;
mod fields;
mod format;
mod laws;
mod position;
mod record;
mod scan;
mod sizes;
#[cfg(test)]
mod tests;

pub use builder::BlockBuilder;
pub use errors::{BlockErr, HeadErr};
pub use format::{BLOCK_HEAD, BLOCK_SIZES, MAX_BLOCKS, RECORD_HEAD};
pub use laws::{
    file_length, file_unhurt, given_records, one_block, one_file, one_given, positions_fit,
    positions_rise, positions_stay, record_bytes,
};
pub use position::position_in;
pub use record::{Head, record_body_at, record_body_into, record_head_at};
pub use scan::Scan;
pub use sizes::is_block_size;
