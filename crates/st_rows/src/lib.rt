//! Index rows: which rows the table of a pair has, from the packets of its block file.
//!
//! A row is a key and a value, as in st_table. The first is the summary row: how many packets there
//! are, and the times of the first and of the last of them, in seconds since 1970 and nanoseconds.
//! Then each key that some packet has (a protocol, a port, a tag, a label, an address, a second)
//! has one row, whose value is the positions of exactly the packets that have it: offsets of their
//! heads in the block file, in bytes, which rise and are below 2^32. Rows are in the order of their
//! keys' bytes. Source: docs/FORMAT.md, "Index rows".
//!
//! # What it promises
//!
//! - The order of rows is that of the keys by kind and then by number, which is also the derived
//!   order of `Key` (`text_order`, `derived_order`, `texts_lie`); the summary row is before all of
//!   them (`summary_first`).
//! - Packets have one list of rows at most (`one_list_of_rows`, `one_summary`, `one_key_row`), and
//!   rising positions are determined by which they are (`one_rising_list`).
//! - A value says the positions that it was made of (`values_say_positions`), and those of a key's
//!   row are the positions of exactly the packets that have it (`rows_say_positions`).
//! - In a block file positions rise and all numbers fit (`file_packets`), and there are fewer than
//!   2^32 packets (`few_packets`); one packet at most is at a position (`one_packet_at`), and its
//!   keys fit (`packet_keys_fit`).
//! - A range from a key to itself is what a lookup finds (`lookup_is_range`).
//!
//! # What it leaves to others
//!
//! It has definitions and laws, and no code that runs. st_index writes and checks rows.
//!
//! # Where to read
//!
//! `specs/Positions.antt`, `specs/KeyOrder.antt`, `specs/Rows.antt`, and `specs/Whole.antt` for a
//! whole pair. `specs/Values.antt` says what is wrong with a row's value. `specs/Laws.antt` has the
//! laws, `format` the numbers.
#![tactic(auto)]

mod format;
mod laws;

pub use format::{INDEX_VERSION, POSITION_SIZE, SUMMARY_KIND, SUMMARY_SIZE};
pub use laws::{
    derived_order, few_packets, file_packets, lookup_is_range, one_key_row, one_list_of_rows,
    one_packet_at, one_rising_list, one_summary, packet_keys_fit, rows_say_positions,
    summary_first, text_order, texts_lie, values_say_positions,
};
