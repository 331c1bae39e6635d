//! The classic pcap file, version 2.4 over Ethernet: a reader that takes any source of bytes, and
//! calls that write the same format.
//!
//! A file is a head of 24 bytes and then records, each a head of 16 bytes and a body of at most
//! 262,144 bytes. Either byte order is read, with fractions of seconds in microseconds or
//! nanoseconds; little-endian is written. The format is libpcap's ("pcap savefile format"), the
//! order of checks and the limits are ours: docs/FORMAT.md, "pcap".
//!
//! # What it promises
//!
//! - `PcapReader::next` gives the records of the input in their order, None exactly at its whole
//!   end, and else the cause that the order of checks finds, if the source's bytes are known,
//!   however it cuts them; only out of memory may come instead. Over any source, each call takes as
//!   many bytes as its result says, a read fault comes only if the source's count of faults rose,
//!   or if the reader had stopped at one, and no other result changes the count; after 2^40 bytes
//!   nothing is read; a reader that has stopped answers its cause again and reads nothing.
//!   `next_into` does the same over memory that the caller gives, and is out of memory only if
//!   that has less room than the longest body.
//! - All bytes are an input of exactly one list of records and one end (`laws::some_reading`,
//!   `laws::one_reading`).
//! - `file_head` and `record_head` are the heads of a pcap text; `append_record` appends a record
//!   to bytes in memory, or leaves them as they were; `put_header` and `put_record` append its
//!   parts, or a prefix of them where they fail, which is only if the sink's count of faults rose.
//! - The text of records reads back as the same records, their times cut to the unit
//!   (`laws::reads_back`, `laws::is_whole_input`); the pieces joined are the text
//!   (`laws::pieces_join`).
//!
//! # What it leaves to others
//!
//! Buffers: a reader asks its source for a head or a body at a time, and a writer puts one at a
//! time. How many reads and writes that takes is in no clause.
//!
//! # Where to read
//!
//! `specs/Input.antt` says which records and which end an input has, over `Forms` and `Heads`;
//! `specs/Text.antt` what is written; `specs/Reading.antt` what a reader has read and what its
//! calls ensure, `specs/Taking.antt` how many bytes they take. The numbers of the format are in
//! `numbers`. Then `reader`, `records`, `checks`, `writer`.
#![tactic(auto)]

mod checks;
mod errors;
mod fill;
mod forms;
mod head_fields;
pub mod laws;
mod numbers;
mod reader;
mod records;
#[cfg(test)]
mod tests;
mod writer;

pub use errors::PcapErr;
pub use forms::Unit;
pub use numbers::{FILE_HEAD_SIZE, RECORD_HEAD_SIZE};
pub use reader::PcapReader;
pub use writer::{append_record, file_head, put_header, put_record, record_head};
