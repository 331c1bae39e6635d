//! Tables: files of rows in the order of their keys, in LevelDB's format, both ways.
//!
//! A row is a key and a value; keys are ordered by bytes, lengths are in bytes. The rows are in data
//! blocks, which the index block names by keys. The footer ends the file and names the index block
//! and a metaindex block. The trailer after a block is its type byte and its masked sum.
//! Source: LevelDB, doc/table_format.md, table/table_builder.cc; docs/FORMAT.md, "Table file".
//!
//! # What it promises
//!
//! - A builder writes a table of just the rows that were added, in LevelDB's bytes
//!   (`TableBuilder::add`, `TableBuilder::finish`).
//! - Over a table a reader gives the value of a key, or none, by one read at most (`Table::get`),
//!   and the rows between two keys in their order (`Table::range`, `Table::step`). Over other bytes
//!   it is refused by the first check that fails in what it reads, with its place.
//! - Over any file a reading between two keys ends, and reads each data block once (`Table::step`).
//! - A fault of the sink or of the file is answered only if its count rose, and a call that succeeds
//!   leaves the count as it was.
//! - Laws: keys rise over all blocks (`keys_rise`); bytes are a table of one list of rows at most
//!   (`one_list_of_rows`); a step after a step is a step over both (`steps_join`); a reading of all
//!   rows to the end says that the bytes are a table of them (`whole_reading`, `whole_range`).
//!
//! What `get`, `range` and `step` say of rows rests on two facts of what a table keeps, over a
//! content that stays: `Entered`, its entries are those of the index block, and `Checked`, the data
//! blocks that count as checked hold all their checks. `enter` gives both. A caller goes on by
//! `same`, `entries` and `checked` after a `get`, by `same` and `kept` after a `step`.
//!
//! # What it leaves to others
//!
//! What a block's bytes are is st_tblock's to know. A builder that answered an error can only be
//! dropped. A data block that no call reads isn't looked at, nor is the metaindex block.
//!
//! # Where to read
//!
//! What a table is: `specs/TableFile.antt`, `RowOrder`, `IndexLookup`. What contracts see of a
//! builder: `TableBuilderView`. What the calls of a module ensure: the file of its name. Then
//! `limits`, `builder` and `puts`; `table`, and below it `stored`, `index`, `rows`, `marks` and
//! `cursor`; `laws`.
#![tactic(auto)]

mod build_errors;
mod builder;
#[cfg(test)]
mod builder_tests;
mod cursor;
mod errors;
mod index;
mod laws;
mod limits;
#[cfg(test)]
mod lookup_tests;
mod marks;
mod puts;
mod rows;
#[cfg(test)]
mod sample_tables;
mod stored;
mod table;
#[cfg(test)]
mod table_tests;

pub use build_errors::BuildErr;
pub use builder::TableBuilder;
pub use cursor::Cursor;
pub use errors::TableErr;
pub use laws::{keys_rise, one_list_of_rows, steps_join, whole_range, whole_reading};
pub use rows::Row;
pub use table::Table;
