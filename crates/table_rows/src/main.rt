//! Makes, prints and searches table files, by rows in hexadecimal.
//!
//! - `table_rows make < LINES > FILE` makes a table of rows. A line is a key, a space and a value,
//!   in
//!   hexadecimal; keys rise by bytes and have at most 64.
//! - `table_rows print FILE` prints such a line for each row of a table, in lower case.
//! - `table_rows find FILE < KEYS` reads keys, one a line, and prints the value of each, or `-`.
//!
//! A table that is damaged or compressed is refused with the place, after the rows before it. Every
//! refusal is a line on standard error, and the status is then 1.
#![tactic(auto)]

mod hexes;
mod making;
mod reading;

use anyhow::{Result, bail};
use making::make;
use reading::{find, print};
use std::env;
use std::process::ExitCode;

/// The room of the buffers of standard input and output, in bytes.
const BUFFER: usize = 65_536;

fn main(rt: HostRuntime) -> ExitCode {
    match run(&rt) {
        Ok(()) => ExitCode::SUCCESS,
        Err(error) => {
            let _ = eprintln!(rt; "table_rows: {error}");
            ExitCode::FAILURE
        }
    }
}

fn run(rt: &HostRuntime) -> Result<()> {
    let words: Vec<String> = env::args(rt)?.skip(1).collect(rt.alloc())?;
    match words.as_slice() {
        [command] if command.as_str() == "make" => make(rt),
        [command, path] if command.as_str() == "print" => print(rt, path.as_str()),
        [command, path] if command.as_str() == "find" => find(rt, path.as_str()),
        _ => bail!(
            "usage: table_rows make < LINES > FILE, table_rows print FILE, \
             table_rows find FILE < KEYS"
        ),
    }
}
