//! Makes, checks and queries the two files of a pair, a block file and its index.
//!
//! - `pair_files pack SIZE < PCAP > BLOCKS` puts the packets of a pcap into a block file of blocks
//!   of SIZE bytes.
//! - `pair_files index BLOCKS > INDEX` makes the index of a block file.
//! - `pair_files check BLOCKS INDEX` prints `whole PACKETS`, or `damaged PART PLACE FOUND WANT` of
//!   the first check that fails; the status is then 1.
//! - `pair_files answer BLOCKS INDEX QUERY > PCAP` writes the packets that match, in time order,
//!   with times in nanoseconds.
//! - `pair_files count INDEX < QUERIES` reads queries, one a line, and prints how many packets each
//!   selects, by the index alone.
//!
//! What can't be read is refused by a line on standard error, and the status is then 1.
#![tactic(auto)]

mod asking;
mod making;

use anyhow::{Result, bail};
use asking::{answer_over, check_pair, count};
use making::{index, pack};
use std::env;
use std::process::ExitCode;

/// The room of the buffers of standard input and output, in bytes.
const BUFFER: usize = 65_536;

fn main(rt: HostRuntime) -> ExitCode {
    match run(&rt) {
        Ok(true) => ExitCode::SUCCESS,
        Ok(false) => ExitCode::FAILURE,
        Err(error) => {
            let _ = eprintln!(rt; "pair_files: {error}");
            ExitCode::FAILURE
        }
    }
}

/// Whether all is well: false if a pair was checked and isn't whole.
fn run(rt: &HostRuntime) -> Result<bool> {
    let words: Vec<String> = env::args(rt)?.skip(1).collect(rt.alloc())?;
    match words.as_slice() {
        [command, size] if command.as_str() == "pack" => pack(rt, size.as_str())?,
        [command, blocks] if command.as_str() == "index" => index(rt, blocks.as_str())?,
        [command, blocks, table] if command.as_str() == "check" => {
            return check_pair(rt, blocks.as_str(), table.as_str());
        }
        [command, blocks, table, query] if command.as_str() == "answer" => {
            answer_over(rt, blocks.as_str(), table.as_str(), query.as_str())?
        }
        [command, table] if command.as_str() == "count" => count(rt, table.as_str())?,
        _ => bail!(
            "usage: pair_files pack SIZE, index BLOCKS, check BLOCKS INDEX, \
             answer BLOCKS INDEX QUERY, count INDEX"
        ),
    }
    Ok(true)
}
