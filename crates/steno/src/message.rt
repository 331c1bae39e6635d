//! The lines that say why a run is not done. Source: docs/FORMAT.md, "Messages".

ghost use Rattle.std.specs.Prelude.{◌≡◌, ◌+◌, ◌/◌, ◌%◌, IfOk, string_bytes};
ghost use Rattle.steno.specs.Messages.{status_line, query_line, input_line, unfit_line, damaged_line, spent_line, line_of, hex_byte};

use crate::report::Report;
use crate::status::Status;
use st_base::Damage;
use st_pcap::PcapErr;
use st_query::QueryErr;
use std::alloc::{AllocError, Global};

/// The bytes of a report's line, its line feed included: its own, or the one that its status always
/// has. Empty if the run has nothing to say.
pub fn line_bytes(report: &Report) -> &[u8]
    ensures { result.now ≡ line_of report.now }
{
    match &report.line {
        Some(line) => line.as_bytes(),
        None => status_text(report.status).as_bytes(),
    }
}

// The line that a status always has; empty if it has none, or one for each cause.
fn status_text(status: Status) -> &'static str
    ensures { result.now ≡ status_line status }
{
    match status {
        Status::Usage => "steno: usage: steno COMMAND [ARGUMENTS] [OPTIONS]\n",
        Status::ReadFault => "steno: reading the input failed\n",
        Status::WriteFault => "steno: writing the output failed\n",
        Status::DiskFault => "steno: the spool failed\n",
        Status::NoMemory => "steno: out of memory\n",
        Status::Done
        | Status::BadInput
        | Status::BadQuery
        | Status::Damaged
        | Status::StampsSpent => "",
    }
}

/// The line that says why a query is refused.
pub fn query_text(alloc: Global, error: QueryErr) -> Result<String, AllocError>
    ensures { IfOk result (λ t. string_bytes t ≡ query_line error) }
{
    match error {
        QueryErr::Syntax { place } => format!(in alloc; "steno: query: syntax at {place}\n"),
        QueryErr::Number { place } => format!(in alloc; "steno: query: number at {place}\n"),
        QueryErr::Address { place } => format!(in alloc; "steno: query: address at {place}\n"),
        QueryErr::Time { place } => format!(in alloc; "steno: query: time at {place}\n"),
        QueryErr::Deep { place } => format!(in alloc; "steno: query: depth at {place}\n"),
        QueryErr::Long { len } => format!(in alloc; "steno: query: {len} bytes are over 4096\n"),
        QueryErr::NoMemory => String::from_str(alloc, "steno: out of memory\n"),
    }
}

/// The line that says why an input is refused.
pub fn input_text(alloc: Global, error: PcapErr) -> Result<String, AllocError>
    ensures { IfOk result (λ t. string_bytes t ≡ input_line error) }
{
    match error {
        PcapErr::ReadFault => String::from_str(alloc, "steno: reading the input failed\n"),
        PcapErr::NotPcap { found } => not_pcap_text(alloc, found),
        PcapErr::Version { major, minor } => {
            format!(in alloc; "steno: pcap version {major}.{minor} is not read\n")
        }
        PcapErr::LinkType { found } => {
            format!(in alloc; "steno: link type {found} is not read\n")
        }
        PcapErr::BadFraction { number, found } => {
            format!(in alloc; "steno: record {number}: fraction {found} is out of range\n")
        }
        PcapErr::TooLong { number, len } => {
            format!(in alloc; "steno: record {number}: captured length {len} is over 262144\n")
        }
        PcapErr::Truncated { number, have, want } => {
            format!(in alloc; "steno: record {number}: {have} of {want} bytes\n")
        }
        PcapErr::TooMuch { taken } => {
            format!(in alloc; "steno: input stopped after {taken} bytes\n")
        }
        PcapErr::NoMemory => String::from_str(alloc, "steno: out of memory\n"),
    }
}

/// The line of a record that no block of `size` bytes takes: by its number, counted from 1, and its
/// captured length, in bytes.
pub fn unfit_text(alloc: Global, number: u64, len: u32, size: u32) -> Result<String, AllocError>
    ensures { IfOk result (λ t. string_bytes t ≡ unfit_line number len size) }
{
    format!(in alloc;
        "steno: record {number}: captured length {len} does not fit a block of {size}\n"
    )
}

/// The line of the pair with this stamp, a check of which fails so.
pub fn damaged_text(alloc: Global, stamp: u64, damage: Damage) -> Result<String, AllocError>
    ensures { IfOk result (λ t. string_bytes t ≡ damaged_line stamp damage) }
{
    let place = damage.place;
    let found = damage.found;
    let want = damage.want;
    format!(in alloc; "steno: pair {stamp} is damaged at {place}: {found} for {want}\n")
}

/// The line that says that no stamp is left after this one.
pub fn spent_text(alloc: Global, last: u64) -> Result<String, AllocError>
    ensures { IfOk result (λ t. string_bytes t ≡ spent_line last) }
{
    format!(in alloc; "steno: no stamp follows {last}\n")
}

// The line of an input whose first four bytes, `found` as a little-endian number, are no magic.
fn not_pcap_text(alloc: Global, found: u32) -> Result<String, AllocError>
    ensures { IfOk result (λ t. string_bytes t ≡ input_line (PcapErr.NotPcap found)) }
{
    let first = hex_text(alloc, (found / 16_777_216 % 256) as u8)?;
    let second = hex_text(alloc, (found / 65_536 % 256) as u8)?;
    let third = hex_text(alloc, (found / 256 % 256) as u8)?;
    let fourth = hex_text(alloc, (found % 256) as u8)?;
    format!(in alloc;
        "steno: input is not a pcap file, it begins with 0x{first}{second}{third}{fourth}\n"
    )
}

// Two hexadecimal digits, in lower case.
#[tactic(auto, using(std::proofs::lemmas::Fmt::hex_byte))]
fn hex_text(alloc: Global, byte: u8) -> Result<String, AllocError>
    ensures { IfOk result (λ t. string_bytes t ≡ hex_byte byte) }
{
    format!(in alloc; "{byte:02x}")
}
