//! The text that a drill writes once all is done.
ghost use Rattle.std.specs.Prelude.{◌≡◌, IfOk, string_bytes};
ghost use Rattle.st_drill.specs.Summary.{head_lines, query_line, summary_text};

use crate::queries::DrillQuery;
use st_answer::Told;
use std::alloc::{AllocError, Global};

/// For each of the four queries, over all pairs of the spool, how many packets match and how many
/// bytes they are as a pcap, its file head included.
#[derive(Clone, Copy, Debug, PartialEq, Eq)]
pub struct Answers {
    pub dns: Told,
    pub near_tcp: Told,
    pub early: Told,
    pub late: Told,
}

// The line of a query whose answer has these numbers, without its line feed.
#[tactic(auto, unfolding(crate::specs::Summary::query_line))]
fn line(alloc: Global, question: DrillQuery, told: Told) -> Result<String, AllocError>
    ensures { IfOk result (λ t. string_bytes t ≡ query_line question told) }
{
    let text = question.text();
    let packets = told.packets;
    let bytes = told.bytes;
    format!(in alloc; "{text}: {packets} packets {bytes} bytes")
}

// The first two lines of a summary.
#[tactic(auto, unfolding(crate::specs::Summary::head_lines))]
fn head(alloc: Global, packets: u32, pairs: u64) -> Result<String, AllocError>
    ensures { IfOk result (λ t. string_bytes t ≡ head_lines packets pairs) }
{
    format!(in alloc; "drill {packets}\npairs {pairs}\n")
}

/// The summary of a drill of this many packets, which published this many pairs.
///
/// Source: docs/FORMAT.md, "Drill".
pub fn summary(
    alloc: Global,
    packets: u32,
    pairs: u64,
    answers: Answers,
) -> Result<String, AllocError>
    ensures { IfOk result (λ t. string_bytes t ≡ summary_text packets pairs answers) }
{
    let head = head(alloc, packets, pairs)?;
    let dns = line(alloc, DrillQuery::Dns, answers.dns)?;
    let near_tcp = line(alloc, DrillQuery::NearTcp, answers.near_tcp)?;
    let early = line(alloc, DrillQuery::Early, answers.early)?;
    let late = line(alloc, DrillQuery::Late, answers.late)?;
    format!(in alloc; "{head}{dns}\n{near_tcp}\n{early}\n{late}\n")
}
