//! The text of the lines. Their layout is ours: docs/FORMAT.md, "Lines of `list` and `check`".

ghost use Rattle.std.specs.Prelude.{◌≡◌, ◌≢◌, ◌/◌, ◌%◌, IfOk, string_bytes};
ghost use Rattle.st_eval.specs.Selection.{summary_view};
ghost use Rattle.st_commands.specs.Lines.{digit_text, nine_digits, time_text, part_text, summary_line, verdict_line};

use st_eval::Summary;
use st_index::{Part, Verdict};
use std::alloc::{AllocError, Global};

// The decimal digit of `n` at this power of ten.
fn digit(n: u32, unit: u32) -> u32
    requires { unit ≢ 0 }
    ensures { result ≡ n / unit % 10 }
{
    n / unit % 10
}

// The last nine decimal digits of `n`, the highest first.
fn nine_digits_text(alloc: Global, n: u32) -> Result<String, AllocError>
    ensures { IfOk result (λ t. string_bytes t ≡ nine_digits n) }
{
    let a = digit(n, 100_000_000);
    let b = digit(n, 10_000_000);
    let c = digit(n, 1_000_000);
    let d = digit(n, 100_000);
    let e = digit(n, 10_000);
    let f = digit(n, 1_000);
    let g = digit(n, 100);
    let h = digit(n, 10);
    let i = digit(n, 1);
    format!(in alloc; "{a}{b}{c}{d}{e}{f}{g}{h}{i}")
}

// A time: seconds, a point, and nanoseconds in nine digits.
fn time(alloc: Global, time: (u32, u32)) -> Result<String, AllocError>
    ensures { IfOk result (λ t. string_bytes t ≡ time_text time) }
{
    let (seconds, nanoseconds) = time;
    let fraction = nine_digits_text(alloc, nanoseconds)?;
    format!(in alloc; "{seconds}.{fraction}")
}

/// The line of a pair with this summary.
pub fn summary_text(alloc: Global, stamp: u64, summary: Summary) -> Result<String, AllocError>
    ensures { IfOk result (λ t. string_bytes t ≡ summary_line stamp (summary_view summary)) }
{
    let packets = summary.packets;
    let first = time(alloc, summary.first)?;
    let last = time(alloc, summary.last)?;
    format!(in alloc; "{stamp} {packets} {first} {last}\n")
}

// The name of a part of a pair.
fn part_name(part: Part) -> &'static str
    ensures { result.now ≡ part_text part }
{
    match part {
        Part::Block => "block",
        Part::Index => "index",
        Part::Rows => "rows",
    }
}

/// The line of a pair with this verdict.
pub fn verdict_text(alloc: Global, stamp: u64, verdict: Verdict) -> Result<String, AllocError>
    ensures { IfOk result (λ t. string_bytes t ≡ verdict_line stamp verdict) }
{
    match verdict {
        Verdict::Whole { packets } => format!(in alloc; "{stamp} whole {packets}\n"),
        Verdict::Differs { part, damage } => {
            let part = part_name(part);
            let place = damage.place;
            let found = damage.found;
            let want = damage.want;
            format!(in alloc; "{stamp} damaged {part} {place} {found} {want}\n")
        }
    }
}
