//! The summary of the packets that were added.

ghost use Rattle.std.specs.Prelude.{◌≡◌, ℕ, ◌+◌, ◌^◌, ◌<◌, ◌∷◌, ◌++◌, [], List, IsTrue, ◌↔◌};
ghost use Rattle.st_base.specs.Records.{time};
ghost use Rattle.st_block.specs.Scan.{PositionedRecord};
ghost use Rattle.st_rows.specs.Rows.{IsSummary, IsUpTo};
ghost use Rattle.st_index.specs.Summaries.{summary_view, SummaryOf, packets_in, IsEarlier, IsLater};

/// A time: seconds since 1970, and nanoseconds.
pub(crate) type Moment = (u32, u32);

/// How many packets there are, and the times of the first and of the last of them.
#[derive(Clone, Copy)]
pub(crate) struct Summary {
    pub(crate) packets: u32,
    pub(crate) first: Moment,
    pub(crate) last: Moment,
}

// Whether a time isn't after another.
fn is_up_to(moment: Moment, other: Moment) -> bool
    ensures { IsTrue result ↔ IsUpTo moment other }
{
    moment.0 < other.0 || (moment.0 == other.0 && moment.1 <= other.1)
}

// The earlier of two times.
fn earlier(moment: Moment, other: Moment) -> Moment
    ensures { IsEarlier moment other result }
{
    if is_up_to(moment, other) {
        moment
    } else {
        other
    }
}

// The later of two times.
fn later(moment: Moment, other: Moment) -> Moment
    ensures { IsLater moment other result }
{
    if is_up_to(other, moment) {
        moment
    } else {
        other
    }
}

/// The summary with a packet of this time more.
pub(crate) fn with_packet(summary: Option<Summary>, moment: Moment) -> Summary
    requires { packets_in summary + 1 < 2 ^ 32 }
    ensures packets { result.packets ≡ packets_in summary + 1 }
    ensures summary { (given : List PositionedRecord) (x : PositionedRecord) → time x.1 ≡ moment
        → SummaryOf given summary → IsSummary (given ++ x ∷ []) (summary_view result) }
{
    let Some(old) = summary else {
        return Summary {
            packets: 1,
            first: moment,
            last: moment,
        };
    };
    Summary {
        packets: old.packets + 1,
        first: earlier(old.first, moment),
        last: later(old.last, moment),
    }
}
