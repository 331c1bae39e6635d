// What a run published and removed, and what it has to read of it.
use std::alloc::Global;
use std::fmt::{self, Display, Formatter};

/// A pair that was published: its stamp, and the one byte of its block file. The byte of its index
/// is the next one.
#[derive(Clone, Copy, Debug, PartialEq, Eq)]
pub(crate) struct Pair {
    pub(crate) stamp: u64,
    pub(crate) byte: u8,
}

/// What a failed call may have done.
#[derive(Clone, Copy, Debug, PartialEq, Eq)]
pub(crate) enum Doubt {
    Nothing,
    Published(u8),
    Removed,
}

/// The pairs that a hold has, as places among all that were published.
#[derive(Clone, Copy, Debug)]
pub(crate) struct Stretch {
    pub(crate) from: usize,
    pub(crate) to: usize,
}

/// What a run did, and what it found wrong.
#[derive(Clone, Copy, Debug)]
pub(crate) struct Seen {
    pub(crate) published: u64,
    pub(crate) removed: u64,
    pub(crate) read: u64,
    pub(crate) failed: u64,
    pub(crate) openings: u64,
    pub(crate) wrong: u64,
    pub(crate) parked: u64,
}

impl Display for Seen {
    fn fmt<W: fmt::Write>(&self, f: &mut Formatter<W>) -> fmt::Result {
        let Seen {
            published,
            removed,
            read,
            failed,
            openings,
            wrong,
            parked,
        } = *self;
        write!(
            f,
            "{published} published, {removed} removed, {read} pairs read, {failed} calls failed, \
             {openings} openings, {wrong} wrong, {parked} left parked"
        )
    }
}

/// All pairs that a run published, in order, of which the first ones are removed.
#[derive(Drop)]
pub(crate) struct Model {
    pairs: Vec<Pair>,
    removed: usize,
    doubt: Doubt,
    pub(crate) seen: Seen,
    /// Memory ran out, so nothing more is told by the run.
    pub(crate) short: bool,
}

impl Model {
    pub(crate) fn new(alloc: Global) -> Model {
        Model {
            pairs: Vec::new(alloc),
            removed: 0,
            doubt: Doubt::Nothing,
            seen: Seen {
                published: 0,
                removed: 0,
                read: 0,
                failed: 0,
                openings: 0,
                wrong: 0,
                parked: 0,
            },
            short: false,
        }
    }

    /// The pairs that are published now.
    pub(crate) fn now(&self) -> Stretch {
        Stretch {
            from: self.removed,
            to: self.pairs.len(),
        }
    }

    /// The pair with this index in a stretch.
    pub(crate) fn pair(&self, stretch: Stretch, i: usize) -> Option<Pair> {
        let place = stretch.from.saturating_add(i);
        if place >= stretch.to {
            return None;
        }
        self.pairs.as_slice().get(place).copied()
    }

    pub(crate) fn is_wrong(&mut self) {
        self.seen.wrong = self.seen.wrong.saturating_add(1);
    }

    pub(crate) fn failed(&mut self) {
        self.seen.failed = self.seen.failed.saturating_add(1);
    }

    pub(crate) fn reads(&mut self) {
        self.seen.read = self.seen.read.saturating_add(1);
    }

    pub(crate) fn leaves_parked(&mut self) {
        self.seen.parked = self.seen.parked.saturating_add(1);
    }

    /// Whether a publication or a removal failed since the spool was opened.
    pub(crate) fn is_in_doubt(&self) -> bool {
        self.doubt != Doubt::Nothing
    }

    /// The byte of the next pair.
    pub(crate) fn next_byte(&self) -> u8 {
        (self.seen.published % 251) as u8
    }

    /// A pair is published. Its stamp is above all others.
    pub(crate) fn publishes(&mut self, pair: Pair) {
        if let Some(last) = self.pairs.as_slice().last()
            && last.stamp >= pair.stamp
        {
            self.is_wrong();
        }
        if let Err(_) = self.pairs.push(pair) {
            self.short = true;
        }
        self.seen.published = self.seen.published.saturating_add(1);
    }

    /// An ageing removed a pair, or found no more than the limit.
    pub(crate) fn ages(&mut self, limit: u32, removed: bool) {
        let now = self.now();
        if removed != (now.to.saturating_sub(now.from) > limit as usize) {
            self.is_wrong();
        }
        if removed {
            self.removed = self.removed.saturating_add(1);
            self.seen.removed = self.seen.removed.saturating_add(1);
        }
    }

    /// A call failed, and may have done this.
    pub(crate) fn doubts(&mut self, doubt: Doubt) {
        self.failed();
        self.doubt = doubt;
    }

    /// A spool was opened that has so many pairs, of which these are the first stamp and the last.
    /// If they are not those that were published, what was in doubt was done.
    pub(crate) fn opens(&mut self, count: usize, ends: Option<(u64, u64)>) {
        self.seen.openings = self.seen.openings.saturating_add(1);
        let now = self.now();
        let known = now.to.saturating_sub(now.from);
        let doubt = self.doubt;
        self.doubt = Doubt::Nothing;
        if let Doubt::Published(byte) = doubt
            && count == known.saturating_add(1)
            && let Some((_, stamp)) = ends
        {
            self.publishes(Pair { stamp, byte });
        } else if doubt == Doubt::Removed && count.saturating_add(1) == known {
            self.removed = self.removed.saturating_add(1);
        }
        let now = self.now();
        let first = self.pair(now, 0).map(|pair| pair.stamp);
        if now.to.saturating_sub(now.from) != count || first != ends.map(|(first, _)| first) {
            self.is_wrong();
        }
    }
}
