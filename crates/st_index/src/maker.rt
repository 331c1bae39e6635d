//! An index that is made packet by packet.

ghost use Rattle.std.specs.Prelude.{◌≡◌, ℕ, ◌<◌, ◌≤◌, ◌+◌, ◌*◌, ◌^◌, All, List};
ghost use Rattle.st_walk.specs.declared.text.Key.{Key};
ghost use Rattle.st_block.specs.declared.format.TheConstants.{BLOCK_HEAD, RECORD_HEAD};
ghost use Rattle.st_index.specs.PositionLists.{positions_at, AreDistinct, count_in};
ghost use Rattle.st_index.specs.Summaries.{packets_in};

use crate::lists::PositionLists;
use crate::summary::{Summary, with_packet};
use st_base::{NoMemory, RecordRef};
use st_block::{BLOCK_HEAD, RECORD_HEAD};
use std::alloc::Global;

/// The index of a block file that is being filled, packet by packet.
///
/// It keeps the position of each packet under each key that the packet has, and a summary.
/// `HasRecords` says which packets it has; these have rising positions.
#[derive(Drop)]
pub struct IndexMaker {
    alloc: Global,
    pub(crate) lists: PositionLists,
    /// None before the first packet.
    pub(crate) summary: Option<Summary>,
    /// The offset in the block file at which the next packet may begin.
    pub(crate) end: u64,
    ghost below: { (k : Key) → All (λ p. p < end) (positions_at lists k) },
    ghost few: { (ks : List Key) → AreDistinct ks → 4 * count_in lists ks + BLOCK_HEAD ≤ end },
    ghost counted: { RECORD_HEAD * packets_in summary ≤ end },
    ghost fits: { end ≤ 2 ^ 32 },
}

impl IndexMaker {
    ghost use Rattle.std.specs.Prelude.{◌≡◌, ℕ, ◌≤◌, ◌+◌, ◌^◌, [], ◌∷◌, length, is_none, OnOk, OnErr, IsSome};
    ghost use Rattle.st_index.specs.Maker.{HasRecords, IsUnchanged, Adds};

    /// A maker without packets. It takes no memory.
    pub fn new(alloc: Global) -> IndexMaker
        ensures none { HasRecords result [] }
        ensures end { result.end ≡ BLOCK_HEAD }
    {
        IndexMaker {
            alloc,
            lists: PositionLists::new(alloc),
            summary: None,
            end: BLOCK_HEAD as u64,
        }
    }

    /// Adds a packet whose head is at `position` in the block file, in bytes: at the end of the
    /// packet before it or later, and its own body ends at 2^32 or before.
    ///
    /// After `NoMemory` what was put is taken out again: the maker has the packets that it had, and
    /// gives the same rows.
    pub fn add(&mut self, r: RecordRef<'_>, position: u32) -> Result<(), NoMemory>
        requires after { self.old.end ≤ position }
        requires fits { position + (RECORD_HEAD + length r.body) ≤ 2 ^ 32 }
        // Which packets it has.
        ensures records { Adds self.old self.new (position, r.entry) result }
        ensures refused { OnErr result (IsUnchanged self.old self.new) }
        // Where the next one may begin, and that there is one now.
        ensures end { OnOk result
            (self.new.end ≡ position + (RECORD_HEAD + length r.entry.body)) }
        ensures some { OnOk result (IsSome self.new.summary) }
    {
        self.lists.add(self.alloc, r.body, r.sec, position)?;
        self.summary = Some(with_packet(self.summary, (r.sec, r.nsec)));
        self.end = u64::from(position) + (RECORD_HEAD + r.body.len()) as u64;
        Ok(())
    }

    /// Whether it has no packets.
    pub fn is_empty(&self) -> bool
        ensures { result ≡ is_none self.now.summary }
    {
        self.summary.is_none()
    }
}
