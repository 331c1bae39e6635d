ghost use Rattle.std.specs.Prelude.{Option, ◌≡◌, ◌≤◌, ◌<◌, ◌+◌, ◌∷◌, ◌++◌, ◌↔◌, [], List, ℕ, false, Some, Ok, Err, length, OnOk, IfOk, IfErr, MatchResult};
ghost use Rattle.st_base.specs.Records.{Rec};
ghost use Rattle.st_base.specs.Faults.{HasCauseOf};
ghost use Rattle.st_block.specs.BlockText.{IsBlockSize, IsShort};
ghost use Rattle.st_block.specs.declared.format.TheConstants.{MAX_BLOCKS};
ghost use Rattle.st_lane.specs.Cut.{EndsList};
ghost use Rattle.st_lane.specs.Filling.{IsFull};
ghost use Rattle.st_lane.specs.Lane.{AreOfKinds, Represents, Pushes, pushed_count, RefusesLong, Leaves, Begun, IsSameLane};

use crate::errors::{LaneErr, LaneRefused, Pushed, SealErr};
use crate::filling::{Filling, Place};
use crate::sealing::{put_pair, seal_both};
use st_base::{Failed, NoMemory, RecordRef};
use st_shelf::{Draft, End, SealedPair};
use st_table::BuildErr;
use std::alloc::Global;
use std::marker::Model;

/// One pair that is being filled: a draft of a block file, and one of its index.
///
/// Contracts see it as a `LaneView`; `Represents` says which records it has. Packets are in memory
/// for one block only: the draft of the block file has all other blocks. It must be spent, by
/// `seal` or `give_up`. After a fault it is broken, and can only be given up.
pub struct Lane<T: Draft> {
    alloc: Global,
    block: T,
    index: T,
    filling: Filling,
    broken: bool,
}

impl<T: Draft> Model for Lane<T> {
    ghost use Rattle.std.specs.Coded.{codes};
    ghost use Rattle.st_index.specs.contracts.maker.IndexMaker as made;
    ghost use Rattle.st_lane.specs.Lane.{LaneView, AreOfKinds};

    ghost Value = { LaneView T };

    ghost coded = { Prim.hlevel (codes, made.the_row.coded) };

    ghost view = { λ a. record {
      block = a.block;
      index = a.index;
      filling = a.filling;
      broken = a.broken;
    } };

    ghost invariant = { λ a. AreOfKinds (T.origin a.block) (T.origin a.index) };
}

impl<T: Draft> Lane<T> {
    ghost use Rattle.st_lane.specs.Sealing.{AreWhole, FailsToSeal};

    /// A lane without records, for a block file of at most `blocks` blocks of `size` bytes. If both
    /// drafts are empty it represents no records.
    ///
    /// `LaneRefused` comes if memory runs out, and hands both drafts back.
    pub fn new(
        alloc: Global,
        block: T,
        index: T,
        size: u32,
        blocks: u32,
    ) -> Result<Lane<T>, LaneRefused<T>>
        requires size { IsBlockSize size }
        requires some { 1 ≤ blocks }
        requires most { blocks ≤ MAX_BLOCKS }
        requires kinds { AreOfKinds (T.origin block) (T.origin index) }
        // the lane, or the drafts
        ensures begun { IfOk result (Begun block index size blocks) }
        ensures records { T.written block ≡ Some [] → T.written index ≡ Some []
            → IfOk result (λ l. Represents T.written l []) }
        ensures back { IfErr result (λ e. (e.block ≡ block) × (e.index ≡ index)) }
    {
        match Filling::new(alloc, size, blocks) {
            Ok(filling) => Ok(Lane {
                alloc,
                block,
                index,
                filling,
                broken: false,
            }),
            Err(NoMemory) => Err(LaneRefused { block, index }),
        }
    }

    /// How many records the lane has. A broken lane has those that it had before the fault.
    pub fn records(&self) -> u64
        ensures { result ≡ self.now.filling.records }
    {
        self.filling.records()
    }

    /// Whether a write of this lane failed.
    pub fn is_broken(&self) -> bool
        ensures { result ≡ self.now.broken }
    {
        self.broken
    }

    /// Hands the drafts back, that of the block file first.
    pub fn give_up(self) -> (T, T)
        ensures { result ≡ (self.block, self.index) }
    {
        let Lane {
            alloc: _alloc,
            block,
            index,
            filling: _filling,
            broken: _broken,
        } = self;
        (block, index)
    }

    /// Adds a record after the others, or says why it was not added. The lane isn't broken.
    ///
    /// `Ready` adds nothing. It comes if and only if a block would take the record, the lane has
    /// records, the block at hand has no room for it and is the last one allowed. `TooLong` comes
    /// if and only if the body is longer than the block size less the two heads, 96 bytes.
    /// `DiskFault` comes only if the `faults` of the draft of the block file rose in this call; the
    /// lane is then broken, and names the records that it had as lost. After `TooLong` and
    /// `NoMemory` the lane has the records that it had.
    /// Source: docs/FORMAT.md, "Block file".
    pub fn push(&mut self, r: RecordRef<'_>) -> Result<Pushed, LaneErr>
        requires { self.old.broken ≡ false }
        // which records it then has
        ensures records { (rs : List Rec) → Represents T.written self.old rs
            → Pushes T.written self.old self.new rs r.entry result }
        ensures leaves { Leaves self.old self.new result
            × (self.new.filling.records ≡ pushed_count self.old.filling.records result) }
        // when each answer comes
        ensures ready { (result ≡ Ok Pushed.Ready) ↔ IsFull self.old.filling r.entry }
        ensures ends { (rs : List Rec) → Represents T.written self.old rs
            → (result ≡ Ok Pushed.Ready) ↔ (IsShort self.old.filling.size r.entry
            × EndsList self.old.filling.size self.old.filling.most rs r.entry) }
        ensures long { RefusesLong self.old.filling.size r.entry result }
        // the drafts
        ensures cause { HasCauseOf (LaneErr.DiskFault self.old.filling.records)
            (T.faults self.old.block) (T.faults self.new.block) result }
        ensures rest { IsSameLane T.origin self.old self.new }
    {
        let len = r.body.len() as u32;
        match self.filling.place_for(len) {
            Place::TooLong => Err(LaneErr::TooLong { len }),
            Place::Nowhere => Ok(Pushed::Ready),
            Place::Here => match self.filling.join(r) {
                Ok(()) => Ok(Pushed::Kept),
                Err(NoMemory) => Err(LaneErr::NoMemory),
            },
            Place::Next => match self.filling.begin_next(r, &mut self.block) {
                Ok(()) => Ok(Pushed::Kept),
                Err(BuildErr::NoMemory) => Err(LaneErr::NoMemory),
                Err(BuildErr::WriteFault) => {
                    self.broken = true;
                    Err(LaneErr::DiskFault {
                        lost: self.filling.records(),
                    })
                }
            },
        }
    }

    /// Writes the last block and the index, and seals both files: the pair of the lane's records,
    /// of which there is at least one. The lane isn't broken.
    ///
    /// `NoMemory` comes before anything is written, and hands the lane back as it was. `DiskFault`
    /// comes only if a draft's `faults` rose in this call; both drafts come back, sealed or not,
    /// and the lane's records are lost.
    /// Source: docs/FORMAT.md, "Index rows".
    pub fn seal(self) -> Result<SealedPair<T>, SealErr<T>>
        requires whole { self.broken ≡ false }
        requires some { 1 ≤ self.filling.records }
        // the pair
        ensures pair { (rs : List Rec) → Represents T.written self rs
            → IfOk result (λ p. AreWhole self.filling.size rs (T.sealed_bytes p.block)
            (T.sealed_bytes p.index)) }
        ensures origins { IfOk result (λ p. (T.sealed_origin p.block ≡ T.origin self.block)
            × (T.sealed_origin p.index ≡ T.origin self.index)) }
        ensures kinds { IfOk result
            (λ p. AreOfKinds (T.sealed_origin p.block) (T.sealed_origin p.index)) }
        ensures still { IfOk result (λ p. (T.sealed_faults p.block ≡ T.faults self.block)
            × (T.sealed_faults p.index ≡ T.faults self.index)) }
        // what comes back
        ensures failed { IfErr result
            (FailsToSeal T.origin T.sealed_origin T.faults T.sealed_faults self) }
    {
        // The index is made in memory first: after this only a draft can fail.
        let table = match self.filling.index_table(self.alloc) {
            Ok(table) => table,
            Err(NoMemory) => return Err(SealErr::NoMemory { lane: self }),
        };
        let Lane {
            alloc: _alloc,
            mut block,
            mut index,
            filling,
            broken: _broken,
        } = self;
        let lost = filling.records();
        if let Err(Failed) = put_pair(filling, table.bytes(), &mut block, &mut index) {
            return Err(SealErr::DiskFault {
                lost,
                block: End::Unsealed(block),
                index: End::Unsealed(index),
            });
        }
        match seal_both(block, index) {
            Ok(pair) => Ok(pair),
            Err((block, index)) => Err(SealErr::DiskFault { lost, block, index }),
        }
    }
}
