//! A store over bytes in memory.

ghost use Rattle.std.specs.Prelude.{◌≡◌};
ghost use Rattle.st_shelf.specs.Loans.{no_loans};

use crate::store::Store;
use st_base::{Failed, NoMemory, SliceReader};
use st_shelf::{Kind, LentFile, Loans};
use std::marker::Model;

/// The stamp of the one pair of a [`SlicePair`].
pub const SLICE_STAMP: u64 = 1;

/// A store of one pair over bytes that are in memory already, for tests. It takes no memory, and no
/// file of it fails. A hold is refused only while 2^64 - 1 of them are out.
#[derive(Drop)]
pub struct SlicePair<'a> {
    block: &'a [u8],
    index: &'a [u8],
    // How many holds were taken, up to the greatest u64.
    asks: u64,
    // How many holds are out.
    held: u64,
    faults: u64,
    loans: Loans,
}

impl<'a> Model for SlicePair<'a> {
    ghost use Rattle.st_answer.specs.SlicePairs.{SlicePairView};

    ghost Value = { SlicePairView };

    ghost view = { λ a. record {
      block = a.block.now;
      index = a.index.now;
      asks = a.asks;
      held = a.held;
      faults = a.faults;
      loans = a.loans;
    } };
}

/// The hold of a [`SlicePair`].
pub struct SliceHold;

impl<'a> SlicePair<'a> {
    ghost use Rattle.st_answer.specs.SlicePairs.{new_pair};

    /// The pair of a block file and an index with these bytes, with stamp 1.
    pub fn over(block: &'a [u8], index: &'a [u8]) -> SlicePair<'a>
        ensures { result ≡ new_pair block.now index.now }
    {
        SlicePair {
            block,
            index,
            asks: 0,
            held: 0,
            faults: 0,
            loans: Loans::none(),
        }
    }
}

impl<'a> Store for SlicePair<'a> {
    type Held = SliceHold;

    type File = LentFile<SliceReader<'a>>;

    ghost use Rattle.std.specs.Prelude.{Some, None, [], ◌∷◌, ◌++◌};
    ghost use Rattle.std.proofs.Common.{rules};
    ghost use Rattle.st_answer.specs.SlicePairs.{slice_holds, slice_set, HasSameBytes};

    ghost id = { λ s. 0 };

    ghost holds = { λ s. slice_holds s };

    ghost loans = { λ s. s.loans };

    ghost faults = { λ s. s.faults };

    ghost becomes = { λ s t. HasSameBytes s t };

    ghost times_held = { λ s h. s.held };

    ghost size = { λ s h. 1 };

    ghost set = { λ s h. Some (slice_set s.block s.index) };

    ghost origin = { λ f. record { kind = f.kind; home = 0 } };

    ghost becomes_same = { λ s. Prim.search rules };

    ghost becomes_later = { λ a b c h k. Prim.search rules };

    ghost took_seen = { λ s events same. ([], Prim.search rules) };

    ghost keeps = { λ a b same. same };

    fn hold(&mut self) -> Result<SliceHold, NoMemory> {
        if self.held == u64::MAX {
            return Err(NoMemory);
        }
        self.held += 1;
        self.asks = self.asks.saturating_add(1);
        Ok(SliceHold)
    }

    fn release(&mut self, hold: SliceHold) {
        let SliceHold = hold;
        self.held -= 1;
    }

    fn count(&mut self, _hold: &SliceHold) -> usize {
        1
    }

    fn stamp_of(&mut self, _hold: &SliceHold, _i: usize) -> u64 {
        SLICE_STAMP
    }

    fn block_of(
        &mut self,
        _hold: &SliceHold,
        _i: usize,
    ) -> Result<LentFile<SliceReader<'a>>, Failed> {
        self.loans.lend();
        Ok(LentFile::lend(Kind::Block, SliceReader::over(self.block)))
    }

    fn index_of(
        &mut self,
        _hold: &SliceHold,
        _i: usize,
    ) -> Result<LentFile<SliceReader<'a>>, Failed> {
        self.loans.lend();
        Ok(LentFile::lend(Kind::Index, SliceReader::over(self.index)))
    }

    fn close_file(&mut self, file: LentFile<SliceReader<'a>>) {
        let back = file.come_back();
        if back.faults > 0 {
            self.faults = self.faults.saturating_add(1);
        }
        self.loans.take_back(back.kind, back.reads, back.asked);
    }
}
