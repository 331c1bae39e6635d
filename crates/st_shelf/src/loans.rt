ghost use Rattle.std.specs.Prelude.{◌≡◌};
ghost use Rattle.st_shelf.specs.Loans.{no_loans, lend, take_back};

use st_disk::Kind;
use std::marker::Model;

/// What a shelf counts of the files that it lends: how many are out and were at most, and how often
/// those of blocks that came back were read, for how many bytes. Each count stops at the greatest
/// number of a u64.
#[derive(Drop)]
pub struct Loans {
    lent: u64,
    peak: u64,
    block_reads: u64,
    block_asked: u64,
}

impl Model for Loans {
    ghost use Rattle.st_shelf.specs.Loans.{LoansView};

    ghost Value = { LoansView };

    ghost view = { λ a. record {
      lent = a.lent;
      peak = a.peak;
      block_reads = a.block_reads;
      block_asked = a.block_asked;
    } };
}

impl Loans {
    /// No file was ever lent.
    pub fn none() -> Loans
        ensures { result ≡ no_loans }
    {
        Loans {
            lent: 0,
            peak: 0,
            block_reads: 0,
            block_asked: 0,
        }
    }

    /// One file more is out.
    pub fn lend(&mut self)
        ensures { self.new ≡ lend self.old }
    {
        self.lent = self.lent.saturating_add(1);
        self.peak = self.peak.max(self.lent);
    }

    /// A file of this kind came back, which was read so many times, for so many bytes.
    pub fn take_back(&mut self, kind: Kind, reads: u64, asked: u64)
        ensures { self.new ≡ take_back kind reads asked self.old }
    {
        self.lent = self.lent.saturating_sub(1);
        if kind == Kind::Block {
            self.block_reads = self.block_reads.saturating_add(reads);
            self.block_asked = self.block_asked.saturating_add(asked);
        }
    }

    /// The greatest number of files that were out at once.
    pub fn peak(&self) -> u64
        ensures { result ≡ self.now.peak }
    {
        self.peak
    }
}
