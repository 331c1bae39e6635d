ghost use Rattle.std.specs.Prelude.{◌≡◌, ◌+◌, ◌-◌, ◌^◌, ◌≤◌, min, List, [], length, take, drop, Some};

use crate::failures::Failed;
use crate::memory::reader::copy_at;
use crate::memory::schedule::next_count;
use crate::readers::Reader;
use std::marker::Model;

/// A file over bytes that lie in memory already. It takes no memory and never fails.
///
/// Contracts see it as a [`MemReader`](crate::MemReader) of which no read fails.
#[derive(Drop)]
pub struct SliceReader<'a> {
    bytes: &'a [u8],
    reads: u64,
    asked: u64,
}

impl<'a> Model for SliceReader<'a> {
    ghost use Rattle.std.specs.Prelude.{[]};
    ghost use Rattle.st_base.specs.MemoryViews.{ReaderView};

    ghost Value = { ReaderView };

    ghost view = { λ a. record {
      content = a.bytes.now;
      fails = [];
      reads = a.reads;
      asked = a.asked;
      faults = 0;
    } };
}

impl<'a> SliceReader<'a> {
    ghost use Rattle.st_base.specs.MemoryViews.{unread_file};

    /// A file of `bytes`, of which nothing was read.
    pub fn over(bytes: &'a [u8]) -> SliceReader<'a>
        ensures { result ≡ unread_file bytes.now [] }
    {
        SliceReader {
            bytes,
            reads: 0,
            asked: 0,
        }
    }
}

impl<'a> Reader for SliceReader<'a> {
    ghost use Rattle.std.specs.Prelude.{Some, length, ◌≡◌};
    ghost use Rattle.std.proofs.Common.{rules};

    ghost Beside = { Unit {0} };

    ghost content = { λ r. Some r.content };

    ghost extent = { λ r. length r.content };

    ghost faults = { λ r. 0 };

    ghost reads = { λ r. r.reads };

    ghost asked = { λ r. r.asked };

    ghost beside = { λ r. tt };

    ghost sized = { λ r bytes same. Prim.search rules };

    fn size(&self) -> u64 {
        self.bytes.len() as u64
    }

    fn read_at(&mut self, place: u64, out: &mut [u8]) -> Result<usize, Failed> {
        self.reads = next_count(self.reads);
        self.asked = self.asked.saturating_add(out.len() as u64);
        Ok(copy_at(self.bytes, place, out))
    }
}
