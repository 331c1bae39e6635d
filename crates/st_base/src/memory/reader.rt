ghost use Rattle.std.specs.Prelude.{◌≡◌, ◌+◌, ◌-◌, ◌^◌, ◌≤◌, ◌<◌, min, List, [], length, take, drop, IfOk, Some};

use crate::failures::{Failed, NoMemory};
use crate::memory::schedule::{is_listed, next_count};
use crate::readers::Reader;
use std::alloc::Global;
use std::marker::Model;

/// A file in memory, which fails at the reads that it is made to fail at.
#[derive(Drop)]
pub struct MemReader {
    bytes: Vec<u8>,
    fails: Vec<u32>,
    reads: u64,
    asked: u64,
    faults: u64,
}

impl Model for MemReader {
    ghost use Rattle.st_base.specs.MemoryViews.{ReaderView};

    ghost Value = { ReaderView };

    ghost view = { λ a. record {
      content = a.bytes.items;
      fails = a.fails.items;
      reads = a.reads;
      asked = a.asked;
      faults = a.faults;
    } };
}

impl MemReader {
    ghost use Rattle.st_base.specs.MemoryViews.{unread_file};

    /// A file of `bytes` that fails at the reads whose numbers stand in `fails`, counted from 0.
    pub fn over(alloc: Global, bytes: &[u8], fails: &[u32]) -> Result<MemReader, NoMemory>
        ensures { IfOk result (λ r. r ≡ unread_file bytes.now fails.now) }
    {
        let bytes = bytes.to_vec(alloc)?;
        let fails = fails.to_vec(alloc)?;
        Ok(MemReader {
            bytes,
            fails,
            reads: 0,
            asked: 0,
            faults: 0,
        })
    }
}

impl Reader for MemReader {
    ghost use Rattle.std.specs.Prelude.{Some, length, ◌≡◌};
    ghost use Rattle.st_base.specs.PlacedReads.{ReadsAt};
    ghost use Rattle.st_base.specs.Faults.{HasCause, CountsOn};
    ghost use Rattle.st_base.specs.MemoryViews.{ReadsOrFails};
    ghost use Rattle.std.proofs.Common.{rules};

    ghost Beside = { Unit {0} };

    ghost content = { λ r. Some r.content };

    ghost extent = { λ r. length r.content };

    ghost faults = { λ r. r.faults };

    ghost reads = { λ r. r.reads };

    ghost asked = { λ r. r.asked };

    ghost beside = { λ r. tt };

    ghost sized = { λ r bytes same. Prim.search rules };

    fn size(&self) -> u64 {
        self.bytes.len() as u64
    }

    fn read_at(&mut self, place: u64, out: &mut [u8]) -> Result<usize, Failed>
        // What every reader gives.
        ensures bytes { ReadsAt (Some self.old.content) (length self.old.content)
            place result out.new }
        ensures cause { HasCause self.old.faults self.new.faults result }
        ensures reads { CountsOn self.old.reads self.new.reads 1 }
        ensures asked { CountsOn self.old.asked self.new.asked (length out.old) }
        // Which calls fail, and what the file then is.
        ensures exact { ReadsOrFails self.old self.new out.old result }
    {
        let call = self.reads;
        self.reads = next_count(call);
        self.asked = self.asked.saturating_add(out.len() as u64);
        if is_listed(self.fails.as_slice(), call) {
            self.faults = next_count(self.faults);
            return Err(Failed);
        }
        Ok(copy_at(self.bytes.as_slice(), place, out))
    }
}

// Copies the bytes from `place` on into the start of `out`, as far as they go, and returns how many
// these are.
pub fn copy_at(bytes: &[u8], place: u64, out: &mut [u8]) -> usize
    ensures count { result ≡ min (length out.new) (length bytes.now - place) }
    ensures bytes { take result out.new ≡ take result (drop place bytes.now) }
{
    let rest = rest_from(bytes, place);
    let taken = rest.len().min(out.len());
    out.split_at_mut(taken)
        .0
        .copy_from_slice(rest.split_at(taken).0);
    taken
}

// The bytes from `place` on: none if it is past the end.
fn rest_from(bytes: &[u8], place: u64) -> &[u8]
    ensures { result.now ≡ drop place bytes.now }
{
    let at = (place as u128).min(bytes.len() as u128) as usize;
    bytes.split_at(at).1
}
