ghost use Rattle.std.specs.Prelude.{◌≡◌, ◌≤◌, ◌<◌, ◌+◌, ◌-◌, ◌∷◌, ◌++◌, ◌↔◌, [], List, ℕ, length, drop, replicate, nat_eq, if◌then◌else◌, IfOk, IsTrue};
ghost use Rattle.st_base.specs.Records.{Rec, time};
ghost use Rattle.st_block.specs.BlockText.{IsBlockSize, padded_len, room, block_text};
ghost use Rattle.st_block.specs.Builder.{HoldsRecords, KeepsRecords};

mod bytes;

use crate::builder::bytes::{block_head_bytes, put_at, put_record};
use crate::format::{BLOCK_HEAD, MAX_BLOCKS, RECORD_HEAD};
use crate::sizes::room_of;
use st_base::{NoMemory, RecordRef};
use std::alloc::Global;
use std::marker::Model;

/// A block that is being built: records one after the other, each padded with zeros to a multiple
/// of 16 bytes.
///
/// Contracts see it as a `BlockBuilderView`; `HoldsRecords` says which records were added. Offsets
/// and sizes are in bytes. It takes memory when it is made, and none afterwards.
#[derive(Drop)]
pub struct BlockBuilder {
    size: u32,
    used: u32,
    count: u32,
    last: u32,
    first_time: (u32, u32),
    last_time: (u32, u32),
    bytes: Vec<u8>,
}

impl Model for BlockBuilder {
    ghost use Rattle.std.specs.Prelude.{◌≡◌, ◌+◌, ◌≤◌, vec_len};
    ghost use Rattle.st_block.specs.Builder.{BlockBuilderView, IsSoundBuilder};

    ghost Value = { BlockBuilderView };

    ghost view = { λ a. record {
      size = a.size;
      used = a.used;
      count = a.count;
      last = a.last;
      first_time = (a.first_time.0, a.first_time.1);
      last_time = (a.last_time.0, a.last_time.1);
      bytes = a.bytes.items;
    } };

    ghost invariant = { λ a. IsSoundBuilder (record {
      size = a.size;
      used = a.used;
      count = a.count;
      last = a.last;
      first_time = (a.first_time.0, a.first_time.1);
      last_time = (a.last_time.0, a.last_time.1);
      bytes = a.bytes.items;
    }) };
}

/// The time of the first record, once this one is added.
fn first_time(count: u32, first: (u32, u32), r: &RecordRef<'_>) -> (u32, u32)
    ensures { (result.0, result.1) ≡ (if nat_eq count 0 then time r.now else (first.0, first.1)) }
{
    if count == 0 {
        return (r.sec, r.nsec);
    }
    first
}

impl BlockBuilder {
    ghost use Rattle.std.specs.Borrow.{sem};
    ghost use Rattle.std.specs.Io.BufRead.{Rests};
    ghost use Rattle.st_block.specs.contracts.builder.BlockBuilder.{the_row};

    /// A block of `size` bytes without records. It takes `size` bytes of memory.
    ///
    /// Source: docs/FORMAT.md, "Block file".
    pub fn new(alloc: Global, size: u32) -> Result<BlockBuilder, NoMemory>
        requires { IsBlockSize size }
        ensures { IfOk result (λ b. (b.size ≡ size) × HoldsRecords b []) }
    {
        let bytes = vec![in alloc; 0; size as usize]?;
        Ok(BlockBuilder {
            size,
            used: BLOCK_HEAD as u32,
            count: 0,
            last: 0,
            first_time: (0, 0),
            last_time: (0, 0),
            bytes,
        })
    }

    /// Whether a record with a body of `len` bytes fits after those that were added.
    pub fn fits(&self, len: u32) -> bool
        ensures { IsTrue result ↔ (self.now.used + (RECORD_HEAD + padded_len len) ≤ self.now.size) }
    {
        u64::from(self.used) + room_of(len) <= u64::from(self.size)
    }

    /// The offset in the block at which the head of the next record begins.
    pub fn next_offset(&self) -> u32
        ensures { result ≡ self.now.used }
    {
        self.used
    }

    /// Adds a record after the others, and answers the offset of its head in the block.
    pub fn add(&mut self, r: RecordRef<'_>) -> u32
        requires { self.old.used + room r ≤ self.old.size }
        // where it is, and what the builder keeps
        ensures offset { result ≡ self.old.used }
        ensures size { self.new.size ≡ self.old.size }
        ensures used { self.new.used ≡ self.old.used + room r.entry }
        ensures count { self.new.count ≡ self.old.count + 1 }
        // which records it holds
        ensures records { (rs : List Rec) → HoldsRecords self.old rs
            → HoldsRecords self.new (rs ++ r.entry ∷ []) }
    {
        let at = self.used;
        put_record(self.bytes.as_mut_slice(), self.count, self.last, at, &r);
        self.first_time = first_time(self.count, self.first_time, &r);
        self.last_time = (r.sec, r.nsec);
        self.last = at;
        self.count += 1;
        self.used = at + room_of(r.body.len() as u32) as u32;
        at
    }

    /// The bytes of the block, whose number in its file is `number`, counted from 0. More records
    /// may follow.
    ///
    /// Source: docs/FORMAT.md, "Block file".
    pub fn finish(&mut self, number: u32) -> &[u8]
        requires some { 1 ≤ self.old.count }
        requires below { number < MAX_BLOCKS }
        // what the builder keeps
        ensures* after { sem 𝓛 (Rests the_row self.entry (λ d. KeepsRecords self.old d)) }
        // the block
        ensures text { (rs : List Rec) → HoldsRecords self.old rs
            → result.now ≡ block_text self.old.size number rs }
        ensures size { length result.now ≡ self.old.size }
    {
        let head = block_head_bytes(
            self.size,
            number,
            self.count,
            self.used,
            self.first_time,
            self.last_time,
        );
        put_at(self.bytes.as_mut_slice(), 0, &head);
        self.bytes.as_slice()
    }

    /// Takes all records out, and begins a new block of the same size.
    pub fn clear(&mut self)
        ensures size { self.new.size ≡ self.old.size }
        ensures records { HoldsRecords self.new [] }
    {
        self.bytes.as_mut_slice().fill(0);
        self.used = BLOCK_HEAD as u32;
        self.count = 0;
        self.last = 0;
    }
}
