ghost use Rattle.std.specs.Prelude.{◌≡◌, ◌≤◌, ◌<◌, ◌+◌, ◌-◌, ◌*◌, ◌%◌, ◌^◌, length, drop, None, Some, Err, IfOk, OnErr, IfErr, OnOk, IfSome, List, ℕ, Ok, option_map};
ghost use Rattle.st_base.specs.Faults.{CountsOn, HasCauseOf};
ghost use Rattle.st_base.specs.Records.{Rec};
ghost use Rattle.st_base.specs.PlacedReads.{HasPart, IsSameFile};
ghost use Rattle.st_block.specs.Checks.{room_at, captured_length, record_at};
ghost use Rattle.st_block.specs.ScanView.{bytes_of, load_reads, IsNotDamage};

use crate::errors::BlockErr;
use crate::fields::{captured_at, number_at};
use crate::format::{BLOCK_HEAD, MAX_BLOCKS, MAX_NSEC, NSEC_AT, ORIG_AT, RECORD_HEAD, SEC_AT};
use crate::scan::block::check_block;
use crate::sizes::room_of;
use st_base::{Damage, NoMemory, Octets, Reader, Record, read_whole};
use std::alloc::Global;
use std::marker::Model;

/// What a scan has come to: the block that was read last, and where in it the next record is.
#[derive(Drop)]
pub struct ScanState {
    size: u32,
    blocks: u32,
    done: u32,
    before: Option<usize>,
    block: Option<Vec<u8>>,
    at: usize,
    left: u32,
    stopped: Option<Damage>,
}

impl Model for ScanState {
    ghost use Rattle.std.specs.Prelude.{option_map};
    ghost use Rattle.st_block.specs.ScanView.{ScanView, IsSoundScan, bytes_of};

    ghost Value = { ScanView };

    ghost view = { λ a. record {
      size = a.size;
      blocks = a.blocks;
      done = a.done;
      before = a.before;
      block = bytes_of (option_map (λ v. v.items) a.block);
      at = a.at;
      left = a.left;
      stopped = a.stopped;
    } };

    ghost invariant = { λ a. IsSoundScan (record {
      size = a.size;
      blocks = a.blocks;
      done = a.done;
      before = a.before;
      block = bytes_of (option_map (λ v. v.items) a.block);
      at = a.at;
      left = a.left;
      stopped = a.stopped;
    }) };
}

/// The bytes of a block that may not be there yet.
fn bytes_in(block: &Option<Vec<u8>>) -> &[u8]
    ensures { result.now ≡ bytes_of (option_map (λ v. v.items) block.now) }
{
    match block {
        Some(block) => block.as_slice(),
        None => &[],
    }
}

/// The record at the start, with a copy of its body, in one allocation.
#[tactic(auto, unfolding(crate::specs::Checks::record_at))]
fn record_of(alloc: Global, bytes: &[u8]) -> Result<Record, NoMemory>
    requires fits { room_at bytes.now ≤ length bytes.now }
    requires below { (record_at bytes.now).nsec ≤ MAX_NSEC }
    ensures { IfOk result (λ r. r ≡ record_at bytes.now) }
{
    let len = captured_at(bytes) as usize;
    let body = match Octets::copy_of(alloc, bytes.split_at(RECORD_HEAD).1.split_at(len).0) {
        Ok(body) => body,
        Err(error) => return Err(error),
    };
    Ok(Record {
        sec: number_at(SEC_AT, bytes),
        nsec: number_at(NSEC_AT, bytes),
        orig: number_at(ORIG_AT, bytes),
        body,
    })
}

/// The `size` bytes of the file from `place` on, in memory that was taken before or in one
/// allocation.
fn read_block<R: Reader>(
    alloc: Global,
    memory: Option<Vec<u8>>,
    file: &mut R,
    place: u64,
    size: u32,
) -> Result<Vec<u8>, BlockErr>
    requires inside { place + size ≤ R.extent file.old }
    // what comes
    ensures bytes { IfOk result
        (λ v. (length v.items ≡ size) × HasPart (R.content file.old) place v.items) }
    ensures outside { IfErr result IsNotDamage }
    ensures cause { HasCauseOf BlockErr.ReadFault (R.faults file.old) (R.faults file.new) result }
    // what the file was asked
    ensures reads { CountsOn (R.reads file.old) (R.reads file.new) (load_reads result) }
    ensures asked { CountsOn (R.asked file.old) (R.asked file.new) (size * load_reads result) }
    // what stays
    ensures same { IsSameFile (R.content file.old) (R.content file.new)
        (R.extent file.old) (R.extent file.new) (R.beside file.old) (R.beside file.new) }
{
    let mut block = match memory {
        Some(block) => block,
        None => Vec::new(alloc),
    };
    match block.resize(size as usize, 0) {
        Ok(()) => {}
        Err(_) => return Err(BlockErr::NoMemory),
    }
    match read_whole(file, place, block.as_mut_slice()) {
        Ok(()) => Ok(block),
        Err(_) => Err(BlockErr::ReadFault),
    }
}

impl ScanState {
    ghost use Rattle.st_block.specs.BlockText.{IsBlockSize};
    ghost use Rattle.st_block.specs.ScanView.{start_view, rest_of_block, reached_offset, after_record, LoadsBlock, ReadsOnce};
    ghost use Rattle.st_block.specs.Scan.{PositionedRecord, HasGiven, GivesNext, PassesRecord, Follows, StaysStopped};

    /// A scan before the first of `blocks` blocks of `size` bytes.
    pub fn new(size: u32, blocks: u32) -> ScanState
        requires size { IsBlockSize size }
        requires blocks { blocks ≤ MAX_BLOCKS }
        ensures { result ≡ start_view size blocks }
    {
        ScanState {
            size,
            blocks,
            done: 0,
            before: None,
            block: None,
            at: 0,
            left: 0,
            stopped: None,
        }
    }

    /// The next record of the block at hand, with its position. After a refusal it is
    /// where it was.
    fn give(&mut self, alloc: Global) -> Result<Option<(u32, Record)>, BlockErr>
        requires { 1 ≤ self.old.left }
        ensures passes { PassesRecord self.old self.new result }
        ensures follows { IfOk result (λ o. IfSome o (Follows self.old self.new)) }
    {
        let bytes = bytes_in(&self.block).split_at(self.at).1;
        let room = room_of(captured_at(bytes)) as usize;
        let position = self.size * (self.done - 1) + self.at as u32;
        match record_of(alloc, bytes) {
            Ok(packet) => {
                self.at += room;
                self.left -= 1;
                Ok(Some((position, packet)))
            }
            Err(NoMemory) => Err(BlockErr::NoMemory),
        }
    }

    /// Reads the next block and checks it whole. After damage it has
    /// stopped, and after another refusal it is where it was.
    fn load<R: Reader>(&mut self, alloc: Global, file: &mut R) -> Result<(), BlockErr>
        requires more { (self.old.left ≡ 0) × (self.old.done < self.old.blocks) }
        requires inside { self.old.size * self.old.blocks ≤ R.extent file.old }
        // what comes
        ensures loads { LoadsBlock self.old (R.content file.old) self.new result }
        ensures on { OnOk result (reached_offset self.old ≤ reached_offset self.new) }
        ensures file { (self.new.size ≡ self.old.size) × (self.new.blocks ≡ self.old.blocks) }
        ensures cause { HasCauseOf BlockErr.ReadFault
            (R.faults file.old) (R.faults file.new) result }
        // what the file was asked
        ensures asked { CountsOn (R.reads file.old) (R.reads file.new) (load_reads result)
            × CountsOn (R.asked file.old) (R.asked file.new) (self.old.size * load_reads result) }
        // what stays
        ensures same { IsSameFile (R.content file.old) (R.content file.new)
            (R.extent file.old) (R.extent file.new) (R.beside file.old) (R.beside file.new) }
    {
        let place = self.size as u64 * self.done as u64;
        let memory = self.block.take();
        let block = match read_block(alloc, memory, file, place, self.size) {
            Ok(block) => block,
            Err(error) => return Err(error),
        };
        match check_block(self.done, self.before, block.as_slice()) {
            Ok(layout) => {
                self.before = Some(layout.end);
                self.left = layout.count;
                self.at = BLOCK_HEAD;
                self.done += 1;
                self.block = Some(block);
                Ok(())
            }
            Err(damage) => {
                self.stopped = Some(damage);
                Err(BlockErr::Damaged(damage))
            }
        }
    }

    /// The next record of the file with its position, or `None` at the file's end.
    pub fn next_in<R: Reader>(
        &mut self,
        alloc: Global,
        file: &mut R,
    ) -> Result<Option<(u32, Record)>, BlockErr>
        requires inside { self.old.size * self.old.blocks ≤ R.extent file.old }
        // what comes
        ensures gives { (bytes : List ℕ) (given : List PositionedRecord)
            → R.content file.old ≡ Some bytes → HasGiven self.old bytes given
            → GivesNext bytes given self.new result }
        ensures stopped { StaysStopped self.old self.new file.old file.new result }
        ensures follows { IfOk result (λ o. IfSome o (Follows self.old self.new)) }
        ensures file { (self.new.size ≡ self.old.size) × (self.new.blocks ≡ self.old.blocks) }
        ensures cause { HasCauseOf BlockErr.ReadFault
            (R.faults file.old) (R.faults file.new) result }
        // what the file was asked
        ensures reads { ReadsOnce self.old self.new result
            (R.reads file.old) (R.reads file.new) (R.asked file.old) (R.asked file.new) }
        // what stays
        ensures same { IsSameFile (R.content file.old) (R.content file.new)
            (R.extent file.old) (R.extent file.new) (R.beside file.old) (R.beside file.new) }
    {
        if let Some(damage) = self.stopped {
            return Err(BlockErr::Damaged(damage));
        }
        if self.left != 0 {
            return self.give(alloc);
        }
        if self.done == self.blocks {
            return Ok(None);
        }
        match self.load(alloc, file) {
            Ok(()) => self.give(alloc),
            Err(error) => Err(error),
        }
    }
}
