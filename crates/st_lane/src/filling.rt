ghost use Rattle.std.specs.Prelude.{◌≡◌, ◌≤◌, ◌<◌, ◌+◌, ◌∷◌, ◌++◌, [], List, length, OnOk, OnErr, IfOk, MatchResult, IsSome, Err};
ghost use Rattle.st_base.specs.Records.{Rec, InRange};
ghost use Rattle.st_base.specs.Faults.{HasCause, HasCauseOf};
ghost use Rattle.st_base.specs.Pieces.{Puts};
ghost use Rattle.st_block.specs.BlockText.{IsBlockSize, IsShort, room, blocks, block_text};
ghost use Rattle.st_block.specs.Scan.{PositionedRecord};
ghost use Rattle.st_block.specs.Builder.{HoldsRecords};
ghost use Rattle.st_index.specs.Maker.{HasRecords};
ghost use Rattle.st_index.specs.Write.{IsIndexOf};
ghost use Rattle.st_lane.specs.Filling.{last_block, Fills, IsPlace, Adds, Begins};

use st_base::{Failed, MemSink, NoMemory, RecordRef, Sink, put};
use st_block::{BLOCK_HEAD, BlockBuilder, MAX_BLOCKS, RECORD_HEAD, position_in};
use st_index::IndexMaker;
use st_table::BuildErr;
use std::alloc::Global;
use std::marker::Model;

/// Where a record has its place.
pub(crate) enum Place {
    /// In the block at hand.
    Here,
    /// In the next block.
    Next,
    /// In the next file: this one has no block left.
    Nowhere,
    /// In no block.
    TooLong,
}

/// Lends a record once more, by its fields.
fn again<'a>(r: &RecordRef<'a>) -> RecordRef<'a>
    ensures same { result ≡ r.now }
    ensures range { InRange r.now }
{
    RecordRef {
        sec: r.sec,
        nsec: r.nsec,
        orig: r.orig,
        body: r.body,
    }
}

/// Puts the block at hand, which has this number in its file, and begins a new one.
///
/// `Failed` comes only if the sink's `faults` rose in this call; a prefix of the block then follows
/// what the sink had.
fn put_block<S: Sink>(here: &mut BlockBuilder, number: u32, sink: &mut S) -> Result<(), Failed>
    requires some { 1 ≤ here.old.count }
    requires below { number < MAX_BLOCKS }
    // what is put, and the block that begins
    ensures bytes { (rs : List Rec) → HoldsRecords here.old rs
        → Puts (S.written sink.old) (S.written sink.new) (block_text here.old.size number rs)
        result }
    ensures size { here.new.size ≡ here.old.size }
    ensures none { HoldsRecords here.new [] }
    // the sink
    ensures cause { HasCause (S.faults sink.old) (S.faults sink.new) result }
    ensures rest { S.beside sink.new ≡ S.beside sink.old }
{
    let written = put(sink, here.finish(number));
    here.clear();
    written
}

/// What a lane keeps of its records: those of the block at hand, and the index of all.
///
/// `Fills` says which records these are. Sizes are in bytes.
#[derive(Drop)]
pub(crate) struct Filling {
    size: u32,
    /// How many blocks the file may have.
    most: u32,
    /// How many blocks were put.
    done: u32,
    here: BlockBuilder,
    maker: IndexMaker,
    records: u64,
}

impl Model for Filling {
    ghost use Rattle.std.specs.Coded.{codes};
    ghost use Rattle.st_index.specs.contracts.maker.IndexMaker as made;
    ghost use Rattle.st_lane.specs.Filling.{FillingView, IsSteady};

    ghost Value = { FillingView };

    ghost coded = { Prim.hlevel (codes, made.the_row.coded) };

    ghost view = { λ a. record {
      size = a.size;
      most = a.most;
      done = a.done;
      here = a.here;
      maker = a.maker;
      records = a.records;
    } };

    ghost invariant = { λ a. IsSteady (record {
      size = a.size;
      most = a.most;
      done = a.done;
      here = a.here;
      maker = a.maker;
      records = a.records;
    }) };
}

impl Filling {
    /// A filling without records, of a file of at most `most` blocks of `size` bytes. `NoMemory`
    /// comes if memory runs out.
    pub(crate) fn new(alloc: Global, size: u32, most: u32) -> Result<Filling, NoMemory>
        requires size { IsBlockSize size }
        requires some { 1 ≤ most }
        requires most { most ≤ MAX_BLOCKS }
        // what is kept
        ensures numbers { IfOk result
            (λ f. (f.size ≡ size) × (f.most ≡ most) × (f.records ≡ 0)) }
        ensures fills { IfOk result (λ f. Fills f []) }
    {
        let here = BlockBuilder::new(alloc, size)?;
        Ok(Filling {
            size,
            most,
            done: 0,
            here,
            maker: IndexMaker::new(alloc),
            records: 0,
        })
    }

    /// How many records there are.
    pub(crate) fn records(&self) -> u64
        ensures { result ≡ self.now.records }
    {
        self.records
    }

    /// Where a record with a body of `len` bytes has its place.
    pub(crate) fn place_for(&self, len: u32) -> Place
        ensures { (r : Rec) → length r.body ≡ len → IsPlace self.now r result }
    {
        if u64::from(len) + (BLOCK_HEAD + RECORD_HEAD) as u64 > u64::from(self.size) {
            return Place::TooLong;
        }
        if self.here.fits(len) {
            return Place::Here;
        }
        if self.done + 1 == self.most {
            return Place::Nowhere;
        }
        Place::Next
    }

    /// Adds a record to the block at hand.
    ///
    /// After `NoMemory` the records are as they were.
    pub(crate) fn join(&mut self, r: RecordRef<'_>) -> Result<(), NoMemory>
        requires { self.old.here.used + room r ≤ self.old.size }
        // which records there are
        ensures adds { Adds self.old self.new r.entry result }
        ensures size { (self.new.size ≡ self.old.size) × (self.new.most ≡ self.old.most) }
        ensures count { OnOk result (self.new.records ≡ self.old.records + 1) }
        ensures same { OnErr result (self.new.records ≡ self.old.records) }
    {
        let position = position_in(self.size, self.done, self.here.next_offset());
        match self.maker.add(again(&r), position) {
            Ok(()) => {}
            Err(error) => return Err(error),
        }
        self.here.add(r);
        self.records += 1;
        Ok(())
    }

    /// Puts the block at hand, and begins the next one with this record, which has its place there.
    ///
    /// The index takes the record first: after `NoMemory` nothing was put, and the records are as
    /// they were. `WriteFault` comes only if the sink's `faults` rose in this call; the records are
    /// lost, and a prefix of the block follows what the sink had.
    pub(crate) fn begin_next<S: Sink>(
        &mut self,
        r: RecordRef<'_>,
        sink: &mut S,
    ) -> Result<(), BuildErr>
        requires { IsPlace self.old r Place.Next }
        // what is kept
        ensures begins { (rs : List Rec) → Fills self.old rs
            → Begins (S.written sink.old) (S.written sink.new) self.old self.new r.entry rs result }
        ensures size { (self.new.size ≡ self.old.size) × (self.new.most ≡ self.old.most) }
        ensures count { MatchResult result (λ _. self.new.records ≡ self.old.records + 1)
            (λ _. self.new.records ≡ self.old.records) }
        // the sink
        ensures cause { HasCauseOf BuildErr.WriteFault (S.faults sink.old) (S.faults sink.new)
            result }
        ensures memory { result ≡ Err BuildErr.NoMemory → sink.new ≡ sink.old }
        ensures rest { S.beside sink.new ≡ S.beside sink.old }
    {
        let position = position_in(self.size, self.done + 1, BLOCK_HEAD as u32);
        match self.maker.add(again(&r), position) {
            Ok(()) => {}
            Err(NoMemory) => return Err(BuildErr::NoMemory),
        }
        let written = put_block(&mut self.here, self.done, sink);
        // After a fault the lane is broken. Its numbers go on to fit together.
        self.done += 1;
        self.here.add(r);
        match written {
            Ok(()) => {
                self.records += 1;
                Ok(())
            }
            Err(Failed) => Err(BuildErr::WriteFault),
        }
    }

    /// The index of all records, of which there is at least one. `NoMemory` comes if memory runs
    /// out.
    pub(crate) fn index_table(&self, alloc: Global) -> Result<MemSink, NoMemory>
        requires { 1 ≤ self.now.records }
        ensures { IfOk result (λ table. (given : List PositionedRecord)
            → HasRecords self.now.maker given → IsIndexOf given table.written) }
    {
        let mut table = MemSink::new(alloc, &[])?;
        match self.maker.write(alloc, &mut table) {
            Ok(_) => Ok(table),
            // The sink fails only if memory runs out.
            Err(_) => Err(NoMemory),
        }
    }

    /// Puts the block at hand, which has at least one record, as the last one of its file.
    ///
    /// `Failed` comes only if the sink's `faults` rose in this call; a prefix of the block then
    /// follows what the sink had.
    pub(crate) fn put_last<S: Sink>(self, sink: &mut S) -> Result<(), Failed>
        requires { 1 ≤ self.records }
        ensures bytes { (rs : List Rec) → Fills self rs
            → Puts (S.written sink.old) (S.written sink.new)
            (block_text self.size self.done (last_block (blocks self.size rs))) result }
        ensures cause { HasCause (S.faults sink.old) (S.faults sink.new) result }
        ensures rest { S.beside sink.new ≡ S.beside sink.old }
    {
        let Filling {
            size: _,
            most: _,
            done,
            mut here,
            maker: _,
            records: _,
        } = self;
        put_block(&mut here, done, sink)
    }
}
