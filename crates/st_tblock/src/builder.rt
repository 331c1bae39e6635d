ghost use Rattle.std.specs.Prelude.{◌≡◌, ◌≤◌, ◌<◌, ◌-◌, ◌*◌, ◌+◌, ◌^◌, ◌++◌, ◌∷◌, [], List, ℕ, length, take, drop, option_map, vec_len, is_none, IfOk, OnOk, OnErr, IsTrue};
ghost use Rattle.std.specs.Vec.{vec_capacity};
ghost use Rattle.byteorder.specs.Endian.{little_bytes};
ghost use Rattle.st_tblock.specs.Block.{RowView, key_or_empty, is_above, IsBlock};
ghost use Rattle.st_tblock.specs.Builder.{EntryBlockView, empty, entry_text, shared_of, added, block_size, restarts_text, block_text, HasRows, IsSound};

use crate::format::RESTART_SIZE;
use crate::last_key::{last_or_empty, set_key};
use crate::prefix::common;
use crate::varint::put_varint;
use st_base::NoMemory;
use std::alloc::Global;
use std::marker::Model;

/// Puts an entry after `text`. An error may leave a part of it there.
#[tactic(auto, unfolding(crate::specs::Builder::entry_text))]
fn put_entry(text: &mut Vec<u8>, shared: usize, key: &[u8], value: &[u8]) -> Result<(), NoMemory>
    requires { shared ≤ length key.now }
    ensures ok { OnOk result
        (text.new.items ≡ text.old.items ++ entry_text shared key.now value.now) }
    ensures kept { take (length text.old.items) text.new.items ≡ text.old.items }
{
    let unshared = key.split_at(shared).1;
    text.extend_from_slice(put_varint(shared as u64).as_slice())?;
    text.extend_from_slice(put_varint(unshared.len() as u64).as_slice())?;
    text.extend_from_slice(put_varint(value.len() as u64).as_slice())?;
    text.extend_from_slice(unshared)?;
    text.extend_from_slice(value)?;
    Ok(())
}

/// Puts the restarts and their number after `text`. An error may leave a part of them there.
fn put_restarts(text: &mut Vec<u8>, restarts: &[u32]) -> Result<(), NoMemory>
    requires { length restarts.now < 2 ^ 32 }
    ensures ok { OnOk result
        (text.new.items ≡ text.old.items ++ restarts_text restarts.now
        ++ little_bytes 4 (length restarts.now)) }
    ensures kept { take (length text.old.items) text.new.items ≡ text.old.items }
{
    'restarts: for restart in restarts {
        text.extend_from_slice(&restart.to_le_bytes())?;
    }
    text.extend_from_slice(&(restarts.len() as u32).to_le_bytes())?;
    Ok(())
}

/// A block that is being built: entries in the order of their keys, each without the bytes that its
/// key shares with the key before it.
///
/// It is seen as its [`EntryBlockView`]: the text of its entries, the restarts and the last key;
/// `HasRows` says which rows these spell. Lengths are in bytes.
///
/// Its text has the entries first, and after them what a call that failed or the last
/// [`EntryBlock::finish`] left there, which the next call cuts off.
#[derive(Drop)]
pub struct EntryBlock {
    alloc: Global,
    interval: u32,
    since: u32,
    entries: usize,
    text: Vec<u8>,
    restarts: Vec<u32>,
    last: Option<Vec<u8>>,
}

impl Model for EntryBlock {
    ghost use Rattle.std.specs.Prelude.{◌≤◌, length, take, option_map};
    ghost use Rattle.st_tblock.specs.Builder.{EntryBlockView, IsSound, block_view};

    ghost Value = { EntryBlockView };

    ghost view = { λ a. block_view a.interval a.since (take a.entries a.text.items) a.restarts.items
        (option_map (λ v. v.items) a.last) };

    ghost invariant = { λ a. (a.entries ≤ length a.text.items)
        × IsSound
        (block_view a.interval a.since (take a.entries a.text.items) a.restarts.items
        (option_map (λ v. v.items) a.last)) };
}

/// Puts a restart after the others; there must be room for it.
fn push_reserved(restarts: &mut Vec<u32>, restart: u32)
    requires { vec_len restarts.old < vec_capacity restarts.old }
    ensures { restarts.new.items ≡ restarts.old.items ++ restart ∷ [] }
{
    let _ = restarts.push(restart);
}

impl EntryBlock {
    ghost use Rattle.std.specs.Borrow.{sem};
    ghost use Rattle.std.specs.Io.BufRead.{Rests};
    ghost use Rattle.st_tblock.specs.contracts.builder.EntryBlock.{the_row};

    /// A block without entries, which begins a restart every `interval` entries.
    ///
    /// Source: LevelDB, table/block_builder.cc; docs/FORMAT.md, "Table file".
    pub fn new(alloc: Global, interval: u32) -> Result<EntryBlock, NoMemory>
        requires { 1 ≤ interval }
        ensures { IfOk result (λ b. b ≡ empty interval) }
    {
        let restarts = Vec::from_slice(alloc, &[0])?;
        Ok(EntryBlock {
            alloc,
            interval,
            since: 0,
            entries: 0,
            text: Vec::new(alloc),
            restarts,
            last: None,
        })
    }

    /// How many bytes the finished block takes: its entries, four for each restart and four for
    /// their number.
    pub fn size(&self) -> u64
        ensures { result ≡ block_size self.now }
    {
        (self.entries + RESTART_SIZE * (self.restarts.len() + 1)) as u64
    }

    /// Whether the block has no entries.
    pub fn is_empty(&self) -> bool
        ensures { result ≡ is_none self.now.last }
    {
        self.last.is_none()
    }

    /// The last key, or no bytes where there is none.
    pub fn last_key(&self) -> &[u8]
        ensures { result.now ≡ key_or_empty self.now.last }
    {
        last_or_empty(&self.last)
    }

    /// Whether `key` is above the last key, so that it may be added.
    pub fn takes(&self, key: &[u8]) -> bool
        ensures { result ≡ is_above self.now.last key.now }
    {
        match &self.last {
            Some(last) => last.as_slice().cmp(key).is_lt(),
            None => true,
        }
    }

    /// How many bytes of `key` the next entry shares with the last key.
    fn shared_with(&self, key: &[u8]) -> usize
        ensures sound { IsSound self.now }
        ensures shared { result ≡ shared_of self.now key.now }
        ensures key { result ≤ length key.now }
        ensures last { result ≤ length (key_or_empty self.now.last) }
    {
        if self.interval <= self.since {
            return 0;
        }
        common(last_or_empty(&self.last), key)
    }

    /// Puts an entry that shares this many bytes after the others. Unchanged after an error.
    fn append(&mut self, shared: usize, key: &[u8], value: &[u8]) -> Result<(), NoMemory>
        // what the key shares with the last one
        requires shared { shared ≡ shared_of self.old key.now }
        requires fits { shared ≤ length key.now }
        requires last { shared ≤ length (key_or_empty self.old.last) }
        // the room
        requires key { length key.now < 2 ^ 32 }
        requires value { length value.now < 2 ^ 32 }
        requires room { block_size self.old < 2 ^ 32 }
        // what the block then is
        ensures ok { OnOk result (self.new ≡ added self.old key.now value.now) }
        ensures err { OnErr result (self.new ≡ self.old) }
    {
        self.text.truncate(self.entries);
        put_entry(&mut self.text, shared, key, value)?;
        self.restarts.reserve(1)?;
        set_key(self.alloc, &mut self.last, shared, key.split_at(shared).1)?;
        if self.since < self.interval {
            self.since += 1;
            self.entries = self.text.len();
            return Ok(());
        }
        push_reserved(&mut self.restarts, self.entries as u32);
        self.since = 1;
        self.entries = self.text.len();
        Ok(())
    }

    /// Puts an entry after the others. Unchanged after an error.
    ///
    /// Source: LevelDB, table/block_builder.cc; docs/FORMAT.md, "Table file".
    pub fn add(&mut self, key: &[u8], value: &[u8]) -> Result<(), NoMemory>
        // the entry, and the room for it
        requires above { IsTrue (is_above self.old.last key.now) }
        requires key { length key.now < 2 ^ 32 }
        requires value { length value.now < 2 ^ 32 }
        requires room { block_size self.old < 2 ^ 32 }
        // what the block then is
        ensures ok { OnOk result (self.new ≡ added self.old key.now value.now) }
        ensures rows { OnOk result ((rows : List RowView) → HasRows self.old rows
            → HasRows self.new (rows ++ (key.now, value.now) ∷ [])) }
        ensures err { OnErr result (self.new ≡ self.old) }
    {
        let shared = self.shared_with(key);
        self.append(shared, key, value)
    }

    /// Takes all entries out, and begins a new block with the same interval.
    pub fn clear(&mut self)
        ensures { self.new ≡ empty self.old.interval }
    {
        self.since = 0;
        self.entries = 0;
        self.text.clear();
        self.restarts.truncate(1);
        self.last = None;
    }

    /// The whole block: its entries, the restarts and their number. The block itself stays as it
    /// was, so that more entries may follow.
    ///
    /// Source: LevelDB, table/block_builder.cc; docs/FORMAT.md, "Table file".
    #[tactic(auto, unfolding(crate::specs::Builder::block_text))]
    pub fn finish(&mut self) -> Result<&[u8], NoMemory>
        ensures* after { sem 𝓛 (Rests the_row self.entry (λ d. d ≡ self.old)) }
        ensures text { IfOk result (λ bytes. bytes.now ≡ block_text self.old) }
        ensures size { IfOk result (λ bytes. length bytes.now ≡ block_size self.old) }
        ensures good { IfOk result (λ bytes. (rows : List RowView) → HasRows self.old rows
            → IsBlock bytes.now rows) }
    {
        self.text.truncate(self.entries);
        put_restarts(&mut self.text, self.restarts.as_slice())?;
        Ok(self.text.as_slice())
    }
}
