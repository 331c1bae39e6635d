ghost use Rattle.std.specs.Prelude.{◌≡◌, ◌-◌, ◌+◌, ◌^◌, ◌≤◌, ◌<◌, min, List, [], length, take, drop, IfOk, OnErr, Contains, Some};
ghost use Rattle.std.specs.Io.{ReadsAtMost};
ghost use Rattle.std.specs.Io.KnownBytes.{ReadConsumes};
ghost use Rattle.st_base.specs.Faults.{HasCause};
ghost use Rattle.st_base.specs.MemoryViews.{GivesOrFails};

use crate::failures::{Failed, NoMemory};
use crate::memory::schedule::{is_listed, next_count};
use crate::sources::Source;
use std::alloc::Global;
use std::marker::Model;

/// A source over bytes in memory, which gives them in pieces and fails at the calls that it is made
/// to fail at.
#[derive(Drop)]
pub struct MemSource {
    bytes: Vec<u8>,
    at: usize,
    piece: usize,
    fails: Vec<u32>,
    calls: u64,
    faults: u64,
}

impl Model for MemSource {
    ghost use Rattle.std.specs.Prelude.{◌≤◌, length, drop};
    ghost use Rattle.st_base.specs.MemoryViews.{SourceView};

    ghost Value = { SourceView };

    ghost view = { λ a. record {
      left = drop a.at a.bytes.items;
      piece = a.piece;
      fails = a.fails.items;
      calls = a.calls;
      faults = a.faults;
    } };

    ghost invariant = { λ a. (a.at ≤ length a.bytes.items) × (1 ≤ a.piece) };
}

impl MemSource {
    ghost use Rattle.st_base.specs.MemoryViews.{unread_source};

    /// A source that gives `bytes`, at most `piece` of them a call, and fails at the calls whose
    /// numbers stand in `fails`, counted from 0.
    pub fn over(
        alloc: Global,
        bytes: &[u8],
        piece: usize,
        fails: &[u32],
    ) -> Result<MemSource, NoMemory>
        requires { 1 ≤ piece }
        ensures { IfOk result (λ s. s ≡ unread_source bytes.now piece fails.now) }
    {
        let bytes = bytes.to_vec(alloc)?;
        let fails = fails.to_vec(alloc)?;
        Ok(MemSource {
            bytes,
            at: 0,
            piece,
            fails,
            calls: 0,
            faults: 0,
        })
    }
}

impl Source for MemSource {
    ghost Beside = { Unit {0} };

    ghost left = { λ s. Some s.left };

    ghost faults = { λ s. s.faults };

    ghost beside = { λ s. tt };

    fn read(&mut self, out: &mut [u8]) -> Result<usize, Failed>
        ensures bound { ReadsAtMost result out.new }
        ensures bytes { ReadConsumes (Some self.old.left) (Some self.new.left) result out.new }
        ensures cause { HasCause self.old.faults self.new.faults result }
        ensures exact { GivesOrFails self.old self.new out.old result }
    {
        let call = self.calls;
        self.calls = next_count(call);
        if is_listed(self.fails.as_slice(), call) {
            self.faults = next_count(self.faults);
            return Err(Failed);
        }
        let rest = self.bytes.as_slice().split_at(self.at).1;
        let taken = rest.len().min(out.len()).min(self.piece);
        out.split_at_mut(taken)
            .0
            .copy_from_slice(rest.split_at(taken).0);
        self.at += taken;
        Ok(taken)
    }
}

/// A source over bytes in memory that never fails.
#[derive(Drop)]
pub struct SureSource {
    bytes: Vec<u8>,
    at: usize,
}

impl Model for SureSource {
    ghost use Rattle.std.specs.Prelude.{◌≤◌, List, ℕ, length, drop};

    ghost Value = { List ℕ };

    ghost view = { λ a. drop a.at a.bytes.items };

    ghost invariant = { λ a. a.at ≤ length a.bytes.items };
}

impl SureSource {
    /// A source that gives `bytes`.
    pub fn over(alloc: Global, bytes: &[u8]) -> Result<SureSource, NoMemory>
        ensures { IfOk result (λ s. s ≡ bytes.now) }
    {
        let bytes = bytes.to_vec(alloc)?;
        Ok(SureSource { bytes, at: 0 })
    }
}

impl Source for SureSource {
    ghost Beside = { Unit {0} };

    ghost left = { λ s. Some s };

    ghost faults = { λ s. 0 };

    ghost beside = { λ s. tt };

    fn read(&mut self, out: &mut [u8]) -> Result<usize, Failed> {
        let rest = self.bytes.as_slice().split_at(self.at).1;
        let taken = rest.len().min(out.len());
        out.split_at_mut(taken)
            .0
            .copy_from_slice(rest.split_at(taken).0);
        self.at += taken;
        Ok(taken)
    }
}
