ghost use Rattle.std.specs.Prelude.{◌≡◌, ◌+◌, ◌^◌, ◌≤◌, ◌<◌, List, [], length, IfOk, Some, None};
ghost use Rattle.std.specs.Io.{WritesAtMost};
ghost use Rattle.std.specs.Io.KnownBytes.{WriteAppends};
ghost use Rattle.st_base.specs.Faults.{HasWriteCause};
ghost use Rattle.st_base.specs.MemoryViews.{TakesOrFails};

use crate::failures::{Failed, NoMemory};
use crate::memory::schedule::{is_listed, next_count};
use crate::sinks::Sink;
use std::alloc::Global;
use std::marker::Model;

/// A sink in memory, which keeps what is written and fails at the calls that it is made to fail at.
#[derive(Drop)]
pub struct MemSink {
    bytes: Vec<u8>,
    fails: Vec<u32>,
    calls: u64,
    faults: u64,
}

impl Model for MemSink {
    ghost use Rattle.st_base.specs.MemoryViews.{SinkView};

    ghost Value = { SinkView };

    ghost view = { λ a. record {
      written = a.bytes.items;
      fails = a.fails.items;
      calls = a.calls;
      faults = a.faults;
    } };
}

impl MemSink {
    ghost use Rattle.st_base.specs.MemoryViews.{empty_sink};

    /// A sink that has nothing yet, and fails at the calls whose numbers stand in `fails`, counted
    /// from 0. Its `faults` rises at these, and at a call that runs out of memory.
    pub fn new(alloc: Global, fails: &[u32]) -> Result<MemSink, NoMemory>
        ensures { IfOk result (λ s. s ≡ empty_sink fails.now) }
    {
        let fails = fails.to_vec(alloc)?;
        Ok(MemSink {
            bytes: Vec::new(alloc),
            fails,
            calls: 0,
            faults: 0,
        })
    }

    /// All that was written.
    pub fn bytes(&self) -> &[u8]
        ensures { result.now ≡ self.now.written }
    {
        self.bytes.as_slice()
    }
}

impl Sink for MemSink {
    ghost Beside = { Unit {0} };

    ghost written = { λ s. Some s.written };

    ghost faults = { λ s. s.faults };

    ghost beside = { λ s. tt };

    fn write(&mut self, bytes: &[u8]) -> Result<usize, Failed>
        ensures bound { WritesAtMost result bytes.now }
        ensures bytes { WriteAppends (Some self.old.written) (Some self.new.written)
            result bytes.now }
        ensures cause { HasWriteCause self.old.faults self.new.faults bytes.now result }
        ensures exact { TakesOrFails self.old self.new bytes.now result }
    {
        let call = self.calls;
        self.calls = next_count(call);
        let fails = is_listed(self.fails.as_slice(), call);
        if fails || self.bytes.extend_from_slice(bytes).is_err() {
            self.faults = next_count(self.faults);
            return Err(Failed);
        }
        Ok(bytes.len())
    }
}

/// A sink that keeps no bytes, only how many it was given. It takes no memory and never fails.
#[derive(Drop)]
pub struct SureSink {
    count: u64,
}

impl Model for SureSink {
    ghost use Rattle.std.specs.Prelude.{ℕ};

    ghost Value = { ℕ };

    ghost view = { λ a. a.count };
}

impl SureSink {
    /// A sink that was given nothing yet.
    pub fn new() -> SureSink
        ensures { result ≡ 0 }
    {
        SureSink { count: 0 }
    }

    /// How many bytes it was given, but no more than a u64 holds.
    pub fn count(&self) -> u64
        ensures { result ≡ self.now }
    {
        self.count
    }
}

impl Sink for SureSink {
    ghost use Rattle.st_base.specs.MemoryViews.{TakesAll};

    ghost Beside = { Unit {0} };

    ghost written = { λ s. None };

    ghost faults = { λ s. 0 };

    ghost beside = { λ s. tt };

    fn write(&mut self, bytes: &[u8]) -> Result<usize, Failed>
        ensures bound { WritesAtMost result bytes.now }
        ensures bytes { WriteAppends None None result bytes.now }
        ensures cause { HasWriteCause 0 0 bytes.now result }
        ensures exact { TakesAll self.old self.new bytes.now result }
    {
        self.count = self.count.saturating_add(bytes.len() as u64);
        Ok(bytes.len())
    }
}
