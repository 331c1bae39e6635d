// Which calls fail, of all those of a shelf in memory, its drafts and its files.
ghost use Rattle.std.specs.Prelude.{◌≡◌, ◌↔◌, ℕ, None, Some, IfOk, IsTrue};
ghost use Rattle.st_shelf.specs.Schedules.{IsToFail};

use st_base::NoMemory;
use std::alloc::Global;
use std::marker::Model;
use std::sync::Arc;
use std::sync::atomic::{AtomicU64, Ordering};

#[derive(Drop)]
struct Listed {
    fails: Vec<u64>,
    stop: Option<u64>,
    calls: AtomicU64,
}

impl Listed {
    // Whether the call of this number is to fail.
    fn is_to_fail(&self, call: u64) -> bool
        ensures { IsTrue result ↔ IsToFail (Some (self.now.fails.items, self.now.stop)) call }
    {
        let stopped = match self.stop {
            Some(stop) => call >= stop,
            None => false,
        };
        stopped || self.fails.contains(&call)
    }
}

// Shared by a shelf, its drafts and its files. If no call is to fail, none is counted.
//
// Contracts see the numbers of the calls that fail, and that from which on all fail. How many calls
// were made they do not see: the count is shared with drafts and files that may be in other
// threads.
#[derive(Drop)]
pub(crate) struct Schedule {
    listed: Option<Arc<Listed, Global>>,
}

impl Model for Schedule {
    ghost use Rattle.std.specs.Prelude.{Option, List, ℕ, option_map};

    ghost Value = { Option (List ℕ × Option ℕ) };

    ghost view = { λ a. option_map (λ l. (l.value.fails.items, l.value.stop)) a.listed };
}

impl Schedule {
    pub(crate) fn none() -> Schedule
        ensures { result ≡ None }
    {
        Schedule { listed: None }
    }

    // The calls of these numbers fail, counted from 0, and all from `stop` on.
    pub(crate) fn of(alloc: Global, fails: &[u64], stop: Option<u64>) -> Result<Schedule, NoMemory>
        ensures { IfOk result (λ s. s ≡ Some (fails.now, stop)) }
    {
        let listed = Listed {
            fails: fails.to_vec(alloc)?,
            stop,
            calls: AtomicU64::new(0),
        };
        match Arc::new(alloc, listed) {
            Ok(listed) => Ok(Schedule {
                listed: Some(listed),
            }),
            Err(_) => Err(NoMemory),
        }
    }

    pub(crate) fn share(&self) -> Result<Schedule, NoMemory>
        ensures { IfOk result (λ s. s ≡ self.now) }
    {
        let Some(listed) = &self.listed else {
            return Ok(Schedule { listed: None });
        };
        match Arc::try_clone(listed) {
            Ok(listed) => Ok(Schedule {
                listed: Some(listed),
            }),
            Err(_) => Err(NoMemory),
        }
    }

    // Counts a call, and answers whether it fails.
    pub(crate) fn fails(&self) -> bool
        ensures { (call : ℕ) × (IsTrue result ↔ IsToFail self.now call) }
    {
        let Some(listed) = &self.listed else {
            return false;
        };
        listed.is_to_fail(listed.calls.fetch_add(1, Ordering::SeqCst))
    }

    pub(crate) fn calls(&self) -> u64 {
        match &self.listed {
            Some(listed) => listed.calls.load(Ordering::SeqCst),
            None => 0,
        }
    }
}
