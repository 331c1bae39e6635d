// What is kept of the calls of the system that failed.
ghost use Rattle.std.specs.Prelude.{◌≡◌, ◌+◌, ◌≤◌, ◌<◌, ◌-◌, ◌^◌, ◌↔◌, ℕ, min, Ok, Err, IsSome, MatchResult};
ghost use Rattle.st_base.specs.Faults.{Rose};
ghost use Rattle.st_folder.specs.Failures.{no_faults, add_fault};

use st_base::{Call, CallFailure};
use st_shelf::{Kind, Name};
use std::io;
use std::marker::Model;

/// Where a shelf in a file system calls the system.
#[derive(Clone, Copy, Debug, PartialEq, Eq)]
pub enum Place {
    /// The spool folder or one above it: the first bytes of its path, this many. None of them is
    /// the working folder.
    Way(usize),
    /// The folder of a kind.
    Folder(Kind),
    /// A file.
    File(Name),
}

/// A call of the system that failed, and where. It owns no memory.
#[derive(Clone, Copy, Debug)]
pub struct Failure {
    pub place: Place,
    pub failed: CallFailure,
}

// What a call of the system at a place answered.
pub(crate) fn at<T>(call: Call, place: Place, done: io::Result<T>) -> Result<T, Failure>
    ensures { MatchResult done (λ value. result ≡ Ok value) (λ e. result ≡ Err (record {
      place = place;
      failed = record { call = call; error = e };
    })) }
{
    match done {
        Ok(value) => Ok(value),
        Err(error) => Err(Failure {
            place,
            failed: CallFailure { call, error },
        }),
    }
}

// How many faults a shelf had, and the failure of the first of them.
#[derive(Drop)]
pub(crate) struct Faults {
    first: Option<Failure>,
    // How many came after the first.
    later: u64,
}

impl Model for Faults {
    ghost use Rattle.st_folder.specs.Failures.{FaultsView, fault_count};

    ghost Value = { FaultsView };

    ghost view = { λ f. record { count = fault_count f.first f.later; first = f.first } };
}

impl Faults {
    pub(crate) fn none() -> Faults
        ensures { result ≡ no_faults }
    {
        Faults {
            first: None,
            later: 0,
        }
    }

    // Counts one fault, and keeps its failure if it is the first.
    pub(crate) fn add(&mut self, failure: Failure)
        ensures added { self.new ≡ add_fault self.old failure }
        ensures rose { (self.old.count ≤ self.new.count) × Rose self.old.count self.new.count }
    {
        match self.first {
            Some(_) => self.later = self.later.saturating_add(1),
            None => {
                self.first = Some(failure);
                self.later = 0;
            }
        }
    }

    // The failure of the first fault.
    pub(crate) fn first(&self) -> Option<Failure>
        ensures first { result ≡ self.now.first }
        ensures there { IsSome result ↔ (0 < self.now.count) }
    {
        self.first
    }

    pub(crate) fn count(&self) -> u64
        ensures { result ≡ self.now.count }
    {
        match self.first {
            Some(_) => self.later.saturating_add(1),
            None => 0,
        }
    }
}
