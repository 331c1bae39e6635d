ghost use Rattle.std.specs.Prelude.{◌≡◌, IfOk, Some};

use crate::clocks::Clock;
use crate::failures::NoMemory;
use std::alloc::Global;
use std::marker::Model;

/// A clock in memory, which gives its answers in turn and then the last one again and again.
/// Without answers it gives 0.
#[derive(Drop)]
pub struct MemClock {
    answers: Vec<u64>,
    at: usize,
}

impl Model for MemClock {
    ghost use Rattle.std.specs.Prelude.{List, ℕ, drop, length, ◌≤◌, ◌<◌, ◌⊎◌, ◌≡◌};

    ghost Value = { List ℕ };

    ghost view = { λ a. drop a.at a.answers.items };

    ghost invariant = { λ a. a.at ≤ length a.answers.items };
}

impl MemClock {
    /// A clock that gives `answers`, in microseconds since 1970.
    pub fn over(alloc: Global, answers: &[u64]) -> Result<MemClock, NoMemory>
        ensures { IfOk result (λ c. c ≡ answers.now) }
    {
        let answers = answers.to_vec(alloc)?;
        Ok(MemClock { answers, at: 0 })
    }
}

impl Clock for MemClock {
    ghost to_come = { λ c. Some c };

    fn micros(&mut self) -> u64 {
        match self.answers.as_slice().split_at(self.at).1 {
            [] => 0,
            [last] => *last,
            [first, _, ..] => {
                self.at += 1;
                *first
            }
        }
    }
}
