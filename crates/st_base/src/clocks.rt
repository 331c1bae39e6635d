ghost use Rattle.std.specs.Prelude.{Option, ℕ, List};
ghost use Rattle.st_base.specs.Ticks.{Ticks};

/// A clock.
///
/// `to_come` is the answers to come, if they are known; the last one stays.
pub trait Clock {
    ghost to_come: { Self → Option (List ℕ) };

    /// The time in microseconds since 1970. It never fails.
    fn micros(&mut self) -> u64
        ensures { Ticks (to_come self.old) (to_come self.new) result };
}
