ghost use Rattle.std.specs.Prelude.{◌≡◌, ◌+◌, ◌-◌, ◌*◌, ◌/◌, ◌^◌, ◌<◌, ◌≤◌, min, None};
ghost use Rattle.std.specs.Duration.{as_nanos};

use crate::clocks::Clock;
use std::rt::Clock as MachineTime;
use std::time::{Duration, SystemTime};

/// The machine's clock, of which no answer is known ahead.
///
/// It answers 0 if the machine can't read it or it is before 1970, and the greatest number of 64
/// bits if it is past that.
#[derive(Drop)]
pub struct MachineClock<'a, R> {
    rt: &'a R,
}

impl<'a, R: MachineTime> MachineClock<'a, R> {
    /// The clock of the runtime.
    pub fn of(rt: &'a R) -> MachineClock<'a, R> {
        MachineClock { rt }
    }
}

impl<'a, R: MachineTime> Clock for MachineClock<'a, R> {
    ghost to_come = { λ c. None };

    fn micros(&mut self) -> u64 {
        let Ok(time) = SystemTime::now(self.rt) else {
            return 0;
        };
        match time.duration_since(SystemTime::UNIX_EPOCH) {
            Ok(since) => whole_micros(since),
            Err(_) => 0,
        }
    }
}

// The whole microseconds of a time span, at most the greatest number of a u64.
fn whole_micros(span: Duration) -> u64
    ensures { result ≡ min (as_nanos span / 1000) (2 ^ 64 - 1) }
{
    u64::try_from(span.as_micros()).unwrap_or(u64::MAX)
}
