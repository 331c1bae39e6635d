//! How much of a processor callers use that wait for their turn, and how many turns there are in a
//! second.

ghost use Rattle.std.specs.Prelude.{◌≡◌};
ghost use Rattle.st_turn.specs.Passes.{IsOf, IsSame};
ghost use Rattle.turn_trials.specs.Resting.{Rests, Rested};

use st_shelf::Shelf;
use std::sync::Wait;
use std::sync::atomic::{AtomicBool, Ordering};
use std::time::{Duration, Instant};
use std::{fs, thread};
use turn_trials::{SharedSpool, SpoolPass, age};

// The processor's time of this thread so far, in microseconds.
fn busy_micros(rt: &HostRuntime) -> u64 {
    let Ok(text) = fs::read_to_string(rt, "/proc/thread-self/schedstat") else {
        return 0;
    };
    match text.as_str().split(' ').next() {
        Some(word) => word.parse::<u64>().unwrap_or(0) / 1_000,
        None => 0,
    }
}

fn micros_since(rt: &HostRuntime, start: Option<Instant>) -> u64 {
    match start {
        Some(start) => match start.elapsed(rt) {
            Ok(took) => u64::try_from(took.as_micros()).unwrap_or(u64::MAX),
            Err(_) => 0,
        },
        None => 0,
    }
}

// Ages so often, whatever is held.
fn age_many<D: Shelf, R: Wait>(rt: &R, shared: &SharedSpool<D>, pass: &mut SpoolPass<D>, count: u64)
    requires { IsOf shared.now pass.old }
    ensures same { IsSame pass.old pass.new }
    ensures holds { pass.new.state.held ≡ pass.old.state.held }
{
    for _ in 0..count {
        let _ = shared.age(rt, pass);
    }
}

/// Holds all pairs, removes so many of them, says that its long turn begins, and releases the hold,
/// which removes their files. It answers how long that took, in microseconds.
pub fn keep_turn<D: Shelf, R: Wait>(
    rt: &R,
    host: &HostRuntime,
    shared: &SharedSpool<D>,
    pass: &mut SpoolPass<D>,
    due: &AtomicBool,
    count: u64,
) -> u64
    requires { Rests shared.now pass.old }
    ensures { Rested pass.old pass.new }
{
    let Ok(hold) = shared.hold(rt, pass) else {
        due.store(true, Ordering::SeqCst);
        return 0;
    };
    age_many(rt, shared, pass, count);
    due.store(true, Ordering::SeqCst);
    let start = Instant::now(host).ok();
    shared.release(rt, pass, hold);
    micros_since(host, start)
}

/// Asks for one turn, once the long one begins. It answers how long it waited for it and how long a
/// processor worked for that, in microseconds.
pub fn wait_turn<D: Shelf, R: Wait>(
    rt: &R,
    host: &HostRuntime,
    shared: &SharedSpool<D>,
    pass: &mut SpoolPass<D>,
    due: &AtomicBool,
) -> (u64, u64)
    requires { Rests shared.now pass.old }
    ensures { Rested pass.old pass.new }
{
    for _ in rt.forever() {
        if due.load(Ordering::SeqCst) {
            break;
        }
        thread::sleep(host, Duration::from_micros(200));
    }
    let before = busy_micros(host);
    let start = Instant::now(host).ok();
    let _ = age(rt, shared, pass);
    let took = micros_since(host, start);
    (took, busy_micros(host).saturating_sub(before))
}

/// Takes so many turns, each of which does nothing: it finds no pair too many.
pub fn take_turns<D: Shelf, R: Wait>(
    rt: &R,
    shared: &SharedSpool<D>,
    pass: &mut SpoolPass<D>,
    count: u64,
)
    requires { Rests shared.now pass.old }
    ensures { Rested pass.old pass.new }
{
    for _ in 0..count {
        let _ = age(rt, shared, pass);
    }
}
