//! How a pass takes the spool and gives it back: the table's rule, and waiting.
ghost use Rattle.std.specs.Prelude.{◌≡◌, ◌<◌, ◌∷◌, [], Some, None, ℕ, List, length, set, cond};
ghost use Rattle.st_base.specs.Faults.{next_count};
ghost use Rattle.st_disk.specs.Events.{Event};
ghost use Rattle.st_spool.specs.declared.state.Span.{Span};
ghost use Rattle.st_turn.specs.Turn.{idle, turning, Caller};
ghost use Rattle.st_turn.specs.Parts.{Booked, PassState, HasNumber, line_of};
ghost use Rattle.st_turn.specs.Steps.{Moves, has_risen};
ghost use Rattle.st_turn.specs.Calls.{IsTurn, MayTurn, line_after};
ghost use Rattle.st_turn.specs.Telling.{Learns};

use crate::book::Line;
use crate::home::{Home, Knowledge};
use crate::turned::Turned;
use atomic_table::{Play, Seat, Shared as Steps, TableRule};
use std::marker::PhantomData;
use std::snapshot::Snapshot;
use std::sync::Wait;
use std::thread;
use std::time::Duration;

/// The rule of the table: its one word is 0 while the spool is at home in its one slot, and 1 while
/// one pass has it.
pub struct Rule<S> {
    of: PhantomData<S>,
}

impl<S: Turned> TableRule<Option<Home<S>>, Knowledge<S>, Snapshot<Home<S>>> for Rule<S> {
    ghost use Rattle.std.specs.Prelude.{length};
    ghost use Rattle.st_turn.specs.Turn.{Turning, idle};
    ghost use Rattle.st_turn.specs.Parts.{Parts, HasNumber};
    ghost use Rattle.st_turn.specs.Steps.{starts};

    ghost holds = { λ k. Turning HasNumber (Parts S.facts S.keeps k.value) };

    ghost first = { λ k. idle (starts k.value.spool (S.facts k.value.spool) 0
        (length k.value.lines) 1) };
}

struct TryTake<S> {
    of: PhantomData<S>,
}

impl<S: Turned> Play<Option<Home<S>>, Knowledge<S>> for TryTake<S> {
    ghost use Rattle.st_turn.specs.Turn.{Takes};
    ghost use Rattle.st_turn.specs.Telling.{Learns};

    ghost then = { Takes (Learns S.facts S.keeps) };
}

/// What one call makes of the spool, its book and its pass, beyond what every turn does.
pub trait Call<S: Turned> {
    ghost makes: { Booked S → Booked S → PassState S Event Span → PassState S Event Span
        → Type 0 };
}

struct GiveBack<S, C> {
    of: PhantomData<(S, C)>,
}

impl<S: Turned, C: Call<S>> Play<Option<Home<S>>, Knowledge<S>> for GiveBack<S, C> {
    ghost use Rattle.st_turn.specs.Turn.{Gives};
    ghost use Rattle.st_turn.specs.Steps.{Moves};

    ghost then = { Gives (λ x y p q. Moves S.facts S.keeps x y p q × C.makes x y p q) };
}

/// The table of a shared spool, as threads share it. Each step on it keeps the rule.
pub type Desk<S> = Steps<Option<Home<S>>, Knowledge<S>, Snapshot<Home<S>>, Rule<S>>;

/// A caller's seat at the table: what the caller knows, and what it took out of the slot.
pub type Place<S> = Seat<Option<Home<S>>, Knowledge<S>>;

// A caller that finds the turn taken tries again at once, up to this many tries in all.
const AT_ONCE: u32 = 16;

// From then on it lets other threads run between its tries, up to this many tries in all.
const AWAKE: u32 = 20;

// From then on it sleeps between its tries, the first time for this many microseconds.
const FIRST_SLEEP_MICROS: u64 = 128;

// Each sleep is twice as long as the one before, up to this many doublings: up to 8.192
// milliseconds.
const MOST_DOUBLINGS: u32 = 6;

// Lets other threads run after this many tries in vain. It sleeps only while the turn is taken, and
// nobody wakes it.
fn stand_back<S: Turned, R: Wait>(rt: &R, desk: &Desk<S>, tries: u32)
    requires { desk.now.table_id.words ≡ 1 }
{
    if tries < AT_ONCE {
        return;
    }
    if tries < AWAKE {
        thread::yield_now();
        return;
    }
    let doublings = (tries - AWAKE).min(MOST_DOUBLINGS);
    let micros = FIRST_SLEEP_MICROS << doublings;
    desk.park_timeout(rt, 0, 1, Duration::from_micros(micros));
}

/// Waits for the turn, and takes the spool with its book.
pub(crate) fn take<S: Turned, R: Wait>(rt: &R, desk: &Desk<S>, place: &mut Place<S>) -> Home<S>
    requires table { (place.old.table_id ≡ desk.now.table_id)
        × (desk.now.table_id.words ≡ 1) × (desk.now.table_id.slots ≡ 1) }
    requires waits { (place.old.me ≡ (idle place.old.me.0.pass, []))
        × HasNumber place.old.me.0.pass }
    // the place
    ensures same { (place.new.table_id ≡ place.old.table_id) × (place.new.id ≡ place.old.id) }
    // the turn
    ensures turn { place.new.me ≡ (turning result place.old.me.0.pass, (0, None) ∷ []) }
    ensures learns { Learns S.facts S.keeps result place.old.me.0.pass }
{
    let mut tries: u32 = 0;
    for _ in rt.forever() {
        if desk.compare_exchange::<TryTake<S>>(place, 0, 0, 1) == 0 {
            return desk.exchange(place, 0, None).unwrap();
        }
        stand_back(rt, desk, tries);
        tries = tries.saturating_add(1);
    }
    unreachable!()
}

/// Puts the spool and its book back, and ends the turn.
pub(crate) fn give<S: Turned, C: Call<S>>(desk: &Desk<S>, place: &mut Place<S>, home: Home<S>)
    requires table { (place.old.table_id ≡ desk.now.table_id)
        × (desk.now.table_id.words ≡ 1) × (desk.now.table_id.slots ≡ 1) }
    requires turn { (x : Booked S) × (q : PassState S Event Span)
        × (place.old.me ≡ (turning x place.old.me.0.pass, (0, None) ∷ []))
        × Moves S.facts S.keeps x home place.old.me.0.pass q
        × C.makes x home place.old.me.0.pass q }
    // the place
    ensures same { (place.new.table_id ≡ place.old.table_id) × (place.new.id ≡ place.old.id) }
    ensures waits { place.new.me ≡ (idle place.new.me.0.pass, []) }
    // the turn
    ensures moves { (x : Booked S) → place.old.me.0.taken ≡ Some x
        → Moves S.facts S.keeps x home place.old.me.0.pass place.new.me.0.pass
        × C.makes x home place.old.me.0.pass place.new.me.0.pass }
{
    let old = desk.exchange(place, 0, Some(home));
    let None = old else { unreachable!() };
    desk.store::<GiveBack<S, C>>(place, 0, 0);
}

// A call that makes of its pass what every turn makes of it, and no more.
struct Exactly<S> {
    of: PhantomData<S>,
}

impl<S: Turned> Call<S> for Exactly<S> {
    ghost use Rattle.st_turn.specs.Calls.{IsTurn};

    ghost makes = { λ x y p q. IsTurn S.facts x.spool y.spool p q };
}

// Whether a count rose, or stood at its greatest number already.
fn rose(before: u64, after: u64) -> bool
    ensures { result ≡ has_risen before after }
{
    before.saturating_add(1) <= after
}

// The count, or one more, but no more than a u64 holds.
fn one_more(count: u64, more: bool) -> u64
    ensures { result ≡ cond more (next_count count) count }
{
    if more { count.saturating_add(1) } else { count }
}

// Counts a turn in the book.
fn count(lines: &mut Vec<Line>, number: usize, rose: bool, stopped: bool)
    requires { number < length lines.old.items }
    ensures { lines.new.items ≡ set lines.old.items number
        (line_after (line_of lines.old.items number) rose stopped) }
{
    let line = lines[number];
    let failed = one_more(line.failed, rose);
    let stops = one_more(line.stops, stopped);
    lines[number] = Line { failed, stops };
}

/// Counts a turn in the book, puts the spool back with it, and ends the turn. `before` is the
/// shelf's count as the turn began, and `stopped` says whether a publication or an ageing failed.
pub(crate) fn end<S: Turned>(
    desk: &Desk<S>,
    place: &mut Place<S>,
    number: usize,
    home: (S, Vec<Line>),
    before: u64,
    stopped: bool,
)
    requires table { (place.old.table_id ≡ desk.now.table_id)
        × (desk.now.table_id.words ≡ 1) × (desk.now.table_id.slots ≡ 1) }
    requires number { place.old.me.0.pass.card.number ≡ Some number }
    requires turn { (x : Booked S) × (next : List Span)
        × (place.old.me ≡ (turning x place.old.me.0.pass, (0, None) ∷ []))
        × Learns S.facts S.keeps x place.old.me.0.pass
        × (home.1.items ≡ x.lines) × (before ≡ (S.facts x.spool).faults)
        × MayTurn S.facts S.keeps x.spool home.0 place.old.me.0.pass.held next stopped }
    // the place
    ensures same { (place.new.table_id ≡ place.old.table_id) × (place.new.id ≡ place.old.id) }
    ensures waits { place.new.me ≡ (idle place.new.me.0.pass, []) }
    // the turn
    ensures turn { (x : Booked S) → place.old.me.0.taken ≡ Some x
        → IsTurn S.facts x.spool home.0 place.old.me.0.pass place.new.me.0.pass }
{
    let (spool, mut lines) = home;
    let has_risen = rose(before, spool.fault_count());
    count(&mut lines, number, has_risen, stopped);
    give::<S, Exactly<S>>(desk, place, Home { spool, lines });
}
