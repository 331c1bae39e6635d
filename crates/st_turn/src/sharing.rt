//! The beginning of sharing: a spool laid in the table, and its passes.
ghost use Rattle.std.specs.Prelude.{◌≡◌, ◌<◌, ◌≤◌, ◌+◌, [], ◌∷◌, IfOk, IfErr, Some, length, vec_len, vec_capacity, replicate};
ghost use Rattle.st_turn.specs.Turn.{idle};
ghost use Rattle.st_turn.specs.Parts.{blank, Each};
ghost use Rattle.st_turn.specs.Steps.{starts, gave_out, next_pass};
ghost use Rattle.st_turn.specs.Passes.{AreStarted, HasNoLoans};
ghost use Rattle.st_turn.specs.declared.sharing.TheConstants.{MOST_PASSES};

use crate::book::Line;
use crate::desk::{Desk, Place, Rule};
use crate::home::{Home, Knowledge};
use crate::pass::Pass;
use crate::trail::Trail;
use crate::turned::Turned;
use atomic_table::{Refused, Split, Table};
use st_base::NoMemory;
use std::alloc::{AllocFailed, Global};
use std::marker::{Model, PhantomData};
use std::snapshot::Snapshot;

/// How many passes a shared spool has at most. The number is ours.
pub const MOST_PASSES: u32 = 64;

/// A spool that callers share by turns. It must be spent, by `finish`.
pub struct Shared<S: Turned> {
    pub(crate) table: Table<Option<Home<S>>, Knowledge<S>, Snapshot<Home<S>>, Rule<S>, Global>,
    pub(crate) passes: usize,
}

impl<S: Turned> Model for Shared<S> {
    ghost use Rattle.std.specs.Prelude.{◌≡◌, length};
    ghost use Rattle.st_turn.specs.Passes.{SharedView};

    ghost Value = { SharedView S };

    ghost view = { λ s. record {
      table = s.table.shared.table_id;
      base = s.table.shared.key.value.spool;
      passes = s.passes;
    } };

    ghost invariant = { λ s. (s.table.shared.table_id.words ≡ 1)
        × (s.table.shared.table_id.slots ≡ 1)
        × (length s.table.shared.key.value.lines ≡ s.passes) };
}

/// A spool that was not shared, since memory ran out.
pub struct NotShared<S> {
    /// The spool, as it was.
    pub spool: S,
}

// The pass with number 0 is cut in two: itself, and a pass with the next number.
struct Number<S> {
    of: PhantomData<S>,
}

impl<S: Turned> Split<Knowledge<S>> for Number<S> {
    ghost use Rattle.st_turn.specs.Turn.{idle, with_pass};
    ghost use Rattle.st_turn.specs.Steps.{gave_out, next_pass};

    ghost left = { with_pass gave_out };

    ghost right = { λ d. idle (next_pass d.pass) };
}

// A book for this many passes, none of which has done anything.
fn blank_lines(alloc: Global, count: usize) -> Result<Vec<Line>, NoMemory>
    ensures { IfOk result (λ v. v.items ≡ replicate count blank) }
{
    let mut lines = Vec::new(alloc);
    for _ in 0..count {
        let line = Line {
            failed: 0,
            stops: 0,
        };
        if let Err(_) = lines.push(line) {
            return Err(NoMemory);
        }
    }
    Ok(lines)
}

// Cuts a pass with the next number off the pass with number 0.
fn number_next<S: Turned>(desk: &Desk<S>, lead: &mut Pass<S>, number: usize) -> Pass<S>
    requires table { (lead.old.table ≡ desk.now.table_id) × (desk.now.table_id.words ≡ 1) }
    requires number { (lead.old.state.card.number ≡ Some 0) × (lead.old.state.made ≡ number)
        × (number < length desk.now.key.value.lines) }
    ensures lead { (lead.new.table ≡ lead.old.table) × (lead.new.id ≡ lead.old.id)
        × (lead.new.state ≡ gave_out lead.old.state) × (lead.new.loans ≡ lead.old.loans) }
    ensures next { (result.table ≡ lead.old.table) × (result.state ≡ next_pass lead.old.state)
        × HasNoLoans result }
{
    let place = desk.split_seat::<Number<S>>(&mut lead.place);
    Pass {
        place,
        number,
        files: Trail::new(),
    }
}

// Cuts all other passes off the first one.
fn number_all<S: Turned>(desk: &Desk<S>, given: &mut Vec<Pass<S>>, passes: usize)
    // the table, and the room for the passes
    requires table { (desk.now.table_id.words ≡ 1)
        × (length desk.now.key.value.lines ≡ passes) × (1 ≤ passes) }
    requires room { (vec_len given.old ≡ 1) × (passes ≤ vec_capacity given.old) }
    // the first pass
    requires lead { AreStarted desk.now.table_id desk.now.key.value.spool
        (S.facts desk.now.key.value.spool) passes 1 given.old.items }
    requires loans { Each HasNoLoans given.old.items }
    // all passes
    ensures all { AreStarted desk.now.table_id desk.now.key.value.spool
        (S.facts desk.now.key.value.spool) passes passes given.new.items }
    ensures loans { Each HasNoLoans given.new.items }
    ensures count { vec_len given.new ≡ passes }
{
    for number in 1..passes {
        let next = number_next(desk, &mut given[0], number);
        let pushed = given.push(next);
        let Ok(()) = pushed else { unreachable!() };
    }
}

// The table with the spool in its slot.
type Laid<S> = Table<Option<Home<S>>, Knowledge<S>, Snapshot<Home<S>>, Rule<S>, Global>;

// Lays the spool and its book down, with one pass. They come back if memory runs out.
fn lay<S: Turned>(alloc: Global, home: Home<S>) -> Result<(Laid<S>, Place<S>), Home<S>>
    requires lines { (home.lines ≡ replicate (length home.lines) blank)
        × (1 ≤ length home.lines) }
    requires holds { (S.facts home.spool).holds ≡ [] }
    // the table, and the first pass's place
    ensures table { IfOk result (λ t. (t.0.shared.table_id.words ≡ 1)
        × (t.0.shared.table_id.slots ≡ 1) × (t.0.shared.key.value ≡ home)) }
    ensures place { IfOk result (λ t. (t.1.table_id ≡ t.0.shared.table_id)
        × (t.1.me ≡ (idle (starts home.spool (S.facts home.spool) 0 (length home.lines) 1), []))) }
    // a refusal
    ensures back { IfErr result (λ h. h ≡ home) }
{
    home.spool.keep();
    let _fits = home.spool.failed_calls();
    let about = Snapshot::of(&home);
    let mut slots = Vec::new(alloc);
    if let Err(AllocFailed { value }) = slots.push(Some(home)) {
        slots.destroy_empty();
        let Some(home) = value else { unreachable!() };
        return Err(home);
    }
    match Table::new(alloc, &[0], slots, &about) {
        Ok(laid) => Ok(laid),
        Err(Refused { mut slots }) => {
            let Some(Some(home)) = slots.pop() else {
                unreachable!()
            };
            slots.destroy_empty();
            Err(home)
        }
    }
}

/// Shares a spool among 1 to `MOST_PASSES` passes, which come in the order of their numbers, from 0
/// on. Each saw the spool's history, holds nothing and counts no file. No hold may be out. The
/// spool comes back, as it was, if memory runs out.
pub fn share<S: Turned>(
    alloc: Global,
    spool: S,
    passes: u32,
) -> Result<(Shared<S>, Vec<Pass<S>>), NotShared<S>>
    requires count { (1 ≤ passes) × (passes ≤ MOST_PASSES) }
    requires holds { (S.facts spool).holds ≡ [] }
    ensures shared { IfOk result (λ r. (r.0.base ≡ spool) × (r.0.passes ≡ passes)) }
    // the passes
    ensures started { IfOk result
        (λ r. AreStarted r.0.table spool (S.facts spool) passes passes r.1.items) }
    ensures loans { IfOk result (λ r. Each HasNoLoans r.1.items) }
    ensures all { IfOk result (λ r. length r.1.items ≡ passes) }
    // a refusal
    ensures refused { IfErr result (λ n. n.spool ≡ spool) }
{
    let count = passes as usize;
    let Ok(lines) = blank_lines(alloc, count) else {
        return Err(NotShared { spool });
    };
    let Ok(mut given) = Vec::with_capacity(alloc, count) else {
        return Err(NotShared { spool });
    };
    match lay(alloc, Home { spool, lines }) {
        Ok((table, place)) => {
            let first = Pass {
                place,
                number: 0,
                files: Trail::new(),
            };
            let pushed = given.push(first);
            let Ok(()) = pushed else { unreachable!() };
            number_all(&table.shared, &mut given, count);
            let shared = Shared {
                table,
                passes: count,
            };
            Ok((shared, given))
        }
        Err(Home { spool, lines: _ }) => {
            given.destroy_empty();
            Err(NotShared { spool })
        }
    }
}
