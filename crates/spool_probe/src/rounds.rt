// A run: rounds of holds beside publications and removals.
ghost use Rattle.std.specs.Prelude.{◌≡◌, ◌≤◌, ◌⊎◌, [], ◌∷◌, IfOk};

use crate::calls::{AnyPair, age, publish, read_hold};
use crate::model::{Model, Seen, Stretch};
use crate::numbers::Numbers;
use st_base::NoMemory;
use st_shelf::{MemShelf, Name, Shelf};
use st_spool::{Hold, NotEntered, Spool};
use std::alloc::Global;

/// What is to be tried: `rounds` rounds at this limit, with a failing call every `apart` calls or
/// so, or none if `apart` is 0.
#[derive(Clone, Copy)]
pub(crate) struct Plan {
    pub(crate) seed: u64,
    pub(crate) rounds: u64,
    pub(crate) limit: u32,
    pub(crate) apart: u64,
}

/// The most steps between two holds.
const STEPS: u64 = 8;

/// How often a spool is opened, and what can't be removed is tried again, until it is given up.
const TRIES: u64 = 10;

/// Above so many failing calls a run has none.
const FAILURES: u64 = 1_000;

// The calls that fail, in order.
fn failures(alloc: Global, plan: Plan, numbers: &mut Numbers) -> Result<Vec<u64>, NoMemory> {
    let mut fails = Vec::new(alloc);
    if plan.apart == 0 {
        return Ok(fails);
    }
    let mut call = 0_u64;
    for _ in 0..FAILURES {
        let step = numbers.below(plan.apart.saturating_mul(2));
        call = call.saturating_add(step).saturating_add(1);
        if let Err(_) = fails.push(call) {
            return Err(NoMemory);
        }
    }
    Ok(fails)
}

// Publishes and removes pairs, more of the first.
fn go_on<D: Shelf>(
    spool: &mut Spool<D, AnyPair>,
    limit: u32,
    numbers: &mut Numbers,
    model: &mut Model,
)
    ensures { spool.new.state.holds ≡ spool.old.state.holds }
{
    let steps = numbers.below(STEPS);
    'steps: for _ in 0..steps {
        if numbers.below(2) == 0 {
            publish(spool, model);
        } else {
            age(spool, limit, model);
        }
    }
}

// Reads a hold while pairs are published and removed, and ends it.
fn read_and_release<D: Shelf>(
    spool: &mut Spool<D, AnyPair>,
    hold: Hold,
    stretch: Stretch,
    model: &mut Model,
)
    requires { spool.old.state.holds ≡ hold ∷ [] }
    ensures { spool.new.state.holds ≡ [] }
{
    read_hold(spool, &hold, stretch, model);
    spool.release(hold);
}

// Ends one of two holds, and reads the other one.
fn release_one<D: Shelf>(
    spool: &mut Spool<D, AnyPair>,
    ended: Hold,
    left: &Hold,
    stretch: Stretch,
    model: &mut Model,
)
    requires { (spool.old.state.holds ≡ ended ∷ left.now ∷ [])
        ⊎ (spool.old.state.holds ≡ left.now ∷ ended ∷ []) }
    ensures { spool.new.state.holds ≡ left.now ∷ [] }
{
    spool.release(ended);
    read_hold(spool, left, stretch, model);
}

// Takes a second hold beside the first one; both are read and ended, in either order.
fn two_holds<D: Shelf>(
    spool: &mut Spool<D, AnyPair>,
    first: Hold,
    early: Stretch,
    plan: Plan,
    numbers: &mut Numbers,
    model: &mut Model,
)
    requires { spool.old.state.holds ≡ first ∷ [] }
    ensures { spool.new.state.holds ≡ [] }
{
    let late = model.now();
    let Ok(second) = spool.hold() else {
        model.short = true;
        spool.release(first);
        return;
    };
    go_on(spool, plan.limit, numbers, model);
    read_hold(spool, &second, late, model);
    if numbers.below(2) == 0 {
        release_one(spool, first, &second, late, model);
        go_on(spool, plan.limit, numbers, model);
        read_and_release(spool, second, late, model);
    } else {
        release_one(spool, second, &first, early, model);
        go_on(spool, plan.limit, numbers, model);
        read_and_release(spool, first, early, model);
    }
}

// One round: a hold, then a second one, with publications and removals before and between.
fn round<D: Shelf>(
    spool: &mut Spool<D, AnyPair>,
    plan: Plan,
    numbers: &mut Numbers,
    model: &mut Model,
)
    requires { spool.old.state.holds ≡ [] }
    ensures { spool.new.state.holds ≡ [] }
{
    go_on(spool, plan.limit, numbers, model);
    let early = model.now();
    let Ok(first) = spool.hold() else {
        model.short = true;
        return;
    };
    go_on(spool, plan.limit, numbers, model);
    two_holds(spool, first, early, plan, numbers, model);
}

// Opens a spool over this shelf, and has the model compare what is there.
fn opened<D: Shelf>(
    alloc: Global,
    shelf: D,
    limit: u32,
    model: &mut Model,
) -> Result<Spool<D, AnyPair>, D>
    requires { 1 ≤ limit }
    ensures { IfOk result (λ s. s.state.holds ≡ []) }
{
    let mut spool = match Spool::enter(alloc, shelf, limit) {
        Ok(spool) => spool,
        Err(NotEntered { cause: _, shelf }) => {
            model.failed();
            return Err(shelf);
        }
    };
    let Ok(hold) = spool.hold() else {
        model.short = true;
        return Ok(spool);
    };
    let count = spool.count(&hold);
    let ends = if count == 0 {
        None
    } else {
        Some((spool.stamp_of(&hold, 0), spool.stamp_of(&hold, count - 1)))
    };
    spool.release(hold);
    model.opens(count, ends);
    Ok(spool)
}

// Tries again to remove what no hold has any more.
fn try_again<D: Shelf>(spool: &mut Spool<D, AnyPair>, model: &mut Model)
    requires { spool.old.state.holds ≡ [] }
    ensures { spool.new.state.holds ≡ [] }
{
    'tries: for _ in 0..TRIES {
        match spool.hold() {
            Ok(hold) => spool.release(hold),
            Err(NoMemory) => model.short = true,
        }
    }
}

// Counts the parked names of a shelf, if it can be listed.
fn count_parked<D: Shelf>(alloc: Global, shelf: &mut D, model: &mut Model) {
    let Ok(names) = shelf.list(alloc) else {
        model.failed();
        return;
    };
    for name in names.items() {
        if let Name::Parked(_) = name {
            model.leaves_parked();
        }
    }
}

// Some rounds over one spool, none of them after one in which it stopped. Where it didn't, no
// parked name may be left at the end.
fn session<D: Shelf>(
    alloc: Global,
    shelf: D,
    plan: Plan,
    numbers: &mut Numbers,
    model: &mut Model,
) -> D
    requires { 1 ≤ plan.limit }
{
    let mut spool = match opened(alloc, shelf, plan.limit, model) {
        Ok(spool) => spool,
        Err(shelf) => return shelf,
    };
    'rounds: for _ in 0..=numbers.below(STEPS) {
        if !model.is_in_doubt() {
            round(&mut spool, plan, numbers, model);
        }
    }
    try_again(&mut spool, model);
    let mut shelf = spool.close();
    if !model.is_in_doubt() {
        count_parked(alloc, &mut shelf, model);
    }
    shelf
}

/// Makes a run over a shelf in memory.
pub(crate) fn run(alloc: Global, plan: Plan) -> Result<Seen, NoMemory>
    requires { 1 ≤ plan.limit }
{
    let mut numbers = Numbers::from(plan.seed);
    let fails = failures(alloc, plan, &mut numbers)?;
    let mut shelf = MemShelf::with(alloc, fails.as_slice(), None)?;
    let mut model = Model::new(alloc);
    for _ in 0..plan.rounds {
        shelf = session(alloc, shelf, plan, &mut numbers, &mut model);
    }
    if model.short {
        return Err(NoMemory);
    }
    Ok(model.seen)
}
