//! Two passes tell each other what they saw.
ghost use Rattle.std.specs.Prelude.{◌≡◌, ◌<◌};
ghost use Rattle.st_turn.specs.Parts.{is_number};
ghost use Rattle.st_turn.specs.Steps.{visitor, joined};
ghost use Rattle.st_turn.specs.Telling.{Saw};
ghost use Rattle.st_turn.specs.Passes.{Met};

use crate::desk::Desk;
use crate::home::{Home, Knowledge};
use crate::pass::Pass;
use crate::sharing::Shared;
use crate::turned::Turned;
use atomic_table::{Join, Play, Split};
use std::marker::PhantomData;

// A pass is cut in two: itself, and a pass without a number that saw the same history.
struct Visit<S> {
    of: PhantomData<S>,
}

impl<S: Turned> Split<Knowledge<S>> for Visit<S> {
    ghost use Rattle.st_turn.specs.Turn.{idle};
    ghost use Rattle.st_turn.specs.Steps.{visitor};

    ghost left = { λ d. d };

    ghost right = { λ d. idle (visitor d.pass.card.seen) };
}

// Two passes are joined into the first one.
pub(crate) struct Merge<S> {
    of: PhantomData<S>,
}

impl<S: Turned> Join<Knowledge<S>> for Merge<S> {
    ghost use Rattle.std.specs.Prelude.{[]};
    ghost use Rattle.st_turn.specs.Turn.{idle};
    ghost use Rattle.st_turn.specs.Steps.{visitor, joined};

    ghost both = { λ d e. idle (joined d.pass e.pass) };

    ghost spent = { idle (visitor []) };
}

// A look at the table, which changes nothing.
struct Look<S> {
    of: PhantomData<S>,
}

impl<S: Turned> Play<Option<Home<S>>, Knowledge<S>> for Look<S> {
    ghost use Rattle.st_turn.specs.Turn.{Looks};
    ghost use Rattle.st_turn.specs.Telling.{Saw};

    ghost then = { Looks Saw };
}

// One pass tells another one what it saw.
fn tell<S: Turned>(desk: &Desk<S>, from: &mut Pass<S>, to: &mut Pass<S>)
    requires { (from.old.table ≡ desk.now.table_id) × (to.old.table ≡ desk.now.table_id)
        × (desk.now.table_id.words ≡ 1) }
    ensures from { from.new ≡ from.old }
    ensures to { (to.new.table ≡ to.old.table) × (to.new.id ≡ to.old.id)
        × (to.new.state ≡ joined to.old.state (visitor from.old.state.card.seen))
        × (to.new.loans ≡ to.old.loans) }
{
    let visitor = desk.split_seat::<Visit<S>>(&mut from.place);
    desk.join_seat::<Merge<S>>(&mut to.place, visitor);
}

// A pass looks at the table, which shows that what it and its notes saw begins one history.
fn look_at<S: Turned>(desk: &Desk<S>, pass: &mut Pass<S>)
    requires { (pass.old.table ≡ desk.now.table_id) × (desk.now.table_id.words ≡ 1) }
    ensures same { pass.new ≡ pass.old }
    ensures saw { Saw pass.old.state }
{
    desk.load::<Look<S>>(&mut pass.place, 0);
}

impl<S: Turned> Shared<S> {
    /// Leaves both passes with the longer of the two histories that they saw. It takes no turn.
    pub fn meet(&self, a: &mut Pass<S>, b: &mut Pass<S>)
        requires { (a.old.table ≡ self.now.table) × (b.old.table ≡ self.now.table) }
        ensures a { Met a.old b.old a.new }
        ensures b { Met b.old a.old b.new }
        ensures both { a.new.state.card.seen ≡ b.new.state.card.seen }
    {
        let desk = &self.table.shared;
        tell(desk, a, b);
        look_at(desk, b);
        tell(desk, b, a);
    }
}
