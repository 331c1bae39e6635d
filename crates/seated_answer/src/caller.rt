//! One caller with two passes: it publishes by one of them, and asks by the other one.

ghost use Rattle.std.specs.Prelude.{◌≡◌, []};
ghost use Rattle.st_turn.specs.Passes.{IsOf};
ghost use Rattle.seated_answer.specs.Resting.{Rests, Rested};

use crate::asking::{Heard, QUESTION, ask};
use crate::pairs::publish;
use st_query::{Query, parse};
use st_seated::passes_sit;
use st_shelf::Shelf;
use st_spool::Spool;
use st_turn::{NotShared, share};
use std::alloc::Global;
use std::sync::Wait;
use turn_trials::{AnyPair, SharedSpool, SpoolPass, age, opened};

/// What came of each call, in their order.
#[derive(Clone, Copy)]
pub struct Seen {
    /// The stamps of three publications.
    pub stamps: [Option<u64>; 3],
    /// What was heard before two ageings, and after them.
    pub heard: [Heard; 2],
    /// Whether each ageing removed a pair.
    pub aged: [Option<bool>; 2],
}

// Publishes, asks, ages and asks again.
fn each_call<D: Shelf, R: Wait>(
    rt: &R,
    alloc: Global,
    shared: &SharedSpool<D>,
    writer: &mut SpoolPass<D>,
    reader: SpoolPass<D>,
    query: &Query,
) -> (SpoolPass<D>, Seen)
    requires writer { IsOf shared.now writer.old × (writer.old.state.held ≡ []) }
    requires reader { Rests (D.log shared.now.base.shelf) shared.now reader }
    ensures writer { Rested writer.old writer.new }
    ensures reader { Rested reader result.0 }
{
    let first = publish(rt, alloc, shared, writer, 0, 0);
    let second = publish(rt, alloc, shared, writer, 0, 1);
    let third = publish(rt, alloc, shared, writer, 0, 2);
    let (reader, all) = ask(rt, alloc, shared, reader, query);
    let one = age(rt, shared, writer);
    let two = age(rt, shared, writer);
    let (reader, fewer) = ask(rt, alloc, shared, reader, query);
    let seen = Seen {
        stamps: [first, second, third],
        heard: [all, fewer],
        aged: [one, two],
    };
    (reader, seen)
}

/// Shares a spool over this shelf, whose limit is two pairs, between two passes of one caller, and
/// takes it back.
pub fn one_caller<D: Shelf + Drop, R: Wait>(rt: &R, alloc: Global, shelf: D) -> Option<(Seen, D)> {
    let Ok(query) = parse(alloc, QUESTION) else {
        return None;
    };
    let spool = opened(alloc, shelf, 2)?;
    let (shared, mut passes) = match share(alloc, spool, 2) {
        Ok(both) => both,
        Err(NotShared { spool }) => {
            let _shelf = spool.close();
            return None;
        }
    };
    passes_sit::<Spool<D, AnyPair>>();
    let popped = passes.pop();
    let Some(reader) = popped else { unreachable!() };
    let (reader, seen) = each_call(rt, alloc, &shared, &mut passes[0], reader, &query);
    let pushed = passes.push(reader);
    let Ok(()) = pushed else { unreachable!() };
    let spool = shared.finish(passes);
    Some((seen, spool.close()))
}
