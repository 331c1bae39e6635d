//! A query, asked over a pass.

ghost use Rattle.seated_answer.specs.Resting.{Rests, Rested};

use crate::replies::{Runs, read_reply};
use st_base::{Limits, MemSink, Plain};
use st_pcap::Unit;
use st_query::Query;
use st_seated::answer_shared;
use st_shelf::Shelf;
use std::alloc::Global;
use std::sync::Wait;
use turn_trials::{SharedSpool, SpoolPass};

/// What is asked for.
pub const QUESTION: &[u8] = b"port 53";

const ALL: Limits = Limits {
    packets: u64::MAX,
    bytes: u64::MAX,
};

/// What was heard of an answer.
#[derive(Clone, Copy)]
pub enum Heard {
    /// A whole pcap of whole runs of pairs.
    Right(Runs),
    /// A reply that is none.
    Wrong,
    /// The answer broke off.
    Failed,
}

/// Asks for the packets of all pairs that are published, by turns of this pass, which comes back.
pub fn ask<D: Shelf, R: Wait>(
    rt: &R,
    alloc: Global,
    shared: &SharedSpool<D>,
    pass: SpoolPass<D>,
    query: &Query,
) -> (SpoolPass<D>, Heard)
    requires { Rests (D.log shared.now.base.shelf) shared.now pass }
    ensures rested { Rested pass result.0 }
    ensures rests { Rests (D.log shared.now.base.shelf) shared.now result.0 }
{
    let Ok(mut sink) = MemSink::new(alloc, &[]) else {
        return (pass, Heard::Failed);
    };
    let (pass, told) = {
        let mut outlet = Plain::over(&mut sink);
        answer_shared(
            rt,
            alloc,
            shared,
            pass,
            query,
            0,
            Unit::Micro,
            ALL,
            &mut outlet,
        )
    };
    let Ok(told) = told else {
        return (pass, Heard::Failed);
    };
    match read_reply(alloc, told, sink.bytes()) {
        Some(runs) => (pass, Heard::Right(runs)),
        None => (pass, Heard::Wrong),
    }
}
