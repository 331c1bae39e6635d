//! What lies in the table's slot, and what a caller knows.
use crate::book::Line;
use crate::turned::Turned;
use std::marker::{Model, PhantomData};

/// What lies in the slot: the spool, and the book with a line for each pass.
pub struct Home<S: Turned> {
    pub(crate) spool: S,
    pub(crate) lines: Vec<Line>,
}

impl<S: Turned> Model for Home<S> {
    ghost use Rattle.st_turn.specs.Parts.{Booked};

    ghost Value = { Booked S };

    ghost view = { λ h. record {
      spool = h.spool;
      lines = h.lines.items;
    } };
}

/// What a caller knows, for clauses alone. No value of this type is made.
pub struct Knowledge<S: Turned> {
    of: PhantomData<S>,
}

impl<S: Turned> Model for Knowledge<S> {
    ghost use Rattle.st_disk.specs.Events.{Event};
    ghost use Rattle.st_spool.specs.declared.state.Span.{Span};
    ghost use Rattle.st_turn.specs.Turn.{Caller, idle};
    ghost use Rattle.st_turn.specs.Parts.{Booked, PassState};
    ghost use Rattle.st_turn.specs.Steps.{visitor};
    ghost use Rattle.std.specs.Prelude.{[]};

    ghost Value = { Caller (Booked S) (PassState S Event Span) };

    ghost view = { λ _. idle (visitor []) };
}
