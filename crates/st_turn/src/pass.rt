//! A caller's pass.
use crate::desk::Place;
use crate::trail::Trail;
use crate::turned::Turned;
use std::marker::Model;

/// A caller's leave to take turns. It must be spent, by `finish`.
pub struct Pass<S: Turned> {
    pub(crate) place: Place<S>,
    pub(crate) number: usize,
    pub(crate) files: Trail<S::File, bool>,
}

impl<S: Turned> Model for Pass<S> {
    ghost use Rattle.std.specs.Prelude.{◌≡◌, [], Some};
    ghost use Rattle.st_turn.specs.Turn.{idle};
    ghost use Rattle.st_turn.specs.Passes.{PassView};

    ghost Value = { PassView S };

    ghost view = { λ p. record {
      table = p.place.table_id;
      id = p.place.id;
      state = p.place.me.0.pass;
      loans = S.counted p.files.items;
    } };

    // between its calls it has no turn
    ghost invariant = { λ p. (p.place.me ≡ (idle p.place.me.0.pass, []))
        × (p.place.me.0.pass.card.number ≡ Some p.number) };
}
