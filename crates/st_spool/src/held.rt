use crate::state::Span;
use std::marker::Model;

/// A file set that is held, seen by contracts as its places in the list of all pairs. It must be
/// spent, by `release`.
pub struct Hold {
    pub(crate) span: Span,
}

impl Model for Hold {
    ghost use Rattle.std.specs.Prelude.{◌≤◌};
    ghost use Rattle.st_spool.specs.declared.state.Span.{Span};

    ghost Value = { Span };

    ghost view = { λ a. a.span };

    ghost invariant = { λ a. a.span.from ≤ a.span.to };
}
