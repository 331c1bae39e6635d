//! What a value must tell to be shared by turns.
ghost use Rattle.std.specs.Prelude.{◌≡◌, List, [], Bool};
ghost use Rattle.st_disk.specs.Events.{Event};
ghost use Rattle.st_shelf.specs.Loans.{LoansView, no_loans};
ghost use Rattle.st_spool.specs.declared.state.Span.{Span};
ghost use Rattle.st_turn.specs.Parts.{Facts};

/// What passes share by turns, as the rule of turns reads it. `Spool` is its one implementation.
pub trait Turned {
    /// A file that it lends.
    type File;

    /// What is counted of these files, each of which was lent (true) or came back (false), in
    /// order.
    ghost counted: { List (Self.File × Bool) → LoansView };

    /// Its history, its holds and its counts.
    ghost facts: { Self → Facts Event Span };

    /// What a later state of it keeps of an earlier one.
    ghost keeps: { Self → Self → Type 0 };

    /// Its shelf's count of faults.
    fn fault_count(&self) -> u64
        ensures { result ≡ (facts self.now).faults };

    /// How many of its publications and ageings failed.
    fn failed_calls(&self) -> u64
        ensures { result ≡ (facts self.now).halts };

    /// It keeps all of itself. The call does nothing; its clause is what counts.
    fn keep(&self)
        ensures { keeps self.now self.now };

    // nothing is counted of no files
    ghost counted_none: { counted [] ≡ no_loans };
}
