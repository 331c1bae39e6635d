ghost use Rattle.std.specs.Prelude.{Option, ◌≡◌, ◌<◌, ℕ, List, [], ◌∷◌, length};
ghost use Rattle.st_base.specs.Faults.{HasCause};
ghost use Rattle.st_base.specs.Outlets.{IsPrefix, Sends};

use crate::failures::Failed;
use crate::sinks::{Sink, put};

/// What an answer is sent through, piece by piece, in whatever form it gives each piece.
///
/// `state` is what the outlet has come to, if it is known; `after` is the state that follows a
/// piece, and `gone` the bytes that a state has sent out, which a piece only ever adds to. `faults`
/// counts its failures and never falls; `beside` is whatever else of the object a clause may speak
/// of, and no piece changes it.
pub trait Outlet {
    ghost Beside: { Type 0 };

    ghost State: { Type 0 };

    ghost state: { Self → Option State };

    ghost after: { State → List ℕ → State };

    ghost gone: { State → List ℕ };

    ghost faults: { Self → ℕ };

    ghost beside: { Self → Beside };

    // a piece adds to what has gone out
    ghost grows: { (s : State) (bytes : List ℕ) → IsPrefix (gone s) (gone (after s bytes)) };

    /// Sends one piece, which isn't empty.
    ///
    /// `Failed` comes only if `faults` rose in this call; what has then gone out is what had before
    /// and a prefix of what the piece adds.
    fn piece(&mut self, bytes: &[u8]) -> Result<(), Failed>
        requires { 0 < length bytes.now }
        ensures sends { Sends after gone (state self.old) (state self.new) (bytes.now ∷ []) result }
        ensures cause { HasCause (faults self.old) (faults self.new) result }
        ensures rest { beside self.new ≡ beside self.old };
}

/// A sink as an outlet: its state is the bytes that it has, and each piece is put as it is. It
/// takes no memory.
pub struct Plain<'a, S> {
    sink: &'a mut S,
}

impl<S> Drop for Plain<'_, S> {
    fn drop(self)
        ensures { self.exit.0.now ≡ self.entry.sink.now }
    {
        let Plain { sink: _sink } = self;
    }
}

impl<'a, S: Sink> Plain<'a, S> {
    /// An outlet over `sink`, which is as it was.
    pub fn over(sink: &'a mut S) -> Plain<'a, S>
        ensures same_reference { result.sink.ghost_name ≡ sink.entry.ghost_name }
        ensures same { result.sink.now ≡ sink.old }
    {
        Plain { sink }
    }
}

impl<S: Sink> Outlet for Plain<'_, S> {
    ghost use Rattle.std.specs.Prelude.{◌++◌, refl};
    ghost use base.Fml.{GName};

    // which sink it is, and what the sink has beside
    ghost Beside = { GName × S.Beside };

    ghost State = { List ℕ };

    ghost state = { λ p. S.written p.sink.now };

    ghost after = { λ s bytes. s ++ bytes };

    ghost gone = { λ s. s };

    ghost faults = { λ p. S.faults p.sink.now };

    ghost beside = { λ p. (p.sink.ghost_name, S.beside p.sink.now) };

    ghost grows = { λ s bytes. (bytes, refl) };

    fn piece(&mut self, bytes: &[u8]) -> Result<(), Failed> {
        put(self.sink, bytes)
    }
}
