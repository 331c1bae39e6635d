//! Lists of what was done, for clauses alone.
ghost use Rattle.std.specs.Prelude.{◌≡◌, List, [], ◌∷◌, ◌++◌};
ghost use Rattle.std.specs.Borrow.{ftrue};

use std::marker::{Model, PhantomData};

/// What was done, in order, for clauses alone: it has no bytes.
#[derive(Drop)]
pub struct Trail<A, B> {
    of: PhantomData<(A, B)>,
    /// What was done, in order.
    pub ghost items: { List (A × B) },
}

impl<A, B> Model for Trail<A, B> {
    ghost also_owns = { λ _. ftrue };
}

// It owns nothing.
unsafe impl<A: Send, B: Send> Send for Trail<A, B> {}

impl<A, B> Trail<A, B> {
    /// A trail of nothing.
    pub fn new() -> Trail<A, B>
        ensures { result.items ≡ [] }
    {
        Trail { of: PhantomData }
    }

    /// This trail, with one more thing that was done.
    pub fn and(&self, first: &A, second: &B) -> Trail<A, B>
        ensures { result.items ≡ self.now.items ++ (first.now, second.now) ∷ [] }
    {
        Trail { of: PhantomData }
    }
}
