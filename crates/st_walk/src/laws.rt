//! Laws of the walk. These functions do nothing; what they ensure is what counts.

ghost use Rattle.st_walk.specs.Laws.{KeysFit};

/// Each key that a frame has fits the type of its kind.
pub fn keys_fit()
    ensures { KeysFit }
{}
