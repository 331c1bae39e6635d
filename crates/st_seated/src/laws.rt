//! Laws of the definitions. The function does nothing; what it ensures is what counts.

ghost use Rattle.st_seated.specs.Sitting.{StartsSeatable, MeetsSeatable};

use st_turn::Turned;

/// A pass may be a store as it starts, and after it met others while it holds nothing.
pub fn passes_sit<S: Turned>()
    ensures started { StartsSeatable S }
    ensures met { MeetsSeatable S }
{}
