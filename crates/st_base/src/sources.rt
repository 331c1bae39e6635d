ghost use Rattle.std.specs.Prelude.{Option, ◌≡◌, ℕ, List};
ghost use Rattle.std.specs.Io.{ReadsAtMost};
ghost use Rattle.std.specs.Io.KnownBytes.{ReadConsumes};
ghost use Rattle.st_base.specs.Faults.{HasCause};

use crate::failures::Failed;

/// What bytes are read from.
///
/// `left` is the bytes to come, if they are known; `faults` counts its failures and never falls;
/// `beside` is whatever else of the object a clause may speak of, and no read changes it.
pub trait Source {
    ghost Beside: { Type 0 };

    ghost left: { Self → Option (List ℕ) };

    ghost faults: { Self → ℕ };

    ghost beside: { Self → Beside };

    /// Moves up to `out.len()` of the bytes to come into the start of `out`, and returns how many.
    ///
    /// 0 for an `out` with room means that no more come. `Failed` comes only if `faults` rose in
    /// this call, and moves nothing.
    fn read(&mut self, out: &mut [u8]) -> Result<usize, Failed>
        ensures bound { ReadsAtMost result out.new }
        ensures bytes { ReadConsumes (left self.old) (left self.new) result out.new }
        ensures cause { HasCause (faults self.old) (faults self.new) result }
        ensures rest { beside self.new ≡ beside self.old };
}
