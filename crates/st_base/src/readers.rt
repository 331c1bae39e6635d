ghost use Rattle.std.specs.Prelude.{Option, ◌≡◌, ◌+◌, ◌-◌, ◌^◌, ◌≤◌, ℕ, List, length, min, OnOk, Some};
ghost use Rattle.st_base.specs.Faults.{HasCause, CountsOn};
ghost use Rattle.st_base.specs.PlacedReads.{HasPart, ReadsAt};

use crate::failures::Failed;

/// A file that is read at places and never changes.
///
/// `content` is its bytes, if they are known, and `extent` its length in bytes; neither ever
/// changes. `faults` counts its failures and never falls, `reads` the calls of `read_at`, and
/// `asked` the bytes that these asked for; `beside` is whatever else of the object a clause may
/// speak of, and no read changes it.
pub trait Reader {
    ghost Beside: { Type 0 };

    ghost content: { Self → Option (List ℕ) };

    ghost extent: { Self → ℕ };

    ghost faults: { Self → ℕ };

    ghost reads: { Self → ℕ };

    ghost asked: { Self → ℕ };

    ghost beside: { Self → Beside };

    /// The file's length in bytes.
    fn size(&self) -> u64
        ensures { result ≡ extent self.now };

    /// Fills the start of `out` with the bytes from `place`, an offset in bytes, as far as the file
    /// goes, and returns how many these are.
    ///
    /// `Failed` comes only if `faults` rose in this call; what `out` then has is not said.
    fn read_at(&mut self, place: u64, out: &mut [u8]) -> Result<usize, Failed>
        // what comes; the file stays
        ensures bytes { ReadsAt (content self.old) (extent self.old) place result out.new }
        ensures content { content self.new ≡ content self.old }
        ensures extent { extent self.new ≡ extent self.old }
        // the counts
        ensures cause { HasCause (faults self.old) (faults self.new) result }
        ensures reads { CountsOn (reads self.old) (reads self.new) 1 }
        ensures asked { CountsOn (asked self.old) (asked self.new) (length out.old) }
        // what else stays
        ensures rest { beside self.new ≡ beside self.old };

    // known content has the length that `size` answers
    ghost sized: { (r : Self) (bytes : List ℕ) → content r ≡ Some bytes → length bytes ≡ extent r };
}

/// Fills `out` whole with the bytes from `place`, an offset in bytes, by one read.
///
/// `Failed` comes only if the file's `faults` rose in this call; what `out` then has is not said.
pub fn read_whole<R: Reader>(file: &mut R, place: u64, out: &mut [u8]) -> Result<(), Failed>
    requires { place + length out.old ≤ R.extent file.old }
    // what comes; the file stays
    ensures bytes { OnOk result (HasPart (R.content file.old) place out.new) }
    ensures content { R.content file.new ≡ R.content file.old }
    ensures extent { R.extent file.new ≡ R.extent file.old }
    // the counts
    ensures cause { HasCause (R.faults file.old) (R.faults file.new) result }
    ensures reads { CountsOn (R.reads file.old) (R.reads file.new) 1 }
    ensures asked { CountsOn (R.asked file.old) (R.asked file.new) (length out.old) }
    // what else stays
    ensures rest { R.beside file.new ≡ R.beside file.old }
{
    match file.read_at(place, out) {
        Ok(_) => Ok(()),
        Err(error) => Err(error),
    }
}
