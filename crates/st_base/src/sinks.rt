ghost use Rattle.std.specs.Prelude.{Option, ◌≡◌, ℕ, List};
ghost use Rattle.std.specs.Io.{WritesAtMost};
ghost use Rattle.std.specs.Io.KnownBytes.{WriteAppends};
ghost use Rattle.st_base.specs.Faults.{HasCause, HasWriteCause};
ghost use Rattle.st_base.specs.Pieces.{Puts};

use crate::failures::Failed;

/// What bytes are written to.
///
/// `written` is the bytes that the sink has, if they are known; `faults` counts its failures and
/// never falls; `beside` is whatever else of the object a clause may speak of, and no write changes
/// it.
pub trait Sink {
    ghost Beside: { Type 0 };

    ghost written: { Self → Option (List ℕ) };

    ghost faults: { Self → ℕ };

    ghost beside: { Self → Beside };

    /// Takes a prefix of `bytes`, and returns its length.
    ///
    /// If `faults` doesn't rise the write succeeds, and takes one byte at least of a piece that has
    /// any; if it does rise, the write fails or takes nothing of such a piece. A write that fails
    /// takes nothing.
    fn write(&mut self, bytes: &[u8]) -> Result<usize, Failed>
        ensures bound { WritesAtMost result bytes.now }
        ensures bytes { WriteAppends (written self.old) (written self.new) result bytes.now }
        ensures cause { HasWriteCause (faults self.old) (faults self.new) bytes.now result }
        ensures rest { beside self.new ≡ beside self.old };
}

/// Writes all of `bytes`. It takes no memory.
///
/// `Failed` comes only if the sink's `faults` rose in this call; the sink then has a prefix of
/// `bytes` after what it had. A call that succeeds leaves `faults` as it was.
pub fn put<S: Sink>(sink: &mut S, bytes: &[u8]) -> Result<(), Failed>
    ensures bytes { Puts (S.written sink.old) (S.written sink.new) bytes.now result }
    ensures cause { HasCause (S.faults sink.old) (S.faults sink.new) result }
    ensures rest { S.beside sink.new ≡ S.beside sink.old }
{
    let mut done = 0;
    'pieces: while done < bytes.len() {
        match sink.write(bytes.split_at(done).1) {
            Ok(0) => return Err(Failed),
            Ok(taken) => done += taken,
            Err(error) => return Err(error),
        }
    }
    Ok(())
}
