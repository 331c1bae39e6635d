// Calls of the system that a signal may break off.
ghost use Rattle.std.specs.Prelude.{◌≡◌, ◌≢◌, ◌⊎◌, Ok, Err, IfErr, MatchResult};
ghost use Rattle.std.specs.IoError.{error_kind};
ghost use Rattle.std.specs.declared.io.ErrorKind.TheVariants as kind;

use std::io::{self, ErrorKind};

// Makes a call of the system, and makes it again for as long as a signal breaks it off.
pub(crate) fn again<T: Drop, F: Fn() -> io::Result<T>>(call: F) -> io::Result<T>
    requires { F.IsAlwaysCallable call }
    // The call gave this answer, unless it was broken off as often as a u64 numbers.
    ensures answer { MatchResult result (λ value. F.post call (Ok value))
        (λ e. F.post call (Err e) ⊎ (error_kind e ≡ kind.TimedOut)) }
    ensures whole { IfErr result (λ e. error_kind e ≢ kind.Interrupted) }
{
    'tries: for _ in 0..u64::MAX {
        match call() {
            Err(error) if error.kind() == ErrorKind::Interrupted => {}
            answer => return answer,
        }
    }
    Err(io::Error::from(ErrorKind::TimedOut))
}
