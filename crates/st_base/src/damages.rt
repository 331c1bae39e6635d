ghost use Rattle.std.specs.Prelude.{◌≢◌};

/// Bytes that break their format: the place of the check that fails, what it found there, and what
/// the format wants there.
///
/// `place` is an offset in bytes, unless the check says otherwise. A check that can only hold or
/// fail has `found` 0 and `want` 1.
/// Source: docs/FORMAT.md, where each format has its checks.
#[derive(Clone, Copy, Debug, PartialEq, Eq)]
pub struct Damage {
    pub place: u64,
    pub found: u64,
    pub want: u64,
    pub ghost differs: { found ≢ want },
}

impl Damage {
    ghost use Rattle.std.specs.Prelude.{◌≡◌};
    ghost use Rattle.st_base.specs.Damages.{damage_view, unmet};

    /// The damage at `place` of a check that can only hold or fail.
    pub fn broken(place: u64) -> Damage
        ensures { damage_view result ≡ unmet place }
    {
        Damage {
            place,
            found: 0,
            want: 1,
        }
    }
}
