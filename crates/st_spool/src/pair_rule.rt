ghost use Rattle.std.specs.Prelude.{ℕ, List};

/// Which block files and indexes make a whole pair: those whose bytes are related by `is_whole`.
///
/// A spool never looks at the bytes. It promises that each pair that it published is whole by this
/// rule, since `publish` requires it.
pub trait PairRule {
    ghost is_whole: { List ℕ → List ℕ → Type 0 };
}
