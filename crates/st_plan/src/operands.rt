//! The operands as a command with its arguments.

ghost use Rattle.std.specs.Prelude.{◌≡◌, [], ◌∷◌, map, MatchOption};
ghost use Rattle.clap.specs.Words.{Text};

/// The argument of this command, if the operands are the command and one argument.
pub fn argument<'a>(name: &str, operands: &[&'a str]) -> Option<&'a str>
    ensures { MatchOption result
        ((a : Text) → map (λ v. v.now) operands.entry.now ≡ name.now ∷ (a ∷ []) → ⊥)
        (λ a. map (λ v. v.now) operands.entry.now ≡ name.now ∷ (a.now ∷ [])) }
{
    if operands.len() != 2 {
        return None;
    }
    let command = operands[0];
    let argument = operands[1];
    if command == name {
        Some(argument)
    } else {
        None
    }
}

/// The arguments of this command, if the operands are the command and two arguments.
pub fn arguments<'a>(name: &str, operands: &[&'a str]) -> Option<(&'a str, &'a str)>
    ensures { MatchOption result
        ((a b : Text) → map (λ v. v.now) operands.entry.now ≡ name.now ∷ (a ∷ (b ∷ [])) → ⊥)
        (λ r. map (λ v. v.now) operands.entry.now
        ≡ name.now ∷ (r.0.now ∷ (r.1.now ∷ []))) }
{
    if operands.len() != 3 {
        return None;
    }
    let command = operands[0];
    let first = operands[1];
    let second = operands[2];
    if command == name {
        Some((first, second))
    } else {
        None
    }
}
