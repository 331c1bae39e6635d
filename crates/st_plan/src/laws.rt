//! Laws of plans. The function is empty, and its contract is the law.

ghost use Rattle.std.specs.Prelude.{◌≡◌, List};
ghost use Rattle.clap.specs.Words.{Text};
ghost use Rattle.st_plan.specs.declared.jobs.Plan.{Plan};
ghost use Rattle.st_plan.specs.Plans.{IsPlan};

/// Arguments have one plan at most.
pub fn one_plan()
    ensures { (words : List Text) (p q : Plan) → IsPlan words p → IsPlan words q → p ≡ q }
{}
