//! What holds of verdicts themselves. A function here does nothing: its contract is a theorem over the definitions of
//! `specs/`.

ghost use Rattle.lu_judge.specs.Verdicts.{EachHasOne};

/// Each trace has a verdict, and no other.
pub fn each_trace_has_one_verdict()
    ensures { EachHasOne }
{}
