//! What holds of the laws themselves. A function here does nothing: its contract is a theorem over the
//! definitions of `specs/`.

ghost use Rattle.lu_spec_laws.specs.Words.Histories.{ActsLeave};
ghost use Rattle.lu_spec_laws.specs.Laws.SoFar.{SoFarIsWhole};

/// The law of acts speaks of the whole trace. It may be shown line by line, each over the lines before it: that
/// a transaction's request has none that stands and that no act of it was told.
pub fn line_by_line()
    ensures acts { SoFarIsWhole }
{}

/// The history leaves out what acted at the metadata target without a transaction: it changes nothing of the plain
/// machine.
pub fn acts_leave()
    ensures { ActsLeave }
{}
