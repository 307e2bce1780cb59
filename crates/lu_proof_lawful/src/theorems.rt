//! What every covered run of the whole table keeps. Each function does nothing: its contract is a theorem over the
//! definitions of the rows and of the laws.

ghost use Rattle.lu_spec_laws.specs.Holds.{Holds};
ghost use Rattle.lu_spec_laws.specs.Laws.Messages.{Messages};
ghost use Rattle.lu_spec_laws.specs.Laws.Locks.{Locks};
ghost use Rattle.lu_spec_laws.specs.Laws.Silent.{Silent};
ghost use Rattle.lu_spec_laws.specs.Laws.Acts.{Acts, ActsOf};
ghost use Rattle.lu_spec_laws.specs.Laws.Recovery.{Recovery};
ghost use Rattle.lu_spec_laws.specs.Laws.History.{History, HistoryOf};
ghost use Rattle.lu_spec_laws.specs.Laws.Glimpse.{Glimpse};
ghost use Rattle.lu_spec_laws.specs.Lawful.{Lawful};
ghost use Rattle.lu_spec_laws.specs.Orderly.{Orderly};
ghost use Rattle.lu_proof_lawful.specs.Everywhere.{OfEveryRun, OfAllThatFit};
ghost use Rattle.lu_proof_lawful.specs.Failing.{OfEveryFailedRun, OfEveryFailedStart};

/// The printed trace of every run of the whole table whose lines are covered is lawful, by all seven laws:
/// whatever bytes are read, written and cut, whatever the network loses, repeats or reorders, whoever waits for a lock, whoever is evicted and joins in a new life,
/// and whichever targets crash, boot again, recover and close their recovery windows; for every number of clients, of
/// object storage targets and of requests in flight, and every schedule.
///
/// Of the law of acts and that of history more is shown: they hold for all lives that will be out and all
/// numbers that will be lost at the end of the trace, so far as these fit the run; whoever was evicted is out, and what a
/// close lost is lost.
pub fn covered_runs_are_lawful()
    ensures messages { OfEveryRun (λ osts whole. Holds Messages whole) }
    ensures locks { OfEveryRun (λ osts whole. Holds (Locks osts) whole) }
    ensures silent { OfEveryRun (λ osts whole. Holds Silent whole) }
    ensures acts { OfEveryRun (λ osts whole. Holds (Acts whole) whole) }
    ensures recovery { OfEveryRun (λ osts whole. Holds (Recovery osts whole) whole) }
    ensures history { OfEveryRun (λ osts whole. Holds (History osts whole) whole) }
    ensures glimpse { OfEveryRun (λ osts whole. Holds (Glimpse osts whole) whole) }
    ensures lawful { OfEveryRun (λ osts whole. Lawful osts whole) }
    ensures acts_of { OfAllThatFit (λ out lost osts whole. Holds (ActsOf out lost whole) whole) }
    ensures history_of { OfAllThatFit (λ out lost osts whole. Holds (HistoryOf out lost osts) whole) }
{}

/// The printed trace of every covered run has no line without its cause, as far as `Orderly` says: what acts was asked for
/// and has the answer of the contents, what a target sends carries its boot and what it has committed, what is heard was
/// in flight, a reply that is sent again is as it was, what is held came in its turn, what is released was given back in
/// its turn or was an evicted life's, what is called back guards what a request that waits would write, a new life is the
/// client's next one and follows the notice that the old one is over, and who joins asked for it in that turn, or at a
/// close since the boot, and is newer than the last one there, which was evicted; a crash comes to a target that is up, a
/// boot to one that is down, and it is the next one; what only a serving target does stands where it serves; a close is
/// followed by the commit of what it keeps; and what it keeps and restores was handed in since the boot.
pub fn covered_runs_are_orderly()
    ensures orderly { OfEveryRun (λ osts whole. Orderly osts whole) }
{}

/// The printed trace of a run that a failing disk ends is lawful, by all seven laws: where all lines before the last turn are
/// covered, and this one's would be, had its call to the disk not failed, the lines up to that call and `fail` break no law,
/// wherever in the turn the call stands. So is the trace of a run of which a target's start fails: one line.
pub fn runs_that_a_failing_disk_ends_are_lawful()
    ensures failed { OfEveryFailedRun (λ osts whole. Lawful osts whole) }
    ensures start { OfEveryFailedStart (λ osts whole. Lawful osts whole) }
{}
