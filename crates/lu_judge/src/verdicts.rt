//! The verdict on a trace: the laws in their order, up to the first that is broken.

ghost use Rattle.std.specs.Prelude.{◌≡◌, ℕ, None, IfOk, IfSome, ◌↔◌};
ghost use Rattle.lu_trace.specs.WellFormed.{IsWellFormed};
ghost use Rattle.lu_spec_laws.specs.Lawful.{IsLawful};
ghost use Rattle.lu_judge_pass.specs.Firsts.{IsFirst};
ghost use Rattle.lu_judge.specs.Laws.{law_of};
ghost use Rattle.lu_judge.specs.Verdicts.{Keeps, KeepsBefore, IsLeastLine, IsFirstBroken, IsVerdict};
ghost use Rattle.lu_judge.specs.declared.laws.Law.{Law};

use super::laws::Law;
use lu_base::Memory;
use lu_judge_acts::first_in_acts;
use lu_judge_glimpse::first_in_glimpse;
use lu_judge_history::first_in_history;
use lu_judge_locks::first_in_locks;
use lu_judge_messages::first_in_messages;
use lu_judge_recovery::first_in_recovery;
use lu_judge_silent::first_in_silent;
use lu_trace::Trace;
use std::alloc::Global;
use std::fmt;

/// Whether a trace is lawful.
#[derive(Clone, Copy, Debug, PartialEq, Eq)]
pub enum Verdict {
    /// No law is broken at any line.
    Lawful,
    /// This law is broken, and none before it. The line is the first that breaks it, counted from 1.
    Broken { law: Law, line: u64 },
}

impl fmt::Display for Verdict {
    ghost use Rattle.std.specs.Prelude.{Some};
    ghost use Rattle.lu_judge.specs.Verdicts.{verdict_text};

    ghost output = { λ verdict. Some (verdict_text verdict) };

    fn fmt<W: fmt::Write>(&self, f: &mut fmt::Formatter<W>) -> fmt::Result {
        match self {
            Verdict::Lawful => write!(f, "lawful"),
            Verdict::Broken { law, line } => write!(f, "broken {law} {line}"),
        }
    }
}

/// The place, from 0, of the first line that breaks the law; none where no line does. It answers want of memory alone.
fn first_place(alloc: Global, law: Law, trace: &Trace) -> Result<Option<usize>, Memory>
    requires formed { IsWellFormed trace.now }
    requires before { KeepsBefore trace.now law }
    ensures { IfOk result (IsFirst (law_of trace.now law) trace.now.entries) }
{
    match law {
        Law::Messages => first_in_messages(alloc, trace.entries.as_slice()),
        Law::Locks => first_in_locks(alloc, trace),
        Law::Silent => first_in_silent(alloc, trace),
        Law::Acts => first_in_acts(alloc, trace),
        Law::Recovery => first_in_recovery(alloc, trace),
        Law::History => first_in_history(alloc, trace),
        Law::Glimpse => first_in_glimpse(alloc, trace),
    }
}

/// The first line, counted from 1, at which a well formed trace breaks the law; none exactly where it breaks it at no
/// line. The laws before this one are broken nowhere in the trace. It answers want of memory alone.
pub fn first_broken(alloc: Global, law: Law, trace: &Trace) -> Result<Option<u64>, Memory>
    requires formed { IsWellFormed trace.now }
    requires before { KeepsBefore trace.now law }
    ensures first { IfOk result (λ line. IfSome line (IsLeastLine trace.now law)) }
    ensures none { IfOk result (λ line. (line ≡ None) ↔ Keeps trace.now law) }
{
    match first_place(alloc, law, trace)? {
        Some(place) => {
            let before = &trace.entries.as_slice()[..place];
            Ok(Some(before.len() as u64 + 1))
        }
        None => Ok(None),
    }
}

/// The verdict on a well formed trace. It answers want of memory alone.
fn verdict_on(alloc: Global, trace: &Trace) -> Result<Verdict, Memory>
    requires formed { IsWellFormed trace.now }
    ensures { IfOk result (IsVerdict trace.now) }
{
    let mut law = Law::Messages;
    loop {
        if let Some(line) = first_broken(alloc, law, trace)? {
            return Ok(Verdict::Broken { law, line });
        }
        match law.next() {
            Some(next) => law = next,
            None => return Ok(Verdict::Lawful),
        }
    }
}

/// Whether a well formed trace is lawful; where it isn't, the first law that is broken, in their order, and the first
/// line that breaks it, counted from 1. It answers want of memory alone.
pub fn judge(alloc: Global, trace: &Trace) -> Result<Verdict, Memory>
    requires formed { IsWellFormed trace.now }
    ensures lawful { IfOk result (λ verdict. (verdict ≡ Verdict.Lawful) ↔ IsLawful trace.now) }
    ensures broken { IfOk result (λ verdict. (law : Law) (line : ℕ)
        → (verdict ≡ Verdict.Broken law line) ↔ IsFirstBroken trace.now law line) }
{
    verdict_on(alloc, trace)
}
