//! The law of silent repeats, decided from tables.

ghost use Rattle.std.specs.Prelude.{◌≡◌, ◌<◌, ◌^◌, [], length, reverse, Some, None, IfOk, IsTrue, ◌↔◌};
ghost use Rattle.lu_trace.specs.WellFormed.{IsWellFormed};
ghost use Rattle.lu_spec_laws.specs.Words.Pasts.{Past};
ghost use Rattle.lu_spec_laws.specs.Words.Lives.{who_is};
ghost use Rattle.lu_spec_laws.specs.Words.Repeats.{is_repeat};
ghost use Rattle.lu_spec_laws.specs.Holds.{Holds};
ghost use Rattle.lu_spec_laws.specs.Laws.Messages.{Messages};
ghost use Rattle.lu_spec_laws.specs.Laws.Silent.{Silent as SilentLaw, BegunBy, is_told_silently};
ghost use Rattle.lu_judge_pass.specs.Firsts.{IsFirst};
ghost use Rattle.lu_judge_pass.specs.Places.{InOrder, Placed, turn_of};
ghost use Rattle.lu_judge_silent.specs.Shown.{Shown};
ghost use Rattle.lu_judge_silent.specs.Told.{settles};

use super::known::Known;
use lu_base::{At, Memory, Node};
use lu_judge_pass::{Judge, Ledger, first_broken, same_turn};
use lu_judge_windows::HeldLocks;
use lu_msg::Call;
use lu_trace::{Entry, Line, Trace};
use std::alloc::Global;

/// Whether the line of a turn settles that the slot is told silently in it, or that it isn't; none where it says nothing of
/// that.
fn settles(slot: u8, entry: &Entry) -> Option<bool>
    ensures { result ≡ settles slot entry.now }
{
    match entry {
        Entry::Told { slot: other, .. } => { if *other == slot { Some(true) } else { None } }
        Entry::Send { .. } => Some(false),
        _ => None,
    }
}

/// Whether a later line of the turn tells the slot, and no message is sent in the turn before that.
fn is_told_silently(slot: u8, at: At, later: &[Line]) -> bool
    ensures { result ≡ is_told_silently slot at (turn_of at later.now) }
{
    let mut place = 0;
    while place < later.len() && same_turn(later[place].at, at) {
        if let Some(is_told) = settles(slot, &later[place].entry) {
            return is_told;
        }
        place += 1;
    }
    false
}

/// What the law of silent repeats asks of the lines so far.
#[derive(Debug, Drop)]
struct Silent<'a> {
    /// All lines of the trace.
    lines: &'a [Line],
    ledger: Ledger<'a>,
    held: HeldLocks<'a>,
    known: Known<'a>,
}

impl<'a> Silent<'a> {
    /// Of no line. It takes no memory yet.
    fn new(alloc: Global, lines: &'a [Line]) -> Silent<'a>
        ensures shows { Shown result [] }
        ensures lines { result.lines.now ≡ lines.now }
    {
        Silent {
            lines,
            ledger: Ledger::new(alloc),
            held: HeldLocks::new(alloc),
            known: Known::new(alloc),
        }
    }

    /// Whether a call of the client that begins now repeats one whose answer is known, while its life holds no PW lock.
    fn is_repeat(&self, client: u16, call: &'a Call) -> bool
        ensures { (past : Past) → Shown self.now past → result ≡ is_repeat (who_is client past) past call.now }
    {
        let who = self.ledger.lives.who(client);
        self.known.has(who, call) && !self.held.has_write_lock(who)
    }

    /// Whether the call may begin in this turn, before these later lines.
    fn may_begin(&self, at: At, slot: u8, call: &'a Call, later: &[Line]) -> bool
        ensures { (past : Past) → Shown self.now past → InOrder at later.now
            → IsTrue result ↔ BegunBy past at later.now at.node slot call.now }
    {
        match at.node {
            Node::Client(client) => {
                !self.is_repeat(client, call) || is_told_silently(slot, at, later)
            }
            Node::Target(_) => true,
        }
    }
}

impl<'a> Judge<'a> for Silent<'a> {
    ghost about = { λ j. record { osts = 0; whole = reverse j.lines.now } };

    ghost given = { Placed };

    ghost shows = { Shown };

    ghost law = { λ _. SilentLaw };

    fn allows(&self, line: &'a Line, later: &'a [Line]) -> Result<bool, Memory> {
        match &line.entry {
            Entry::Begin { slot, call } => Ok(self.may_begin(line.at, *slot, call, later)),
            _ => Ok(true),
        }
    }

    fn step(&mut self, line: &'a Line) -> Result<(), Memory> {
        self.known.step(&self.ledger, line)?;
        self.held.step(&self.ledger, line)?;
        self.ledger.step(line)
    }
}

/// The place, from 0, of the first line that breaks the law of silent repeats; none exactly where the law holds of the
/// trace. The trace is well formed, and the law of messages holds of it. It answers want of memory alone.
pub fn first_in_silent(alloc: Global, trace: &Trace) -> Result<Option<usize>, Memory>
    requires formed { IsWellFormed trace.now }
    requires messages { Holds Messages (reverse trace.now.entries) }
    ensures first { IfOk result (IsFirst SilentLaw trace.now.entries) }
    ensures none { IfOk result (λ place. (place ≡ None)
        ↔ Holds SilentLaw (reverse trace.now.entries)) }
{
    let lines = trace.entries.as_slice();
    first_broken(Silent::new(alloc, lines), lines)
}
