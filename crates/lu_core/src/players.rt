//! The player: the nodes of a run, and its messages and lines; the lines of a scenario but those on messages.

ghost use Rattle.std.specs.Prelude.{◌≡◌, ◌↔◌, ◌+◌, ◌<◌, ◌≤◌, ◌⊎◌, ℕ, true, false, [], List, Some, Err, IfOk, OnOk, IsTrue, IsFalse};
ghost use Rattle.lu_base.specs.declared.ids.Node.TheVariants.{Client as AtClient, Target as AtTarget};
ghost use Rattle.lu_base.specs.declared.ids.At.{At as AtOf};
ghost use Rattle.lu_run_nodes.specs.Disks.{HaveDisks};
ghost use Rattle.lu_run_nodes.specs.Turns.{turn_at};
ghost use Rattle.lu_scene.specs.declared.scene.SceneLine.TheVariants.{Call as CallLine, Tick as TickLine, Die as DieLine};
ghost use Rattle.lu_trace.specs.declared.entries.Entry.TheVariants.{Fail as FailEntry};
ghost use Rattle.lu_spec_entries.specs.Given.{step_of};
ghost use Rattle.lu_spec_entries.specs.Words.{Entry as EntryOf, Line as LineOf, with_turn};
ghost use Rattle.lu_spec_run.specs.Runs.{has_failed};
ghost use Rattle.lu_core.specs.declared.faults.PlayFault.TheVariants as play_fault;
ghost use Rattle.lu_core.specs.Commands.{CommandLine};
ghost use Rattle.lu_core.specs.Progress.{IsNext, HasLeft, Performs, PerformsAll, IsUnforeseen, IsLineUnforeseen};

use super::faults::PlayFault;
use lu_base::{At, Memory, Node, TargetId};
use lu_disk::Disk;
use lu_msg::Call;
use lu_run_nodes::{Command, Nodes, TurnFault};
use lu_run_wire::Wire;
use lu_scene::SceneLine;
use lu_trace::{Entry, Line, Step};
use std::marker::Model;

/// What performing a line came to.
#[derive(Clone, Copy, Debug, PartialEq, Eq)]
pub(crate) enum Progress {
    /// It was performed; the lines after it are left.
    Made,
    /// One more turn was due, and the limit of turns or messages forbade it.
    Full,
    /// The disk of this target failed; the run goes no further.
    Failed(TargetId),
    /// The same, but no line of the turn tells of it.
    Broken(TargetId),
}

/// The nodes of a run, and its messages and lines so far.
#[derive(Drop)]
pub(crate) struct Player<D: Disk> {
    pub(crate) nodes: Nodes<D>,
    pub(crate) wire: Wire,
}

impl<D: Disk> Model for Player<D> {
    ghost use Rattle.lu_core.specs.States.{PlayerState};

    ghost Value = { PlayerState };

    ghost view = { λ p. record { nodes = p.nodes; wire = p.wire } };
}

impl<D: Disk + Drop> Player<D> {
    /// Performs lines in order, as far as a limit or a failing disk lets.
    pub(crate) fn perform_all(&mut self, lines: &[SceneLine]) -> Result<Progress, PlayFault>
        requires left { HasLeft self.old lines.now }
        ensures performs { IfOk result (PerformsAll self.old lines.now self.new) }
        ensures unforeseen { result ≡ Err play_fault.Unforeseen → IsUnforeseen self.old lines.now }
    {
        for line in lines {
            match self.perform(line)? {
                Progress::Made => {}
                other => return Ok(other),
            }
        }
        Ok(Progress::Made)
    }

    /// Performs a line.
    fn perform(&mut self, line: &SceneLine) -> Result<Progress, PlayFault>
        requires due { IsNext self.old line.now }
        ensures performs { IfOk result (Performs self.old line.now self.new) }
        ensures unforeseen { result ≡ Err play_fault.Unforeseen → IsLineUnforeseen self.old line.now }
    {
        match line {
            SceneLine::Call { client, slot, call } => self.begin(*client, *slot, call),
            SceneLine::Run => self.run(),
            SceneLine::RunSome(turns) => self.run_some(*turns),
            SceneLine::Deliver(number) => self.deliver(*number),
            SceneLine::Lose(number) => Ok(self.lose(*number)),
            SceneLine::Tick(Node::Client(client)) => self.tick(*client),
            SceneLine::Tick(Node::Target(target)) => self.command(*target, Command::Tick),
            SceneLine::Commit(target) => self.command(target.0, Command::Commit(None)),
            SceneLine::CommitSome { target, count } => {
                self.command(target.0, Command::Commit(Some(*count as u32)))
            }
            SceneLine::Crash(target) => self.command(target.0, Command::Crash),
            SceneLine::Boot(target) => self.command(target.0, Command::Boot),
            SceneLine::Close(target) => self.command(target.0, Command::Close),
            SceneLine::Die(client) => self.die(*client),
        }
    }

    /// A client begins a call; nothing where it is dead.
    fn begin(&mut self, client: u16, slot: u8, call: &Call) -> Result<Progress, PlayFault>
        requires due { IsNext self.old (CallLine client slot call.now) }
        ensures performs { IfOk result (Performs self.old (CallLine client slot call.now) self.new) }
        ensures foreseen { result ≡ Err play_fault.Unforeseen
            → IsLineUnforeseen self.old (CallLine client slot call.now) }
    {
        if self.nodes.is_dead(client) {
            return Ok(Progress::Made);
        }
        if self.wire.is_full() {
            return Ok(Progress::Full);
        }
        let at = self.next_turn(Node::Client(client));
        let step = self.nodes.begin(at.stamp, client, slot, call)?;
        self.wire.add(at, step)?;
        Ok(Progress::Made)
    }

    /// Time goes on at a client; nothing where it is dead.
    fn tick(&mut self, client: u16) -> Result<Progress, PlayFault>
        requires due { IsNext self.old (TickLine (AtClient client)) }
        ensures performs { IfOk result (Performs self.old (TickLine (AtClient client)) self.new) }
        ensures foreseen { result ≡ Err play_fault.Unforeseen → IsLineUnforeseen self.old (TickLine (AtClient client)) }
    {
        if self.nodes.is_dead(client) {
            return Ok(Progress::Made);
        }
        if self.wire.is_full() {
            return Ok(Progress::Full);
        }
        let at = self.next_turn(Node::Client(client));
        let step = self.nodes.tick(at.stamp, client)?;
        self.wire.add(at, step)?;
        Ok(Progress::Made)
    }

    /// A client dies; nothing where it is dead.
    fn die(&mut self, client: u16) -> Result<Progress, PlayFault>
        requires due { IsNext self.old (DieLine client) }
        ensures performs { IfOk result (Performs self.old (DieLine client) self.new) }
        ensures foreseen { result ≡ Err play_fault.Unforeseen → IsLineUnforeseen self.old (DieLine client) }
    {
        if self.nodes.is_dead(client) {
            return Ok(Progress::Made);
        }
        if self.wire.is_full() {
            return Ok(Progress::Full);
        }
        let at = self.next_turn(Node::Client(client));
        let step = self.nodes.die(at.stamp, client)?;
        self.wire.add(at, step)?;
        Ok(Progress::Made)
    }

    /// A target is told to do this.
    fn command(&mut self, target: u16, command: Command) -> Result<Progress, PlayFault>
        requires due { (line : SceneLine) × CommandLine target command line × IsNext self.old line }
        ensures performs { IfOk result (λ came. (line : SceneLine) → CommandLine target command line
            → Performs self.old line self.new came) }
        ensures unforeseen { result ≡ Err play_fault.Unforeseen → (line : SceneLine) → CommandLine target command line
            → IsLineUnforeseen self.old line }
    {
        if self.wire.is_full() {
            return Ok(Progress::Full);
        }
        let at = self.next_turn(Node::Target(target));
        match self.nodes.command(at.stamp, TargetId(target), command) {
            Ok(step) => {
                self.wire.add(at, step)?;
                Ok(Progress::Made)
            }
            Err(TurnFault::Disk(step)) => {
                if !says_fail(&step) {
                    return Ok(Progress::Broken(TargetId(target)));
                }
                self.wire.add(at, step)?;
                Ok(Progress::Failed(TargetId(target)))
            }
            Err(TurnFault::Unforeseen) => Err(PlayFault::Unforeseen),
            Err(TurnFault::Memory) => Err(PlayFault::Memory),
        }
    }

    /// The next turn, at this node.
    pub(crate) fn next_turn(&self, node: Node) -> At
        requires room { self.now.wire.turns < 65536 }
        ensures at { result ≡ turn_at (record { 0 = self.now.wire.turns + 1 }) node }
    {
        At {
            stamp: self.wire.next_stamp(),
            node,
        }
    }
}

/// Whether a line of a turn tells that a disk failed.
pub(crate) fn says_fail(step: &Step) -> bool
    ensures told { IsTrue result → (at : AtOf) (es : List EntryOf) (past : List LineOf) → step.now ≡ step_of at es
        → has_failed (with_turn at es past) ≡ true }
{
    step.entries.as_slice().iter().any(|line| tells_fail(line))
}

/// Whether a line tells that a disk failed.
fn tells_fail(line: &Line) -> bool
    ensures told { IsTrue result ↔ (line.now.entry ≡ FailEntry) }
{
    matches!(line.entry, Entry::Fail)
}
