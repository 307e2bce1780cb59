//! The lines of a scenario on messages: they come, in order or one of them, or are lost.

ghost use Rattle.std.specs.Prelude.{◌≡◌, ◌<◌, ℕ, false, Some, Err, IfOk, IfSome};
ghost use Rattle.lu_base.specs.declared.ids.Node.TheVariants.{Target as AtTarget};
ghost use Rattle.lu_net.specs.Posts.{least_unspent};
ghost use Rattle.lu_scene.specs.declared.scene.SceneLine.TheVariants.{Run as RunLine, RunSome as RunSomeLine, Deliver as DeliverLine, Lose as LoseLine};
ghost use Rattle.lu_run_wire.specs.Wires.{is_full_in};
ghost use Rattle.lu_core.specs.declared.faults.PlayFault.TheVariants as play_fault;
ghost use Rattle.lu_core.specs.declared.players.Progress.TheVariants as progress;
ghost use Rattle.lu_core.specs.States.{is_thrown_in};
ghost use Rattle.lu_core.specs.Progress.{IsNext, IsPlaying, Performs, IsLineUnforeseen, IsTakeUnforeseen, Takes, Throws};

use super::faults::PlayFault;
use super::players::{Player, Progress, says_fail};
use lu_base::{At, Node, TargetId};
use lu_disk::Disk;
use lu_run_nodes::TurnFault;

impl<D: Disk + Drop> Player<D> {
    /// Messages come, the least number first, until there is none.
    pub(crate) fn run(&mut self) -> Result<Progress, PlayFault>
        requires due { IsNext self.old RunLine }
        ensures performs { IfOk result (Performs self.old RunLine self.new) }
        ensures unforeseen { result ≡ Err play_fault.Unforeseen → IsLineUnforeseen self.old RunLine }
    {
        while let Some(number) = self.next_message() {
            if self.wire.is_full() {
                return Ok(Progress::Full);
            }
            match self.take(number)? {
                Progress::Made => {}
                other => return Ok(other),
            }
        }
        Ok(Progress::Made)
    }

    /// At most this many messages come, the least number first.
    pub(crate) fn run_some(&mut self, turns: u64) -> Result<Progress, PlayFault>
        requires due { IsNext self.old (RunSomeLine turns) }
        ensures performs { IfOk result (Performs self.old (RunSomeLine turns) self.new) }
        ensures unforeseen { result ≡ Err play_fault.Unforeseen → IsLineUnforeseen self.old (RunSomeLine turns) }
    {
        for done in 0..turns {
            let Some(number) = self.next_message() else {
                return Ok(Progress::Made);
            };
            if self.wire.is_full() {
                return Ok(Progress::Full);
            }
            match self.take(number)? {
                Progress::Made => {}
                other => return Ok(other),
            }
        }
        Ok(Progress::Made)
    }

    /// The message of this number comes, also again. It is thrown away where its node is down.
    pub(crate) fn deliver(&mut self, number: u64) -> Result<Progress, PlayFault>
        requires due { IsNext self.old (DeliverLine number) }
        ensures performs { IfOk result (Performs self.old (DeliverLine number) self.new) }
        ensures unforeseen { result ≡ Err play_fault.Unforeseen → IsLineUnforeseen self.old (DeliverLine number) }
    {
        let Some(thrown) = self.is_thrown(number) else {
            return Ok(Progress::Made);
        };
        if thrown {
            self.wire.spend(number);
            return Ok(Progress::Made);
        }
        if self.wire.is_full() {
            return Ok(Progress::Full);
        }
        self.take(number)
    }

    /// The message of this number is lost.
    pub(crate) fn lose(&mut self, number: u64) -> Progress
        requires due { IsNext self.old (LoseLine number) }
        ensures performs { Performs self.old (LoseLine number) self.new result }
    {
        self.wire.spend(number);
        Progress::Made
    }

    /// The least number of a message that is neither taken nor lost. Messages before it for a node that is down are thrown
    /// away.
    fn next_message(&mut self) -> Option<u64>
        ensures throws { Throws self.old self.new }
        ensures least { result ≡ least_unspent self.new.wire.links }
        ensures up { IfSome result (λ number. is_thrown_in self.new number ≡ Some false) }
        ensures turns { self.new.wire.turns ≡ self.old.wire.turns }
    {
        while let Some(number) = self.wire.least_unspent() {
            if self.is_thrown(number) == Some(false) {
                return Some(number);
            }
            self.wire.spend(number);
        }
        None
    }

    /// Whether the message of this number is for a node that is down; none where none was sent.
    fn is_thrown(&self, number: u64) -> Option<bool>
        ensures thrown { result ≡ is_thrown_in self.now number }
    {
        let sent = self.wire.sent(number)?;
        Some(self.nodes.is_down(sent.to))
    }

    /// The turn of the node to which the message of this number goes.
    fn take(&mut self, number: u64) -> Result<Progress, PlayFault>
        requires playing { IsPlaying self.old }
        requires up { is_thrown_in self.old number ≡ Some false }
        requires room { is_full_in self.old.wire ≡ false }
        ensures takes { IfOk result (Takes self.old number self.new) }
        ensures later { IfOk result (λ came. came ≡ progress.Made → self.old.wire.turns < self.new.wire.turns) }
        ensures unforeseen { result ≡ Err play_fault.Unforeseen → IsTakeUnforeseen self.old }
    {
        let Some(sent) = self.wire.sent(number) else {
            unreachable!()
        };
        let at = At {
            stamp: self.wire.next_stamp(),
            node: sent.to,
        };
        match self.nodes.hand_over(at.stamp, sent) {
            Ok(step) => {
                self.wire.spend(number);
                self.wire.add_taken(at, step, number)?;
                Ok(Progress::Made)
            }
            Err(TurnFault::Disk(step)) => {
                let target = target_of(at.node);
                if !says_fail(&step) {
                    return Ok(Progress::Broken(target));
                }
                self.wire.spend(number);
                self.wire.add_taken(at, step, number)?;
                Ok(Progress::Failed(target))
            }
            Err(TurnFault::Unforeseen) => Err(PlayFault::Unforeseen),
            Err(TurnFault::Memory) => Err(PlayFault::Memory),
        }
    }
}

/// The target that a node is.
fn target_of(node: Node) -> TargetId
    requires target { (t : ℕ) × (node ≡ AtTarget t) }
    ensures target { node ≡ AtTarget result.0 }
{
    match node {
        Node::Target(target) => TargetId(target),
        Node::Client(_) => unreachable!(),
    }
}
