//! A client of a run, living or dead.

ghost use Rattle.std.specs.Prelude.{◌≡◌, ◌≢◌, ◌<◌, ℕ, false, [], Err, IfOk};
ghost use Rattle.lu_base.specs.declared.ids.Node.TheVariants as node;
ghost use Rattle.lu_client.specs.Ranges.{IsCall};
ghost use Rattle.lu_msg.specs.Limits.{slot_count};
ghost use Rattle.lu_spec_client.specs.Rows.{Begins, Comes, Ticks, Dies};
ghost use Rattle.lu_client.specs.Comings.{may_come};
ghost use Rattle.lu_trace.specs.declared.traces.Step.{Step as StepOf};
ghost use Rattle.lu_spec_run.specs.Heads.{IsHead};
ghost use Rattle.lu_spec_run.specs.Scenarios.{head_of, with_stripes};
ghost use Rattle.lu_run_nodes.specs.declared.faults.TurnFault.TheVariants as fault;
ghost use Rattle.lu_run_nodes.specs.Shown.{ShowsClient, IsClientShown};
ghost use Rattle.lu_run_nodes.specs.Turns.{ClientMakes};

use super::faults::TurnFault;
use lu_base::{Duplicate, Memory, Node, Stamp, TargetId};
use lu_client::Client;
use lu_msg::{Call, Message};
use lu_scene::Head;
use lu_trace::Step;
use std::alloc::Global;
use std::marker::Model;

/// A client, and whether it is dead.
#[derive(Drop)]
pub(crate) struct ClientSeat {
    alloc: Global,
    client: Client,
    dead: bool,
}

impl Model for ClientSeat {
    ghost use Rattle.std.specs.Prelude.{◌≡◌};
    ghost use Rattle.lu_run_nodes.specs.States.{ClientSeat as Seat};

    ghost Value = { Seat };

    ghost view = { λ s. record { client = s.client; dead = s.dead } };
}

impl ClientSeat {
    /// The client of this number before its first turn.
    pub(crate) fn new(alloc: Global, number: u16, head: &Head) -> Result<ClientSeat, Memory>
        requires head { IsHead (head_of head.now) }
        ensures shows { IfOk result (ShowsClient (head_of head.now) 0 [] number) }
    {
        let client = Client::new(
            alloc,
            number,
            head.osts,
            head.flight as u8,
            head.dirty,
            head.unused,
        )?;
        Ok(ClientSeat {
            alloc,
            client,
            dead: false,
        })
    }

    /// Whether it is dead.
    pub(crate) fn is_dead(&self) -> bool
        ensures dead { result ≡ self.now.dead }
    {
        self.dead
    }

    /// The turn in which a call begins, or in which its slot is busy.
    pub(crate) fn begin(&mut self, stamp: Stamp, slot: u8, call: &Call) -> Result<Step, Memory>
        requires shown { IsClientShown self.old }
        requires slot { slot < slot_count }
        requires range { IsCall call.now }
        ensures made { IfOk result (ClientMakes (Begins slot (with_stripes call.now))
            (Begins slot (with_stripes call.now))
            stamp self.old self.new) }
    {
        self.client.call(stamp, slot, call.copy(self.alloc)?)
    }

    /// The turn in which a message comes. The client doesn't know the message's number.
    pub(crate) fn deliver(
        &mut self,
        stamp: Stamp,
        from: Node,
        message: &Message,
    ) -> Result<Step, TurnFault>
        requires shown { IsClientShown self.old }
        ensures undisked { (step : StepOf) → result ≢ Err (fault.Disk step) }
        ensures made { IfOk result (λ step. (n : ℕ)
            → ClientMakes (Comes 0 from message.now) (Comes n from message.now) stamp self.old self.new step) }
        ensures foreseen { result ≡ Err fault.Unforeseen → (t : ℕ) → from ≡ node.Target t
            → may_come from message.now self.old.client.client ≡ false }
    {
        let Node::Target(target) = from else {
            return Err(TurnFault::Unforeseen);
        };
        let target = TargetId(target);
        if !self.client.accepts(target, message) {
            return Err(TurnFault::Unforeseen);
        }
        Ok(self.client.deliver(stamp, target, message)?)
    }

    /// The turn in which its time goes on.
    pub(crate) fn tick(&mut self, stamp: Stamp) -> Result<Step, Memory>
        requires shown { IsClientShown self.old }
        ensures made { IfOk result (ClientMakes Ticks Ticks stamp self.old self.new) }
    {
        self.client.tick(stamp)
    }

    /// The turn in which it dies.
    pub(crate) fn die(&mut self, stamp: Stamp) -> Result<Step, Memory>
        requires shown { IsClientShown self.old }
        ensures made { IfOk result (ClientMakes Dies Dies stamp self.old self.new) }
    {
        let step = self.client.die(stamp)?;
        self.dead = true;
        Ok(step)
    }
}
