//! The nodes of a run.

ghost use Rattle.std.specs.Prelude.{◌≡◌, ◌≢◌, ◌≤◌, ◌<◌, ℕ, false, List, length, Err, IfOk};
ghost use Rattle.lu_base.specs.declared.ids.Node.TheVariants as node;
ghost use Rattle.lu_client.specs.Ranges.{IsCall};
ghost use Rattle.lu_base.specs.declared.ids.Node.{Node as NodeOf};
ghost use Rattle.lu_spec_client.specs.Rows as client_rows;
ghost use Rattle.lu_spec_client.specs.Rows.{Begins, Ticks, Dies};
ghost use Rattle.lu_client.specs.Comings.{may_come};
ghost use Rattle.lu_msg.specs.Limits.{slot_count};
ghost use Rattle.lu_spec_target.specs.Rows.{Comes};
ghost use Rattle.lu_trace.specs.declared.traces.Step.{Step as StepOf};
ghost use Rattle.lu_spec_run.specs.Heads.{Head as HeadOf};
ghost use Rattle.lu_spec_run.specs.Runs.{client_of};
ghost use Rattle.lu_spec_run.specs.Scenarios.{with_stripes};
ghost use Rattle.lu_spec_entries.specs.Words.{Line};
ghost use Rattle.lu_run_nodes.specs.declared.faults.TurnFault.TheVariants as fault;
ghost use Rattle.lu_run_nodes.specs.Foreseen.{IsForeseen, IsTickForeseen, TakesSurely};
ghost use Rattle.lu_run_nodes.specs.Shown.{AreShown, IsTargetShown, ShowsNodes, ShowsTarget};
ghost use Rattle.lu_run_nodes.specs.States.{is_dead_in, is_down_in};
ghost use Rattle.lu_run_nodes.specs.Turns.{arrives, event_of, NodesMake, NodesFail, TargetMakes, TargetFails};

use super::clients::ClientSeat;
use super::faults::TurnFault;
use super::fresh::Fresh;
use super::targets::TargetSeat;
use lu_base::{Memory, Node, Stamp, TargetId};
use lu_disk::Disk;
use lu_mdt::Mdt;
use lu_msg::{Call, Message};
use lu_net::Sent;
use lu_ost::Ost;
use lu_trace::Step;
use std::alloc::Global;
use std::marker::Model;

/// What a target is told to do.
#[derive(Clone, Copy, Debug, PartialEq, Eq)]
pub enum Command {
    /// Its time goes on.
    Tick,
    /// It commits so many of its transactions, or all.
    Commit(Option<u32>),
    /// It goes down.
    Crash,
    /// It comes up.
    Boot,
    /// It closes its recovery window.
    Close,
}

/// The nodes of a run: up to 16 clients, by number from 0, the metadata target, and up to 8 object storage targets, `t1` first.
#[derive(Drop)]
pub struct Nodes<D: Disk> {
    pub(crate) alloc: Global,
    pub(crate) clients: Vec<ClientSeat>,
    pub(crate) names: TargetSeat<Mdt, D>,
    pub(crate) objects: Vec<TargetSeat<Ost, D>>,
}

impl<D: Disk> Model for Nodes<D> {
    ghost use Rattle.std.specs.Prelude.{◌≤◌, length};
    ghost use Rattle.lu_run_nodes.specs.States.{NodesState};

    ghost Value = { NodesState };

    ghost view = { λ n. record { clients = n.clients.items; names = n.names; objects = n.objects.items } };

    ghost invariant = { λ n. (length n.clients.items ≤ 16) × (length n.objects.items ≤ 8) };
}

impl<D: Disk + Drop> Nodes<D> {
    /// Whether a node takes nothing: a dead client, or a target that is down.
    pub fn is_down(&self, node: Node) -> bool
        ensures down { result ≡ is_down_in self.now node }
    {
        match node {
            Node::Client(client) => self.is_dead(client),
            Node::Target(target) => self.is_off(TargetId(target)),
        }
    }

    /// Whether a client is dead.
    pub fn is_dead(&self, client: u16) -> bool
        ensures dead { result ≡ is_dead_in self.now client }
    {
        match self.clients.get(client as usize) {
            Some(seat) => seat.is_dead(),
            None => false,
        }
    }

    /// Whether a target is down.
    fn is_off(&self, target: TargetId) -> bool
        ensures down { result ≡ is_down_in self.now (node.Target target.0) }
    {
        let Some(place) = target.0.checked_sub(1) else {
            return !self.names.is_up();
        };
        match self.objects.get(place as usize) {
            Some(seat) => !seat.is_up(),
            None => false,
        }
    }

    // ---- clients

    /// The turn of a client in which a call begins, or in which the slot, 0 to 3, is busy.
    pub fn begin(
        &mut self,
        stamp: Stamp,
        client: u16,
        slot: u8,
        call: &Call,
    ) -> Result<Step, Memory>
        requires shown { AreShown self.old }
        requires one { client < length self.old.clients }
        requires slot { slot < slot_count }
        requires range { IsCall call.now }
        ensures made { IfOk result (NodesMake (node.Client client) (Begins slot (with_stripes call.now))
            (Begins slot (with_stripes call.now)) stamp self.old self.new) }
    {
        self.clients[client as usize].begin(stamp, slot, call)
    }

    /// The turn of a client whose time goes on.
    pub fn tick(&mut self, stamp: Stamp, client: u16) -> Result<Step, Memory>
        requires shown { AreShown self.old }
        requires one { client < length self.old.clients }
        ensures made { IfOk result (NodesMake (node.Client client) Ticks Ticks stamp self.old self.new) }
    {
        self.clients[client as usize].tick(stamp)
    }

    /// The turn of a client that dies.
    pub fn die(&mut self, stamp: Stamp, client: u16) -> Result<Step, Memory>
        requires shown { AreShown self.old }
        requires one { client < length self.old.clients }
        ensures made { IfOk result (NodesMake (node.Client client) Dies Dies stamp self.old self.new) }
    {
        self.clients[client as usize].die(stamp)
    }

    // ---- targets

    /// The turn of a target that is told to do this. One that doesn't fit is passed over.
    pub fn command(
        &mut self,
        stamp: Stamp,
        target: TargetId,
        command: Command,
    ) -> Result<Step, TurnFault>
        requires shown { AreShown self.old }
        requires one { target.0 ≤ length self.old.objects }
        ensures made { IfOk result (NodesMake (node.Target target.0) (event_of command) (event_of command)
            stamp self.old self.new) }
        ensures failed { (step : StepOf) → result ≡ Err (fault.Disk step)
            → NodesFail target.0 (event_of command) stamp self.old self.new step }
        ensures foreseen { result ≡ Err fault.Unforeseen → command ≡ Command.Tick
            → (head : HeadOf) (turns : ℕ) (past : List Line)
            → ShowsNodes head turns past self.old → ¬ IsTickForeseen head past stamp target.0 }
    {
        match target.0.checked_sub(1) {
            None => obey(&mut self.names, stamp, command),
            Some(place) => obey(&mut self.objects[place as usize], stamp, command),
        }
    }

    // ---- messages

    /// The turn of the node to which a message goes. The node doesn't know the message's number.
    pub fn hand_over(&mut self, stamp: Stamp, sent: &Sent) -> Result<Step, TurnFault>
        requires shown { AreShown self.old }
        ensures made { IfOk result (λ step. (n : ℕ) → NodesMake sent.now.to
            (arrives 0 sent.now.from sent.now.message sent.now.to)
            (arrives n sent.now.from sent.now.message sent.now.to)
            stamp self.old self.new step) }
        ensures failed { (step : StepOf) → result ≡ Err (fault.Disk step) → (t : ℕ) → sent.now.to ≡ node.Target t
            → NodesFail t (Comes 0 sent.now.from sent.now.message) stamp self.old self.new step }
        ensures target { (step : StepOf) → result ≡ Err (fault.Disk step) → (c : ℕ) → sent.now.to ≢ node.Client c }
        ensures foreseen { result ≡ Err fault.Unforeseen → (head : HeadOf) (turns : ℕ) (past : List Line)
            → ShowsNodes head turns past self.old → ¬ IsForeseen head past stamp sent.now }
    {
        match sent.to {
            Node::Client(client) => self.reach(stamp, client, sent.from, &sent.message),
            Node::Target(target) => self.serve(stamp, TargetId(target), &sent.message),
        }
    }

    /// The turn of a client to which a message comes.
    fn reach(
        &mut self,
        stamp: Stamp,
        client: u16,
        from: Node,
        message: &Message,
    ) -> Result<Step, TurnFault>
        requires shown { AreShown self.old }
        ensures made { IfOk result (λ step. (n : ℕ) → NodesMake (node.Client client)
            (client_rows.Comes 0 from message.now) (client_rows.Comes n from message.now) stamp self.old self.new
            step) }
        ensures failed { (step : StepOf) → result ≢ Err (fault.Disk step) }
        ensures foreseen { result ≡ Err fault.Unforeseen → (head : HeadOf) (turns : ℕ) (past : List Line)
            → ShowsNodes head turns past self.old → client < head.clients → (t : ℕ) → from ≡ node.Target t
            → may_come from message.now (client_of head client past) ≡ false }
    {
        let Some(seat) = self.clients.get_mut(client as usize) else {
            return Err(TurnFault::Unforeseen);
        };
        seat.deliver(stamp, from, message)
    }

    /// The turn of a target to which a message comes.
    fn serve(
        &mut self,
        stamp: Stamp,
        target: TargetId,
        message: &Message,
    ) -> Result<Step, TurnFault>
        requires shown { AreShown self.old }
        ensures made { IfOk result (λ step. (n : ℕ) (from : NodeOf) → NodesMake (node.Target target.0)
            (Comes 0 from message.now) (Comes n from message.now) stamp self.old self.new step) }
        ensures failed { (step : StepOf) → result ≡ Err (fault.Disk step) → (from : NodeOf)
            → NodesFail target.0 (Comes 0 from message.now) stamp self.old self.new step }
        ensures foreseen { result ≡ Err fault.Unforeseen
            → (head : HeadOf) (turns : ℕ) (past : List Line) (from : NodeOf)
            → ShowsNodes head turns past self.old → target.0 ≤ head.osts
            → ¬ TakesSurely head past stamp from message.now target.0 }
    {
        let Some(place) = target.0.checked_sub(1) else {
            return self.names.deliver(stamp, message);
        };
        let Some(seat) = self.objects.get_mut(place as usize) else {
            return Err(TurnFault::Unforeseen);
        };
        seat.deliver(stamp, message)
    }
}

/// The turn of a target that is told to do this.
fn obey<S: Fresh, D: Disk + Drop>(
    seat: &mut TargetSeat<S, D>,
    stamp: Stamp,
    command: Command,
) -> Result<Step, TurnFault>
    requires shown { IsTargetShown seat.old }
    ensures made { IfOk result (TargetMakes (event_of command) (event_of command) stamp seat.old seat.new) }
    ensures failed { (step : StepOf) → result ≡ Err (fault.Disk step)
        → TargetFails (event_of command) stamp seat.old seat.new step }
    ensures foreseen { result ≡ Err fault.Unforeseen → command ≡ Command.Tick
        → (head : HeadOf) (t : ℕ) (past : List Line)
        → ShowsTarget head past t seat.old → ¬ IsTickForeseen head past stamp t }
{
    match command {
        Command::Tick => seat.tick(stamp),
        Command::Commit(count) => seat.commit(stamp, count),
        Command::Crash => Ok(seat.crash(stamp)?),
        Command::Boot => seat.boot(stamp),
        Command::Close => seat.close(stamp),
    }
}
