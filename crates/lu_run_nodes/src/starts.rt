//! The nodes at the start of a run.

ghost use Rattle.std.specs.Prelude.{◌≡◌, ◌≢◌, ◌<◌, ◌≤◌, ◌+◌, ℕ, List, [], ◌∷◌, ◌++◌, All, length, slice_index_or, Err, IfOk, OnOk};
ghost use Rattle.lu_base.specs.declared.ids.TargetId.{TargetId as TargetIdOf};
ghost use Rattle.lu_spec_target.specs.States.{lives_from};
ghost use Rattle.lu_trace.specs.declared.traces.Step.{Step as StepOf};
ghost use Rattle.lu_spec_run.specs.Heads.{Head as HeadOf, IsHead};
ghost use Rattle.lu_spec_run.specs.Scenarios.{head_of};
ghost use Rattle.lu_run_nodes.specs.declared.faults.TurnFault.TheVariants as fault;
ghost use Rattle.lu_run_nodes.specs.Shown.{AreUnstarted, IsUnstarted, ShowsClient, ShowsNodes, kind_of};
ghost use Rattle.lu_run_nodes.specs.States.{ClientSeat as ClientSeatOf, TargetSeat as TargetSeatOf};
ghost use Rattle.lu_run_nodes.specs.Turns.{NodesFailStart};

use super::clients::ClientSeat;
use super::faults::{StartFault, TurnFault};
use super::fresh::Fresh;
use super::nodes::Nodes;
use super::targets::TargetSeat;
use lu_base::{Lives, Memory, Stamp, TargetId, Who};
use lu_disk::Disk;
use lu_ost::Ost;
use lu_scene::Head;
use std::alloc::Global;

/// The stamp of a run's first turn.
const FIRST: Stamp = Stamp(1);

impl<D: Disk + Drop> Nodes<D> {
    /// The nodes of a run before its targets start, which are all down. Their disks are taken off the end of a list, the
    /// metadata target's first, then the object storage targets' in their order; each is empty.
    pub fn new(alloc: Global, head: &Head, disks: &mut Vec<D>) -> Result<Nodes<D>, Memory>
        requires head { IsHead (head_of head.now) }
        requires enough { head.now.osts < length disks.old.items }
        requires empty { All (λ d. D.batches d ≡ []) disks.old.items }
        ensures unstarted { IfOk result (AreUnstarted (head_of head.now)) }
        ensures rest { OnOk result ((taken : List D) × (disks.old.items ≡ disks.new.items ++ taken)
            × (length taken ≡ head.now.osts + 1)) }
    {
        let clients = first_clients(alloc, head)?;
        let names = seat(alloc, head, TargetId(0), disks);
        let objects = first_objects(alloc, head, disks)?;
        Ok(Nodes {
            alloc,
            clients,
            names,
            objects,
        })
    }

    /// The targets start, `t0` first, each over its empty disk: the first life of each client has a slot there. Where one
    /// doesn't start, those after it stay down.
    pub fn start(&mut self) -> Result<(), StartFault>
        requires unstarted { (head : HeadOf) × AreUnstarted head self.old }
        ensures started { OnOk result ((head : HeadOf) → AreUnstarted head self.old → ShowsNodes head 0 [] self.new) }
        ensures failed { (t : TargetIdOf) (step : StepOf)
            → result ≡ Err (record { target = t; fault = fault.Disk step })
            → (head : HeadOf) → AreUnstarted head self.old
            → NodesFailStart head t.0 (record { 0 = 1 }) self.old self.new step }
        ensures foreseen { (t : TargetIdOf) → result ≢ Err (record { target = t; fault = fault.Unforeseen }) }
    {
        let lives = match first_lives(self.alloc, self.clients.len()) {
            Ok(lives) => lives,
            Err(error) => return Err(stopped(TargetId(0), TurnFault::from(error))),
        };
        if let Err(fault) = self.names.start(lives.as_slice(), FIRST) {
            return Err(stopped(TargetId(0), fault));
        }
        for place in 0..self.objects.len() {
            if let Err(fault) = self.objects[place].start(lives.as_slice(), FIRST) {
                return Err(stopped(TargetId(place as u16 + 1), fault));
            }
        }
        Ok(())
    }
}

/// A target that didn't start.
fn stopped(target: TargetId, fault: TurnFault) -> StartFault
    ensures fault { result ≡ record { target = target; fault = fault } }
{
    StartFault { target, fault }
}

/// The clients before their first turns.
fn first_clients(alloc: Global, head: &Head) -> Result<Vec<ClientSeat>, Memory>
    requires head { IsHead (head_of head.now) }
    ensures count { IfOk result (λ clients. length clients.items ≡ head.now.clients) }
    ensures shows { IfOk result (λ clients. (c : ℕ) (d : ClientSeatOf) → c < head.now.clients
        → ShowsClient (head_of head.now) 0 [] c (slice_index_or clients.items c d)) }
{
    let mut clients = Vec::new(alloc);
    for number in 0..head.clients {
        clients.push(ClientSeat::new(alloc, number, head)?)?;
    }
    Ok(clients)
}

/// The object storage targets, all down.
fn first_objects<D: Disk + Drop>(
    alloc: Global,
    head: &Head,
    disks: &mut Vec<D>,
) -> Result<Vec<TargetSeat<Ost, D>>, Memory>
    requires head { IsHead (head_of head.now) }
    requires enough { head.now.osts ≤ length disks.old.items }
    requires empty { All (λ d. D.batches d ≡ []) disks.old.items }
    ensures count { IfOk result (λ objects. length objects.items ≡ head.now.osts) }
    ensures unstarted { IfOk result (λ objects. (i : ℕ) (d : TargetSeatOf) → i < head.now.osts
        → IsUnstarted (head_of head.now) (i + 1) (slice_index_or objects.items i d)) }
    ensures rest { OnOk result ((taken : List D) × (disks.old.items ≡ disks.new.items ++ taken)
        × (length taken ≡ head.now.osts)) }
{
    let mut objects = Vec::new(alloc);
    for target in 1..head.osts + 1 {
        objects.push(seat(alloc, head, TargetId(target), disks))?;
    }
    Ok(objects)
}

/// A target that is down, with the last disk of a list, whose disks are all empty.
fn seat<S: Fresh, D: Disk + Drop>(
    alloc: Global,
    head: &Head,
    target: TargetId,
    disks: &mut Vec<D>,
) -> TargetSeat<S, D>
    requires head { IsHead (head_of head.now) }
    requires some { 0 < length disks.old.items }
    requires empty { All (λ d. D.batches d ≡ []) disks.old.items }
    ensures unstarted { S.kind ≡ kind_of target.0 → IsUnstarted (head_of head.now) target.0 result }
    ensures fewer { length disks.old.items ≡ length disks.new.items + 1 }
    ensures rest { (disk : D) × (disks.old.items ≡ disks.new.items ++ disk ∷ []) }
    ensures empty { All (λ d. D.batches d ≡ []) disks.new.items }
{
    match disks.pop() {
        Some(disk) => TargetSeat::new(alloc, target, head.osts, head.expire, disk),
        None => unreachable!(),
    }
}

/// The first lives of so many clients.
fn first_lives(alloc: Global, clients: usize) -> Result<Lives, Memory>
    requires few { clients ≤ 16 }
    ensures lives { IfOk result (λ lives. lives ≡ lives_from 0 clients) }
{
    let mut lives = Lives::new(alloc);
    for client in 0..clients {
        lives.push(Who {
            client: client as u16,
            life: 1,
        })?;
    }
    Ok(lives)
}
