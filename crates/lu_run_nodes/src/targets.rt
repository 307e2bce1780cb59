//! A target of a run with its disk, up or down.

ghost use Rattle.std.specs.Prelude.{◌≡◌, ◌≢◌, ◌≤◌, ◌⊎◌, ℕ, List, [], is_some, IsSome, None, Some, Err, IfOk};
ghost use Rattle.lu_base.specs.declared.ids.Node.{Node as NodeOf};
ghost use Rattle.lu_base.specs.declared.ids.Node.TheVariants as node;
ghost use Rattle.lu_spec_target.specs.Rows.{Comes, Ticks, Commits, Crashes, Boots, Closes};
ghost use Rattle.lu_spec_target.specs.States.{lives_from};
ghost use Rattle.lu_target.specs.StoreCommits.{last_boot, most_boots};
ghost use Rattle.lu_trace.specs.declared.entries.Entry.{Entry as EntryOf};
ghost use Rattle.lu_trace.specs.declared.traces.Step.{Step as StepOf};
ghost use Rattle.lu_spec_run.specs.Heads.{Head as HeadOf};
ghost use Rattle.lu_spec_entries.specs.Words.{Line};
ghost use Rattle.lu_run_nodes.specs.Disks.{disk_or_none};
ghost use Rattle.lu_run_nodes.specs.Foreseen.{IsTickForeseen, TakesSurely};
ghost use Rattle.lu_run_nodes.specs.declared.faults.TurnFault.TheVariants as fault;
ghost use Rattle.lu_run_nodes.specs.Shown.{IsTargetShown, IsTargetUnstarted, IsUnstarted, ShowsTarget};
ghost use Rattle.lu_run_nodes.specs.States.{disk_in, with_disk};
ghost use Rattle.lu_run_nodes.specs.Turns.{turn_at, one_line, TargetMakes, TargetFails, StartFails};

use super::faults::TurnFault;
use super::fresh::Fresh;
use lu_base::{At, Memory, Node, Stamp, TargetId, Who};
use lu_disk::Disk;
use lu_msg::Message;
use lu_service::Service;
use lu_target::Target;
use lu_trace::{Entry, Step, Turn};
use std::alloc::Global;
use std::marker::Model;

/// A target and its disk: the target is up, or its disk lies here.
#[derive(Drop)]
pub(crate) struct TargetSeat<S: Service, D: Disk> {
    alloc: Global,
    id: TargetId,
    /// How many object storage targets the run has, 1 to 8.
    osts: u16,
    /// After so many ticks the holder of a lock that was called back loses its slot.
    expire: u64,
    target: Option<Target<S, D>>,
    /// None while the target is up.
    disk: Option<D>,
}

impl<S: Service, D: Disk> Model for TargetSeat<S, D> {
    ghost use Rattle.std.specs.Prelude.{◌≤◌, option_map};
    ghost use Rattle.lu_run_nodes.specs.States.{TargetSeat as Seat};

    ghost Value = { Seat };

    ghost view = { λ s. record {
      id = s.id.0;
      osts = s.osts;
      expire = s.expire;
      kind = S.kind;
      target = s.target;
      disk = option_map (λ d. record { batches = D.batches d; faults = D.faults d }) s.disk;
    } };

    ghost invariant = { λ s. (1 ≤ s.osts) × (s.osts ≤ 8) };
}

impl<S: Fresh, D: Disk + Drop> TargetSeat<S, D> {
    /// A target of a run of so many object storage targets, 1 to 8. It is down, with its disk.
    pub(crate) fn new(
        alloc: Global,
        id: TargetId,
        osts: u16,
        expire: u64,
        disk: D,
    ) -> TargetSeat<S, D>
        requires some { 1 ≤ osts }
        requires few { osts ≤ 8 }
        ensures down { result ≡ record {
          id = id.0;
          osts = osts;
          expire = expire;
          kind = S.kind;
          target = None;
          disk = Some (record { batches = D.batches disk; faults = D.faults disk });
        } }
    {
        TargetSeat {
            alloc,
            id,
            osts,
            expire,
            target: None,
            disk: Some(disk),
        }
    }

    /// Whether it is up.
    pub(crate) fn is_up(&self) -> bool
        ensures up { result ≡ is_some self.now.target }
    {
        self.target.is_some()
    }

    /// It begins its run over an empty disk, and these lives have slots. It makes no line.
    pub(crate) fn start(&mut self, first: &[Who], stamp: Stamp) -> Result<(), TurnFault>
        requires unstarted { IsTargetUnstarted self.old }
        ensures started { IfOk result (λ _. (head : HeadOf) (t : ℕ) → IsUnstarted head t self.old
            → first.now ≡ lives_from 0 head.clients → ShowsTarget head [] t self.new) }
        ensures failed { (step : StepOf) → result ≡ Err (fault.Disk step)
            → (head : HeadOf) (t : ℕ) → IsUnstarted head t self.old → StartFails t stamp self.old self.new step }
        ensures foreseen { result ≢ Err fault.Unforeseen }
    {
        let Some(disk) = self.disk.take() else {
            unreachable!()
        };
        self.come_up(disk, first, stamp)?;
        Ok(())
    }

    /// The turn in which it comes up; passed over where it is up.
    pub(crate) fn boot(&mut self, stamp: Stamp) -> Result<Step, TurnFault>
        requires shown { IsTargetShown self.old }
        ensures made { IfOk result (TargetMakes Boots Boots stamp self.old self.new) }
        ensures failed { (step : StepOf) → result ≡ Err (fault.Disk step)
            → TargetFails Boots stamp self.old self.new step }
    {
        if self.is_up() {
            return Ok(self.line(stamp, Entry::Skip)?);
        }
        let Some(disk) = self.disk.take() else {
            unreachable!()
        };
        self.come_up(disk, &[], stamp)
    }

    /// It comes up over this disk with a new service: it begins its run, or it boots.
    fn come_up(&mut self, disk: D, first: &[Who], stamp: Stamp) -> Result<Step, TurnFault>
        requires down { self.old.target ≡ None }
        requires begins { IsTargetUnstarted (with_disk self.old (D.batches disk) (D.faults disk))
            ⊎ IsTargetShown (with_disk self.old (D.batches disk) (D.faults disk)) }
        ensures started { IfOk result (λ _. (head : HeadOf) (t : ℕ)
            → IsUnstarted head t (with_disk self.old (D.batches disk) (D.faults disk))
            → first.now ≡ lives_from 0 head.clients → ShowsTarget head [] t self.new) }
        ensures booted { IfOk result (TargetMakes Boots Boots stamp
            (with_disk self.old (D.batches disk) (D.faults disk)) self.new) }
        ensures start_failed { (step : StepOf) → result ≡ Err (fault.Disk step) → (head : HeadOf) (t : ℕ)
            → IsUnstarted head t (with_disk self.old (D.batches disk) (D.faults disk))
            → StartFails t stamp (with_disk self.old (D.batches disk) (D.faults disk)) self.new step }
        ensures boot_failed { (step : StepOf) → result ≡ Err (fault.Disk step)
            → TargetFails Boots stamp (with_disk self.old (D.batches disk) (D.faults disk)) self.new step }
        ensures spent { result ≡ Err fault.Unforeseen → last_boot (D.batches disk) ≡ most_boots }
    {
        let service = match S::fresh(self.alloc, self.osts) {
            Ok(service) => service,
            Err(error) => {
                self.disk = Some(disk);
                return Err(TurnFault::from(error));
            }
        };
        match Target::boot(
            self.alloc,
            disk,
            service,
            self.id,
            first,
            self.expire,
            stamp,
        ) {
            Ok((target, step)) => {
                self.target = Some(target);
                Ok(step)
            }
            Err((disk, fault)) => {
                self.disk = Some(disk);
                Err(TurnFault::from(fault))
            }
        }
    }

    /// The turn in which it goes down; passed over where it is down.
    pub(crate) fn crash(&mut self, stamp: Stamp) -> Result<Step, Memory>
        requires shown { IsTargetShown self.old }
        ensures made { IfOk result (TargetMakes Crashes Crashes stamp self.old self.new) }
    {
        let Some(target) = self.target.take() else {
            return self.line(stamp, Entry::Skip);
        };
        self.disk = Some(target.crash());
        self.line(stamp, Entry::Crash)
    }

    /// The turn in which a message comes, whose number the target doesn't know. A target that is down takes none.
    pub(crate) fn deliver(&mut self, stamp: Stamp, message: &Message) -> Result<Step, TurnFault>
        requires shown { IsTargetShown self.old }
        ensures made { IfOk result (λ step. (n : ℕ) (from : NodeOf)
            → TargetMakes (Comes 0 from message.now) (Comes n from message.now) stamp self.old self.new step) }
        ensures failed { (step : StepOf) → result ≡ Err (fault.Disk step) → (from : NodeOf)
            → TargetFails (Comes 0 from message.now) stamp self.old self.new step }
        ensures foreseen { result ≡ Err fault.Unforeseen → (head : HeadOf) (t : ℕ) (past : List Line) (from : NodeOf)
            → ShowsTarget head past t self.old → ¬ TakesSurely head past stamp from message.now t }
    {
        let Some(target) = &mut self.target else {
            return Err(TurnFault::Unforeseen);
        };
        if !target.accepts(message) {
            return Err(TurnFault::Unforeseen);
        }
        Ok(target.deliver(stamp, message)?)
    }

    /// The turn in which its time goes on; passed over where it is down.
    pub(crate) fn tick(&mut self, stamp: Stamp) -> Result<Step, TurnFault>
        requires shown { IsTargetShown self.old }
        ensures made { IfOk result (TargetMakes Ticks Ticks stamp self.old self.new) }
        ensures failed { (step : StepOf) → result ≡ Err (fault.Disk step)
            → TargetFails Ticks stamp self.old self.new step }
        ensures foreseen { result ≡ Err fault.Unforeseen → (head : HeadOf) (t : ℕ) (past : List Line)
            → ShowsTarget head past t self.old → ¬ IsTickForeseen head past stamp t }
    {
        match &mut self.target {
            Some(target) => Ok(target.tick(stamp)?),
            None => Ok(self.line(stamp, Entry::Skip)?),
        }
    }

    /// The turn in which it commits the first `count` of its transactions, or all; passed over where it is down.
    pub(crate) fn commit(&mut self, stamp: Stamp, count: Option<u32>) -> Result<Step, TurnFault>
        requires shown { IsTargetShown self.old }
        ensures made { IfOk result (TargetMakes (Commits count) (Commits count) stamp self.old self.new) }
        ensures failed { (step : StepOf) → result ≡ Err (fault.Disk step)
            → TargetFails (Commits count) stamp self.old self.new step }
    {
        match &mut self.target {
            Some(target) => Ok(target.commit_now(stamp, count)?),
            None => Ok(self.line(stamp, Entry::Skip)?),
        }
    }

    /// The turn in which it closes its recovery window; passed over where it is down.
    pub(crate) fn close(&mut self, stamp: Stamp) -> Result<Step, TurnFault>
        requires shown { IsTargetShown self.old }
        ensures made { IfOk result (TargetMakes Closes Closes stamp self.old self.new) }
        ensures failed { (step : StepOf) → result ≡ Err (fault.Disk step)
            → TargetFails Closes stamp self.old self.new step }
    {
        match &mut self.target {
            Some(target) => Ok(target.close_window(stamp)?),
            None => Ok(self.line(stamp, Entry::Skip)?),
        }
    }

    /// Its disk. A target that is up goes down.
    pub(crate) fn into_disk(self) -> D
        requires some { IsSome (disk_in self) }
        ensures disk { disk_or_none (disk_in self) ≡ record { batches = D.batches result; faults = D.faults result } }
    {
        let TargetSeat { target, disk, .. } = self;
        if let Some(target) = target {
            return target.crash();
        }
        let Some(disk) = disk else { unreachable!() };
        disk
    }

    /// A turn of one line.
    fn line(&self, stamp: Stamp, entry: Entry) -> Result<Step, Memory>
        ensures step { IfOk result (λ step. step ≡ one_line (turn_at stamp (node.Target self.now.id)) entry) }
    {
        let node = Node::Target(self.id.0);
        let mut turn = Turn::new(self.alloc, At { stamp, node });
        turn.note(entry)?;
        Ok(turn.into_step())
    }
}
