//! Playing a target: what comes to it, in turns of given stamps, and the text of the lines that it prints.

ghost use Rattle.std.specs.Prelude.{◌≡◌, ◌≢◌, [], IfOk, OnOk};
ghost use Rattle.lu_target.specs.Shown.{Shows};
ghost use Rattle.lu_target.specs.Sound.{IsKindOf};
ghost use Rattle.lu_spec_target.specs.States.{lives_from, no_contents};
ghost use Rattle.lu_test_nodes.specs.Plays.{Plays, Stood};
ghost use Rattle.lu_test_nodes.specs.declared.runs.Run.{Run as SpecRun};

use super::faults::PlayFault;
use super::fresh::Fresh;
use super::runs::Run;
use super::said::{Comes, message_of};
use super::told::{put_step, put_turn};
use lu_base::{Bytes, Lives, Numbers, Stamp, Who};
use lu_disk::MemoryDisk;
use lu_mdt::Mdt;
use lu_msg::Message;
use lu_ost::Ost;
use lu_target::{BootFault, StepFault, Target};
use lu_trace::Step;
use std::alloc::Global;

/// A target, which stays as it is from a crash to the boot.
#[derive(Drop)]
struct Node<S: Fresh> {
    target: Target<S, MemoryDisk>,
    is_down: bool,
}

/// The first lives of so many clients.
fn first_lives(alloc: Global, clients: u16) -> Result<Lives, PlayFault>
    ensures lives { IfOk result (λ lives. lives ≡ lives_from 0 clients) }
{
    let mut lives = Lives::new(alloc);
    for client in 0..clients {
        lives.push(Who { client, life: 1 })?;
    }
    Ok(lives)
}

/// A target begins over a disk, in a turn of this stamp.
fn begin<S: Fresh>(
    alloc: Global,
    run: Run,
    disk: MemoryDisk,
    stamp: Stamp,
) -> Result<(Target<S, MemoryDisk>, Step), PlayFault>
    requires sort { IsKindOf run.id.0 S.kind }
    requires stood { disk.batches ≢ [] → Stood run S.kind disk.batches }
    ensures plays { IfOk result (λ made. Plays run made.0) }
{
    let service = S::fresh(alloc, run.osts)?;
    let first = first_lives(alloc, run.clients)?;
    boot(alloc, run, disk, service, &first, stamp)
}

/// The same, with a new service and the first lives.
fn boot<S: Fresh>(
    alloc: Global,
    run: Run,
    disk: MemoryDisk,
    service: S,
    first: &Lives,
    stamp: Stamp,
) -> Result<(Target<S, MemoryDisk>, Step), PlayFault>
    requires sort { IsKindOf run.id.0 S.kind }
    requires fresh { Shows S.kind run.osts 1 (S.contents service) no_contents }
    requires lives { first.now ≡ lives_from 0 run.clients }
    requires stood { disk.batches ≢ [] → Stood run S.kind disk.batches }
    ensures plays { IfOk result (λ made. Plays run made.0) }
{
    let begun = Target::boot(
        alloc,
        disk,
        service,
        run.id,
        first.as_slice(),
        run.expire,
        stamp,
    );
    match begun {
        Ok(begun) => Ok(begun),
        Err((_, fault)) => Err(PlayFault::Boot(fault)),
    }
}

/// A message comes, if it may.
fn deliver<S: Fresh>(
    target: &mut Target<S, MemoryDisk>,
    stamp: Stamp,
    message: &Message,
) -> Result<Option<Step>, PlayFault>
    requires plays { (run : SpecRun) × Plays run target.old }
    ensures plays { OnOk result ((run : SpecRun) → Plays run target.old → Plays run target.new) }
{
    if !target.accepts(message) {
        return Ok(None);
    }
    Ok(Some(target.deliver(stamp, message)?))
}

/// What a target that is up gives when this comes; none where it doesn't come.
fn turn<S: Fresh>(
    alloc: Global,
    target: &mut Target<S, MemoryDisk>,
    stamp: Stamp,
    comes: Comes,
) -> Result<Option<Step>, PlayFault>
    requires plays { (run : SpecRun) × Plays run target.old }
    ensures plays { OnOk result ((run : SpecRun) → Plays run target.old → Plays run target.new) }
{
    match comes {
        Comes::Says(said) => deliver(target, stamp, &message_of(alloc, said)?),
        Comes::Tick => Ok(Some(target.tick(stamp)?)),
        Comes::Commit => Ok(Some(target.commit_now(stamp, None)?)),
        Comes::Close => Ok(Some(target.close_window(stamp)?)),
        Comes::Crash | Comes::Boot => Err(PlayFault::Misplaced),
    }
}

impl<S: Fresh> Node<S> {
    /// A run begins.
    fn start(
        alloc: Global,
        run: Run,
        disk: MemoryDisk,
        out: &mut Bytes,
    ) -> Result<Node<S>, PlayFault>
        requires sort { IsKindOf run.id.0 S.kind }
        requires stood { disk.batches ≢ [] → Stood run S.kind disk.batches }
        ensures plays { IfOk result (λ node. Plays run node.target) }
    {
        Node::up(alloc, run, disk, Stamp(1), out)
    }

    /// A target begins over a disk, and is up.
    fn up(
        alloc: Global,
        run: Run,
        disk: MemoryDisk,
        stamp: Stamp,
        out: &mut Bytes,
    ) -> Result<Node<S>, PlayFault>
        requires sort { IsKindOf run.id.0 S.kind }
        requires stood { disk.batches ≢ [] → Stood run S.kind disk.batches }
        ensures plays { IfOk result (λ node. Plays run node.target) }
    {
        let (target, step) = begin(alloc, run, disk, stamp)?;
        put_step(alloc, out, step)?;
        Ok(Node {
            target,
            is_down: false,
        })
    }

    /// It goes down.
    fn crash(self) -> Node<S>
        ensures same { result.target ≡ self.target }
    {
        Node {
            target: self.target,
            is_down: true,
        }
    }

    /// It went down, and boots in a turn of this stamp.
    fn restart(
        self,
        alloc: Global,
        run: Run,
        stamp: Stamp,
        out: &mut Bytes,
    ) -> Result<Node<S>, PlayFault>
        requires sort { IsKindOf run.id.0 S.kind }
        requires plays { Plays run self.target }
        ensures plays { IfOk result (λ node. Plays run node.target) }
    {
        Node::up(alloc, run, self.target.crash(), stamp, out)
    }

    /// This comes to it while it is up.
    fn take(
        self,
        alloc: Global,
        stamp: Stamp,
        comes: Comes,
        out: &mut Bytes,
    ) -> Result<Node<S>, PlayFault>
        requires plays { (run : SpecRun) × Plays run self.target }
        ensures plays { IfOk result (λ node. (run : SpecRun) → Plays run self.target → Plays run node.target) }
    {
        let mut target = self.target;
        let given = turn(alloc, &mut target, stamp, comes)?;
        put_turn(alloc, out, given)?;
        Ok(Node {
            target,
            is_down: false,
        })
    }

    /// This comes to it.
    fn comes(
        self,
        alloc: Global,
        run: Run,
        stamp: Stamp,
        comes: Comes,
        out: &mut Bytes,
    ) -> Result<Node<S>, PlayFault>
        requires sort { IsKindOf run.id.0 S.kind }
        requires plays { Plays run self.target }
        ensures plays { IfOk result (λ node. Plays run node.target) }
    {
        match (self.is_down, comes) {
            (false, Comes::Crash) => Ok(self.crash()),
            (false, comes) => self.take(alloc, stamp, comes, out),
            (true, Comes::Boot) => self.restart(alloc, run, stamp, out),
            (true, _) => Err(PlayFault::Misplaced),
        }
    }
}

/// All this comes to a target over a new disk.
fn play_on<S: Fresh>(
    alloc: Global,
    run: Run,
    disk: MemoryDisk,
    all: &[(u64, Comes)],
    out: &mut Bytes,
) -> Result<(), PlayFault>
    requires sort { IsKindOf run.id.0 S.kind }
    requires empty { disk.batches ≡ [] }
{
    let mut node = Node::<S>::start(alloc, run, disk, out)?;
    for next in all {
        node = node.comes(alloc, run, Stamp(next.0), next.1, out)?;
    }
    Ok(())
}

/// All this comes to the target that the run names.
fn play_all(
    alloc: Global,
    run: Run,
    failing: Option<u64>,
    all: &[(u64, Comes)],
    out: &mut Bytes,
) -> Result<(), PlayFault> {
    let mut calls = Numbers::new(alloc);
    if let Some(call) = failing {
        calls.push(call)?;
    }
    let disk = MemoryDisk::new(alloc, calls);
    if run.id.0 == 0 {
        play_on::<Mdt>(alloc, run, disk, all, out)
    } else {
        play_on::<Ost>(alloc, run, disk, all, out)
    }
}

/// What the target of a run prints when all this comes to it, each in the turn of its stamp: the first turn is the one of
/// stamp 1, in which it begins. The call of its disk that has the number `failing` fails, counted from 0; that ends with the
/// lines of that turn.
pub fn played(
    alloc: Global,
    run: Run,
    failing: Option<u64>,
    all: &[(u64, Comes)],
) -> Result<Bytes, PlayFault> {
    let mut out = Bytes::new(alloc);
    match play_all(alloc, run, failing, all, &mut out) {
        Ok(()) => {}
        Err(PlayFault::Step(StepFault::Disk(step)) | PlayFault::Boot(BootFault::Disk(step))) => {
            put_step(alloc, &mut out, step)?;
        }
        Err(fault) => return Err(fault),
    }
    Ok(out)
}
