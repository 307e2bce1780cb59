//! What a target that recovers takes of the lives that come back.

ghost use Rattle.std.specs.Prelude.{◌≡◌, ◌≢◌, ◌++◌, true, Err, IfOk};
ghost use Rattle.lu_spec_target.specs.Lives.{is_life};
ghost use Rattle.lu_spec_target.specs.Recovery.{row_lock, row_replay, row_wish, row_word, settles};
ghost use Rattle.lu_spec_target.specs.States.{Target};
ghost use Rattle.lu_target_refines.specs.Windows.{backs};
ghost use Rattle.lu_target_server.specs.Passing.{Passes, HasBatches, StopsAt};
ghost use Rattle.lu_target_server.specs.Recovering.{Awaits, Gathers, GathersSome, MayBring, MayReplay, Recovers};
ghost use Rattle.lu_target_server.specs.Servers.{DiskFailed};
ghost use Rattle.lu_target_server.specs.declared.faults.TurnFault.TheVariants as fault;

use super::faults::TurnFault;
use super::recovery::Recovery;
use super::server::Server;
use lu_base::{Duplicate, Lock, Numbers, Who};
use lu_disk::Disk;
use lu_msg::RequestReplay;
use lu_replay::Replay;
use lu_service::Service;
use lu_trace::{Entry, Turn};

impl<S: Service, D: Disk> Server<S, D> {
    /// A life with a slot replays a request, which counts once. What is left of the recovery: none where all are back by it, and
    /// the target serves.
    pub fn replay(
        &mut self,
        turn: &mut Turn,
        recovery: Recovery,
        request: &RequestReplay,
    ) -> Result<Option<Recovery>, TurnFault>
        requires awaits { Awaits self.old recovery }
        requires may { MayReplay request.now self.old recovery.window }
        ensures passes { IfOk result (λ left. Passes (Recovers self.old recovery)
            (λ v. row_replay v turn.old.at request.now)
            self.new left turn.old turn.new) }
        ensures numbers { result ≢ Err fault.NumbersSpent }
        ensures failed { result ≡ Err fault.Disk → DiskFailed self.old self.new
            × StopsAt 0 (Recovers self.old recovery) (λ v. row_replay v turn.old.at request.now) turn.old turn.new }
        ensures batches { HasBatches (Recovers self.old recovery) (λ v. row_replay v turn.old.at request.now)
            self.old.store.batches self.new.store.batches }
    {
        let mut recovery = recovery;
        let replay = Replay {
            number: request.txn,
            xid: request.xid,
            tag: request.tag,
            seen: request.seen.copy(self.alloc)?,
            op: request.op.copy(self.alloc)?,
        };
        let back = recovery.replay(request.who, replay)?;
        self.note_back(turn, recovery, back, request.who)
    }

    /// A life with a slot brings a lock, which counts once.
    pub fn bring(
        &mut self,
        turn: &mut Turn,
        recovery: Recovery,
        lock: Lock,
    ) -> Result<Option<Recovery>, TurnFault>
        requires awaits { Awaits self.old recovery }
        requires may { MayBring lock self.old recovery.window }
        ensures passes { IfOk result (λ left. Passes (Recovers self.old recovery) (λ v. row_lock v turn.old.at lock)
            self.new left turn.old turn.new) }
        ensures numbers { result ≢ Err fault.NumbersSpent }
        ensures failed { result ≡ Err fault.Disk → DiskFailed self.old self.new
            × StopsAt 0 (Recovers self.old recovery) (λ v. row_lock v turn.old.at lock) turn.old turn.new }
        ensures batches { HasBatches (Recovers self.old recovery) (λ v. row_lock v turn.old.at lock)
            self.old.store.batches self.new.store.batches }
    {
        let mut recovery = recovery;
        let back = recovery.lock(lock)?;
        self.note_back(turn, recovery, back, lock.ask.who)
    }

    /// The word of a life with a slot: so many requests and locks it has handed in, and these transactions that may not be
    /// committed it has seen. Its first word counts.
    pub fn word(
        &mut self,
        turn: &mut Turn,
        recovery: Recovery,
        who: Who,
        replays: u32,
        locks: u32,
        seen: Numbers,
    ) -> Result<Option<Recovery>, TurnFault>
        requires awaits { Awaits self.old recovery }
        requires life { is_life who recovery.window.lives ≡ true }
        ensures passes { IfOk result (λ left. Passes (Recovers self.old recovery)
            (λ v. row_word v turn.old.at (record { who = who; replays = replays; locks = locks; seen = seen }))
            self.new left turn.old turn.new) }
        ensures numbers { result ≢ Err fault.NumbersSpent }
        ensures failed { result ≡ Err fault.Disk → DiskFailed self.old self.new
            × StopsAt 0 (Recovers self.old recovery)
            (λ v. row_word v turn.old.at (record { who = who; replays = replays; locks = locks; seen = seen }))
            turn.old turn.new }
        ensures batches { HasBatches (Recovers self.old recovery)
            (λ v. row_word v turn.old.at (record { who = who; replays = replays; locks = locks; seen = seen }))
            self.old.store.batches self.new.store.batches }
    {
        let mut recovery = recovery;
        let back = recovery.word(who, replays, locks, seen)?;
        self.note_back(turn, recovery, back, who)
    }

    /// A life wishes to join: that of a life with a slot counts as its word; a newer life is kept in mind, of several the
    /// newest; others are passed over.
    pub fn wish(
        &mut self,
        turn: &mut Turn,
        recovery: Recovery,
        who: Who,
    ) -> Result<Option<Recovery>, TurnFault>
        requires awaits { Awaits self.old recovery }
        ensures passes { IfOk result (λ left. Passes (Recovers self.old recovery) (λ v. row_wish v turn.old.at who)
            self.new left turn.old turn.new) }
        ensures numbers { result ≢ Err fault.NumbersSpent }
        ensures failed { result ≡ Err fault.Disk → DiskFailed self.old self.new
            × StopsAt 0 (Recovers self.old recovery) (λ v. row_wish v turn.old.at who) turn.old turn.new }
        ensures batches { HasBatches (Recovers self.old recovery) (λ v. row_wish v turn.old.at who)
            self.old.store.batches self.new.store.batches }
    {
        if self.serves(who) {
            let seen = Numbers::new(self.alloc);
            return self.word(turn, recovery, who, 0, 0, seen);
        }
        let mut recovery = recovery;
        if recovery.joined(who)? {
            return self.settle(turn, recovery);
        }
        Ok(Some(recovery))
    }

    /// The line of a life that became back, where it did; and the window closes where all are.
    fn note_back(
        &mut self,
        turn: &mut Turn,
        recovery: Recovery,
        back: bool,
        who: Who,
    ) -> Result<Option<Recovery>, TurnFault>
        requires gathers { GathersSome self.old recovery }
        ensures passes { IfOk result (λ left. Passes (Gathers self.old recovery)
            (λ v. backs back who ++ settles turn.old.at v)
            self.new left turn.old turn.new) }
        ensures numbers { result ≢ Err fault.NumbersSpent }
        ensures failed { result ≡ Err fault.Disk → DiskFailed self.old self.new
            × StopsAt 0 (Gathers self.old recovery) (λ v. backs back who ++ settles turn.old.at v) turn.old turn.new }
        ensures batches { HasBatches (Gathers self.old recovery) (λ v. backs back who ++ settles turn.old.at v)
            self.old.store.batches self.new.store.batches }
    {
        if back {
            turn.note(Entry::Back(who))?;
        }
        self.settle(turn, recovery)
    }

    /// The window closes where each life with a slot is back or has left.
    pub(crate) fn settle(
        &mut self,
        turn: &mut Turn,
        recovery: Recovery,
    ) -> Result<Option<Recovery>, TurnFault>
        requires gathers { GathersSome self.old recovery }
        ensures passes { IfOk result (λ left. Passes (Gathers self.old recovery) (settles turn.old.at)
            self.new left turn.old turn.new) }
        ensures numbers { result ≢ Err fault.NumbersSpent }
        ensures failed { result ≡ Err fault.Disk → DiskFailed self.old self.new
            × StopsAt 0 (Gathers self.old recovery) (settles turn.old.at) turn.old turn.new }
        ensures batches { HasBatches (Gathers self.old recovery) (settles turn.old.at)
            self.old.store.batches self.new.store.batches }
    {
        if !recovery.all_back() {
            return Ok(Some(recovery));
        }
        self.close(turn, recovery)?;
        Ok(None)
    }
}
