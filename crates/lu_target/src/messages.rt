//! What a target does with a message that comes.

ghost use Rattle.std.specs.Prelude.{◌≡◌, ◌≢◌, None, Err, OnOk};
ghost use Rattle.lu_base.specs.declared.ids.Node.{Node as SpecNode};
ghost use Rattle.lu_msg.specs.declared.messages.Message.TheVariants as message;
ghost use Rattle.lu_spec_target.specs.Recovery.{row_word};
ghost use Rattle.lu_spec_target.specs.Rows.{lock_again, of_boot, row_heeds, row_takes};
ghost use Rattle.lu_target_server.specs.Stores.{KeepsDisk};
ghost use Rattle.lu_target_server.specs.declared.faults.TurnFault.TheVariants as fault;
ghost use Rattle.lu_target.specs.Running.{HasSlot, IsUp, MayHeed, Turns, OverrunsIn, StopsIn, KeepsIn};

use super::running::Running;
use lu_base::{Ask, Cookie, Duplicate, Lock, Numbers, Who};
use lu_disk::Disk;
use lu_msg::{LockReplay, Message, Request, RequestReplay, SizeReport};
use lu_service::Service;
use lu_target_server::TurnFault;
use lu_trace::{Entry, Turn};

impl<S: Service, D: Disk> Running<S, D> {
    /// A message is taken.
    pub(crate) fn take(&mut self, turn: &mut Turn, message: &Message) -> Result<(), TurnFault>
        requires up { IsUp self.old }
        requires may { MayHeed message.now self.old }
        ensures turns { OnOk result ((from : SpecNode) → Turns (λ v. row_takes v turn.old.at 0 from message.now)
            self.old self.new turn.old turn.new) }
        ensures numbers { result ≡ Err fault.NumbersSpent
            → (from : SpecNode) → OverrunsIn (λ v. row_takes v turn.old.at 0 from message.now) self.old }
        ensures failed { result ≡ Err fault.Disk → (from : SpecNode)
            → StopsIn (λ v. row_takes v turn.old.at 0 from message.now) self.old self.new turn.old turn.new }
        ensures batches { (from : SpecNode)
            → KeepsIn (λ v. row_takes v turn.old.at 0 from message.now) self.old self.new }
    {
        turn.note(Entry::Take(0))?;
        self.heed(turn, message)
    }

    /// Does what a message asks for.
    fn heed(&mut self, turn: &mut Turn, message: &Message) -> Result<(), TurnFault>
        requires up { IsUp self.old }
        requires may { MayHeed message.now self.old }
        ensures turns { OnOk result (Turns (λ v. row_heeds v turn.old.at message.now)
            self.old self.new turn.old turn.new) }
        ensures numbers { result ≡ Err fault.NumbersSpent
            → OverrunsIn (λ v. row_heeds v turn.old.at message.now) self.old }
        ensures failed { result ≡ Err fault.Disk
            → StopsIn (λ v. row_heeds v turn.old.at message.now) self.old self.new turn.old turn.new }
        ensures batches { KeepsIn (λ v. row_heeds v turn.old.at message.now) self.old self.new }
    {
        match message {
            Message::Request(request) => self.request(turn, request),
            Message::Cancel { who, boot, cookie } => self.cancel(turn, *who, *boot, *cookie),
            Message::Where { who, boot, cookie } => self.find(turn, *who, *boot, *cookie),
            Message::Size(report) => self.report(turn, report),
            Message::Replay(replay) => self.replay(turn, replay),
            Message::Lock(lock) => self.bring(turn, lock),
            Message::Word {
                who,
                boot,
                replays,
                locks,
                seen,
            } => self.word(turn, *who, *boot, *replays, *locks, seen),
            Message::Join { who, boot } => self.join(turn, *who, *boot),
            _ => Ok(()),
        }
    }

    /// A request goes to a target that serves.
    fn request(&mut self, turn: &mut Turn, request: &Request) -> Result<(), TurnFault>
        requires up { IsUp self.old }
        requires may { MayHeed (message.Request request.now) self.old }
        ensures turns { OnOk result (Turns (λ v. row_heeds v turn.old.at (message.Request request.now))
            self.old self.new turn.old turn.new) }
        ensures numbers { result ≡ Err fault.NumbersSpent
            → OverrunsIn (λ v. row_heeds v turn.old.at (message.Request request.now)) self.old }
        ensures fault { result ≢ Err fault.Disk }
        ensures disk { KeepsDisk self.old.server.store self.new.server.store }
    {
        if !self.heeds(turn, request.who, request.boot)? {
            return Ok(());
        }
        if self.recovery.is_some() {
            return Ok(());
        }
        self.server.request(turn, request)
    }

    /// A lock is given back to a target that serves.
    fn cancel(
        &mut self,
        turn: &mut Turn,
        who: Who,
        boot: u32,
        cookie: Cookie,
    ) -> Result<(), TurnFault>
        requires up { IsUp self.old }
        ensures turns { OnOk result (Turns (λ v. row_heeds v turn.old.at (message.Cancel who boot cookie))
            self.old self.new turn.old turn.new) }
        ensures numbers { result ≡ Err fault.NumbersSpent
            → OverrunsIn (λ v. row_heeds v turn.old.at (message.Cancel who boot cookie)) self.old }
        ensures fault { result ≢ Err fault.Disk }
        ensures disk { KeepsDisk self.old.server.store self.new.server.store }
    {
        if !self.heeds(turn, who, boot)? {
            return Ok(());
        }
        if self.recovery.is_some() {
            return Ok(());
        }
        self.server.cancel(turn, who, cookie)
    }

    /// A target that serves is asked what became of a lock.
    fn find(
        &mut self,
        turn: &mut Turn,
        who: Who,
        boot: u32,
        cookie: Cookie,
    ) -> Result<(), TurnFault>
        requires up { IsUp self.old }
        ensures turns { OnOk result (Turns (λ v. row_heeds v turn.old.at (message.Where who boot cookie))
            self.old self.new turn.old turn.new) }
        ensures numbers { result ≢ Err fault.NumbersSpent }
        ensures fault { result ≢ Err fault.Disk }
        ensures disk { KeepsDisk self.old.server.store self.new.server.store }
    {
        if !self.heeds(turn, who, boot)? {
            return Ok(());
        }
        if self.recovery.is_some() {
            return Ok(());
        }
        Ok(self.server.find(turn, who, cookie)?)
    }

    /// A target that serves is told how long an object is.
    fn report(&mut self, turn: &mut Turn, report: &SizeReport) -> Result<(), TurnFault>
        requires up { IsUp self.old }
        ensures turns { OnOk result (Turns (λ v. row_heeds v turn.old.at (message.Size report.now))
            self.old self.new turn.old turn.new) }
        ensures numbers { result ≢ Err fault.NumbersSpent }
        ensures fault { result ≢ Err fault.Disk }
        ensures disk { KeepsDisk self.old.server.store self.new.server.store }
    {
        if !self.heeds(turn, report.who, report.boot)? {
            return Ok(());
        }
        if self.recovery.is_some() {
            return Ok(());
        }
        self.server.report(turn, report)
    }

    /// A request is replayed to a target that recovers in the boot that it names.
    fn replay(&mut self, turn: &mut Turn, replay: &RequestReplay) -> Result<(), TurnFault>
        requires up { IsUp self.old }
        requires may { MayHeed (message.Replay replay.now) self.old }
        ensures turns { OnOk result (Turns (λ v. row_heeds v turn.old.at (message.Replay replay.now))
            self.old self.new turn.old turn.new) }
        ensures numbers { result ≢ Err fault.NumbersSpent }
        ensures failed { result ≡ Err fault.Disk → StopsIn (λ v. row_heeds v turn.old.at (message.Replay replay.now))
            self.old self.new turn.old turn.new }
        ensures batches { KeepsIn (λ v. row_heeds v turn.old.at (message.Replay replay.now)) self.old self.new }
    {
        if !self.heeds(turn, replay.who, replay.boot)? {
            return Ok(());
        }
        if replay.boot != self.server.boot_number() {
            return Ok(());
        }
        match self.recovery.take() {
            Some(recovery) => {
                self.recovery = self.server.replay(turn, recovery, replay)?;
                Ok(())
            }
            None => Ok(()),
        }
    }

    /// A lock is brought to a target that recovers in the boot that it names.
    fn bring(&mut self, turn: &mut Turn, lock: &LockReplay) -> Result<(), TurnFault>
        requires up { IsUp self.old }
        requires may { MayHeed (message.Lock lock.now) self.old }
        ensures turns { OnOk result (Turns (λ v. row_heeds v turn.old.at (message.Lock lock.now))
            self.old self.new turn.old turn.new) }
        ensures numbers { result ≢ Err fault.NumbersSpent }
        ensures failed { result ≡ Err fault.Disk → StopsIn (λ v. row_heeds v turn.old.at (message.Lock lock.now))
            self.old self.new turn.old turn.new }
        ensures batches { KeepsIn (λ v. row_heeds v turn.old.at (message.Lock lock.now)) self.old self.new }
    {
        if !self.heeds(turn, lock.who, lock.boot)? {
            return Ok(());
        }
        if lock.boot != self.server.boot_number() {
            return Ok(());
        }
        match self.recovery.take() {
            Some(recovery) => {
                self.recovery = self.server.bring(turn, recovery, lock_again(lock))?;
                Ok(())
            }
            None => Ok(()),
        }
    }

    /// A life has handed in all: one that serves tells it so, and one that recovers in the boot that it names takes its word.
    fn word(
        &mut self,
        turn: &mut Turn,
        who: Who,
        boot: u32,
        replays: u32,
        locks: u32,
        seen: &Numbers,
    ) -> Result<(), TurnFault>
        requires up { IsUp self.old }
        ensures turns { OnOk result (Turns (λ v. row_heeds v turn.old.at (message.Word who boot replays locks seen.now))
            self.old self.new turn.old turn.new) }
        ensures numbers { result ≢ Err fault.NumbersSpent }
        ensures failed { result ≡ Err fault.Disk
            → StopsIn (λ v. row_heeds v turn.old.at (message.Word who boot replays locks seen.now))
            self.old self.new turn.old turn.new }
        ensures batches { KeepsIn (λ v. row_heeds v turn.old.at (message.Word who boot replays locks seen.now))
            self.old self.new }
    {
        if !self.heeds(turn, who, boot)? {
            return Ok(());
        }
        if self.recovery.is_none() {
            return Ok(self.server.ready(turn, who)?);
        }
        self.take_word(turn, who, boot, replays, locks, seen)
    }

    /// The word of a life with a slot comes to a target that recovers, where it names this boot.
    fn take_word(
        &mut self,
        turn: &mut Turn,
        who: Who,
        boot: u32,
        replays: u32,
        locks: u32,
        seen: &Numbers,
    ) -> Result<(), TurnFault>
        requires up { IsUp self.old }
        requires life { HasSlot who self.old }
        requires window { self.old.window ≢ None }
        ensures turns { OnOk result (Turns (λ v. of_boot v boot (row_word v turn.old.at
            (record { who = who; replays = replays; locks = locks; seen = seen.now })))
            self.old self.new turn.old turn.new) }
        ensures numbers { result ≢ Err fault.NumbersSpent }
        ensures failed { result ≡ Err fault.Disk
            → StopsIn (λ v. of_boot v boot (row_word v turn.old.at
            (record { who = who; replays = replays; locks = locks; seen = seen.now })))
            self.old self.new turn.old turn.new }
        ensures batches { KeepsIn (λ v. of_boot v boot (row_word v turn.old.at
            (record { who = who; replays = replays; locks = locks; seen = seen.now }))) self.old self.new }
    {
        if boot != self.server.boot_number() {
            return Ok(());
        }
        let seen = seen.copy(self.alloc)?;
        match self.recovery.take() {
            Some(recovery) => {
                self.recovery = self.server.word(turn, recovery, who, replays, locks, seen)?;
                Ok(())
            }
            None => Ok(()),
        }
    }

    /// A life wants a slot: one that serves lets it in or not, and one that recovers keeps it in mind.
    fn join(&mut self, turn: &mut Turn, who: Who, boot: u32) -> Result<(), TurnFault>
        requires up { IsUp self.old }
        ensures turns { OnOk result (Turns (λ v. row_heeds v turn.old.at (message.Join who boot))
            self.old self.new turn.old turn.new) }
        ensures numbers { result ≡ Err fault.NumbersSpent
            → OverrunsIn (λ v. row_heeds v turn.old.at (message.Join who boot)) self.old }
        ensures failed { result ≡ Err fault.Disk → StopsIn (λ v. row_heeds v turn.old.at (message.Join who boot))
            self.old self.new turn.old turn.new }
        ensures batches { KeepsIn (λ v. row_heeds v turn.old.at (message.Join who boot)) self.old self.new }
    {
        if boot < self.server.boot_number() {
            return Ok(self.server.up(turn, who)?);
        }
        match self.recovery.take() {
            Some(recovery) => {
                self.recovery = self.server.wish(turn, recovery, who)?;
                Ok(())
            }
            None => self.server.join(turn, who),
        }
    }
}

/// The lock that is brought.
pub(crate) fn lock_again(lock: &LockReplay) -> Lock
    ensures lock { result ≡ lock_again lock.now }
{
    Lock {
        cookie: lock.cookie,
        resource: lock.resource,
        ask: Ask {
            who: lock.who,
            mode: lock.mode,
            policy: lock.policy,
        },
    }
}
