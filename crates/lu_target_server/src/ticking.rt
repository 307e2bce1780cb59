//! A target's ticks while it serves.

ghost use Rattle.std.specs.Prelude.{◌≡◌, ◌≢◌, ◌⊎◌, [], ◌∷◌, Err, OnOk, OnErr};
ghost use Rattle.lu_spec_entries.specs.Words.{Tick, Fail};
ghost use Rattle.lu_target_locks.specs.Reminding.{again_told};
ghost use Rattle.lu_target_locks.specs.Servers.{ShowsCounts, most_ticks};
ghost use Rattle.lu_target_store.specs.Stores.{KeepsDisk};
ghost use Rattle.lu_spec_target.specs.Leaving.{condemned, expels, ticked};
ghost use Rattle.lu_spec_target.specs.States.{Target, after, follow};
ghost use Rattle.lu_spec_entries.specs.Given.{giving};
ghost use Rattle.lu_target_server.specs.Numbers.{Overruns, HasNoTick, HasRoom};
ghost use Rattle.lu_target_server.specs.Servers.{Shows, Stands, Makes, Fails, KeepsBatches, DiskFailed};
ghost use Rattle.lu_target_server.specs.declared.faults.TurnFault.TheVariants as fault;

use super::faults::TurnFault;
use super::saying::{say_ask, say_block};
use super::server::Server;
use lu_base::{Cause, Lives, Memory, Sequence};
use lu_callback::Kind;
use lu_disk::Disk;
use lu_service::Service;
use lu_target_locks::Reminder;
use lu_trace::{Entry, Turn};

/// What is sent again.
pub(crate) type Reminders = Sequence<Reminder>;

impl<S: Service, D: Disk> Server<S, D> {
    /// A tick: lives whose locks were called back too long ago lose their slots, and what was outstanding before and still
    /// is is sent again. While the target recovers it is its line alone.
    pub fn tick(&mut self, turn: &mut Turn) -> Result<(), TurnFault>
        requires stands { Stands self.old }
        ensures makes { OnOk result (Makes (λ v. follow v (Tick ∷ [])
            (ticked turn.old.at)) self.old self.new turn.old turn.new) }
        ensures numbers { result ≡ Err fault.NumbersSpent
            → HasNoTick self.old ⊎ Overruns (λ v. follow v (Tick ∷ []) (ticked turn.old.at)) self.old }
        ensures room { OnOk result (HasRoom (λ v. follow v (Tick ∷ []) (ticked turn.old.at)) self.old) }
        ensures failed { result ≡ Err fault.Disk → DiskFailed self.old self.new
            × Fails (λ v. follow v (Tick ∷ []) (ticked turn.old.at)) self.old turn.old turn.new }
        ensures batches { KeepsBatches (λ v. follow v (Tick ∷ []) (ticked turn.old.at)) self.old self.new }
    {
        self.count_tick(turn)?;
        self.expire_and_remind(turn)
    }

    /// One tick more, and its line.
    pub fn count_tick(&mut self, turn: &mut Turn) -> Result<(), TurnFault>
        ensures given { OnOk result (turn.new ≡ giving turn.old (Tick ∷ [])) }
        ensures shows { OnOk result ((v : Target) → Shows self.old v → Shows self.new (after v Tick)) }
        ensures counts { OnOk result ((v : Target) → ShowsCounts self.old.locks v
            → ShowsCounts self.new.locks (after v Tick)) }
        ensures same { self.new ≡ record self.old { locks = self.new.locks } }
        ensures numbers { result ≡ Err fault.NumbersSpent → self.old.locks.ticks ≡ most_ticks }
        ensures fault { result ≢ Err fault.Disk }
    {
        self.locks.tick()?;
        Ok(turn.note(Entry::Tick)?)
    }

    /// What a tick does once it is counted.
    fn expire_and_remind(&mut self, turn: &mut Turn) -> Result<(), TurnFault>
        requires stands { Stands self.old }
        ensures makes { OnOk result (Makes (ticked turn.old.at) self.old self.new turn.old turn.new) }
        ensures numbers { result ≡ Err fault.NumbersSpent → Overruns (ticked turn.old.at) self.old }
        ensures failed { result ≡ Err fault.Disk → DiskFailed self.old self.new
            × Fails (ticked turn.old.at) self.old turn.old turn.new }
        ensures batches { KeepsBatches (ticked turn.old.at) self.old self.new }
    {
        let before = self.locks.asked(self.alloc)?;
        let condemned = self.locks.due(self.alloc, self.expire)?;
        self.expel(turn, &condemned)?;
        let reminders = self.locks.again(self.alloc, &before)?;
        self.remind_all(turn, &reminders)?;
        Ok(())
    }

    /// These lives lose their slots, and what waited goes on; without any nothing is done.
    fn expel(&mut self, turn: &mut Turn, gone: &Lives) -> Result<(), TurnFault>
        requires stands { Stands self.old }
        requires due { (v : Target) → Shows self.old v → gone.now ≡ condemned v v.called }
        ensures makes { OnOk result (Makes (expels turn.old.at gone.now) self.old self.new turn.old turn.new) }
        ensures some { result ≡ Err fault.Disk → gone.now ≢ [] }
        ensures numbers { result ≡ Err fault.NumbersSpent → Overruns (expels turn.old.at gone.now) self.old }
        ensures failed { result ≡ Err fault.Disk
            → DiskFailed self.old self.new × (turn.new ≡ giving turn.old (Fail ∷ [])) }
        ensures batches { KeepsBatches (expels turn.old.at gone.now) self.old self.new }
    {
        if gone.is_empty() {
            return Ok(());
        }
        let steps = self.move_lives(turn, Cause::Expired, gone.as_slice(), &[])?;
        self.all_go(turn, &steps)
    }

    /// These are sent again.
    fn remind_all(&self, turn: &mut Turn, reminders: &Reminders) -> Result<(), Memory>
        ensures told { OnOk result ((v : Target) → v.boot ≡ self.now.boot
            → turn.new ≡ giving turn.old (again_told v reminders.now)) }
    {
        for reminder in reminders.as_slice() {
            self.remind(turn, reminder)?;
        }
        Ok(())
    }

    /// A block or a glimpse is sent again.
    fn remind(&self, turn: &mut Turn, reminder: &Reminder) -> Result<(), Memory>
        ensures told { OnOk result ((v : Target) → v.boot ≡ self.now.boot
            → turn.new ≡ giving turn.old (again_told v (reminder.now ∷ []))) }
    {
        match reminder.kind {
            Kind::Block => say_block(turn, &reminder.lock, self.boot),
            Kind::Glimpse(who, xid) => say_ask(turn, &reminder.lock, self.boot, who, xid),
        }
    }
}
