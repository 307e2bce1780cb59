//! Lives that leave and lives that join while the target serves.

ghost use Rattle.std.specs.Prelude.{◌≡◌, ◌≢◌, List, [], ◌∷◌, Err, IfOk, OnOk, OnErr, not, filter};
ghost use Rattle.lu_base.specs.declared.ids.Who.{Who as SpecWho};
ghost use Rattle.lu_base.specs.declared.locks.Lock.{Lock as SpecLock};
ghost use Rattle.lu_spec_entries.specs.Words.{Evict, Fail};
ghost use Rattle.lu_target_locks.specs.Departing.{IsLeft, steps_told};
ghost use Rattle.lu_service.specs.declared.services.Kind.TheVariants as kind;
ghost use Rattle.lu_target_store.specs.Stores.{KeepsDisk, MayMove};
ghost use Rattle.lu_target_redo.specs.Shown.{ShowsForgotten};
ghost use Rattle.lu_spec_target.specs.Leaving.{row_join, row_admits, evicted, evictions, ready, all_released, all_go};
ghost use Rattle.lu_spec_target.specs.Lives.{is_life};
ghost use Rattle.lu_spec_target.specs.Stored.{batch_of};
ghost use Rattle.lu_spec_target.specs.States.{Target};
ghost use Rattle.lu_target_server.specs.Answering.{Tells, TellsSizes};
ghost use Rattle.lu_spec_entries.specs.Given.{giving};
ghost use Rattle.lu_target_server.specs.Joins.{TakesPlace, IsAlone};
ghost use Rattle.lu_target_server.specs.Middles.{MakesPart, MakesRest, KeepsFirst};
ghost use Rattle.lu_target_server.specs.Numbers.{Overruns, OverrunsRest, HasRoom};
ghost use Rattle.lu_target_server.specs.Releases.{MayDepart, MayDepartAll, GoesOn, AreMoved};
ghost use Rattle.lu_target_server.specs.Servers.{Shows, Stands, Makes, Fails, KeepsBatches, DiskFailed};
ghost use Rattle.lu_target_server.specs.declared.faults.TurnFault.TheVariants as fault;

use super::faults::TurnFault;
use super::saying::{say_block, say_evicted, say_ready};
use super::server::Server;
use lu_base::{Cause, Memory, Sequence, Who};
use lu_disk::Disk;
use lu_service::Service;
use lu_target_locks::{Departure, Left, QueueStep};
use lu_target_redo::forget_all;
use lu_trace::{Entry, Turn};

/// What the queues of locks do once lives have left.
pub(crate) type QueueSteps = Sequence<QueueStep>;

/// Lives that leave, each with what it had.
pub(crate) type Departures = Sequence<Departure>;

impl<S: Service, D: Disk> Server<S, D> {
    /// With one commit of all these lives lose their slots and those get one; life by life what each had is released.
    /// What is left to tell is what the queues do then.
    pub(crate) fn move_lives(
        &mut self,
        turn: &mut Turn,
        cause: Cause,
        gone: &[Who],
        come: &[Who],
    ) -> Result<QueueSteps, TurnFault>
        requires stands { Stands self.old }
        requires may { MayMove gone.now come.now self.old.store }
        requires alone { (v : Target) → Shows self.old v → IsAlone gone.now come.now v.lives }
        ensures moved { IfOk result (λ steps. (v : Target) → Shows self.old v
            → AreMoved cause gone.now come.now steps v self.old self.new turn.old turn.new) }
        ensures numbers { result ≢ Err fault.NumbersSpent }
        ensures failed { result ≡ Err fault.Disk
            → DiskFailed self.old self.new × (turn.new ≡ giving turn.old (Fail ∷ [])) }
        ensures batches { OnErr result ((v : Target) → Shows self.old v
            → KeepsFirst (batch_of v.log gone.now come.now ∷ []) self.old.store self.new.store) }
    {
        self.commit_moving(turn, gone, come)?;
        let Left { departures, steps } = self.part_with(gone)?;
        self.depart_all(turn, cause, &departures)?;
        Ok(steps)
    }

    /// These lives have nothing here any more: no opens, no requests, no locks.
    fn part_with(&mut self, gone: &[Who]) -> Result<Left, Memory>
        ensures forgotten { ShowsForgotten self.old.kind gone.now self.old.contents self.new.contents }
        ensures requests { self.new.requests ≡ filter (λ r. not (is_life r.who gone.now)) self.old.requests }
        ensures left { IfOk result (λ left. IsLeft gone.now left self.old.locks self.new.locks) }
        ensures same { self.new ≡ record self.old {
          contents = self.new.contents;
          requests = self.new.requests;
          locks = self.new.locks;
        } }
    {
        forget_all(&mut self.service, gone);
        self.requests.forget(gone);
        self.locks.leave(self.alloc, gone)
    }

    /// These lives leave, one after another.
    fn depart_all(
        &mut self,
        turn: &mut Turn,
        cause: Cause,
        departures: &Departures,
    ) -> Result<(), TurnFault>
        requires may { (w : Target) × (granted : List SpecLock) × (gone : List SpecWho)
            × MayDepartAll granted gone departures.now self.old w }
        ensures departed { OnOk result ((w : Target) (granted : List SpecLock) (gone : List SpecWho)
            → MayDepartAll granted gone departures.now self.old w
            → MakesPart (evictions turn.old.at cause granted gone w) w self.old self.new turn.old turn.new) }
        ensures numbers { result ≢ Err fault.NumbersSpent }
        ensures fault { result ≢ Err fault.Disk }
        ensures disk { KeepsDisk self.old.store self.new.store }
    {
        for departure in departures.as_slice() {
            self.depart(turn, cause, departure)?;
        }
        Ok(())
    }

    /// A life leaves: it is told, and its locks are released.
    fn depart(
        &mut self,
        turn: &mut Turn,
        cause: Cause,
        departure: &Departure,
    ) -> Result<(), TurnFault>
        requires may { (v : Target) × (locks : List SpecLock) × MayDepart locks departure.now.released self.old v }
        ensures departed { OnOk result ((v : Target) (locks : List SpecLock)
            → MayDepart locks departure.now.released self.old v
            → MakesPart (Evict departure.now.who cause ∷ evicted v departure.now.who
            ∷ all_released turn.old.at locks v) v
            self.old self.new turn.old turn.new) }
        ensures numbers { result ≢ Err fault.NumbersSpent }
        ensures fault { result ≢ Err fault.Disk }
        ensures disk { KeepsDisk self.old.store self.new.store }
    {
        let who = departure.who;
        turn.note(Entry::Evict { who, cause })?;
        say_evicted(turn, who, self.boot)?;
        for ended in departure.released.as_slice() {
            self.release(turn, ended)?;
        }
        Ok(())
    }

    /// What waited goes on: the requests at the metadata target, elsewhere the queues of locks, which did these steps.
    pub(crate) fn all_go(&mut self, turn: &mut Turn, steps: &QueueSteps) -> Result<(), TurnFault>
        requires goes { (u : Target) × GoesOn steps.now self.old u }
        ensures went { OnOk result ((u : Target) → GoesOn steps.now self.old u
            → MakesRest (all_go turn.old.at u) u self.new turn.old turn.new) }
        ensures numbers { result ≡ Err fault.NumbersSpent → OverrunsRest turn.old.at steps.now self.old }
        ensures fault { result ≢ Err fault.Disk }
        ensures disk { KeepsDisk self.old.store self.new.store }
    {
        if self.service.requests_wait() {
            return self.names_go(turn);
        }
        Ok(self.tell_steps(turn, steps)?)
    }

    /// The steps of the queues, one after another.
    fn tell_steps(&mut self, turn: &mut Turn, steps: &QueueSteps) -> Result<(), Memory>
        requires objects { self.old.kind ≡ kind.Ost }
        ensures told { OnOk result ((v : Target) → TellsSizes self.old v
            → turn.new ≡ giving turn.old (steps_told v steps.now)) }
        ensures same { OnOk result (self.new ≡ self.old) }
        ensures disk { KeepsDisk self.old.store self.new.store }
    {
        for step in steps.as_slice() {
            self.tell_step(turn, step)?;
        }
        Ok(())
    }

    /// A lock that had waited is granted, or one is called back.
    fn tell_step(&mut self, turn: &mut Turn, step: &QueueStep) -> Result<(), Memory>
        requires objects { self.old.kind ≡ kind.Ost }
        ensures told { OnOk result ((v : Target) → TellsSizes self.old v
            → turn.new ≡ giving turn.old (steps_told v (step.now ∷ []))) }
        ensures same { OnOk result (self.new ≡ self.old) }
        ensures disk { KeepsDisk self.old.store self.new.store }
    {
        match step {
            QueueStep::Granted(lock) => {
                turn.note(Entry::Grant(*lock))?;
                self.say_grant(turn, lock)
            }
            QueueStep::Called(lock) => {
                turn.note(Entry::Block(lock.cookie))?;
                say_block(turn, lock, self.boot)
            }
        }
    }
}

// ---- joins

impl<S: Service, D: Disk> Server<S, D> {
    /// A life joins while the target serves: it is too old, is there, or takes the place of the life of its client.
    pub fn join(&mut self, turn: &mut Turn, who: Who) -> Result<(), TurnFault>
        requires stands { Stands self.old }
        ensures makes { OnOk result (Makes (λ v. row_join v turn.old.at who) self.old self.new turn.old turn.new) }
        ensures numbers { result ≡ Err fault.NumbersSpent → Overruns (λ v. row_join v turn.old.at who) self.old }
        ensures room { OnOk result (HasRoom (λ v. row_join v turn.old.at who) self.old) }
        ensures failed { result ≡ Err fault.Disk → DiskFailed self.old self.new
            × Fails (λ v. row_join v turn.old.at who) self.old turn.old turn.new }
        ensures batches { KeepsBatches (λ v. row_join v turn.old.at who) self.old self.new }
    {
        if self.store.is_over(who) {
            return Ok(say_evicted(turn, who, self.boot)?);
        }
        match self.store.life_of(self.alloc, who.client)? {
            None => self.admit(turn, &[], who),
            Some(old) if who.life < old.life => Ok(say_evicted(turn, who, self.boot)?),
            Some(old) if who.life == old.life => Ok(self.ready(turn, who)?),
            Some(old) => self.admit(turn, &[old], who),
        }
    }

    /// Tells a life that the target serves it.
    pub fn ready(&self, turn: &mut Turn, who: Who) -> Result<(), Memory>
        ensures said { OnOk result ((v : Target) → Tells self.now v → turn.new ≡ giving turn.old (ready v who ∷ [])) }
    {
        say_ready(turn, who, self.boot, self.store.last_committed())
    }

    /// The old life of its client leaves, if there was one, and this life gets a slot.
    fn admit(&mut self, turn: &mut Turn, old: &[Who], who: Who) -> Result<(), TurnFault>
        requires stands { Stands self.old }
        requires place { (v : Target) → Shows self.old v → TakesPlace old.now who v.lives }
        ensures makes { OnOk result (Makes (row_admits turn.old.at old.now who) self.old self.new turn.old turn.new) }
        ensures numbers { result ≡ Err fault.NumbersSpent → Overruns (row_admits turn.old.at old.now who) self.old }
        ensures failed { result ≡ Err fault.Disk
            → DiskFailed self.old self.new × (turn.new ≡ giving turn.old (Fail ∷ [])) }
        ensures batches { KeepsBatches (row_admits turn.old.at old.now who) self.old self.new }
    {
        let steps = self.move_lives(turn, Cause::Replaced, old, &[who])?;
        turn.note(Entry::Joined(who))?;
        self.ready(turn, who)?;
        self.all_go(turn, &steps)
    }
}
