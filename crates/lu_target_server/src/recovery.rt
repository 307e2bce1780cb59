//! What a target that recovers has of the lives that come back.

ghost use Rattle.std.specs.Prelude.{◌≡◌, ◌↔◌, ◌&&◌, not, true, false, IsTrue, IfOk, OnOk, OnErr, map};
ghost use Rattle.lu_spec_target.specs.Kept.{replayed as row_replayed};
ghost use Rattle.lu_spec_target.specs.Lives.{is_life};
ghost use Rattle.lu_spec_target.specs.Windows.{all_settled, is_back, settled};
ghost use Rattle.lu_target_refines.specs.Windows.{settled_of};
ghost use Rattle.lu_window.specs.Shown.{replayed};
ghost use Rattle.lu_window.specs.States.{at_window, has_older, opened, took_lock, took_replay, took_wish, took_word};
ghost use Rattle.lu_target_server.specs.Recovering.{IsOnlyReplay, IsOnlyLock};

use super::givers::Givers;
use lu_base::{Lock, Memory, Numbers, Txn, Who};
use lu_msg::RequestReplay;
use lu_replay::Replay;
use lu_window::{Outcome, Window, WindowError};
use std::alloc::Global;
use std::marker::Model;

/// What a target that recovers has taken of the lives that come back, and who gave it.
#[derive(Debug, Drop)]
pub struct Recovery {
    window: Window,
    replays: Givers,
    locks: Givers,
}

impl Model for Recovery {
    ghost use Rattle.lu_window.specs.States.{State};
    ghost use Rattle.lu_target_server.specs.Givers.{GaveReplays, GaveLocks, KnowsReplays, KnowsLocks};

    ghost Value = { State };

    ghost view = { λ r. r.window };

    ghost invariant = { λ r. (GaveReplays r.replays r.window.window.replays × GaveLocks r.locks r.window.window.brought)
        × (KnowsReplays r.replays r.window.window.replays × KnowsLocks r.locks r.window.window.brought) };
}

impl Recovery {
    /// A recovery of the lives that have a slot, which has taken nothing. `committed` is the greatest transaction that is on
    /// the disk, 0 where there is none.
    pub(crate) fn new(alloc: Global, lives: &[Who], committed: Txn) -> Result<Recovery, Memory>
        ensures opened { IfOk result (λ recovery. recovery ≡ opened lives.now committed.0) }
    {
        Ok(Recovery {
            window: Window::new(alloc, lives, committed)?,
            replays: Givers::new(alloc),
            locks: Givers::new(alloc),
        })
    }

    /// Whether no other life replayed the transaction of this replay.
    pub(crate) fn is_only_replay(&self, replay: &RequestReplay) -> bool
        ensures only { IsTrue result ↔ IsOnlyReplay (row_replayed replay.now) self.now.window.replays }
    {
        self.replays.is_free(replay.txn.0, replay.who)
    }

    /// Whether no other life brought a lock of this cookie.
    pub(crate) fn is_only_lock(&self, lock: &Lock) -> bool
        ensures only { IsTrue result ↔ IsOnlyLock lock.now self.now.window.brought }
    {
        self.locks.is_free(lock.cookie.0, lock.ask.who)
    }

    /// Takes a replay of a life that has a slot, which counts once for each number of the life. True where the life became
    /// back in this call. After want of memory nothing has changed.
    pub(crate) fn replay(&mut self, who: Who, replay: Replay) -> Result<bool, Memory>
        requires life { is_life who self.old.window.lives ≡ true }
        requires unclosed { self.old.closed ≡ false }
        requires only { IsOnlyReplay (replayed who replay) self.old.window.replays }
        ensures taken { OnOk result (self.new
            ≡ at_window (took_replay (replayed who replay) self.old.window) self.old) }
        ensures back { IfOk result (λ back. back ≡ (is_back self.new.window who && not (is_back self.old.window who))) }
        ensures kept { OnErr result (self.new ≡ self.old) }
    {
        let number = replay.number.0;
        let first = self.replays.add(number, who)?;
        match self.window.replay(who, replay) {
            Ok(back) => Ok(back),
            Err(_) => {
                if first {
                    self.replays.forget(number);
                }
                Err(Memory)
            }
        }
    }

    /// Takes a lock that a life with a slot brings, which counts once for each cookie of the life. True where the life became
    /// back in this call. After want of memory nothing has changed.
    pub(crate) fn lock(&mut self, lock: Lock) -> Result<bool, Memory>
        requires life { is_life lock.ask.who self.old.window.lives ≡ true }
        requires unclosed { self.old.closed ≡ false }
        requires only { IsOnlyLock lock self.old.window.brought }
        ensures taken { OnOk result (self.new ≡ at_window (took_lock lock self.old.window) self.old) }
        ensures back { IfOk result (λ back. back
            ≡ (is_back self.new.window lock.ask.who && not (is_back self.old.window lock.ask.who))) }
        ensures kept { OnErr result (self.new ≡ self.old) }
    {
        let number = lock.cookie.0;
        let first = self.locks.add(number, lock.ask.who)?;
        match self.window.lock(lock.ask.who, lock) {
            Ok(back) => Ok(back),
            Err(_) => {
                if first {
                    self.locks.forget(number);
                }
                Err(Memory)
            }
        }
    }

    /// Takes the word of a life with a slot: so many requests and locks it has replayed, and these uncommitted transactions
    /// it has seen. Its first word counts. True where the life became back in this call.
    pub(crate) fn word(
        &mut self,
        who: Who,
        replays: u32,
        locks: u32,
        seen: Numbers,
    ) -> Result<bool, Memory>
        requires life { is_life who self.old.window.lives ≡ true }
        requires unclosed { self.old.closed ≡ false }
        ensures taken { OnOk result (self.new ≡ at_window (took_word
            (record { who = who; replays = replays; locks = locks; seen = seen }) self.old.window) self.old) }
        ensures back { IfOk result (λ back. back ≡ (is_back self.new.window who && not (is_back self.old.window who))) }
        ensures kept { OnErr result (self.new ≡ self.old) }
    {
        match self.window.word(who, replays, locks, seen) {
            Ok(back) => Ok(back),
            Err(_) => Err(Memory),
        }
    }

    /// Takes the wish of a life to join, of which the newest of its client counts. False, and nothing has changed, where no
    /// older life of its client has a slot.
    pub(crate) fn joined(&mut self, who: Who) -> Result<bool, Memory>
        requires unclosed { self.old.closed ≡ false }
        ensures taken { IfOk result (λ taken. IsTrue taken
            → self.new ≡ at_window (took_wish who self.old.window) self.old) }
        ensures older { IfOk result (λ taken. taken ≡ has_older who self.old.window.lives) }
        ensures passed { IfOk result (λ taken. taken ≡ false → self.new ≡ self.old) }
        ensures kept { OnErr result (self.new ≡ self.old) }
    {
        match self.window.joined(who) {
            Ok(()) => Ok(true),
            Err(WindowError::Unknown) => Ok(false),
            Err(_) => Err(Memory),
        }
    }

    /// Whether each life with a slot is back, or a life of its client wishes to join.
    pub(crate) fn all_back(&self) -> bool
        ensures settled { result ≡ all_settled self.now.window self.now.window.lives }
    {
        self.window.all_back()
    }

    /// Closes the window: what that decides.
    pub(crate) fn close(self) -> Result<Outcome, Memory>
        ensures settled { IfOk result (λ outcome. settled_of outcome ≡ settled self.window) }
    {
        let mut window = self.window;
        window.close_now();
        window.settle()
    }
}
