//! The recovery window (Lustre Operations Manual, recovery: clients reconnect and replay, and those that don't are
//! evicted).

ghost use Rattle.std.specs.Prelude.{◌≡◌, ◌&&◌, ◌||◌, not, true, false, if◌then◌else◌, ◌↔◌, ◌≢◌, ℕ, [], map, IfOk, OnOk, OnErr, Err};
ghost use Rattle.lu_spec_entries.specs.Carried.{Said};
ghost use Rattle.lu_spec_target.specs.Lives.{is_life};
ghost use Rattle.lu_spec_target.specs.Windows.{is_back, is_left, all_settled, is_kept, kept_numbers, has_number, has_gap, gone_from, settled};
ghost use Rattle.lu_window.specs.Shown.{replayed, replayed_of, said, kept_replay, gone};
ghost use Rattle.lu_window.specs.States.{opened, at_window, with_replays, cause_of, took_replay, took_lock, took_word, took_wish, has_older};
ghost use Rattle.lu_window.specs.declared.windows.WindowError.TheVariants as error;

use super::brought::Brought;
use super::members::Members;
use super::outcomes::{Eviction, Evictions, Outcome};
use super::requests::{Requests, misses};
use super::wishes::Wishes;
use super::words::{Word, Words};
use lu_base::{Cause, Lock, Memory, Numbers, Txn, Who};
use lu_replay::{Key, Replay, ReplayBody};
use std::alloc::{AllocFailed, Global};
use std::collections::BTreeSet;
use std::marker::Model;

/// Why a window didn't take something. It is as it was.
#[derive(Clone, Copy, Debug, PartialEq, Eq)]
pub enum WindowError {
    /// The life has no slot; for a join, no older life of its client has one.
    Unknown,
    /// The window is closed.
    Late,
    /// Want of memory.
    Memory,
}

impl From<Memory> for WindowError {
    ghost use Rattle.std.specs.Prelude.{◌≡◌};
    ghost use Rattle.lu_window.specs.declared.windows.WindowError.TheVariants as error;

    ghost from_gives = { λ _ e. e ≡ error.Memory };

    fn from(_error: Memory) -> WindowError {
        WindowError::Memory
    }
}

/// A target's recovery window: what it has taken of the lives that come back after a boot.
#[derive(Debug, Drop)]
pub struct Window {
    alloc: Global,
    members: Members,
    /// The greatest transaction that is on the disk; 0 where there is none.
    committed: Txn,
    requests: Requests,
    brought: Brought,
    words: Words,
    wishes: Wishes,
    closed: bool,
}

impl Model for Window {
    ghost use Rattle.lu_window.specs.States.{State};

    ghost Value = { State };

    ghost view = { λ w. record {
      window = record {
        lives = w.members;
        committed = w.committed.0;
        replays = w.requests;
        brought = w.brought;
        words = w.words;
        wishes = w.wishes;
      };
      closed = w.closed;
    } };
}

impl Window {
    /// An open window of the lives that have a slot, which has taken nothing. `committed` is the greatest
    /// transaction that is on the disk, 0 where there is none.
    pub fn new(alloc: Global, lives: &[Who], committed: Txn) -> Result<Window, Memory>
        ensures opened { IfOk result (λ window. window ≡ opened lives.now committed.0) }
    {
        Ok(Window {
            alloc,
            members: Members::new(alloc, lives)?,
            committed,
            requests: Requests::new(alloc),
            brought: Brought::new(alloc),
            words: Words::new(alloc),
            wishes: Wishes::new(alloc),
            closed: false,
        })
    }

    /// Whether a life has a slot and the window is open.
    fn admit(&self, who: Who) -> Result<(), WindowError>
        ensures known { OnOk result (is_life who self.now.window.lives ≡ true) }
        ensures unknown { result ≡ Err error.Unknown ↔ is_life who self.now.window.lives ≡ false }
        ensures late { result ≡ Err error.Late ↔ (is_life who self.now.window.lives ≡ true) × (self.now.closed ≡ true) }
        ensures memory { result ≢ Err error.Memory }
    {
        if !self.members.has(who) {
            return Err(WindowError::Unknown);
        }
        if self.closed {
            return Err(WindowError::Late);
        }
        Ok(())
    }

    /// Whether an older life of its client has a slot and the window is open.
    fn admit_join(&self, who: Who) -> Result<(), WindowError>
        ensures known { OnOk result (has_older who self.now.window.lives ≡ true) }
        ensures unknown { result ≡ Err error.Unknown ↔ has_older who self.now.window.lives ≡ false }
        ensures late { result ≡ Err error.Late
            ↔ (has_older who self.now.window.lives ≡ true) × (self.now.closed ≡ true) }
        ensures memory { result ≢ Err error.Memory }
    {
        if !self.members.has_older(who) {
            return Err(WindowError::Unknown);
        }
        if self.closed {
            return Err(WindowError::Late);
        }
        Ok(())
    }

    /// Whether the word of this life has come, and at least as many replays and locks as it says.
    fn is_back(&self, who: Who) -> bool
        ensures { result ≡ is_back self.now.window who }
    {
        match self.words.of(who) {
            Some(word) => word.is_met_by(self.requests.count(who), self.brought.count(who)),
            None => false,
        }
    }

    /// Takes a replay of a life, which counts once for each number of the life; seen numbers at or above
    /// its own are taken out. True where the life became back in this call.
    pub fn replay(&mut self, who: Who, replay: Replay) -> Result<bool, WindowError>
        ensures taken { OnOk result (self.new
            ≡ at_window (took_replay (replayed who replay) self.old.window) self.old) }
        ensures back { IfOk result (λ back. back ≡ (is_back self.new.window who && not (is_back self.old.window who))) }
        ensures unknown { result ≡ Err error.Unknown ↔ is_life who self.old.window.lives ≡ false }
        ensures late { result ≡ Err error.Late ↔ (is_life who self.old.window.lives ≡ true) × (self.old.closed ≡ true) }
        ensures kept { OnErr result (self.new ≡ self.old) }
    {
        self.admit(who)?;
        let before = self.is_back(who);
        self.requests.put(who, replay)?;
        Ok(self.is_back(who) && !before)
    }

    /// Takes a lock that a life brings, which counts once for each cookie of the life. True where the life
    /// became back in this call.
    pub fn lock(&mut self, who: Who, lock: Lock) -> Result<bool, WindowError>
        requires own { lock.ask.who ≡ who }
        ensures taken { OnOk result (self.new ≡ at_window (took_lock lock self.old.window) self.old) }
        ensures back { IfOk result (λ back. back ≡ (is_back self.new.window who && not (is_back self.old.window who))) }
        ensures unknown { result ≡ Err error.Unknown ↔ is_life who self.old.window.lives ≡ false }
        ensures late { result ≡ Err error.Late ↔ (is_life who self.old.window.lives ≡ true) × (self.old.closed ≡ true) }
        ensures kept { OnErr result (self.new ≡ self.old) }
    {
        self.admit(who)?;
        let before = self.is_back(who);
        self.brought.put(lock)?;
        Ok(self.is_back(who) && !before)
    }

    /// Takes the word of a life: so many requests and locks it has replayed, and these uncommitted
    /// transactions it has seen. Its first word counts. True where the life became back in this call.
    pub fn word(
        &mut self,
        who: Who,
        replays: u32,
        locks: u32,
        seen: Numbers,
    ) -> Result<bool, WindowError>
        ensures taken { OnOk result (self.new ≡ at_window (took_word
            (record { who = who; replays = replays; locks = locks; seen = seen }) self.old.window) self.old) }
        ensures back { IfOk result (λ back. back ≡ (is_back self.new.window who && not (is_back self.old.window who))) }
        ensures unknown { result ≡ Err error.Unknown ↔ is_life who self.old.window.lives ≡ false }
        ensures late { result ≡ Err error.Late ↔ (is_life who self.old.window.lives ≡ true) × (self.old.closed ≡ true) }
        ensures kept { OnErr result (self.new ≡ self.old) }
    {
        self.admit(who)?;
        if self.words.has(who) {
            return Ok(false);
        }
        let word = Word {
            replays,
            locks,
            seen,
        };
        self.words.add(who, word)?;
        Ok(self.is_back(who))
    }

    /// Takes the wish of a life to join, of which the newest of its client counts.
    pub fn joined(&mut self, who: Who) -> Result<(), WindowError>
        ensures taken { OnOk result (self.new ≡ at_window (took_wish who self.old.window) self.old) }
        ensures unknown { result ≡ Err error.Unknown ↔ has_older who self.old.window.lives ≡ false }
        ensures late { result ≡ Err error.Late
            ↔ (has_older who self.old.window.lives ≡ true) × (self.old.closed ≡ true) }
        ensures kept { OnErr result (self.new ≡ self.old) }
    {
        self.admit_join(who)?;
        self.wishes.put(who)?;
        Ok(())
    }

    /// Whether this life is back, or a life of its client wishes to join.
    fn is_settled(&self, who: Who) -> bool
        ensures { result ≡ (is_back self.now.window who || is_left self.now.window who) }
    {
        if self.is_back(who) {
            return true;
        }
        self.wishes.has(who.client)
    }

    /// Whether each life with a slot is back, or a life of its client wishes to join.
    pub fn all_back(&self) -> bool
        ensures { result ≡ all_settled self.now.window self.now.window.lives }
    {
        for who in self.members.as_set() {
            if !self.is_settled(*who) {
                return false;
            }
        }
        true
    }

    /// Closes the window.
    pub fn close_now(&mut self)
        ensures { self.new ≡ record { window = self.old.window; closed = true } }
    {
        self.closed = true;
    }

    /// Whether a replay is kept, where these are the numbers before it that are.
    fn is_kept(&self, kept: &BTreeSet<u64>, key: &Key, body: &ReplayBody) -> bool
        ensures { result ≡ is_kept self.now.window kept.now.keys (replayed_of (key.now, body.now)) }
    {
        self.committed.0 < key.number
            && self.is_back(key.who)
            && !misses(self.committed.0, kept, &body.seen)
    }

    /// The numbers of the replays that are kept.
    fn kept_numbers(&self) -> Result<BTreeSet<u64>, Memory>
        ensures { IfOk result (λ kept. (n : ℕ) → has_number n kept.keys ≡ has_number n (kept_numbers self.now.window)) }
    {
        let mut kept = BTreeSet::new(self.alloc);
        for (key, body) in self.requests.by_key() {
            if self.is_kept(&kept, key, body) {
                kept.insert(key.number)?;
            }
        }
        Ok(kept)
    }

    /// Whether a life lost a replay, or its word names a number that is neither committed nor kept.
    fn has_gap(&self, kept: &BTreeSet<u64>, who: Who) -> bool
        ensures { result ≡ has_gap self.now.window kept.now.keys who }
    {
        if self.requests.has_lost(self.committed.0, kept, who) {
            return true;
        }
        match self.words.of(who) {
            Some(word) => misses(self.committed.0, kept, &word.seen),
            None => false,
        }
    }

    /// Why a life loses its slot; none where it keeps it.
    fn cause(&self, kept: &BTreeSet<u64>, who: Who) -> Option<Cause>
        ensures { result ≡ cause_of self.now.window kept.now.keys who }
    {
        if !self.is_back(who) || self.wishes.has(who.client) {
            return Some(Cause::Absent);
        }
        if self.has_gap(kept, who) {
            return Some(Cause::Gap);
        }
        None
    }

    /// The lives that lose their slots.
    fn evicted(&self, kept: &BTreeSet<u64>) -> Result<Evictions, Memory>
        ensures { IfOk result (λ evicted. map gone evicted
            ≡ gone_from self.now.window kept.now.keys self.now.window.lives) }
    {
        let mut evicted = Evictions::new(self.alloc);
        for who in self.members.as_set() {
            if let Some(cause) = self.cause(kept, *who) {
                evicted.push(Eviction { who: *who, cause })?;
            }
        }
        Ok(evicted)
    }

    /// What a closed window decides. The replays are handed over. After want of memory nothing has changed.
    pub fn settle(&mut self) -> Result<Outcome, Memory>
        requires closed { self.old.closed ≡ true }
        ensures kept { IfOk result (λ o. map kept_replay o.kept ≡ (settled self.old.window).kept) }
        ensures lost { IfOk result (λ o. o.lost ≡ (settled self.old.window).lost) }
        ensures evicted { IfOk result (λ o. map gone o.evicted ≡ (settled self.old.window).gone) }
        ensures locks { IfOk result (λ o. o.locks ≡ (settled self.old.window).locks) }
        ensures joins { IfOk result (λ o. o.joins ≡ (settled self.old.window).joins) }
        ensures handed { OnOk result (self.new ≡ at_window (with_replays [] self.old.window) self.old) }
        ensures same { OnErr result (self.new ≡ self.old) }
    {
        let numbers = self.kept_numbers()?;
        let lost = self.requests.lost(self.committed.0, &numbers)?;
        let evicted = self.evicted(&numbers)?;
        let locks = self.brought.staying(evicted.as_slice())?;
        let joins = self.wishes.lives()?;
        let kept = self.requests.take_kept(&numbers)?;
        Ok(Outcome {
            kept,
            lost,
            evicted,
            locks,
            joins,
        })
    }
}
