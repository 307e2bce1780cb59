//! What lives handed in at targets since their last boots.

ghost use Rattle.std.specs.Prelude.{◌≡◌, ℕ, ◌+◌, ◌==◌, ◌&&◌, ◌||◌, not, nat_le, nat_lt, List, [], ◌∷◌, OnOk};
ghost use Rattle.lu_base.specs.declared.ids.Who.{Who};
ghost use Rattle.lu_msg.specs.declared.messages.Message.{Message};
ghost use Rattle.lu_msg.specs.declared.messages.Message.TheVariants as messages;
ghost use Rattle.lu_spec_machine.specs.Tree.{same_life};
ghost use Rattle.lu_spec_laws.specs.Words.Handed.{has_all};
ghost use Rattle.lu_judge_windows.specs.Counted.{has_member, count_of, is_within};
ghost use Rattle.lu_judge_windows.specs.Handed.{is_back_in, has_newer_in, completes_in, ShowsHanded};

use super::counted::{Counted, Least};
use lu_base::{Memory, Who};
use lu_msg::{LockReplay, Message, RequestReplay};
use std::alloc::Global;
use std::collections::{HashMap, HashSet};

/// Whether both are one life.
pub(crate) fn is_same(a: Who, b: Who) -> bool
    ensures { result ≡ same_life a b }
{
    a.client == b.client && a.life == b.life
}

/// What lives handed in at one target since its last boot. What names another boot counts for nothing.
#[derive(Debug, Drop)]
pub(crate) struct Handed<'a> {
    /// The different transactions of each life that were replayed.
    replays: Counted,
    /// The cookies of the different locks of each life.
    cookies: Counted,
    /// The different locks, the first one first.
    locks: Vec<&'a LockReplay>,
    /// By the replays that the words of a life name, the least count of locks that they name with them.
    by_replays: Least,
    /// By the locks that the words of a life name, the least count of replays that they name with them.
    by_locks: Least,
    /// The lives that asked to join, or that handed in as much as a word of theirs says.
    back: HashSet<(u16, u32)>,
    /// Of each client the newest life that asked to join.
    newest: HashMap<u16, u32>,
}

impl<'a> Handed<'a> {
    /// Nothing was handed in. It takes no memory yet.
    pub(crate) fn new(alloc: Global) -> Handed<'a>
        ensures shows { (b : ℕ) → ShowsHanded result b [] }
    {
        Handed {
            replays: Counted::new(alloc),
            cookies: Counted::new(alloc),
            locks: Vec::new(alloc),
            by_replays: Least::new(alloc),
            by_locks: Least::new(alloc),
            back: HashSet::new(alloc),
            newest: HashMap::new(alloc),
        }
    }

    /// Whether the life asked to join, or handed in as much as a word of it says.
    pub(crate) fn has_all(&self, who: Who) -> bool
        ensures back { result ≡ is_back_in self.now who }
    {
        self.back.contains(&(who.client, who.life))
    }

    /// Whether a newer life of its client asked to join.
    pub(crate) fn has_newer(&self, who: Who) -> bool
        ensures newer { result ≡ has_newer_in self.now who }
    {
        match self.newest.get(&who.client) {
            Some(life) => who.life < *life,
            None => false,
        }
    }

    /// The different locks that were handed in, the first one first.
    pub(crate) fn locks(&self) -> &[&'a LockReplay]
        ensures locks { result.now ≡ self.now.locks.items }
    {
        self.locks.as_slice()
    }

    /// Notes that the life asked to join, or handed in as much as a word of it says, where this is so.
    fn note_back(&mut self, who: Who, is_back: bool) -> Result<(), Memory>
        ensures back { OnOk result ((w : Who)
            → is_back_in self.new w ≡ ((is_back && same_life who w) || is_back_in self.old w)) }
        ensures others { OnOk result (self.new ≡ record self.old { back = self.new.back }) }
    {
        if is_back {
            self.back.insert((who.client, who.life))?;
        }
        Ok(())
    }

    /// Notes that the life asked to join.
    fn note_newer(&mut self, who: Who) -> Result<(), Memory>
        ensures newer { OnOk result ((w : Who) → has_newer_in self.new w
            ≡ ((who.client == w.client && nat_lt w.life who.life) || has_newer_in self.old w)) }
        ensures others { OnOk result (self.new ≡ record self.old { newest = self.new.newest }) }
    {
        if self.has_newer(who) {
            return Ok(());
        }
        self.newest.insert(who.client, who.life)?;
        Ok(())
    }

    /// Takes in a replay of the present boot.
    fn take_replay(&mut self, replay: &RequestReplay) -> Result<(), Memory>
        ensures shows { OnOk result ((handed : List Message) → ShowsHanded self.old replay.now.boot handed
            → ShowsHanded self.new replay.now.boot (messages.Replay replay.now ∷ handed)) }
    {
        let who = replay.who;
        let is_new = self.replays.add(who, replay.txn.0)?;
        if !is_new {
            return Ok(());
        }
        let replays = self.replays.count(who) as u64;
        let locks = self.cookies.count(who) as u64;
        let is_back = self.by_replays.is_within(who, replays, locks);
        self.note_back(who, is_back)?;
        Ok(())
    }

    /// Takes in a lock of the present boot.
    fn take_lock(&mut self, lock: &'a LockReplay) -> Result<(), Memory>
        ensures shows { OnOk result ((handed : List Message) → ShowsHanded self.old lock.now.boot handed
            → ShowsHanded self.new lock.now.boot (messages.Lock lock.now ∷ handed)) }
    {
        let who = lock.who;
        let is_new = self.cookies.add(who, lock.cookie.0)?;
        if !is_new {
            return Ok(());
        }
        self.locks.push(lock)?;
        let replays = self.replays.count(who) as u64;
        let locks = self.cookies.count(who) as u64;
        let is_back = self.by_locks.is_within(who, locks, replays);
        self.note_back(who, is_back)?;
        Ok(())
    }

    /// Whether the life handed in so many replays and locks.
    fn has_handed(&self, who: Who, replays: u64, locks: u64) -> bool
        ensures all { result ≡ (nat_le replays (count_of self.now.replays who)
            && nat_le locks (count_of self.now.cookies who)) }
    {
        replays <= self.replays.count(who) as u64 && locks <= self.cookies.count(who) as u64
    }

    /// Takes in a word for the present boot, which names so many replays and locks.
    fn take_word(&mut self, who: Who, replays: u64, locks: u64) -> Result<(), Memory>
        ensures shows { OnOk result ((b : ℕ) (handed : List Message) (seen : List ℕ) → ShowsHanded self.old b handed
            → ShowsHanded self.new b (messages.Word who b replays locks seen ∷ handed)) }
    {
        self.by_replays.put(who, replays, locks)?;
        self.by_locks.put(who, locks, replays)?;
        let is_back = self.has_handed(who, replays, locks);
        self.note_back(who, is_back)?;
        Ok(())
    }

    /// Takes in a join for the present boot.
    fn take_join(&mut self, who: Who) -> Result<(), Memory>
        ensures shows { OnOk result ((b : ℕ) (handed : List Message) → ShowsHanded self.old b handed
            → ShowsHanded self.new b (messages.Join who b ∷ handed)) }
    {
        self.note_newer(who)?;
        self.note_back(who, true)?;
        Ok(())
    }

    /// Takes in a message that the target took in this boot.
    pub(crate) fn take(&mut self, boot: u32, message: &'a Message) -> Result<(), Memory>
        ensures shows { OnOk result ((handed : List Message) → ShowsHanded self.old boot handed
            → ShowsHanded self.new boot (message.now ∷ handed)) }
    {
        match message {
            Message::Replay(replay) => {
                if replay.boot != boot {
                    return Ok(());
                }
                self.take_replay(replay)?;
                Ok(())
            }
            Message::Lock(lock) => {
                if lock.boot != boot {
                    return Ok(());
                }
                self.take_lock(lock)?;
                Ok(())
            }
            Message::Word {
                who,
                boot: known,
                replays,
                locks,
                ..
            } => {
                if *known != boot {
                    return Ok(());
                }
                self.take_word(*who, *replays as u64, *locks as u64)?;
                Ok(())
            }
            Message::Join { who, boot: known } => {
                if *known != boot {
                    return Ok(());
                }
                self.take_join(*who)?;
                Ok(())
            }
            _ => Ok(()),
        }
    }

    /// Whether a replay of this number, next, is the last that a word of the life names.
    fn is_met_by_replay(&self, who: Who, number: u64) -> bool
        ensures met { result ≡ (not (has_member self.now.replays who number)
            && is_within self.now.by_replays who (count_of self.now.replays who + 1) (count_of self.now.cookies who)) }
    {
        let replays = self.replays.next_count(who) as u64;
        let locks = self.cookies.count(who) as u64;
        !self.replays.has(who, number) && self.by_replays.is_within(who, replays, locks)
    }

    /// Whether a lock of this cookie, next, is the last that a word of the life names.
    fn is_met_by_lock(&self, who: Who, cookie: u64) -> bool
        ensures met { result ≡ (not (has_member self.now.cookies who cookie)
            && is_within self.now.by_locks who (count_of self.now.cookies who + 1) (count_of self.now.replays who)) }
    {
        let locks = self.cookies.next_count(who) as u64;
        let replays = self.replays.count(who) as u64;
        !self.cookies.has(who, cookie) && self.by_locks.is_within(who, locks, replays)
    }

    /// Whether the message, taken next in this boot, is one by which the life has all.
    fn completes(&self, boot: u32, message: &Message, who: Who) -> bool
        ensures completes { result ≡ completes_in self.now boot message.now who }
    {
        match message {
            Message::Replay(replay) => {
                replay.boot == boot
                    && is_same(replay.who, who)
                    && self.is_met_by_replay(who, replay.txn.0)
            }
            Message::Lock(lock) => {
                lock.boot == boot
                    && is_same(lock.who, who)
                    && self.is_met_by_lock(who, lock.cookie.0)
            }
            Message::Word {
                who: other,
                boot: known,
                replays,
                locks,
                ..
            } => {
                *known == boot
                    && is_same(*other, who)
                    && self.has_handed(who, *replays as u64, *locks as u64)
            }
            Message::Join {
                who: other,
                boot: known,
            } => *known == boot && is_same(*other, who),
            _ => false,
        }
    }

    /// Whether the life has all after this message, taken next in this boot.
    pub(crate) fn has_all_after(&self, boot: u32, message: &Message, who: Who) -> bool
        ensures all { (handed : List Message) → ShowsHanded self.now boot handed
            → result ≡ has_all boot who (message.now ∷ handed) }
    {
        if self.completes(boot, message, who) {
            return true;
        }
        self.has_all(who)
    }
}
