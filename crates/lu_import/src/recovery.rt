//! What a life tells a target that is up again (Lustre Operations Manual, recovery).

ghost use Rattle.std.specs.Prelude.{◌≡◌, ◌++◌, List, length, IfOk, OnOk};
ghost use Rattle.lu_import.specs.Recovery.{tells, lock_told, lock_replays, told_as, tells_all, interrupted};

use super::kept::Kept;
use lu_base::{Lock, Memory, Node, TargetId, Who};
use lu_msg::{LockReplay, Message, Post, Sends};
use std::alloc::Global;
use std::marker::Model;

/// How a life stands at a target.
#[derive(Clone, Copy, Debug, PartialEq, Eq)]
pub enum Standing {
    /// The life is new, and hasn't heard that the target serves it.
    Joining,
    /// The target is up again, and hasn't said that it serves the life.
    Recovering,
    /// The target serves the life.
    Serving,
}

impl Standing {
    /// The same once a new boot of the target is heard of.
    pub(crate) fn interrupted(self) -> Standing
        ensures { result ≡ interrupted self }
    {
        match self {
            Standing::Joining => Standing::Joining,
            Standing::Recovering | Standing::Serving => Standing::Recovering,
        }
    }
}

/// How many there are, as a message says it. More than 2^32 - 1 are more than memory has.
pub(crate) fn count_of(count: usize) -> Result<u32, Memory>
    ensures { IfOk result (λ told. told ≡ count) }
{
    match u32::try_from(count) {
        Ok(told) => Ok(told),
        Err(_) => Err(Memory),
    }
}

/// A life that tells a target something, in the target's boot.
#[derive(Debug, Drop)]
pub(crate) struct Teller {
    pub(crate) target: TargetId,
    pub(crate) who: Who,
    pub(crate) boot: u32,
}

impl Model for Teller {
    ghost use Rattle.lu_import.specs.Recovery.{TellerState};

    ghost Value = { TellerState };

    ghost view = { λ teller. record { target = teller.target; who = teller.who; boot = teller.boot } };
}

impl Teller {
    /// A message to the target.
    pub(crate) fn post(&self, message: Message) -> Post
        ensures { result ≡ tells self.now message }
    {
        Post {
            to: Node::Target(self.target.0),
            message,
        }
    }

    /// A held lock, handed in again.
    fn lock(&self, lock: &Lock) -> Post
        ensures { result ≡ lock_told self.now lock.now }
    {
        self.post(Message::Lock(LockReplay {
            who: self.who,
            boot: self.boot,
            cookie: lock.cookie,
            resource: lock.resource,
            mode: lock.ask.mode,
            policy: lock.ask.policy,
        }))
    }

    /// Adds the held locks to what is sent.
    fn tell_locks(&self, locks: &[Lock], sends: &mut Sends) -> Result<(), Memory>
        ensures { OnOk result (sends.new ≡ sends.old ++ lock_replays self.now locks.now) }
    {
        for lock in locks {
            sends.push(self.lock(lock))?;
        }
        Ok(())
    }

    /// The replays in rising number, the locks as given, and the word.
    fn tell_all(&self, alloc: Global, kept: &Kept, locks: &[Lock]) -> Result<Sends, Memory>
        ensures { IfOk result (λ sends. sends ≡ tells_all self.now kept.now locks.now) }
    {
        let mut sends = Sends::new(alloc);
        kept.tell_replays(alloc, self, &mut sends)?;
        self.tell_locks(locks, &mut sends)?;
        sends.push(kept.word(alloc, self, locks.len())?)?;
        Ok(sends)
    }

    /// What the life tells that stands so.
    pub(crate) fn tell(
        &self,
        alloc: Global,
        standing: Standing,
        kept: &Kept,
        locks: &[Lock],
    ) -> Result<Sends, Memory>
        ensures { IfOk result (λ sends. sends ≡ told_as standing self.now kept.now locks.now) }
    {
        match standing {
            Standing::Joining => {
                let mut sends = Sends::new(alloc);
                sends.push(self.post(Message::Join {
                    who: self.who,
                    boot: self.boot,
                }))?;
                Ok(sends)
            }
            Standing::Recovering => self.tell_all(alloc, kept, locks),
            Standing::Serving => Ok(Sends::new(alloc)),
        }
    }
}
