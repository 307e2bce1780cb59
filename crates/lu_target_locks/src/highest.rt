//! Which write lock on an object starts last.

ghost use Rattle.std.specs.Prelude.{◌≡◌, [], ◌∷◌};
ghost use Rattle.lu_spec_target.specs.Glimpses.{highest};
ghost use Rattle.lu_spec_target.specs.Queues.{extent_of};
ghost use Rattle.lu_spec_target.specs.Replies.{locks_on};
ghost use Rattle.lu_spec_target.specs.States.{Target};
ghost use Rattle.lu_target_locks.specs.Starts.{joined};
ghost use Rattle.lu_target_locks.specs.Servers.{greatest, Shows};

use super::server::LockServer;
use lu_base::{Lock, Mode, Policy, Resource};
use lu_lock::serves;

/// The first offset of a lock's range.
fn start(lock: &Lock) -> u64
    ensures start { result ≡ (extent_of lock.now).first }
{
    match lock.ask.policy {
        Policy::Range(extent) => extent.first,
        Policy::Bits(_) => 0,
    }
}

/// Of the write lock that was found and this lock the one of greater start, and this one where both start at one offset.
fn join(found: Option<Lock>, lock: Lock) -> Option<Lock>
    ensures joined { result ≡ joined found (highest (lock ∷ [])) }
{
    if !serves(lock.ask.mode, Mode::PW) {
        return found;
    }
    match found {
        Some(before) if start(&lock) < start(&before) => Some(before),
        _ => Some(lock),
    }
}

impl LockServer {
    /// The greatest cookie given in the boot; before the first one the boot in the high 32 bits alone.
    fn greatest(&self) -> u64
        ensures greatest { result ≡ greatest self.now }
    {
        let boot = self.boot;
        let count = self.count;
        (u64::from(boot) << 32) + u64::from(count)
    }

    /// The granted lock in mode PW of greatest start on an object; of several the one of greatest cookie.
    pub fn highest(&self, resource: Resource) -> Option<Lock>
        ensures highest { (v : Target) → Shows self.now v → result ≡ highest (locks_on resource v.granted) }
    {
        let mut found = None;
        for at in 0..=self.greatest() as usize {
            let Some(lock) = self.space.granted(resource, at) else {
                return found;
            };
            found = join(found, lock);
        }
        found
    }
}
