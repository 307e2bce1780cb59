//! Which requests may be taken, and which replays and locks of lives that come back.

ghost use Rattle.std.specs.Prelude.{◌≤◌, ◌↔◌, IsTrue};
ghost use Rattle.lu_lock.specs.Overlap.{IsOrdered};
ghost use Rattle.lu_spec_target.specs.Phase.{first_of};
ghost use Rattle.lu_target_server.specs.Recovering.{Awaits, MayBring, MayReplay};
ghost use Rattle.lu_target_server.specs.Servers.{Stands, MayTake};

use super::recovery::Recovery;
use super::server::Server;
use lu_base::{Lock, Policy};
use lu_disk::Disk;
use lu_msg::{Request, RequestReplay, TAGS};
use lu_service::Service;

/// Whether a range has its ends in order.
fn is_ordered(policy: Policy) -> bool
    ensures test { IsTrue result ↔ IsOrdered policy }
{
    match policy {
        Policy::Bits(_) => true,
        Policy::Range(extent) => extent.first <= extent.last,
    }
}

impl<S: Service, D: Disk> Server<S, D> {
    /// Whether a request may be taken: its life has a slot, its tag is below 8, its operation is one of the service's, and a
    /// request that waits of its life and number has its tag.
    pub fn accepts(&self, request: &Request) -> bool
        requires stands { Stands self.now }
        ensures may { IsTrue result ↔ MayTake request.now self.now }
    {
        if !self.serves(request.who) || request.tag >= TAGS || !self.requests.agree(request) {
            return false;
        }
        self.service.accepts(&request.op)
    }

    /// Whether a replay may be taken while the target recovers: its life has a slot, its number is of an earlier boot and above 1,
    /// its tag is below 8, its operation one that the service performs again, and no other life gave that number.
    pub fn accepts_replay(&self, recovery: &Recovery, replay: &RequestReplay) -> bool
        requires awaits { Awaits self.now recovery.now }
        ensures may { IsTrue result ↔ MayReplay replay.now self.now recovery.now.window }
    {
        if !self.serves(replay.who) || replay.tag >= TAGS || !self.is_earlier(replay.txn.0) {
            return false;
        }
        self.service.repeats(&replay.op) && replay.txn.0 > 1 && recovery.is_only_replay(replay)
    }

    /// Whether a lock may be brought while the target recovers: its holder has a slot, its cookie is of an earlier boot, the ends of
    /// its range are in order, it is one of the target's kind, and no other life gave that cookie.
    pub fn accepts_lock(&self, recovery: &Recovery, lock: &Lock) -> bool
        requires awaits { Awaits self.now recovery.now }
        ensures may { IsTrue result ↔ MayBring lock.now self.now recovery.now.window }
    {
        if !self.serves(lock.ask.who) || !self.is_earlier(lock.cookie.0) {
            return false;
        }
        self.service.accepts_lock(lock)
            && is_ordered(lock.ask.policy)
            && recovery.is_only_lock(lock)
    }

    /// Whether a number or cookie is of an earlier boot.
    fn is_earlier(&self, number: u64) -> bool
        ensures earlier { IsTrue result ↔ (number ≤ first_of self.now.boot) }
    {
        number <= u64::from(self.boot) << 32
    }
}
