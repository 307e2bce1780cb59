//! The parts of a target together.

ghost use Rattle.std.specs.Prelude.{◌≡◌, [], ◌∷◌, OnOk};
ghost use Rattle.lu_msg.specs.declared.messages.Message.TheVariants as message;
ghost use Rattle.lu_spec_target.specs.Lives.{is_life};
ghost use Rattle.lu_spec_target.specs.Replies.{to_life};
ghost use Rattle.lu_spec_target.specs.States.{Target};
ghost use Rattle.lu_spec_entries.specs.Given.{giving};
ghost use Rattle.lu_target_server.specs.Servers.{Shows};
ghost use Rattle.lu_window.specs.States.{State};
ghost use Rattle.lu_target_server.specs.Recovering.{Gathers};

use super::requests::Requests;
use super::saying::{say_evicted, say_up};
use lu_base::{Memory, TargetId, Who};
use lu_disk::Disk;
use lu_service::Service;
use lu_target_locks::LockServer;
use lu_target_store::Store;
use lu_trace::Turn;
use std::alloc::Global;
use std::marker::Model;

/// What a target is made of: its store over a disk, its locks, its service, and the requests that wait.
#[derive(Drop)]
pub struct Server<S: Service, D: Disk> {
    pub(crate) alloc: Global,
    pub(crate) id: TargetId,
    pub(crate) boot: u32,
    /// The ticks after which the holder of a lock that was called back loses its slot.
    pub(crate) expire: u64,
    pub(crate) store: Store<D>,
    pub(crate) locks: LockServer,
    pub(crate) service: S,
    pub(crate) requests: Requests,
}

impl<S: Service, D: Disk> Model for Server<S, D> {
    ghost use Rattle.lu_target_server.specs.Servers.{ServerState};

    ghost Value = { ServerState };

    ghost view = { λ s. record {
      id = s.id.0;
      boot = s.boot;
      expire = s.expire;
      kind = S.kind;
      contents = S.contents s.service;
      store = s.store;
      locks = s.locks;
      requests = s.requests;
    } };
}

impl<S: Service, D: Disk> Server<S, D> {
    /// The target's boot, from 1.
    pub fn boot_number(&self) -> u32
        ensures boot { result ≡ self.now.boot }
    {
        self.boot
    }

    /// Whether this life has a slot.
    pub fn serves(&self, who: Who) -> bool
        ensures serves { (v : Target) → Shows self.now v → result ≡ is_life who v.lives }
        ensures gathers { (w : State) (v : Target) → Gathers self.now w v → result ≡ is_life who v.lives }
    {
        self.store.serves(who)
    }

    /// Tells a life the target's boot.
    pub fn up(&self, turn: &mut Turn, who: Who) -> Result<(), Memory>
        ensures said { OnOk result (turn.new ≡ giving turn.old (to_life who (message.Up self.now.boot) ∷ [])) }
    {
        say_up(turn, who, self.boot)
    }

    /// Tells a life that it has no slot.
    pub fn evicted(&self, turn: &mut Turn, who: Who) -> Result<(), Memory>
        ensures said { OnOk result (turn.new ≡ giving turn.old (to_life who (message.Evicted who self.now.boot) ∷ [])) }
    {
        say_evicted(turn, who, self.boot)
    }
}
