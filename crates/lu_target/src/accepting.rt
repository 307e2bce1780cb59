//! Which messages may come.

ghost use Rattle.std.specs.Prelude.{◌≡◌, ◌↔◌, IsTrue, None};
ghost use Rattle.lu_msg.specs.declared.messages.Message.TheVariants as message;
ghost use Rattle.lu_target.specs.Running.{IsUp, MayHeed};

use super::messages::lock_again;
use super::running::Running;
use super::targets::Target;
use lu_disk::Disk;
use lu_msg::{LockReplay, Message, Request, RequestReplay};
use lu_service::Service;

impl<S: Service, D: Disk> Running<S, D> {
    /// Whether a message may come, as `MayHeed` says.
    pub(crate) fn accepts(&self, message: &Message) -> bool
        requires up { IsUp self.now }
        ensures may { IsTrue result ↔ MayHeed message.now self.now }
    {
        match message {
            Message::Request(request) => self.accepts_request(request),
            Message::Replay(replay) => self.accepts_replay(replay),
            Message::Lock(lock) => self.accepts_lock(lock),
            _ => true,
        }
    }

    /// The same of a request.
    fn accepts_request(&self, request: &Request) -> bool
        requires up { IsUp self.now }
        ensures may { IsTrue result ↔ MayHeed (message.Request request.now) self.now }
    {
        if self.recovery.is_some() {
            return true;
        }
        if request.boot < self.server.boot_number() {
            return true;
        }
        if !self.server.serves(request.who) {
            return true;
        }
        self.server.accepts(request)
    }

    /// The same of a replay.
    fn accepts_replay(&self, replay: &RequestReplay) -> bool
        requires up { IsUp self.now }
        ensures may { IsTrue result ↔ MayHeed (message.Replay replay.now) self.now }
    {
        let Some(recovery) = &self.recovery else {
            return true;
        };
        if replay.boot != self.server.boot_number() {
            return true;
        }
        if !self.server.serves(replay.who) {
            return true;
        }
        self.server.accepts_replay(recovery, replay)
    }

    /// The same of a lock that is brought.
    fn accepts_lock(&self, lock: &LockReplay) -> bool
        requires up { IsUp self.now }
        ensures may { IsTrue result ↔ MayHeed (message.Lock lock.now) self.now }
    {
        let Some(recovery) = &self.recovery else {
            return true;
        };
        if lock.boot != self.server.boot_number() {
            return true;
        }
        if !self.server.serves(lock.who) {
            return true;
        }
        self.server.accepts_lock(recovery, &lock_again(lock))
    }
}

impl<S: Service, D: Disk> Target<S, D> {
    /// Whether a message may come: of a request that the target takes, its tag is below 8, its operation is one of its service's,
    /// and a request that waits of its life and number has its tag; a replay and a lock of the target's boot, while it recovers, are of
    /// an earlier boot and of the service's kind, and no other life gave that number or cookie.
    pub fn accepts(&self, message: &Message) -> bool
        requires unspent { self.now.spent ≡ None }
        requires up { IsUp self.now.running }
        ensures may { IsTrue result ↔ MayHeed message.now self.now.running }
    {
        self.running.accepts(message)
    }
}
