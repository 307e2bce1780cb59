//! Glimpses of other clients: how long an object is under a lock of this one.

ghost use Rattle.std.specs.Prelude.{◌≡◌, OnOk};
ghost use Rattle.lu_held.specs.Locks.{named, reaches_end};
ghost use Rattle.lu_spec_entries.specs.Words.{same_life};
ghost use Rattle.lu_base.specs.declared.locks.Policy.TheVariants.{Range};
ghost use Rattle.lu_spec_client.specs.Imports.{import_of};
ghost use Rattle.lu_spec_client.specs.Looks.{size_under};
ghost use Rattle.lu_spec_client.specs.Messages.{asked, held_as, peeks, size_held, size_told, size_where};
ghost use Rattle.lu_client.specs.Callbacks.{question_of, peeked};
ghost use Rattle.lu_client.specs.Clients.{Makes};

use super::client::Client;
use lu_base::{Ask, Cookie, Extent, Lock, Memory, Mode, Node, Policy, TargetId, Who, Xid};
use lu_held::LockName;
use lu_msg::{Message, Post, SizeReport};
use lu_trace::{Entry, Turn};

/// A glimpse of another client, as a target asks it of the holder of a lock.
#[derive(Clone, Copy)]
pub(crate) struct Question {
    pub(crate) cookie: Cookie,
    /// The life whose request asks for the size.
    pub(crate) for_who: Who,
    /// The number of that request.
    pub(crate) xid: Xid,
}

impl Client {
    /// A glimpse of another client: the size under a PW lock that reaches the end is told, where it is above the lock's
    /// start. After want of memory the client is of no use.
    pub(crate) fn tell_size(
        &self,
        turn: &mut Turn,
        target: TargetId,
        who: Who,
        question: Question,
    ) -> Result<(), Memory>
        ensures makes { OnOk result (Makes (λ k. asked turn.old.at target.0 (question_of question) k
            (same_life who k.who))
            self.now self.now turn.old turn.new) }
    {
        if !self.is_life(who) {
            return Ok(());
        }
        let name = LockName {
            target,
            cookie: question.cookie,
        };
        let size = self.size_held(name);
        self.report_size(turn, target, question, size)
    }

    /// The size is told, if any, and a line of it is noted.
    fn report_size(
        &self,
        turn: &mut Turn,
        target: TargetId,
        question: Question,
        size: Option<u64>,
    ) -> Result<(), Memory>
        ensures makes { OnOk result (Makes (λ k. peeks turn.old.at target.0 (question_of question) k.who
            (import_of target.0 k.imports).boot size) self.now self.now turn.old turn.new) }
    {
        self.note_peek(turn, target, question.cookie, size)?;
        let stamp = turn.at().stamp;
        turn.send(Post {
            to: Node::Target(target.0),
            message: Message::Size(SizeReport {
                who: self.who,
                boot: self.boot_known(target),
                cookie: question.cookie,
                for_who: question.for_who,
                xid: question.xid,
                size,
                stamp,
            }),
        })
    }

    /// A line of the size, if any, that is told.
    fn note_peek(
        &self,
        turn: &mut Turn,
        target: TargetId,
        cookie: Cookie,
        size: Option<u64>,
    ) -> Result<(), Memory>
        ensures makes { OnOk result (Makes (λ k. peeked target.0 cookie size) self.now self.now turn.old turn.new) }
    {
        match size {
            Some(size) => turn.note(Entry::Peek {
                target,
                cookie,
                size,
            }),
            None => Ok(()),
        }
    }

    /// The size to tell under the lock of this name, where it is held.
    fn size_held(&self, name: LockName) -> Option<u64>
        ensures size { result ≡ size_held self.now.client.store (held_as name self.now.client.store.held) }
    {
        match self.store.held(name) {
            Some(held) => self.size_told(&held.lock),
            None => None,
        }
    }

    /// The size to tell under a held lock: that of its object, where it is a PW lock that reaches the end, and the size is
    /// above the lock's start.
    fn size_told(&self, lock: &Lock) -> Option<u64>
        ensures size { result ≡ size_told lock.now self.now.client.store lock.now.ask.mode lock.now.ask.policy }
    {
        match lock.ask {
            Ask {
                mode: Mode::PW,
                policy: Policy::Range(extent),
                ..
            } => self.size_to_end(lock, extent),
            _ => None,
        }
    }

    /// The same under a PW lock on this range.
    fn size_to_end(&self, lock: &Lock, extent: Extent) -> Option<u64>
        ensures size { result
            ≡ size_where extent.first (size_under lock.now self.now.client.store) (reaches_end (Range extent)) }
    {
        if extent.last < u64::MAX {
            return None;
        }
        let size = self.store.size_under(lock);
        if size > extent.first {
            return Some(size);
        }
        None
    }
}
