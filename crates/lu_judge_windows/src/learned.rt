//! What lives learned of the targets' transactions, by replies and grants.

ghost use Rattle.std.specs.Prelude.{◌≡◌, ℕ, ◌==◌, ◌&&◌, ◌||◌, [], ◌∷◌, map, OnOk, nat_eq, false};
ghost use Rattle.std.specs.List.{list_any};
ghost use Rattle.lu_base.specs.declared.ids.Who.{Who};
ghost use Rattle.lu_trace.specs.declared.entries.Line.{Line};
ghost use Rattle.lu_spec_laws.specs.Words.Pasts.{Past, is_target};
ghost use Rattle.lu_spec_machine.specs.Tree.{same_life};
ghost use Rattle.lu_spec_laws.specs.Words.Learned.{is_reply_to, is_grant_to, carries, names, lets_see};
ghost use Rattle.lu_spec_laws.specs.Laws.Messages.{Follows};
ghost use Rattle.lu_judge_pass.specs.Places.{Ordered};
ghost use Rattle.lu_judge_pass.specs.Ledgers.{ShowsLedger};
ghost use Rattle.lu_judge_pass.specs.Tables.{sending_of};
ghost use Rattle.lu_judge_windows.specs.Learned.{has_number, is_of, heard_in, saw_in, ShowsLearned};

use lu_base::{Cookie, Memory, Node, Numbers, Who, Xid};
use lu_judge_pass::{Ledger, Sending, same_node};
use lu_msg::{GrantNotice, Message, Reply};
use lu_trace::{Entry, Line};
use std::alloc::Global;
use std::collections::HashSet;

/// Whether the reply comes from the target, for that request of the life.
fn answers(from: Node, reply: &Reply, target: u16, who: Who, xid: Xid) -> bool
    ensures { result ≡ (is_target target from && same_life reply.now.who who && reply.now.xid.0 == xid.0) }
{
    same_node(from, Node::Target(target))
        && reply.who.client == who.client
        && reply.who.life == who.life
        && reply.xid == xid
}

/// Whether the grant comes from the target, of that lock of the life.
fn grants(from: Node, grant: &GrantNotice, target: u16, who: Who, cookie: Cookie) -> bool
    ensures { result ≡ (is_target target from && same_life grant.now.who who && grant.now.cookie.0 == cookie.0) }
{
    same_node(from, Node::Target(target))
        && grant.who.client == who.client
        && grant.who.life == who.life
        && grant.cookie == cookie
}

/// Numbers of targets' transactions, by target and life.
#[derive(Debug, Drop)]
struct Known {
    numbers: HashSet<(u16, ((u16, u32), u64))>,
}

impl Known {
    /// Nothing. It takes no memory yet.
    fn new(alloc: Global) -> Known
        ensures empty { (t : ℕ) (who : Who) (n : ℕ) → has_number result t who n ≡ false }
    {
        Known {
            numbers: HashSet::new(alloc),
        }
    }

    /// Whether the life knows this number of the target.
    fn has(&self, target: u16, who: Who, number: u64) -> bool
        ensures known { result ≡ has_number self.now target who number }
    {
        self.numbers
            .contains(&(target, ((who.client, who.life), number)))
    }

    /// The life knows this number of the target from now on.
    fn add(&mut self, target: u16, who: Who, number: u64) -> Result<(), Memory>
        ensures added { OnOk result ((t : ℕ) (w : Who) (n : ℕ) → has_number self.new t w n
            ≡ ((is_of target who t w && number == n) || has_number self.old t w n)) }
    {
        self.numbers
            .insert((target, ((who.client, who.life), number)))?;
        Ok(())
    }

    /// The life knows these numbers of the target from now on.
    fn add_all(&mut self, target: u16, who: Who, numbers: &Numbers) -> Result<(), Memory>
        ensures added { OnOk result ((t : ℕ) (w : Who) (n : ℕ) → has_number self.new t w n
            ≡ ((is_of target who t w && list_any (nat_eq n) numbers.now) || has_number self.old t w n)) }
    {
        for number in numbers.as_slice() {
            self.add(target, who, *number)?;
        }
        Ok(())
    }
}

/// What the lives heard and saw so far.
#[derive(Debug, Drop)]
pub(crate) struct Learned {
    /// Of the replies that a life heard the numbers that they carry.
    heard: Known,
    /// The numbers that the replies name that a life heard, and the grants by which it holds locks.
    seen: Known,
}

impl Learned {
    /// Of no line. It takes no memory yet.
    pub(crate) fn new(alloc: Global) -> Learned
        ensures shows { ShowsLearned result [] }
    {
        Learned {
            heard: Known::new(alloc),
            seen: Known::new(alloc),
        }
    }

    /// Whether the life heard a reply of the target that carries this number.
    pub(crate) fn heard(&self, target: u16, who: Who, number: u64) -> bool
        ensures heard { result ≡ heard_in self.now target who number }
    {
        self.heard.has(target, who, number)
    }

    /// Whether a reply of the target that it heard names this number, or a grant by which it holds a lock.
    pub(crate) fn saw(&self, target: u16, who: Who, number: u64) -> bool
        ensures saw { result ≡ saw_in self.now target who number }
    {
        self.seen.has(target, who, number)
    }

    /// Takes in what a message tells where the life hears the target's reply to its request.
    fn hear_one(&mut self, target: u16, who: Who, xid: Xid, sending: &Sending) -> Result<(), Memory>
        ensures heard { OnOk result ((t : ℕ) (w : Who) (n : ℕ) → heard_in self.new t w n
            ≡ ((is_of target who t w && is_reply_to (carries n) target who xid.0 (sending_of sending.now))
            || heard_in self.old t w n)) }
        ensures saw { OnOk result ((t : ℕ) (w : Who) (n : ℕ) → saw_in self.new t w n
            ≡ ((is_of target who t w && is_reply_to (names n) target who xid.0 (sending_of sending.now))
            || saw_in self.old t w n)) }
    {
        match sending.message {
            Message::Reply(reply) => {
                if !answers(sending.from, reply, target, who, xid) {
                    return Ok(());
                }
                self.heard.add(target, who, reply.txn.0)?;
                self.seen.add_all(target, who, &reply.seen)?;
                Ok(())
            }
            _ => Ok(()),
        }
    }

    /// Takes in what a message tells where the life comes to hold the lock of the target.
    fn hold_one(
        &mut self,
        target: u16,
        who: Who,
        cookie: Cookie,
        sending: &Sending,
    ) -> Result<(), Memory>
        ensures heard { OnOk result (self.new.heard ≡ self.old.heard) }
        ensures saw { OnOk result ((t : ℕ) (w : Who) (n : ℕ) → saw_in self.new t w n
            ≡ ((is_of target who t w && is_grant_to (lets_see n) target who cookie.0 (sending_of sending.now))
            || saw_in self.old t w n)) }
    {
        match sending.message {
            Message::Grant(grant) => {
                if !grants(sending.from, grant, target, who, cookie) {
                    return Ok(());
                }
                self.seen.add_all(target, who, &grant.seen)?;
                Ok(())
            }
            _ => Ok(()),
        }
    }

    /// The life hears the target's reply to its request, where the turn took these messages.
    fn hear(&mut self, target: u16, who: Who, xid: Xid, taken: &[Sending]) -> Result<(), Memory>
        ensures heard { OnOk result ((t : ℕ) (w : Who) (n : ℕ) → heard_in self.new t w n
            ≡ ((is_of target who t w && list_any (is_reply_to (carries n) target who xid.0) (map sending_of taken.now))
            || heard_in self.old t w n)) }
        ensures saw { OnOk result ((t : ℕ) (w : Who) (n : ℕ) → saw_in self.new t w n
            ≡ ((is_of target who t w && list_any (is_reply_to (names n) target who xid.0) (map sending_of taken.now))
            || saw_in self.old t w n)) }
    {
        for sending in taken {
            self.hear_one(target, who, xid, sending)?;
        }
        Ok(())
    }

    /// The life comes to hold the lock of the target, where the turn took these messages.
    fn hold(
        &mut self,
        target: u16,
        who: Who,
        cookie: Cookie,
        taken: &[Sending],
    ) -> Result<(), Memory>
        ensures heard { OnOk result (self.new.heard ≡ self.old.heard) }
        ensures saw { OnOk result ((t : ℕ) (w : Who) (n : ℕ) → saw_in self.new t w n
            ≡ ((is_of target who t w && list_any (is_grant_to (lets_see n) target who cookie.0)
            (map sending_of taken.now)) || saw_in self.old t w n)) }
    {
        for sending in taken {
            self.hold_one(target, who, cookie, sending)?;
        }
        Ok(())
    }

    /// Takes in the next line. After want of memory nothing is known of the table.
    pub(crate) fn step(&mut self, ledger: &Ledger, line: &Line) -> Result<(), Memory>
        ensures shows { OnOk result ((past : Past) → Ordered past → Follows past line.now.at
            → ShowsLedger ledger.now past → ShowsLearned self.old past → ShowsLearned self.new (line.now ∷ past)) }
    {
        let taken = ledger.present.taken(line.at);
        match &line.entry {
            Entry::Heard { target, xid } => match line.at.node {
                Node::Client(client) => {
                    self.hear(target.0, ledger.lives.who(client), *xid, taken)?;
                    Ok(())
                }
                Node::Target(_) => Ok(()),
            },
            Entry::Hold { target, cookie } => match line.at.node {
                Node::Client(client) => {
                    self.hold(target.0, ledger.lives.who(client), *cookie, taken)?;
                    Ok(())
                }
                Node::Target(_) => Ok(()),
            },
            _ => Ok(()),
        }
    }
}
