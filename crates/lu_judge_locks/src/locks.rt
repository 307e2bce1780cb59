//! The law of locks, decided from tables.

ghost use Rattle.std.specs.Prelude.{◌≡◌, ◌+◌, ◌<◌, ◌≤◌, not, reverse, find, [], None, IfOk, IsTrue, ◌↔◌};
ghost use Rattle.lu_base.specs.declared.ids.Node.TheVariants as Node;
ghost use Rattle.lu_trace.specs.WellFormed.{IsWellFormed};
ghost use Rattle.lu_spec_laws.specs.Words.Pasts.{Past};
ghost use Rattle.lu_spec_laws.specs.Words.Asked.{asked_for, is_for, requested};
ghost use Rattle.lu_spec_laws.specs.Words.Held.{held, all_but, is_opposed};
ghost use Rattle.lu_spec_laws.specs.Holds.{Holds};
ghost use Rattle.lu_spec_laws.specs.Laws.Messages.{Messages, Follows};
ghost use Rattle.lu_spec_laws.specs.Laws.Locks.{Locks as LocksLaw, LocksAt, HoldBy, IsAsked, GrantBy, TxnBy};
ghost use Rattle.lu_judge_pass.specs.Firsts.{About, IsFirst};
ghost use Rattle.lu_judge_pass.specs.Places.{Ordered, Placed as PlacedLine};
ghost use Rattle.lu_judge_locks.specs.Acts.{names_turn};
ghost use Rattle.lu_judge_locks.specs.Guarded.{guards, is_guarded};
ghost use Rattle.lu_judge_locks.specs.Shown.{Shown};

use super::acts::{Acts, is_names};
use super::asked::{find_enqueued, find_wanted};
use super::orders::{asks_ahead, asks_of_others};
use super::queues::Queues;
use lu_base::{Ask, At, Cookie, Lock, Memory, Mode, Node, Resource, Stamp, Txn, Who, Xid};
use lu_judge_names::Contents;
use lu_judge_pass::{Judge, Ledger, first_broken};
use lu_judge_windows::{HeldLocks, Windows};
use lu_lock::{conflicts_with_any, granted_ask};
use lu_part::{Part, guard};
use lu_trace::{Entry, Line, Trace};
use std::alloc::Global;

/// What the law of locks asks of the lines so far.
#[derive(Drop)]
struct Locks<'a> {
    alloc: Global,
    /// The number of object storage targets.
    osts: u16,
    /// All lines of the trace.
    lines: &'a [Line],
    /// How many of them were taken in.
    place: usize,
    ledger: Ledger<'a>,
    windows: Windows<'a>,
    contents: Contents<'a>,
    held: HeldLocks<'a>,
    queues: Queues<'a>,
    acts: Acts,
}

impl<'a> Locks<'a> {
    /// Of no line.
    fn new(alloc: Global, osts: u16, lines: &'a [Line]) -> Result<Locks<'a>, Memory>
        requires some { 1 ≤ osts }
        requires most { osts ≤ 8 }
        ensures shows { IfOk result (λ judge. Shown judge []) }
        ensures osts { IfOk result (λ judge. judge.osts ≡ osts) }
        ensures lines { IfOk result (λ judge. judge.lines.now ≡ lines.now) }
    {
        Ok(Locks {
            alloc,
            osts,
            lines,
            place: 0,
            ledger: Ledger::new(alloc),
            windows: Windows::new(alloc),
            contents: Contents::new(alloc, osts)?,
            held: HeldLocks::new(alloc),
            queues: Queues::new(alloc),
            acts: Acts::new(alloc),
        })
    }

    /// Whether the entry may stand in this turn.
    fn allows_entry(&self, at: At, entry: &Entry) -> Result<bool, Memory>
        ensures { IfOk result (λ holds. (past : Past) → Shown self.now past → Ordered past → Follows past at
            → IsTrue holds ↔ LocksAt self.now.osts past at entry.now) }
    {
        match entry {
            Entry::Hold { target, cookie } => Ok(self.allows_hold(at.node, target.0, *cookie)),
            Entry::Grant(lock) => self.allows_grant(at, lock),
            Entry::Txn { txn, who, xid, .. } => self.allows_txn(at.node, *txn, *who, *xid),
            _ => Ok(true),
        }
    }

    /// Whether the node may come to hold the lock of that cookie of the target.
    fn allows_hold(&self, node: Node, target: u16, cookie: Cookie) -> bool
        ensures { (past : Past) → Shown self.now past → IsTrue result ↔ HoldBy past node target cookie.0 }
    {
        let Node::Client(client) = node else {
            return true;
        };
        let who = self.ledger.lives.who(client);
        match self.held.given(target, who, cookie) {
            Some(lock) => {
                if self.ledger.evictions.has(target, who) {
                    return true;
                }
                self.is_alone(target, who, cookie, lock)
            }
            None => false,
        }
    }

    /// Whether the lock conflicts with no other held one.
    fn is_alone(&self, target: u16, who: Who, cookie: Cookie, lock: &Lock) -> bool
        ensures { (past : Past) → Shown self.now past
            → result ≡ not (is_opposed past target lock.now.resource lock.now.ask
            (all_but who target cookie.0 (held past))) }
    {
        !self.held.is_opposed_but(&self.ledger, target, lock.resource, &lock.ask, who, cookie)
    }

    /// Whether the node may grant the lock.
    fn allows_grant(&self, at: At, lock: &Lock) -> Result<bool, Memory>
        ensures { IfOk result (λ holds. (past : Past) → Shown self.now past → Ordered past → Follows past at
            → IsTrue holds ↔ GrantBy self.now.osts past at at.node lock.now) }
    {
        let Node::Target(target) = at.node else {
            return Ok(true);
        };
        let asked = self.asked_for(at, target, lock)?;
        let granted = self.queues.granted(target, lock.resource)?;
        let waiting = self.queues.waiting(target, lock.resource)?;
        let ahead = asks_ahead(self.alloc, &waiting, lock.cookie)?;
        let others = asks_of_others(self.alloc, &waiting, lock.cookie)?;
        if conflicts_with_any(&lock.ask, &granted) {
            return Ok(false);
        }
        if conflicts_with_any(&lock.ask, &ahead) {
            return Ok(false);
        }
        Ok(is_as_asked(asked, lock, &granted, &others))
    }

    /// How a lock that the target may grant in this turn was asked for; none where it wasn't.
    fn asked_for(&self, at: At, target: u16, lock: &Lock) -> Result<Option<Lock>, Memory>
        requires { at.node ≡ Node.Target target }
        ensures { IfOk result (λ asked. (past : Past) → Shown self.now past → Ordered past → Follows past at
            → asked ≡ asked_for self.now.osts target past at lock.now) }
    {
        if let Some(waits) = self.queues.waits(target, lock.cookie) {
            return Ok(Some(*waits));
        }
        if target == 0 {
            return self.wanted(at.stamp, lock);
        }
        let taken = self.ledger.present.taken(at);
        Ok(find_enqueued(&self.ledger.requests, target, lock, taken))
    }

    /// How the lock stands among those that the request asks for which the turn of the metadata target executed last.
    fn wanted(&self, stamp: Stamp, lock: &Lock) -> Result<Option<Lock>, Memory>
        ensures { IfOk result (λ asked. (past : Past) → Shown self.now past
            → asked ≡ find (is_for lock.now) (requested self.now.osts 0 past (names_turn stamp.0) lock.now.cookie)) }
    {
        let Some(acting) = self.acts.get(stamp) else {
            return Ok(None);
        };
        let op = self.ledger.requests.asked(0, acting.who, acting.xid);
        let wants = self.contents.wants(self.alloc, acting.who, op)?;
        Ok(find_wanted(wants.as_slice(), acting.who, lock))
    }

    /// Whether the node may make the transaction.
    fn allows_txn(&self, node: Node, number: Txn, who: Who, xid: Xid) -> Result<bool, Memory>
        ensures { IfOk result (λ holds. (past : Past) → Shown self.now past
            → IsTrue holds ↔ TxnBy self.now.osts past node number who xid.0) }
    {
        if !is_names(node) {
            return Ok(true);
        }
        let op = self.ledger.requests.asked(0, who, xid);
        let writes = self.contents.writes(self.alloc, number, who, op)?;
        Ok(!self.is_guarded(who, writes.as_slice()))
    }

    /// Whether a held lock guards one of the parts against the life.
    fn is_guarded(&self, who: Who, parts: &[Part]) -> bool
        ensures { (past : Past) → Shown self.now past → result ≡ is_guarded past who parts.now }
    {
        for part in parts {
            if self.guards(who, part) {
                return true;
            }
        }
        false
    }

    /// Whether a held lock guards the part against the life.
    fn guards(&self, who: Who, part: &Part) -> bool
        ensures { (past : Past) → Shown self.now past → result ≡ guards past who part.now }
    {
        let (resource, policy) = guard(part);
        let ask = Ask {
            who,
            mode: Mode::EX,
            policy,
        };
        self.held.is_opposed(&self.ledger, 0, resource, &ask)
    }
}

/// Whether the lock was asked for so, as it grows beside these granted and waiting ones.
fn is_as_asked(asked: Option<Lock>, lock: &Lock, granted: &[Ask], others: &[Ask]) -> bool
    ensures { IsTrue result ↔ IsAsked asked lock.now granted.now others.now }
{
    match asked {
        Some(asked) => {
            if !same_resource(lock.resource, asked.resource) {
                return false;
            }
            let grown = granted_ask(&asked.ask, granted, others);
            same_ask(&lock.ask, &grown)
        }
        None => false,
    }
}

/// Whether both are one resource.
fn same_resource(a: Resource, b: Resource) -> bool
    ensures { IsTrue result ↔ (a ≡ b) }
{
    a == b
}

/// Whether both ask for the same.
fn same_ask(a: &Ask, b: &Ask) -> bool
    ensures { IsTrue result ↔ (a.now ≡ b.now) }
{
    *a == *b
}

/// The place after this one, up to the end.
fn place_after(place: usize, end: usize) -> usize
    ensures { place < end → result ≡ place + 1 }
{
    if place < end { place + 1 } else { place }
}

impl<'a> Judge<'a> for Locks<'a> {
    ghost about = { λ judge. record { osts = judge.osts; whole = reverse judge.lines.now } };

    ghost given = { PlacedLine };

    ghost shows = { Shown };

    ghost law = { λ about. LocksLaw about.osts };

    fn allows(&self, line: &'a Line, _later: &'a [Line]) -> Result<bool, Memory> {
        self.allows_entry(line.at, &line.entry)
    }

    fn step(&mut self, line: &'a Line) -> Result<(), Memory> {
        self.queues.step(line, self.place)?;
        self.acts.step(line)?;
        self.held.step(&self.ledger, line)?;
        self.windows.step(&self.ledger, line)?;
        self.contents.step(&self.ledger, &self.windows, line)?;
        self.ledger.step(line)?;
        self.place = place_after(self.place, self.lines.len());
        Ok(())
    }
}

/// The place, from 0, of the first line that breaks the law of locks; none exactly where the law holds of the trace. It
/// answers want of memory alone.
pub fn first_in_locks(alloc: Global, trace: &Trace) -> Result<Option<usize>, Memory>
    requires formed { IsWellFormed trace.now }
    requires messages { Holds Messages (reverse trace.now.entries) }
    ensures first { IfOk result (IsFirst (LocksLaw trace.now.osts) trace.now.entries) }
    ensures none { IfOk result (λ place. (place ≡ None) ↔ Holds (LocksLaw trace.now.osts) (reverse trace.now.entries)) }
{
    let lines = trace.entries.as_slice();
    let judge = Locks::new(alloc, trace.osts, lines)?;
    first_broken(judge, lines)
}
