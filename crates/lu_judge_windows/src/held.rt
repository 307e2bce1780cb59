//! The locks that targets gave and that lives hold.

ghost use Rattle.std.specs.Prelude.{◌≡◌, ◌&&◌, not, [], ◌∷◌, OnOk};
ghost use Rattle.std.specs.List.{list_any};
ghost use Rattle.std.specs.Option.{option_map};
ghost use Rattle.lu_trace.specs.declared.entries.Line.{Line};
ghost use Rattle.lu_spec_laws.specs.Words.Pasts.{Past};
ghost use Rattle.lu_spec_laws.specs.Words.Held.{given, held, all_but, is_held_by, is_opposed, has_write_lock};
ghost use Rattle.lu_judge_pass.specs.Ledgers.{is_evicted_in, ShowsLedger};
ghost use Rattle.lu_judge_windows.specs.Lists.{held_of};
ghost use Rattle.lu_judge_windows.specs.Shown.{stands_against, holds_at, drops_at, ShowsHoldings, ShowsHeldLocks};

use super::given::Given;
use super::holdings::Holdings;
use super::lists::Holding;
use lu_base::{Ask, Cookie, Lock, Memory, Node, Resource, Who};
use lu_judge_pass::Ledger;
use lu_lock::conflict;
use lu_trace::{Entry, Line};
use std::alloc::Global;

/// The locks that targets gave so far, and those that lives hold.
#[derive(Debug, Drop)]
pub struct HeldLocks<'a> {
    given: Given<'a>,
    holdings: Holdings<'a>,
}

impl<'a> HeldLocks<'a> {
    /// Of no line. It takes no memory yet.
    pub fn new(alloc: Global) -> HeldLocks<'a>
        ensures shows { ShowsHeldLocks result [] }
    {
        HeldLocks {
            given: Given::new(alloc),
            holdings: Holdings::new(alloc),
        }
    }

    /// The lock that the target granted or restored last to the life under the cookie; none where it did neither.
    pub fn given(&self, target: u16, who: Who, cookie: Cookie) -> Option<&'a Lock>
        ensures given { (past : Past) → ShowsHeldLocks self.now past
            → option_map (λ lock. lock.now) result ≡ given target who cookie.0 past }
    {
        self.given.get(target, who, cookie)
    }

    /// Whether the ask conflicts with a held lock of the target on that resource, of a life that the target hasn't
    /// evicted. The ledger is of the same lines.
    pub fn is_opposed(
        &self,
        ledger: &Ledger<'a>,
        target: u16,
        resource: Resource,
        ask: &Ask,
    ) -> bool
        ensures opposed { (past : Past) → ShowsLedger ledger.now past → ShowsHeldLocks self.now past
            → result ≡ is_opposed past target resource ask.now (held past) }
    {
        match self.holdings.on(target, resource) {
            Some(list) => is_opposed_by(list, ledger, target, ask),
            None => false,
        }
    }

    /// The same, but for the life's own lock of that cookie at the target.
    pub fn is_opposed_but(
        &self,
        ledger: &Ledger<'a>,
        target: u16,
        resource: Resource,
        ask: &Ask,
        who: Who,
        cookie: Cookie,
    ) -> bool
        ensures opposed { (past : Past) → ShowsLedger ledger.now past → ShowsHeldLocks self.now past
            → result ≡ is_opposed past target resource ask.now (all_but who target cookie.0 (held past)) }
    {
        match self.holdings.on(target, resource) {
            Some(list) => is_opposed_by_others(list, ledger, target, ask, who, cookie),
            None => false,
        }
    }

    /// Whether the life holds a lock in mode PW.
    pub fn has_write_lock(&self, who: Who) -> bool
        ensures holds { (past : Past) → ShowsHeldLocks self.now past → result ≡ has_write_lock who (held past) }
    {
        self.holdings.has_write(who)
    }

    /// A node comes to hold what the target gave to its present life under the cookie.
    fn hold(
        &mut self,
        ledger: &Ledger<'a>,
        node: Node,
        target: u16,
        cookie: Cookie,
    ) -> Result<(), Memory>
        ensures shows { OnOk result ((past : Past) → ShowsLedger ledger.now past → ShowsHeldLocks self.old past
            → ShowsHoldings self.new.holdings (holds_at past node target cookie.0 (held past))) }
        ensures given { OnOk result (self.new.given ≡ self.old.given) }
    {
        let Node::Client(client) = node else {
            return Ok(());
        };
        let who = ledger.lives.who(client);
        match self.given.get(target, who, cookie) {
            Some(lock) => {
                self.holdings.hold(who, target, lock)?;
                Ok(())
            }
            None => Ok(()),
        }
    }

    /// A node's present life holds the lock of the cookie at the target no longer.
    fn let_go(&mut self, ledger: &Ledger<'a>, node: Node, target: u16, cookie: Cookie)
        ensures shows { (past : Past) → ShowsLedger ledger.now past → ShowsHeldLocks self.old past
            → ShowsHoldings self.new.holdings (drops_at past node target cookie.0 (held past)) }
        ensures given { self.new.given ≡ self.old.given }
    {
        if let Node::Client(client) = node {
            let who = ledger.lives.who(client);
            self.holdings.let_go(who, target, cookie);
        }
    }

    /// Takes in the next line. The ledger is of the lines before it. After want of memory nothing is known of the tables.
    pub fn step(&mut self, ledger: &Ledger<'a>, line: &'a Line) -> Result<(), Memory>
        ensures shows { OnOk result ((past : Past) → ShowsLedger ledger.now past → ShowsHeldLocks self.old past
            → ShowsHeldLocks self.new (line.now ∷ past)) }
    {
        match &line.entry {
            Entry::Hold { target, cookie } => self.hold(ledger, line.at.node, target.0, *cookie)?,
            Entry::Drop { target, cookie } => self.let_go(ledger, line.at.node, target.0, *cookie),
            _ => {}
        }
        self.given.step(line)
    }
}

/// Whether a lock on the resource of this ask conflicts with it and is of a life that the target hasn't evicted.
fn opposes<'a>(ledger: &Ledger<'a>, target: u16, ask: &Ask, holding: &Holding<'a>) -> bool
    ensures { result ≡ stands_against (is_evicted_in ledger.now.evictions target) ask.now (held_of holding.now) }
{
    conflict(ask, &holding.lock.ask) && !ledger.evictions.has(target, holding.who)
}

/// Whether one of them does.
fn is_opposed_by<'a>(holdings: &[Holding<'a>], ledger: &Ledger<'a>, target: u16, ask: &Ask) -> bool
    ensures { result ≡ list_any
        (λ h. stands_against (is_evicted_in ledger.now.evictions target) ask.now (held_of h)) holdings.now }
{
    holdings
        .iter()
        .any(|holding| opposes(ledger, target, ask, holding))
}

/// Whether one of them does that isn't the life's own lock of that cookie at the target.
fn is_opposed_by_others<'a>(
    holdings: &[Holding<'a>],
    ledger: &Ledger<'a>,
    target: u16,
    ask: &Ask,
    who: Who,
    cookie: Cookie,
) -> bool
    ensures { result ≡ list_any
        (λ h. not (is_held_by who target cookie.0 (held_of h))
        && stands_against (is_evicted_in ledger.now.evictions target) ask.now (held_of h)) holdings.now }
{
    holdings.iter().any(|holding| !holding.is(who, target, cookie)
        && opposes(ledger, target, ask, holding))
}
