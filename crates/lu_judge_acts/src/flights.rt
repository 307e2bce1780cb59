//! The requests that are in flight.

ghost use Rattle.std.specs.Prelude.{◌≡◌, ℕ, ◌==◌, not, nat_lt, length, if◌then◌else◌, [], ◌∷◌, map, IsTrue, ◌↔◌, OnOk};
ghost use Rattle.std.specs.List.{list_any};
ghost use Rattle.lu_base.specs.declared.ids.At.{At as AtOf};
ghost use Rattle.lu_base.specs.declared.ids.Who.{Who as SpecWho};
ghost use Rattle.lu_trace.specs.declared.entries.Line.{Line};
ghost use Rattle.lu_msg.specs.Limits.{tag_count};
ghost use Rattle.lu_spec_laws.specs.Words.Pasts.{Past};
ghost use Rattle.lu_judge_pass.specs.Ledgers.{ShowsLedger};
ghost use Rattle.lu_spec_laws.specs.Words.Requests.{has_number, same_object};
ghost use Rattle.lu_judge_acts.specs.Flying.{Flies, FitsIn};
ghost use Rattle.lu_judge_acts.specs.Tables.{is_at, replied_in, flight_in, adds, flight_after, Sends, ShowsFlights};

use super::objects::same_object;
use lu_base::{At, Memory, Node, TargetId, Who, Xid};
use lu_judge_pass::Ledger;
use lu_msg::{Message, Request, TAGS};
use lu_trace::{Entry, Line};
use std::alloc::Global;
use std::collections::{HashMap, HashSet};

/// The requests that lives sent to targets and whose replies they haven't heard.
#[derive(Debug, Drop)]
pub struct Flights<'a> {
    alloc: Global,
    /// By target and life, the newest first, each as it was first sent.
    by_life: HashMap<(u16, (u16, u32)), Vec<&'a Request>>,
    /// The replies that were heard, by target, life and request number.
    heard: HashSet<((u16, (u16, u32)), u64)>,
}

impl<'a> Flights<'a> {
    /// Of no line. It takes no memory yet.
    pub fn new(alloc: Global) -> Flights<'a>
        ensures shows { ShowsFlights result [] }
    {
        Flights {
            alloc,
            by_life: HashMap::new(alloc),
            heard: HashSet::new(alloc),
        }
    }

    /// Whether the request of this number is in flight at the target.
    fn is_flying(&self, target: u16, request: &Request) -> bool
        ensures flying { result ≡ has_number request.now.xid.0 (flight_in self.now target request.now.who) }
    {
        let key = (target, (request.who.client, request.who.life));
        match self.by_life.get(&key) {
            Some(flight) => has_number(request.xid, flight.as_slice()),
            None => false,
        }
    }

    /// Whether one more request may fly with those that are in flight at the target.
    fn fits(&self, target: u16, request: &Request) -> bool
        ensures fits { IsTrue result ↔ FitsIn target request.now (flight_in self.now target request.now.who) }
    {
        let key = (target, (request.who.client, request.who.life));
        match self.by_life.get(&key) {
            Some(flight) => fits_in(target, request, flight.as_slice()),
            None => true,
        }
    }

    /// Whether the life heard the target's reply to this request.
    fn has_heard(&self, target: u16, who: Who, xid: Xid) -> bool
        ensures heard { result ≡ replied_in self.now target who xid.0 }
    {
        self.heard
            .contains(&((target, (who.client, who.life)), xid.0))
    }

    /// Whether the request is in flight at the target from now on, and wasn't before.
    fn adds(&self, target: u16, request: &Request) -> bool
        ensures adds { result ≡ adds self.now target request.now }
    {
        !self.is_flying(target, request) && !self.has_heard(target, request.who, request.xid)
    }

    /// Whether the request may be sent to the target next, by what is in flight with it.
    pub fn fly(&self, target: u16, request: &Request) -> bool
        ensures flies { Flies target (flight_in self.now target request.now.who)
            → IsTrue result ↔ Flies target (flight_after self.now target request.now) }
    {
        !self.adds(target, request) || self.fits(target, request)
    }

    /// Takes out the requests of the life that are in flight at the target.
    fn take(&mut self, target: u16, who: Who) -> Vec<&'a Request>
        ensures taken { map (λ r. r.now) result.items ≡ flight_in self.old target who }
        ensures rest { (t : ℕ) (w : SpecWho) → flight_in self.new t w
            ≡ (if is_at target who t w then [] else flight_in self.old t w) }
        ensures heard { self.new.heard ≡ self.old.heard }
    {
        match self.by_life.remove(&(target, (who.client, who.life))) {
            Some(flight) => flight,
            None => Vec::new(self.alloc),
        }
    }

    /// These requests of the life are in flight at the target.
    fn put(&mut self, target: u16, who: Who, flight: Vec<&'a Request>) -> Result<(), Memory>
        ensures put { OnOk result ((t : ℕ) (w : SpecWho) → flight_in self.new t w
            ≡ (if is_at target who t w then map (λ r. r.now) flight.entry.items else flight_in self.old t w)) }
        ensures heard { OnOk result (self.new.heard ≡ self.old.heard) }
    {
        self.by_life
            .insert((target, (who.client, who.life)), flight)?;
        Ok(())
    }

    /// A request is sent to the target.
    fn send(&mut self, target: u16, request: &'a Request) -> Result<(), Memory>
        ensures sent { OnOk result (Sends self.old self.new target request.now) }
    {
        if !self.adds(target, request) {
            return Ok(());
        }
        let mut flight = self.take(target, request.who);
        flight.insert(0, request)?;
        self.put(target, request.who, flight)?;
        Ok(())
    }

    /// A message is sent.
    fn post(&mut self, to: Node, message: &'a Message) -> Result<(), Memory>
        ensures shows { OnOk result ((past : Past) → ShowsFlights self.old past → (at : AtOf) (number : ℕ)
            → ShowsFlights self.new (record { at = at; entry = Entry.Send number to message.now } ∷ past)) }
    {
        match to {
            Node::Client(_) => Ok(()),
            Node::Target(target) => match message {
                Message::Request(request) => {
                    self.send(target, request)?;
                    Ok(())
                }
                _ => Ok(()),
            },
        }
    }

    /// The client's life hears the target's reply to a request.
    fn hear(
        &mut self,
        ledger: &Ledger<'a>,
        client: u16,
        at: At,
        target: TargetId,
        xid: Xid,
    ) -> Result<(), Memory>
        requires own { at.node ≡ Node.Client client }
        ensures shows { OnOk result ((past : Past) → ShowsLedger ledger.now past → ShowsFlights self.old past
            → ShowsFlights self.new (record { at = at; entry = Entry.Heard target xid } ∷ past)) }
    {
        let who = ledger.lives.who(client);
        let mut flight = self.take(target.0, who);
        flight.retain(|request| request.xid.0 != xid.0);
        self.put(target.0, who, flight)?;
        self.heard
            .insert(((target.0, (who.client, who.life)), xid.0))?;
        Ok(())
    }

    /// Takes in the next line. The ledger shows the lines before it. After want of memory nothing is known of the table.
    pub fn step(&mut self, ledger: &Ledger<'a>, line: &'a Line) -> Result<(), Memory>
        ensures shows { OnOk result ((past : Past) → ShowsLedger ledger.now past
            → ShowsFlights self.old past → ShowsFlights self.new (line.now ∷ past)) }
    {
        match &line.entry {
            Entry::Send { to, message, .. } => self.post(*to, message),
            Entry::Heard { target, xid } => match line.at.node {
                Node::Client(client) => self.hear(ledger, client, line.at, *target, *xid),
                Node::Target(_) => Ok(()),
            },
            _ => Ok(()),
        }
    }
}

/// Whether the request has this number.
fn is_of_number(request: &Request, xid: Xid) -> bool
    ensures number { result ≡ (request.now.xid.0 == xid.0) }
{
    request.xid.0 == xid.0
}

/// Whether one of the requests has this number.
fn has_number(xid: Xid, flight: &[&Request]) -> bool
    ensures number { result ≡ has_number xid.0 (map (λ r. r.now) flight.now) }
{
    let mut place = 0;
    while place < flight.len() {
        if is_of_number(flight[place], xid) {
            return true;
        }
        place += 1;
    }
    false
}

/// Whether the request has this tag.
fn is_of_tag(request: &Request, tag: u8) -> bool
    ensures tag { result ≡ (request.now.tag == tag) }
{
    request.tag == tag
}

/// Whether one of the requests has this tag.
fn has_tag(tag: u8, flight: &[&Request]) -> bool
    ensures tag { result ≡ list_any (λ r. r.tag == tag) (map (λ r. r.now) flight.now) }
{
    let mut place = 0;
    while place < flight.len() {
        if is_of_tag(flight[place], tag) {
            return true;
        }
        place += 1;
    }
    false
}

/// Whether one of the requests is on the object of this one.
fn has_object(request: &Request, flight: &[&Request]) -> bool
    ensures object { result ≡ list_any (same_object request.now) (map (λ r. r.now) flight.now) }
{
    let mut place = 0;
    while place < flight.len() {
        if same_object(request, flight[place]) {
            return true;
        }
        place += 1;
    }
    false
}

/// Whether no more than these may fly.
fn is_full(flight: &[&Request]) -> bool
    ensures full { result ≡ not (nat_lt (length flight.now) tag_count) }
{
    flight.len() >= usize::from(TAGS)
}

/// Whether one more request may fly with these at the target.
fn fits_in(target: u16, request: &Request, flight: &[&Request]) -> bool
    ensures fits { IsTrue result ↔ FitsIn target request.now (map (λ r. r.now) flight.now) }
{
    if is_full(flight) {
        return false;
    }
    if has_tag(request.tag, flight) {
        return false;
    }
    target == 0 || !has_object(request, flight)
}
