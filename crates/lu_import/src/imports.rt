//! A client's side of one target (Lustre Operations Manual, recovery: the import).

ghost use Rattle.std.specs.Prelude.{◌≡◌, ℕ, ◌+◌, ◌^◌, ◌<◌, ◌≤◌, Bool, false, if◌then◌else◌, List, [], ◌∷◌, ◌++◌, length, map, slice_get, IfOk, OnOk, OnErr, IfSome, IfNone, IsSomeAnd, is_some};
ghost use Rattle.std.specs.Option.{option_copied};
ghost use Rattle.lu_msg.specs.Limits.{tag_count};
ghost use Rattle.lu_import.specs.InFlights.{request_of};
ghost use Rattle.lu_import.specs.Kept.{noted};
ghost use Rattle.lu_import.specs.Imports.{fresh, is_serving, first_standing, MustWait, Sends, hears, heard, sent_again, up, reconnecting, ready, resumes, reborn, IsSound};

use super::kept::Kept;
use super::recovery::{Standing, Teller};
use super::requests::{InFlight, Waiting, free_tag, front_waits, request_of};
use lu_base::{Duplicate, Lock, Memory, Node, Numbers, TargetId, Txn, Who, Xid};
use lu_msg::{Message, Op, Post, Reply, Request, Sends};
use std::alloc::Global;
use std::collections::VecDeque;
use std::marker::Model;

/// How a client's life stands at first: the first life is served from the start, a later one must join.
fn first_standing(who: Who) -> Standing
    ensures { result ≡ first_standing who }
{
    if who.life == 1 {
        Standing::Serving
    } else {
        Standing::Joining
    }
}

/// What one life of a client asks of one target: operations that wait in a queue, and requests in
/// flight, each with a number of its own and a tag that no other has. It keeps what the life has to tell when
/// the target recovers: the replies whose transactions aren't committed, and the numbers that it has seen.
#[derive(Debug, Drop)]
pub struct Import {
    alloc: Global,
    target: TargetId,
    who: Who,
    boot: u32,
    flight: u8,
    standing: Standing,
    /// The number of the newest request; 0 where there was none.
    last: u64,
    queue: VecDeque<Waiting>,
    /// In rising number.
    in_flight: Vec<InFlight>,
    kept: Kept,
}

impl Model for Import {
    ghost use Rattle.lu_import.specs.Imports.{ImportState, IsSound};

    ghost Value = { ImportState };

    ghost view = { λ i. record {
      target = i.target;
      who = i.who;
      boot = i.boot;
      flight = i.flight;
      standing = i.standing;
      last = i.last;
      queue = i.queue.items;
      in_flight = i.in_flight.items;
      kept = i.kept;
    } };

    ghost invariant = { λ i. IsSound (record {
      target = i.target;
      who = i.who;
      boot = i.boot;
      flight = i.flight;
      standing = i.standing;
      last = i.last;
      queue = i.queue.items;
      in_flight = i.in_flight.items;
      kept = i.kept;
    }) };
}

impl Import {
    /// An import of this life at this target, whose boot, from 1, the client knows. At most `flight`
    /// requests, 1 to 8, are in flight at a time. The first life of a client, 1, is served from the
    /// start; a later one must join first. It takes no memory yet.
    pub fn new(alloc: Global, target: TargetId, who: Who, boot: u32, flight: u8) -> Import
        requires least { 0 < flight }
        requires most { flight ≤ tag_count }
        ensures fresh { result ≡ fresh target who boot flight }
        ensures sound { IsSound result }
    {
        Import {
            alloc,
            target,
            who,
            boot,
            flight,
            standing: first_standing(who),
            last: 0,
            queue: VecDeque::new(alloc),
            in_flight: Vec::new(alloc),
            kept: Kept::new(alloc),
        }
    }

    /// Adds an operation at the end of the queue, for the call on this slot, 0 to 3, or as a write-back for
    /// none. After want of memory nothing has changed.
    pub fn queue(&mut self, slot: Option<u8>, op: Op) -> Result<(), Memory>
        ensures added { OnOk result (self.new
            ≡ record self.old { queue = self.old.queue ++ record { slot = slot; op = op } ∷ [] }) }
        ensures kept { OnErr result (self.new ≡ self.old) }
        ensures sound { IsSound self.new }
    {
        self.queue.push_back(Waiting { slot, op })?;
        Ok(())
    }

    /// Sends the front of the queue: the request with the next number and the least tag that no request
    /// in flight has. None where the target doesn't serve the life, `flight` requests are in flight,
    /// nothing waits, or, at an object storage target, a request on the front's object is in flight;
    /// then, and after want of memory, nothing has changed.
    pub fn next(&mut self) -> Result<Option<Message>, Memory>
        requires { self.old.last + 1 < 2 ^ 64 }
        ensures sent { IfOk result (λ sent. IfSome sent (Sends self.old self.new)) }
        ensures none { IfOk result (λ sent. IfNone sent (MustWait self.old)) }
        ensures waits { IfOk result (λ sent. IfNone sent (self.new ≡ self.old)) }
        ensures kept { OnErr result (self.new ≡ self.old) }
        ensures counted { IfOk result (λ sent. self.new.last
            ≡ (if is_some sent then self.old.last + 1 else self.old.last)) }
        ensures sound { IsSound self.new }
    {
        if !self.serving() || self.in_flight.len() >= self.flight as usize {
            return Ok(None);
        }
        let Some(front) = self.queue.front() else {
            return Ok(None);
        };
        if front_waits(self.target, &self.in_flight, &front.op) {
            return Ok(None);
        }
        let xid = Xid(self.last + 1);
        let tag = free_tag(&self.in_flight);
        let slot = front.slot;
        let op = front.op.copy(self.alloc)?;
        self.in_flight.push(InFlight { xid, tag, op, slot })?;
        self.last = xid.0;
        let Some(Waiting { op, .. }) = self.queue.pop_front() else {
            unreachable!();
        };
        Ok(Some(Message::Request(Request {
            who: self.who,
            boot: self.boot,
            xid,
            tag,
            op,
        })))
    }

    /// Takes a reply. True where it is to a request in flight, of this life and boot: the request isn't
    /// in flight any more, and what the reply taught is kept, which is the committed number, the numbers
    /// that were seen, and the request for its replay where the reply names a transaction. Else, and after
    /// want of memory, nothing has changed.
    pub fn hear(&mut self, reply: &Reply) -> Result<bool, Memory>
        ensures heard { IfOk result (λ heard. heard ≡ hears self.old reply.now) }
        ensures once { IfOk result (λ _. hears self.new reply.now ≡ false) }
        ensures ended { IfOk result (λ ended. self.new ≡ (if ended then heard self.old reply.now else self.old)) }
        ensures kept { OnErr result (self.new ≡ self.old) }
        ensures sound { IsSound self.new }
    {
        if reply.who != self.who || reply.boot != self.boot {
            return Ok(false);
        }
        let Some(request) = request_of(&self.in_flight, reply.xid) else {
            return Ok(false);
        };
        self.kept.hear(request, reply)?;
        self.in_flight.retain(|request| request.xid != reply.xid);
        Ok(true)
    }

    /// Takes a committed number and numbers that the life has seen, as a granted lock tells them. After want
    /// of memory nothing has changed.
    pub fn note(&mut self, committed: Txn, seen: &Numbers) -> Result<(), Memory>
        ensures noted { OnOk result (self.new
            ≡ record self.old { kept = noted committed.0 seen.now self.old.kept }) }
        ensures kept { OnErr result (self.new ≡ self.old) }
        ensures sound { IsSound self.new }
    {
        self.kept.note(committed, seen)
    }

    /// The requests in flight as they are sent again, in rising number, each with its number and tag.
    pub fn again(&self) -> Result<Sends, Memory>
        ensures sends { IfOk result (λ sends. sends ≡ map (sent_again self.now) self.now.in_flight) }
        ensures sound { IsSound self.now }
    {
        let mut sends = Sends::new(self.alloc);
        for request in &self.in_flight {
            sends.push(Post {
                to: Node::Target(self.target.0),
                message: Message::Request(Request {
                    who: self.who,
                    boot: self.boot,
                    xid: request.xid,
                    tag: request.tag,
                    op: request.op.copy(self.alloc)?,
                }),
            })?;
        }
        Ok(sends)
    }

    /// The target is up in this boot, from 1: it answers what the life has to tell. Where the boot is above
    /// the known one the client knows it then, and the target doesn't serve the life until it says so. A life
    /// that is joining asks to join. Another tells its replays in rising number, these locks as given, which is
    /// in rising cookie, and a word with both counts and the numbers that it has seen. With the known boot the
    /// same is told once more, and nothing where the target serves the life. A lower boot says nothing. After
    /// want of memory, which also comes where a count is above 2^32 - 1, nothing has changed.
    pub fn reconnect(&mut self, boot: u32, locks: &[Lock]) -> Result<Sends, Memory>
        ensures sends { IfOk result (λ sends. sends ≡ reconnecting boot locks.now self.old) }
        ensures up { OnOk result (self.new ≡ up boot self.old) }
        ensures kept { OnErr result (self.new ≡ self.old) }
        ensures sound { IsSound self.new }
    {
        if boot < self.boot {
            return Ok(Sends::new(self.alloc));
        }
        let mut standing = self.standing;
        if boot > self.boot {
            standing = standing.interrupted();
        }
        let teller = Teller {
            target: self.target,
            who: self.who,
            boot,
        };
        let sends = teller.tell(self.alloc, standing, &self.kept, locks)?;
        self.boot = boot;
        self.standing = standing;
        Ok(sends)
    }

    /// The target serves the life in its known boot, and all up to a number is committed: it answers the
    /// requests in flight as they are sent again, in rising number, each with its number and tag. A ready that
    /// comes again does the same. One of another boot says nothing. After want of memory nothing has changed.
    pub fn ready(&mut self, boot: u32, committed: Txn) -> Result<Sends, Memory>
        ensures sends { IfOk result (λ sends. sends ≡ resumes boot self.old) }
        ensures ready { OnOk result (self.new ≡ ready boot committed.0 self.old) }
        ensures kept { OnErr result (self.new ≡ self.old) }
        ensures sound { IsSound self.new }
    {
        if boot != self.boot {
            return Ok(Sends::new(self.alloc));
        }
        let sends = self.again()?;
        self.kept.settle(committed);
        self.standing = Standing::Serving;
        Ok(sends)
    }

    /// A new life of the client begins. It has asked nothing, has seen nothing, and must join before the
    /// target serves it; what the client was told of the target's disk stays true.
    pub fn begin_life(&mut self, who: Who)
        ensures reborn { self.new ≡ reborn who self.old }
        ensures sound { IsSound self.new }
    {
        self.who = who;
        self.standing = Standing::Joining;
        self.last = 0;
        self.queue.clear();
        self.in_flight.clear();
        self.kept.forget();
    }

    /// The requests in flight in rising number, from place 0 on; none past the last.
    pub fn in_flight(&self, at: usize) -> Option<(Xid, &Op)>
        ensures request { IfSome result (λ found. IsSomeAnd (slice_get self.now.in_flight at)
            (λ request. (found.0 ≡ request.xid) × (found.1.now ≡ request.op))) }
        ensures none { IfNone result (length self.now.in_flight ≤ at) }
        ensures sound { IsSound self.now }
    {
        let request = self.in_flight.get(at)?;
        Some((request.xid, &request.op))
    }

    /// The request in flight of this number; none where there is none.
    pub fn find(&self, xid: Xid) -> Option<&InFlight>
        ensures request { option_copied result ≡ request_of xid.0 self.now.in_flight }
    {
        request_of(&self.in_flight, xid)
    }

    /// How the life stands at the target.
    pub fn standing(&self) -> Standing
        ensures same { result ≡ self.now.standing }
    {
        self.standing
    }

    /// Whether the target serves this life.
    pub fn serving(&self) -> bool
        ensures same { result ≡ is_serving self.now.standing }
    {
        self.standing == Standing::Serving
    }

    /// The target's boot that the client knows, from 1.
    pub fn boot(&self) -> u32
        ensures same { result ≡ self.now.boot }
    {
        self.boot
    }
}
