//! What the answer to a request makes of the client.

ghost use Rattle.std.specs.Prelude.{◌≡◌, ℕ, ◌+◌, ◌<◌, ◌≤◌, ◌^◌, true, [], ◌∷◌, drop, length, IfOk, OnOk};
ghost use Rattle.lu_spec_machine.specs.Fits.{answer_fits};
ghost use Rattle.lu_spec_machine.specs.Places.{end_of};
ghost use Rattle.lu_trace.specs.Turns.{Making};
ghost use Rattle.lu_spec_entries.specs.Carried.{Flight};
ghost use Rattle.lu_spec_entries.specs.Words.{Fills};
ghost use Rattle.lu_call.specs.Turning.{call_turn};
ghost use Rattle.lu_spec_client.specs.Caches.{brought, bytes_at};
ghost use Rattle.lu_spec_client.specs.Messages.{enqueue_heard, fills, heeds, looks_again, on_running, on_slot, padded, part_count, part_first, shows};
ghost use Rattle.lu_client.specs.Answers.{cut_heard, get_heard, page_came, put_heard};
ghost use Rattle.lu_client.specs.Clients.{Makes};
ghost use Rattle.lu_client.specs.Comings.{is_in_file};

use super::client::Client;
use lu_base::{Bytes, Duplicate, Extent, Lock, Memory, Policy, Resource, TargetId, Who};
use lu_call::CallState;
use lu_held::LockName;
use lu_msg::{Answer, Op, Reply};
use lu_page::{PAGE, Places};
use lu_spec_entries::Flush;
use std::alloc::Global;

/// A call, if any, hears of the lock that it asked for.
fn lock_heard(call: &mut Option<CallState>, who: Who, answer: &Answer, locks: &[Lock])
    ensures heard { (slot : ℕ) → call_turn slot call.old
        (on_running (enqueue_heard who answer.now locks.now) slot call.old) ≡ call.new }
{
    if let Some(call) = call {
        call.lock_heard(who, answer, locks);
    }
}

/// A call, if any, that fetched a page looks again for what is missing.
fn looks_again(call: &mut Option<CallState>)
    ensures looks { (slot : ℕ) → call_turn slot call.old (on_running looks_again slot call.old) ≡ call.new }
{
    if let Some(call) = call {
        call.looks_again();
    }
}

/// So many bytes: those of a slice, and then 0.
#[tactic(auto, using(crate::proofs::Pages::padded_next))]
fn padded(alloc: Global, bytes: &[u8], count: u64) -> Result<Bytes, Memory>
    ensures padded { IfOk result (λ made. made ≡ padded bytes.now count) }
{
    let mut made = Bytes::new(alloc);
    for place in 0..count as usize {
        made.push(bytes.get(place).copied().unwrap_or(0))?;
    }
    Ok(made)
}

/// What follows so many bytes; none where there are fewer.
fn rest_of(bytes: &[u8], skipped: u64) -> &[u8]
    ensures rest { result.now ≡ drop skipped bytes.now }
{
    &bytes[(skipped as usize).min(bytes.len())..]
}

/// The first offset of a page that lies in a range, and how many do.
fn part_of(page: u64, extent: Extent) -> (u64, u64)
    requires page { page < 2 ^ 28 }
    ensures first { result.0 ≡ part_first page extent }
    ensures count { result.1 ≡ part_count page extent }
{
    let start = page * PAGE;
    let first = extent.first.max(start);
    let end = extent.last.min(start + (PAGE - 1)) + 1;
    (first, end.saturating_sub(first))
}

/// One past the last of some bytes, or 0. None stands at 2^62 or after it.
fn end_of(bytes: &Places<u8>) -> u64
    ensures end { result ≡ end_of bytes.now }
    ensures fits { result ≤ 2 ^ 62 }
{
    let far = Extent {
        first: 1 << 62,
        last: u64::MAX,
    };
    let _none = bytes.first_in(far);
    bytes.end()
}

impl Client {
    /// What the answer to a request of a slot, or of none, makes of the client; with these locks the reply came.
    /// After want of memory the client is of no use.
    pub(crate) fn heed_answer(
        &mut self,
        target: TargetId,
        slot: Option<u8>,
        op: &Op,
        reply: &Reply,
        locks: &[Lock],
    ) -> Result<(), Memory>
        requires target { target.0 < length self.old.client.imports }
        requires file { is_in_file op.now ≡ true }
        requires brought { locks.now ≡ brought op.now reply.now }
        requires fits { answer_fits op.now reply.now.answer ≡ true }
        ensures makes { OnOk result ((turn : Making) (f : Flight) → f.slot ≡ slot → f.op ≡ op.now
            → Makes (heeds target.0 f op.now reply.now reply.now.answer) self.old self.new turn turn) }
    {
        match op {
            Op::Enqueue { .. } => {
                self.heed_lock(slot, &reply.answer, locks);
                Ok(())
            }
            Op::Get {
                resource,
                cookie,
                page,
            } => {
                let name = LockName {
                    target,
                    cookie: *cookie,
                };
                self.heed_get(slot, *resource, name, *page, &reply.answer)
            }
            Op::Put {
                resource,
                offset,
                bytes,
                ..
            } => self.heed_put(*resource, *offset, bytes, &reply.answer),
            Op::Cut { resource, size, .. } => {
                self.heed_cut(*resource, *size, &reply.answer);
                Ok(())
            }
            _ => Ok(()),
        }
    }

    // ---- the call that a request served

    /// The call on a slot, if any, hears of the lock that it asked for: it came with the answer, or waits.
    fn heed_lock(&mut self, slot: Option<u8>, answer: &Answer, locks: &[Lock])
        ensures makes { (turn : Making) → Makes (λ k. on_slot (enqueue_heard k.who answer.now locks.now) slot k)
            self.old self.new turn turn }
    {
        let Some(slot) = slot else {
            return;
        };
        let who = self.who;
        let Some(call) = self.calls.get_mut(slot as usize) else {
            return;
        };
        lock_heard(call, who, answer, locks);
    }

    /// The call on a slot, if any, that fetched a page looks again for what is missing.
    fn look_for_page(&mut self, slot: Option<u8>)
        ensures makes { (turn : Making) → Makes (on_slot looks_again slot) self.old self.new turn turn }
    {
        let Some(slot) = slot else {
            return;
        };
        let Some(call) = self.calls.get_mut(slot as usize) else {
            return;
        };
        looks_again(call);
    }

    // ---- a page

    /// The answer to a get of a page, under the lock of this name: with bytes, these are known, and the call that
    /// fetched them looks again. After want of memory the client is of no use.
    fn heed_get(
        &mut self,
        slot: Option<u8>,
        resource: Resource,
        name: LockName,
        page: u64,
        answer: &Answer,
    ) -> Result<(), Memory>
        requires page { page < 2 ^ 28 }
        ensures makes { OnOk result ((turn : Making) → Makes (get_heard slot resource name page answer.now)
            self.old self.new turn turn) }
    {
        let Answer::Content(content) = answer else {
            return Ok(());
        };
        self.take_page(resource, name, page, content.as_slice())?;
        self.look_for_page(slot);
        Ok(())
    }

    /// The content of a page is known as far as the lock of this name covers the page, and its last byte was shown
    /// under that lock. Where no such lock on a range is held nothing is. After want of memory the client is of no use.
    fn take_page(
        &mut self,
        resource: Resource,
        name: LockName,
        page: u64,
        content: &[u8],
    ) -> Result<(), Memory>
        requires page { page < 2 ^ 28 }
        ensures makes { OnOk result ((turn : Making) → Makes (page_came resource name page content.now)
            self.old self.new turn turn) }
    {
        let Some(held) = self.store.held(name) else {
            return Ok(());
        };
        let Policy::Range(extent) = held.lock.ask.policy else {
            return Ok(());
        };
        let lock = Lock {
            cookie: name.cookie,
            resource,
            ask: held.lock.ask,
        };
        self.show_page(&lock, page, content)?;
        self.fill_page(resource, page, content, extent)
    }

    /// The last byte of a page's content, if any, was shown under a lock. After want of memory nothing has changed.
    fn show_page(&mut self, lock: &Lock, page: u64, content: &[u8]) -> Result<(), Memory>
        requires page { page < 2 ^ 28 }
        ensures makes { OnOk result ((turn : Making)
            → Makes (λ k. shows lock.now.resource lock.now.cookie page content.now) self.old self.new turn turn) }
    {
        let count = content.len() as u64;
        if count == 0 {
            return Ok(());
        }
        self.store.show(lock, page * PAGE + (count - 1))
    }

    /// The part of a page that lies in a range is known: the content of the page, and 0 past it. After want of memory
    /// nothing has changed.
    fn fill_page(
        &mut self,
        resource: Resource,
        page: u64,
        content: &[u8],
        extent: Extent,
    ) -> Result<(), Memory>
        requires page { page < 2 ^ 28 }
        ensures makes { OnOk result ((turn : Making) → Makes (λ k. fills resource page content.now extent ∷ [])
            self.old self.new turn turn) }
    {
        let (first, count) = part_of(page, extent);
        let rest = rest_of(content, first - page * PAGE);
        let part = padded(self.alloc, rest, count)?;
        self.fill_bytes(resource, first, part.as_slice())
    }

    /// Bytes of an object, if any, are known from an offset on; without bytes the offset may be any. After want of
    /// memory nothing has changed.
    fn fill_bytes(&mut self, resource: Resource, at: u64, bytes: &[u8]) -> Result<(), Memory>
        requires fits { 0 < length bytes.now → at + length bytes.now ≤ 2 ^ 62 }
        ensures makes { OnOk result ((turn : Making) → Makes (λ k. Fills resource at bytes.now ∷ [])
            self.old self.new turn turn) }
    {
        if bytes.is_empty() {
            let end = self.known_end(resource);
            return self.store.fill(resource, at.min(end), bytes);
        }
        self.store.fill(resource, at, bytes)
    }

    /// One past the last byte that is known of an object, or 0.
    fn known_end(&self, resource: Resource) -> u64
        ensures end { result ≡ end_of (bytes_at resource self.now.client.store.bytes) }
        ensures fits { result ≤ 2 ^ 62 }
    {
        match self.store.bytes(resource) {
            Some(known) => end_of(known),
            None => 0,
        }
    }

    // ---- write-backs

    /// The answer to a put of bytes: where it is done they are known, and written back. After want of memory the client
    /// is of no use.
    fn heed_put(
        &mut self,
        resource: Resource,
        offset: u64,
        bytes: &Bytes,
        answer: &Answer,
    ) -> Result<(), Memory>
        requires fits { offset + length bytes.now ≤ 2 ^ 40 }
        ensures makes { OnOk result ((turn : Making) → Makes (λ k. put_heard resource offset bytes.now answer.now)
            self.old self.new turn turn) }
    {
        let Answer::Done = answer else {
            return Ok(());
        };
        let written = Flush::Put(offset, bytes.copy(self.alloc)?);
        self.store.ack(resource);
        self.store.fill(resource, offset, bytes.as_slice())?;
        self.store.grow(resource, &written);
        Ok(())
    }

    /// The answer to a cut: where it is done the object is known to end there, and the cut is written back.
    fn heed_cut(&mut self, resource: Resource, size: u64, answer: &Answer)
        requires fits { size ≤ 2 ^ 40 }
        ensures makes { (turn : Making) → Makes (λ k. cut_heard resource size answer.now) self.old self.new turn turn }
    {
        let Answer::Done = answer else {
            return;
        };
        self.store.ack(resource);
        self.store.zero(resource, size);
        self.store.grow(resource, &Flush::Cut(size));
    }
}
