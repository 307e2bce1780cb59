//! A client's changes of one object: a pending cut, and dirty bytes over it (this project's profile; the dirty pages of
//! Wang et al., Understanding Lustre Filesystem Internals, byte by byte).

ghost use Rattle.std.specs.Prelude.{◌≡◌, ◌≤◌, ◌<◌, ◌+◌, ◌^◌, ◌↔◌, ℕ, false, nat_lt, length, slice_index, OnOk, OnErr, IfOk, Option, None, Some, is_some};
ghost use Rattle.lu_spec_machine.specs.Places.{found_at, below};
ghost use Rattle.lu_spec_client.specs.Patches.{clean, written, ended, cut, size_over, reads_at, in_flight, acked, holds_extent, cut_extent, cut_within, next_flush, has_change, taken, dirty_in, bytes_of, flown, other_cut};
ghost use Rattle.lu_spec_entries.specs.declared.changes.Flush.TheVariants.{Put};
ghost use Rattle.lu_patch.specs.Sound.{IsSound};

use super::dirty::DirtyBytes;
use super::flight::{Flight, bytes_of, fresh, sent};
use lu_base::{Extent, Memory};
use lu_spec_entries::{Dirty, Flush};
use std::alloc::Global;
use std::marker::Model;

/// Changes over an object: a pending cut, dirty bytes, and what of them is under way. Offsets and sizes are in bytes,
/// from 0.
#[derive(Drop)]
pub struct Patch {
    alloc: Global,
    /// The size that the object is to be cut to before the bytes are put.
    pending: Option<u64>,
    dirty: DirtyBytes,
    flight: Option<Flight>,
}

impl Model for Patch {
    ghost use Rattle.lu_spec_client.specs.Patches.{Patch as Shown};
    ghost use Rattle.lu_patch.specs.Flights.{flight_of, IsKept};

    ghost Value = { Shown };

    ghost view = { λ p. record { pending = p.pending; dirty = p.dirty; flight = flight_of p.flight } };

    ghost invariant = { λ p. IsKept p.flight p.dirty };
}

/// Whether a range holds what a cut to a size changes: the offset before it, and all from there on.
fn holds_cut(within: Extent, size: u64) -> bool
    ensures { result ≡ holds_extent within (cut_extent size) }
{
    within.first <= size.saturating_sub(1) && within.last == u64::MAX
}

impl Patch {
    /// No change. It takes no memory yet.
    pub fn new(alloc: Global) -> Patch
        ensures clean { result ≡ clean }
    {
        Patch {
            alloc,
            pending: None,
            dirty: DirtyBytes::new(alloc),
            flight: None,
        }
    }

    /// Writes bytes from an offset on. After want of memory nothing has changed.
    pub fn write(&mut self, at: u64, from: &[u8]) -> Result<(), Memory>
        requires fits { at + length from.now ≤ 2 ^ 40 }
        ensures written { OnOk result (self.new ≡ written at from.now self.old) }
        ensures kept { OnErr result (self.new ≡ self.old) }
        ensures sound { IsSound self.new }
    {
        let run = fresh(self.alloc, from)?;
        self.dirty.lay(at, &run)
    }

    /// Makes the object end at a size. A lesser cut that is pending stays, and the object is made longer again by
    /// its last byte. After want of memory nothing has changed.
    pub fn cut(&mut self, n: u64) -> Result<(), Memory>
        requires fits { n ≤ 2 ^ 40 }
        ensures cut { OnOk result (self.new ≡ cut n self.old) }
        ensures kept { OnErr result (self.new ≡ self.old) }
        ensures sound { IsSound self.new }
    {
        self.pend(n)?;
        self.dirty.keep_below(n);
        Ok(())
    }

    /// Makes the pending cut that a cut leaves. Bytes past the size still stand.
    fn pend(&mut self, n: u64) -> Result<(), Memory>
        requires fits { n ≤ 2 ^ 40 }
        ensures cut { OnOk result (record self.new { dirty = below n self.new.dirty } ≡ cut n self.old) }
        ensures kept { OnErr result (self.new ≡ self.old) }
        ensures sound { IsSound self.new }
    {
        match self.pending {
            Some(pending) if pending < n => self.end_at(n),
            _ => {
                self.pending = Some(n);
                Ok(())
            }
        }
    }

    /// Puts 0 before an end where the patch has no byte.
    fn end_at(&mut self, n: u64) -> Result<(), Memory>
        requires fits { n ≤ 2 ^ 40 }
        ensures ended { OnOk result (self.new ≡ ended n self.old) }
        ensures kept { OnErr result (self.new ≡ self.old) }
        ensures sound { IsSound self.new }
    {
        if n == 0 || self.dirty.at(n - 1).is_some() {
            return Ok(());
        }
        self.write(n - 1, &[0])
    }

    /// Whether a write-back is under way.
    pub fn in_flight(&self) -> bool
        ensures flies { result ≡ in_flight self.now }
        ensures sound { IsSound self.now }
    {
        self.flight.is_some()
    }

    /// The size of the object once it has the changes, where it had this one at the server.
    pub fn size_over(&self, server: u64) -> u64
        ensures size { result ≡ size_over server self.now }
    {
        let base = match self.pending {
            Some(pending) => pending,
            None => server,
        };
        base.max(self.dirty.end())
    }

    /// Whether a byte is dirty.
    pub fn is_dirty(&self, at: u64) -> bool
        ensures dirty { result ≡ is_some (found_at self.now.dirty at) }
    {
        self.dirty.at(at).is_some()
    }

    /// How many bytes of a range are dirty, those in flight among them.
    pub fn dirty(&self, within: Extent) -> u64
        requires range { within.first ≤ within.last }
        ensures count { result ≡ dirty_in within self.now }
    {
        self.dirty.count_in(within)
    }

    /// Whether a byte of a range is dirty, in flight or not.
    pub fn is_dirty_in(&self, within: Extent) -> bool
        ensures dirty { result ≡ nat_lt 0 (dirty_in within self.now) }
    {
        self.dirty.is_any_in(within)
    }

    /// How many bytes are dirty, those in flight among them. It answers at once.
    pub fn count(&self) -> u64
        ensures count { result ≡ length self.now.dirty }
    {
        self.dirty.count()
    }

    /// A byte as it is read, over what is known of the object there; None where it isn't known.
    pub fn byte(&self, at: u64, known: Option<u8>) -> Option<u8>
        ensures reads { result ≡ reads_at self.now at known }
    {
        if let Some(dirty) = self.dirty.at(at) {
            return Some(dirty.byte);
        }
        match self.pending {
            Some(pending) if pending <= at => Some(0),
            _ => known,
        }
    }

    /// A byte as it is read, over the object's.
    fn byte_over(&self, at: u64, known: u8) -> u8
        ensures reads { Some result ≡ reads_at self.now at (Some known) }
    {
        if let Some(dirty) = self.dirty.at(at) {
            return dirty.byte;
        }
        match self.pending {
            Some(pending) if pending <= at => 0,
            _ => known,
        }
    }

    /// Puts the changes over bytes that are known of the object, from an offset on: the dirty bytes, and 0 from the
    /// pending cut on where none is dirty. It leaves the others.
    pub fn over(&self, at: u64, into: &mut [u8])
        requires fits { at + length into.old ≤ 2 ^ 40 }
        ensures count { length into.new ≡ length into.old }
        ensures reads { (k : ℕ) → k < length into.old →
            Some (slice_index into.new k) ≡ reads_at self.now (at + k) (Some (slice_index into.old k)) }
    {
        for k in 0..into.len() {
            into[k] = self.byte_over(at + k as u64, into[k]);
        }
    }

    /// The pending cut, where the range holds what it changes.
    fn cut_within(&self, within: Extent) -> Option<u64>
        ensures cut { result ≡ cut_within within self.now.pending }
    {
        match self.pending {
            Some(pending) if holds_cut(within, pending) => Some(pending),
            _ => None,
        }
    }

    /// The next write-back of changes in a range: the pending cut, or else the dirty run of least offset, which ends
    /// with its page and with the range. None where there is no change in the range. It is under way then; none is
    /// before. After want of memory nothing has changed.
    pub fn take_flush(&mut self, within: Extent) -> Result<Option<Flush>, Memory>
        requires range { within.first ≤ within.last }
        requires rests { in_flight self.old ≡ false }
        ensures flush { IfOk result (λ flush. flush ≡ next_flush within self.old) }
        ensures none { IfOk result (λ flush. flush ≡ None ↔ has_change within self.old ≡ false) }
        ensures taken { IfOk result (λ flush. self.new ≡ taken flush self.old) }
        ensures kept { OnErr result (self.new ≡ self.old) }
        ensures sound { IsSound self.new }
    {
        if let Some(size) = self.cut_within(within) {
            self.flight = Some(Flight::Cut(size));
            return Ok(Some(Flush::Cut(size)));
        }
        let Some((at, run)) = self.dirty.first_run(self.alloc, within)? else {
            return Ok(None);
        };
        Ok(Some(self.send(at, &run)?))
    }

    /// Marks a run of dirty bytes as sent.
    fn send(&mut self, at: u64, run: &[Dirty]) -> Result<Flush, Memory>
        requires fits { at + length run.now ≤ 2 ^ 62 }
        requires rests { in_flight self.old ≡ false }
        ensures put { IfOk result (λ flush. flush ≡ Put at (bytes_of run.now)) }
        ensures flown { OnOk result (self.new ≡ flown (Put at (bytes_of run.now)) self.old) }
        ensures kept { OnErr result (self.new ≡ self.old) }
        ensures sound { IsSound self.new }
    {
        let bytes = bytes_of(self.alloc, run)?;
        let sent = sent(self.alloc, run)?;
        self.dirty.lay(at, &sent)?;
        self.flight = Some(Flight::Bytes {
            first: at,
            end: at + run.len() as u64,
        });
        Ok(Flush::Put(at, bytes))
    }

    /// Takes away what was in flight and wasn't touched since. Of a pending cut that is: no cut to another size took
    /// its place.
    pub fn ack_flush(&mut self)
        ensures acked { self.new ≡ acked self.old }
        ensures sound { IsSound self.new }
    {
        match self.flight.take() {
            Some(Flight::Cut(n)) => self.ack_cut(n),
            Some(Flight::Bytes { first, end }) => self.dirty.land(first, end),
            None => {}
        }
    }

    /// Takes the pending cut away, if it is to this size.
    fn ack_cut(&mut self, n: u64)
        ensures acked { self.new ≡ record self.old { pending = other_cut n self.old.pending } }
    {
        if self.pending == Some(n) {
            self.pending = None;
        }
    }

    /// Gives up all changes, those in flight too.
    pub fn drop_all(&mut self)
        ensures clean { self.new ≡ clean }
    {
        self.pending = None;
        self.dirty = DirtyBytes::new(self.alloc);
        self.flight = None;
    }
}
