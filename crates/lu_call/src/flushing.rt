//! A flush: the changes of a file's objects are written back, stripe by stripe.

ghost use Rattle.std.specs.Prelude.{◌≡◌, ℕ, false, drop, IfOk};
ghost use Rattle.lu_base.specs.declared.ids.At.{At as AtOf};
ghost use Rattle.lu_spec_entries.specs.Carried.{Running};
ghost use Rattle.lu_spec_client.specs.Caches.{patch_at};
ghost use Rattle.lu_spec_client.specs.Patches.{in_flight};
ghost use Rattle.lu_spec_client.specs.Stripes.{stripes, object};
ghost use Rattle.lu_spec_client.specs.WriteBack.{flush_from};
ghost use Rattle.lu_call.specs.Flushed.{is_written, flush_object, flush_stripe, flush_at};
ghost use Rattle.lu_call.specs.Going.{GoesBy};
ghost use Rattle.lu_call.specs.Views.{file_of};

use super::calls::{CallState, Stage};
use super::nexts::Next;
use super::works::HandleFile;
use lu_base::{At, Memory, Resource};
use lu_client_store::Store;
use lu_msg::Answer;

/// The object of a stripe of a file.
fn object(file: &HandleFile, stripe: u16) -> Resource
    ensures object { result ≡ object file.now.fid stripe }
{
    Resource {
        fid: file.fid,
        stripe,
    }
}

/// Whether nothing of an object is to be written back, or on its way.
fn is_written(store: &Store, resource: Resource) -> bool
    ensures written { result ≡ is_written (patch_at resource store.now.store.patches) }
{
    if store.in_flight(resource) {
        return false;
    }
    store.is_clean(resource)
}

/// The first stripe of a file, from this one on, whose object isn't written back; none where all are.
fn first_to_write(file: &HandleFile, from: u16, store: &Store) -> Option<u16>
    ensures first { (at : AtOf) (slot : ℕ) (r : Running)
        → flush_from at slot r (file_of file.now) (drop from (stripes file.now.layout)) store.now.store
        ≡ flush_at at slot r (file_of file.now) result store.now.store }
{
    for stripe in from..file.layout.count() {
        if !is_written(store, object(file, stripe)) {
            return Some(stripe);
        }
    }
    None
}

impl CallState {
    /// Writes the next change of a stripe's object back, under the first held lock by target and cookie that has one, and
    /// waits. After want of memory nothing is promised.
    fn flush_object(
        &mut self,
        file: &HandleFile,
        stripe: u16,
        store: &mut Store,
    ) -> Result<Next, Memory>
        requires rests { in_flight (patch_at (object file.now.fid stripe) store.old.store.patches) ≡ false }
        ensures goes { IfOk result (λ out. (slot : ℕ)
            → GoesBy (flush_object slot self.old (file_of file.now) stripe store.old.store)
            slot self.new store.old store.new out) }
    {
        let locks = store.in_order(self.alloc)?;
        self.stage = Stage::Flushing(stripe);
        match store.take_first_flush(object(file, stripe), &locks)? {
            Some(back) => Ok(Next::WritesBack(back.target, back.operation())),
            None => Ok(Next::Waits),
        }
    }

    /// The flush stands at this stripe: where none of its object's changes is on its way the next is written back.
    fn flush_stripe(
        &mut self,
        file: &HandleFile,
        stripe: u16,
        store: &mut Store,
    ) -> Result<Next, Memory>
        ensures goes { IfOk result (λ out. (slot : ℕ)
            → GoesBy (flush_stripe slot self.old (file_of file.now) stripe store.old.store)
            slot self.new store.old store.new out) }
    {
        if store.in_flight(object(file, stripe)) {
            self.stage = Stage::Flushing(stripe);
            return Ok(Next::Waits);
        }
        self.flush_object(file, stripe, store)
    }

    /// A flush goes on from this stripe: at the first whose object isn't written back it waits, and writes the next change
    /// back where none is on its way; where all are it is told. After want of memory nothing is promised.
    pub(crate) fn flush_from(
        &mut self,
        at: At,
        file: HandleFile,
        stripe: u16,
        store: &mut Store,
    ) -> Result<Next, Memory>
        ensures goes { IfOk result (λ out. (slot : ℕ)
            → GoesBy (flush_from at slot self.old (file_of file) (drop stripe (stripes file.layout)) store.old.store)
            slot self.new store.old store.new out) }
    {
        match first_to_write(&file, stripe, store) {
            Some(first) => self.flush_stripe(&file, first, store),
            None => Ok(self.tell(at, Answer::Done, store)),
        }
    }
}
