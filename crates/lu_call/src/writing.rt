//! A call whose locks are all in use acts: writes and cuts.

ghost use Rattle.std.specs.Prelude.{◌≤◌, ◌^◌, ℕ, All, length, IfOk};
ghost use Rattle.lu_spec_entries.specs.Carried.{Writes, Cuts};
ghost use Rattle.lu_spec_client.specs.Advances.{acts};
ghost use Rattle.lu_call.specs.Going.{GoesBy};
ghost use Rattle.lu_call.specs.Ranges.{IsSpan, IsUsing};
ghost use Rattle.lu_call.specs.Views.{work_of};

use super::calls::CallState;
use super::nexts::Next;
use super::works::Work;
use lu_base::{At, Bytes, Memory};
use lu_client_store::Store;
use lu_msg::Answer;

impl CallState {
    /// Writes the bytes on each stripe whose lock is in use, and is told that it is done.
    pub(crate) fn write(
        &mut self,
        at: At,
        offset: u64,
        bytes: &Bytes,
        work: &Work,
        store: &mut Store,
    ) -> Result<Next, Memory>
        requires span { IsSpan offset (length bytes.now) }
        requires used { All (IsUsing work.now.fid work.now.layout) work.now.used.items }
        ensures goes { IfOk result (λ out. (slot : ℕ)
            → GoesBy (acts at slot (Writes offset bytes.now) self.old (work_of work.now) store.old.store)
            slot self.new store.old store.new out) }
    {
        store.write_all(
            self.alloc,
            &work.layout,
            offset,
            bytes.as_slice(),
            &work.used,
        )?;
        Ok(self.tell(at, Answer::Done, store))
    }

    /// Cuts each stripe, so that the file ends at this size, and is told that it is done.
    pub(crate) fn cut(
        &mut self,
        at: At,
        size: u64,
        work: &Work,
        store: &mut Store,
    ) -> Result<Next, Memory>
        requires size { size ≤ 2 ^ 40 }
        requires used { All (IsUsing work.now.fid work.now.layout) work.now.used.items }
        ensures goes { IfOk result (λ out. (slot : ℕ)
            → GoesBy (acts at slot (Cuts size) self.old (work_of work.now) store.old.store)
            slot self.new store.old store.new out) }
    {
        store.cut_all(&work.layout, size, &work.used)?;
        Ok(self.tell(at, Answer::Done, store))
    }
}
