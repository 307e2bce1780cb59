//! A call whose locks are all in use acts: reads, and sizes that are told.

ghost use Rattle.std.specs.Prelude.{◌≡◌, ◌≤◌, ◌-◌, min, ℕ, [], IfOk};
ghost use Rattle.lu_spec_entries.specs.Carried.{Stats};
ghost use Rattle.lu_spec_client.specs.Stripes.{stripes};
ghost use Rattle.lu_spec_client.specs.Looks.{content, file_size};
ghost use Rattle.lu_spec_client.specs.Advances.{acts, gets, reads_wide, reads_narrow, unpins, widens};
ghost use Rattle.lu_client_store.specs.Stored.{StoreState, stored_turn};
ghost use Rattle.lu_client_store.specs.Pages.{page_of};
ghost use Rattle.lu_call.specs.Going.{GoesBy};
ghost use Rattle.lu_call.specs.Ranges.{IsActing, IsSpan};
ghost use Rattle.lu_call.specs.Views.{work_of, kind_of};

use super::calls::{Asking, CallState, Stage};
use super::looking::unpin_all;
use super::nexts::Next;
use super::works::{Kind, Work};
use lu_base::{At, Bytes, Memory};
use lu_client_store::Store;
use lu_msg::{Answer, Op};
use lu_spec_entries::Using;
use std::cmp::min;

/// How many of the bytes from an offset on lie before the end of a file of this size.
fn until_end(offset: u64, count: u64, size: u64) -> u64
    ensures count { result ≡ min count (size - offset) }
    ensures within { result ≤ count }
{
    min(count, size.saturating_sub(offset))
}

impl CallState {
    /// Fetches a page of an object under the lock in use on it, and waits for it.
    fn fetch(&mut self, under: Using, page: u64, work: Work) -> Next
        requires acting { IsActing (work_of work) }
        ensures goes { (slot : ℕ) (s : StoreState)
            → GoesBy (gets slot (page_of (under, page)) self.old (work_of work)) slot self.new s s result }
    {
        self.asking = Asking::Asked;
        self.stage = Stage::Gets(work);
        Next::Asks(
            under.want.target,
            Op::Get {
                resource: under.want.resource,
                cookie: under.lock.cookie,
                page,
            },
        )
    }

    /// The bytes of a read, up to the file's size under the locks in use.
    fn bytes_to_end(
        &self,
        offset: u64,
        count: u64,
        work: &Work,
        store: &Store,
    ) -> Result<Bytes, Memory>
        requires span { IsSpan offset count }
        ensures bytes { IfOk result (λ bytes. bytes ≡ content work.now.layout work.now.fid store.now.store offset
            (min count (file_size work.now.layout (stripes work.now.layout) work.now.used.items store.now.store -
            offset))) }
    {
        let size = store.file_size(&work.layout, &work.used);
        let count = until_end(offset, count, size);
        store.content(self.alloc, &work.layout, work.fid, offset, count)
    }

    /// A read that asks to the end fetches the first page that is missing, or is told the bytes up to the file's size.
    fn read_wide(
        &mut self,
        at: At,
        offset: u64,
        count: u64,
        work: Work,
        store: &mut Store,
    ) -> Result<Next, Memory>
        requires span { IsSpan offset count }
        requires acting { IsActing (work_of work) }
        ensures goes { IfOk result (λ out. (slot : ℕ)
            → GoesBy (reads_wide at slot offset count self.old (work_of work) store.old.store)
            slot self.new store.old store.new out) }
    {
        if let Some((under, page)) = store.missing(
            &work.layout,
            offset,
            offset + count,
            &work.used,
        ) {
            return Ok(self.fetch(under, page, work));
        }
        let bytes = self.bytes_to_end(offset, count, &work, store)?;
        Ok(self.tell(at, Answer::Content(bytes), store))
    }

    /// Unpins its locks, in the order in which they were pinned: it has pinned none then.
    fn unpin_locks(&mut self, store: &mut Store)
        ensures call { self.new ≡ record self.old { pins = [] } }
        ensures store { store.new ≡ stored_turn store.old (unpins self.old.pins) }
    {
        unpin_all(&self.pins, store);
        self.pins.clear();
    }

    /// A narrow read that hasn't reached its last byte unpins its locks and asks to the end.
    fn widen(
        &mut self,
        at: At,
        offset: u64,
        count: u64,
        work: Work,
        store: &mut Store,
    ) -> Result<Next, Memory>
        requires span { IsSpan offset count }
        ensures goes { IfOk result (λ out. (slot : ℕ)
            → GoesBy (widens at slot offset count self.old (work_of work) store.old.store)
            slot self.new store.old store.new out) }
    {
        self.unpin_locks(store);
        let kind = Kind::Wide { offset, count };
        let mut work = Work::new(self.alloc, work.layout, work.fid, kind)?;
        match self.look(&mut work, store)? {
            Some(wanted) => Ok(self.ask_lock(wanted, work)),
            None => self.read_wide(at, offset, count, work, store),
        }
    }

    /// A narrow read fetches the first page that is missing, is told its bytes where it has reached the last of them, or
    /// else asks to the end.
    fn read_narrow(
        &mut self,
        at: At,
        offset: u64,
        count: u64,
        work: Work,
        store: &mut Store,
    ) -> Result<Next, Memory>
        requires span { IsSpan offset count }
        requires acting { IsActing (work_of work) }
        ensures goes { IfOk result (λ out. (slot : ℕ)
            → GoesBy (reads_narrow at slot offset count self.old (work_of work) store.old.store)
            slot self.new store.old store.new out) }
    {
        let end = offset + count;
        if let Some((under, page)) = store.missing(&work.layout, offset, end, &work.used) {
            return Ok(self.fetch(under, page, work));
        }
        let reached = store.has_reached(self.alloc, &work.layout, end - 1, &work.used)?;
        if reached {
            let bytes = store.content(self.alloc, &work.layout, work.fid, offset, count)?;
            return Ok(self.tell(at, Answer::Content(bytes), store));
        }
        self.widen(at, offset, count, work, store)
    }

    /// A stat is told the file's size under the locks in use, beside its mode and its number of names.
    fn stat(&mut self, at: At, mode: u16, links: u64, work: &Work, store: &mut Store) -> Next
        ensures goes { (slot : ℕ)
            → GoesBy (acts at slot (Stats mode links) self.old (work_of work.now) store.old.store)
            slot self.new store.old store.new result }
    {
        let size = store.file_size(&work.layout, &work.used);
        let answer = Answer::FileSize {
            fid: work.fid,
            mode,
            links,
            size,
        };
        self.tell(at, answer, store)
    }

    /// A call whose locks are all in use acts. A read may have a page to fetch first, or to ask for more locks; else the
    /// call is told, and unpins its locks. A glimpse acts otherwise. After want of memory nothing is promised.
    pub(crate) fn act(&mut self, at: At, work: Work, store: &mut Store) -> Result<Next, Memory>
        requires acting { IsActing (work_of work) }
        ensures goes { IfOk result (λ out. (slot : ℕ)
            → GoesBy (acts at slot (kind_of work.kind) self.old (work_of work) store.old.store)
            slot self.new store.old store.new out) }
    {
        match &work.kind {
            Kind::Narrow { offset, count } => self.read_narrow(at, *offset, *count, work, store),
            Kind::Wide { offset, count } => self.read_wide(at, *offset, *count, work, store),
            Kind::Writes { offset, bytes } => self.write(at, *offset, bytes, &work, store),
            Kind::Cuts { size } => self.cut(at, *size, &work, store),
            Kind::Stats { mode, links } => Ok(self.stat(at, *mode, *links, &work, store)),
            Kind::Glimpses { .. } => unreachable!(),
        }
    }
}
