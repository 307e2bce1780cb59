//! The writes that are done, by the pages that they touch.

ghost use Rattle.std.specs.Prelude.{◌≡◌, ℕ, ◌<◌, ◌/◌, ◌==◌, ◌&&◌, ◌++◌, [], ◌∷◌, nat_le, if◌then◌else◌, OnOk};
ghost use Rattle.std.specs.List.{list_any};
ghost use Rattle.lu_base.specs.declared.ids.Fid.{Fid as SpecFid};
ghost use Rattle.lu_base.specs.declared.ids.Who.{Who as SpecWho};
ghost use Rattle.lu_spec_laws.specs.Words.Pieces.{wrote};
ghost use Rattle.lu_judge_calls.specs.Marks.{Mark, mark_of, marks_of, same_file, has_mark, adds_write, IsWithin};
ghost use Rattle.lu_judge_calls.specs.PieceTables.{page_in};

use super::kept::{Kept, wrote};
use lu_base::{Fid, Memory, Sequence, Who};
use lu_msg::Call;
use std::alloc::Global;
use std::collections::HashMap;

/// The size of a page, in bytes.
const PAGE: u64 = 4096;

/// The writes of each life that touch a page of a file, in the order in which they were done.
#[derive(Debug, Drop)]
pub(crate) struct Writes<'a> {
    alloc: Global,
    /// By the life, the file and the page.
    by_page: HashMap<(((u16, u32), u64), u64), Sequence<Kept<'a>>>,
}

impl<'a> Writes<'a> {
    /// None. It takes no memory yet.
    pub(crate) fn new(alloc: Global) -> Writes<'a>
        ensures none { (who : SpecWho) (fid : SpecFid) (page : ℕ) → page_in result who fid page ≡ [] }
    {
        Writes {
            alloc,
            by_page: HashMap::new(alloc),
        }
    }

    /// Adds a write to those that touch the page.
    fn add_to(&mut self, who: Who, fid: Fid, page: u64, kept: Kept<'a>) -> Result<(), Memory>
        ensures added { OnOk result ((w : SpecWho) (f : SpecFid) (p : ℕ) → page_in self.new w f p
            ≡ (if same_file who fid w f && page == p then page_in self.old w f p
            ++ mark_of kept.entry ∷ [] else page_in self.old w f p)) }
    {
        self.by_page
            .entry((((who.client, who.life), fid.0), page))?
            .or_insert(Sequence::new(self.alloc))
            .push(kept)
    }

    /// Adds a write to the pages from the first to the last.
    fn add_pages(
        &mut self,
        who: Who,
        fid: Fid,
        first: u64,
        last: u64,
        kept: Kept<'a>,
    ) -> Result<(), Memory>
        requires last { last < u64.MAX }
        ensures added { OnOk result ((w : SpecWho) (f : SpecFid) (p : ℕ) → page_in self.new w f p
            ≡ (if same_file who fid w f && (nat_le first p && nat_le p last) then page_in self.old w f p
            ++ mark_of kept.entry ∷ [] else page_in self.old w f p)) }
    {
        let mut page = first;
        while page <= last {
            self.add_to(who, fid, page, kept)?;
            page += 1;
        }
        Ok(())
    }

    /// Adds a call of the life on the file, where it is a write.
    pub(crate) fn add(
        &mut self,
        who: Who,
        fid: Fid,
        mark: u64,
        call: &'a Call,
    ) -> Result<(), Memory>
        requires within { IsWithin call.now }
        ensures added { OnOk result ((w : SpecWho) (f : SpecFid) (p : ℕ) → page_in self.new w f p
            ≡ (if same_file who fid w f then adds_write p (mark, call.now) (page_in self.old w f p)
            else page_in self.old w f p)) }
    {
        match call {
            Call::Write { offset, bytes, .. } => {
                let first = *offset / PAGE;
                let last = (*offset + bytes.len() as u64) / PAGE;
                self.add_pages(who, fid, first, last, Kept { mark, call })
            }
            _ => Ok(()),
        }
    }

    /// Whether the life wrote this byte at this position of the file by a write with a mark below the limit.
    pub(crate) fn wrote(&self, who: Who, fid: Fid, limit: u64, position: u64, byte: u8) -> bool
        ensures { result ≡ list_any (has_mark limit (wrote position byte))
            (page_in self.now who fid (position / 4096)) }
    {
        let key = (((who.client, who.life), fid.0), position / PAGE);
        match self.by_page.get(&key) {
            Some(writes) => any_wrote(writes.as_slice(), limit, position, byte),
            None => false,
        }
    }
}

/// Whether one of these writes, with a mark below the limit, wrote this byte at this position: the newest ones are asked
/// first.
fn any_wrote(writes: &[Kept<'_>], limit: u64, position: u64, byte: u8) -> bool
    ensures { result ≡ list_any (has_mark limit (wrote position byte)) (marks_of writes.now) }
{
    let mut left = writes.len();
    while left > 0 {
        left -= 1;
        let kept = writes[left];
        if kept.mark < limit && wrote(kept.call, position, byte) {
            return true;
        }
    }
    false
}
