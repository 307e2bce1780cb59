//! Where what a request carries comes from.

ghost use Rattle.std.specs.Prelude.{◌≡◌, ℕ, ◌+◌, ◌<◌, ◌≤◌, ◌^◌, [], if◌then◌else◌, length, OnOk};
ghost use Rattle.lu_base.specs.declared.ids.Fid.{Fid as SpecFid};
ghost use Rattle.lu_base.specs.declared.ids.Who.{Who as SpecWho};
ghost use Rattle.lu_judge_calls.specs.Marks.{same_file, adds_write, adds_cut, IsWithin};
ghost use Rattle.lu_judge_calls.specs.PieceTables.{page_in, cuts_in, has_source, have_sources, has_cut};

use super::cuts::Cuts;
use super::writes::Writes;
use lu_base::{Fid, Memory, Who};
use lu_layout::Layout;
use lu_msg::Call;
use std::alloc::Global;

/// A request of a life at the object of a stripe of a file.
#[derive(Clone, Copy, Debug)]
pub struct Carrier<'l> {
    pub who: Who,
    pub fid: Fid,
    /// The layout that the life heard.
    pub layout: &'l Layout,
    /// The stripe, below the layout's count.
    pub stripe: u16,
    /// What was done before this mark counts.
    pub limit: u64,
}

/// What lives wrote and cut, each with a mark: how many messages had been sent when it was told.
#[derive(Debug, Drop)]
pub struct Done<'a> {
    writes: Writes<'a>,
    cuts: Cuts<'a>,
}

impl<'a> Done<'a> {
    /// Nothing. It takes no memory yet.
    pub fn new(alloc: Global) -> Done<'a>
        ensures writes { (who : SpecWho) (fid : SpecFid) (page : ℕ) → page_in result.writes who fid page ≡ [] }
        ensures cuts { (who : SpecWho) (fid : SpecFid) → cuts_in result.cuts who fid ≡ [] }
    {
        Done {
            writes: Writes::new(alloc),
            cuts: Cuts::new(alloc),
        }
    }

    /// The life is told that its call on the file is done. After want of memory nothing is known.
    pub fn add(&mut self, who: Who, fid: Fid, mark: u64, call: &'a Call) -> Result<(), Memory>
        requires within { IsWithin call.now }
        ensures writes { OnOk result ((w : SpecWho) (f : SpecFid) (p : ℕ) → page_in self.new.writes w f p
            ≡ (if same_file who fid w f then adds_write p (mark, call.now) (page_in self.old.writes w f p)
            else page_in self.old.writes w f p)) }
        ensures cuts { OnOk result ((w : SpecWho) (f : SpecFid) → cuts_in self.new.cuts w f
            ≡ (if same_file who fid w f then adds_cut (mark, call.now) (cuts_in self.old.cuts w f)
            else cuts_in self.old.cuts w f)) }
    {
        self.writes.add(who, fid, mark, call)?;
        self.cuts.add(who, fid, mark, call)
    }

    /// Whether the life cut the file so that so many of its positions lie on the stripe.
    pub fn has_cut(&self, of: &Carrier<'_>, below: u64) -> bool
        requires { of.now.stripe < length of.now.layout.now.targets }
        ensures { result ≡ has_cut self.now of.now below }
    {
        self.cuts
            .cut(of.who, of.fid, of.limit, of.layout, of.stripe, below)
    }

    /// Whether the byte at the offset of the object, below 2^40, was written there, or is the 0 at the end of a stripe that
    /// was cut.
    fn has_source(&self, of: &Carrier<'_>, offset: u64, byte: u8) -> bool
        requires stripe { of.now.stripe < length of.now.layout.now.targets }
        requires offset { offset < 2 ^ 40 }
        ensures { result ≡ has_source self.now of.now offset byte }
    {
        let position = of.layout.position(of.stripe, offset);
        if self.writes.wrote(of.who, of.fid, of.limit, position, byte) {
            return true;
        }
        byte == 0 && self.has_cut(of, offset + 1)
    }

    /// Whether each of these bytes, from the offset on, was written there or is such a 0.
    pub fn have_sources(&self, of: &Carrier<'_>, offset: u64, bytes: &[u8]) -> bool
        requires stripe { of.now.stripe < length of.now.layout.now.targets }
        requires fits { offset + length bytes.now ≤ 2 ^ 40 }
        ensures { result ≡ have_sources self.now of.now offset bytes.now }
    {
        let mut count = 0;
        while count < bytes.len() {
            if !self.has_source(of, offset + count as u64, bytes[count]) {
                return false;
            }
            count += 1;
        }
        true
    }
}
