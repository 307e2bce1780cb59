//! The cuts that are done.

ghost use Rattle.std.specs.Prelude.{◌≡◌, ◌<◌, ◌++◌, [], ◌∷◌, if◌then◌else◌, length, OnOk};
ghost use Rattle.std.specs.List.{list_any};
ghost use Rattle.lu_base.specs.declared.ids.Fid.{Fid as SpecFid};
ghost use Rattle.lu_base.specs.declared.ids.Who.{Who as SpecWho};
ghost use Rattle.lu_judge_calls.specs.Marks.{mark_of, marks_of, same_file, has_mark, adds_cut, cuts_within};
ghost use Rattle.lu_judge_calls.specs.PieceTables.{cuts_in};

use super::kept::Kept;
use lu_base::{Fid, MOST_POSITION, Memory, Sequence, Who};
use lu_layout::Layout;
use lu_msg::Call;
use std::alloc::Global;
use std::collections::HashMap;

/// Whether the call cuts its file, to at most 2^40 bytes, so that so many positions below the size lie on the stripe.
fn cuts_to(call: &Call, layout: &Layout, stripe: u16, below: u64) -> bool
    requires { stripe < length layout.now.targets }
    ensures { result ≡ cuts_within layout.now stripe below call.now }
{
    match call {
        Call::Cut { size, .. } => *size <= MOST_POSITION && layout.below(stripe, *size) == below,
        _ => false,
    }
}

/// The cuts of each life to a file, in the order in which they were done.
#[derive(Debug, Drop)]
pub(crate) struct Cuts<'a> {
    alloc: Global,
    /// By the life and the file.
    by_file: HashMap<((u16, u32), u64), Sequence<Kept<'a>>>,
}

impl<'a> Cuts<'a> {
    /// None. It takes no memory yet.
    pub(crate) fn new(alloc: Global) -> Cuts<'a>
        ensures none { (who : SpecWho) (fid : SpecFid) → cuts_in result who fid ≡ [] }
    {
        Cuts {
            alloc,
            by_file: HashMap::new(alloc),
        }
    }

    /// Adds a cut to those of the life to the file.
    fn add_to(&mut self, who: Who, fid: Fid, kept: Kept<'a>) -> Result<(), Memory>
        ensures added { OnOk result ((w : SpecWho) (f : SpecFid) → cuts_in self.new w f
            ≡ (if same_file who fid w f then cuts_in self.old w f
            ++ mark_of kept.entry ∷ [] else cuts_in self.old w f)) }
    {
        self.by_file
            .entry(((who.client, who.life), fid.0))?
            .or_insert(Sequence::new(self.alloc))
            .push(kept)
    }

    /// Adds a call of the life on the file, where it is a cut.
    pub(crate) fn add(
        &mut self,
        who: Who,
        fid: Fid,
        mark: u64,
        call: &'a Call,
    ) -> Result<(), Memory>
        ensures added { OnOk result ((w : SpecWho) (f : SpecFid) → cuts_in self.new w f
            ≡ (if same_file who fid w f then adds_cut (mark, call.now) (cuts_in self.old w f)
            else cuts_in self.old w f)) }
    {
        match call {
            Call::Cut { .. } => self.add_to(who, fid, Kept { mark, call }),
            _ => Ok(()),
        }
    }

    /// Whether the life cut the file, by a cut with a mark below the limit, so that so many positions below its size lie on
    /// the stripe.
    pub(crate) fn cut(
        &self,
        who: Who,
        fid: Fid,
        limit: u64,
        layout: &Layout,
        stripe: u16,
        below: u64,
    ) -> bool
        requires { stripe < length layout.now.targets }
        ensures { result ≡ list_any (has_mark limit (cuts_within layout.now stripe below)) (cuts_in self.now who fid) }
    {
        match self.by_file.get(&((who.client, who.life), fid.0)) {
            Some(cuts) => any_cut(cuts.as_slice(), limit, layout, stripe, below),
            None => false,
        }
    }
}

/// Whether one of these cuts, with a mark below the limit, leaves so many positions on the stripe: the newest ones are
/// asked first.
fn any_cut(cuts: &[Kept<'_>], limit: u64, layout: &Layout, stripe: u16, below: u64) -> bool
    requires { stripe < length layout.now.targets }
    ensures { result ≡ list_any (has_mark limit (cuts_within layout.now stripe below)) (marks_of cuts.now) }
{
    let mut left = cuts.len();
    while left > 0 {
        left -= 1;
        let kept = cuts[left];
        if kept.mark < limit && cuts_to(kept.call, layout, stripe, below) {
            return true;
        }
    }
    false
}
