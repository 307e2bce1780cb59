//! The locks that a call on bytes asks for, stripe by stripe.

ghost use Rattle.std.specs.Prelude.{◌≡◌, ◌≤◌, ◌<◌, ◌^◌, [], ◌∷◌, length, IfOk};
ghost use Rattle.std.specs.Option.{option_to_list};
ghost use Rattle.lu_layout.specs.Sound.{IsLayout};
ghost use Rattle.lu_spec_client.specs.Patches.{to_end};
ghost use Rattle.lu_spec_client.specs.Starts.{work_on};
ghost use Rattle.lu_spec_client.specs.Stripes.{below_on};
ghost use Rattle.lu_spec_client.specs.Wants.{want, wants_piece, wants_on, wants_of};
ghost use Rattle.lu_call.specs.Ranges.{IsInRange, IsWork};
ghost use Rattle.lu_call.specs.Views.{kind_of, work_of};

use super::works::{Kind, Work};
use lu_base::{Extent, Fid, Memory, Mode, Policy, Resource, TargetId};
use lu_held::Use;
use lu_layout::Layout;
use std::alloc::Global;
use std::collections::VecDeque;

/// How many of a stripe's offsets stand for positions of the file below `n`, which is at most 2^44: they are those from
/// 0 on.
pub(crate) fn below(layout: &Layout, stripe: u16, n: u64) -> u64
    requires stripe { stripe < length layout.now.targets }
    requires n { n ≤ 2 ^ 44 }
    ensures value { result ≡ below_on layout.now stripe n }
    ensures within { result ≤ n }
{
    let _size = layout.size();
    layout.below(stripe, n)
}

/// The lock on these offsets of a stripe's object.
fn want(layout: &Layout, fid: Fid, mode: Mode, stripe: u16, extent: Extent) -> Use
    requires stripe { stripe < length layout.now.targets }
    ensures want { result ≡ want layout.now fid mode stripe extent }
{
    Use {
        target: TargetId(layout.target(stripe)),
        resource: Resource { fid, stripe },
        mode,
        policy: Policy::Range(extent),
    }
}

/// The lock on the offsets of a stripe's object that stand for these positions; none where no offset does.
fn want_span(
    layout: &Layout,
    fid: Fid,
    mode: Mode,
    stripe: u16,
    start: u64,
    end: u64,
) -> Option<Use>
    requires stripe { stripe < length layout.now.targets }
    requires start { start ≤ 2 ^ 44 }
    requires end { end ≤ 2 ^ 44 }
    ensures want { option_to_list result
        ≡ wants_piece layout.now fid mode stripe
        (below_on layout.now stripe start) (below_on layout.now stripe end) [] }
{
    let first = below(layout, stripe, start);
    let end = below(layout, stripe, end);
    if first < end {
        let last = end - 1;
        return Some(want(layout, fid, mode, stripe, Extent { first, last }));
    }
    None
}

/// The lock on a stripe's object from an offset to the end.
fn want_rest(layout: &Layout, fid: Fid, mode: Mode, stripe: u16, first: u64) -> Use
    requires stripe { stripe < length layout.now.targets }
    ensures want { result ≡ want layout.now fid mode stripe (to_end first) }
{
    let last = u64::MAX;
    want(layout, fid, mode, stripe, Extent { first, last })
}

/// The lock that a call wants on a stripe's object; none where it doesn't touch the stripe.
fn want_on(layout: &Layout, fid: Fid, kind: &Kind, stripe: u16) -> Option<Use>
    requires stripe { stripe < length layout.now.targets }
    requires range { IsInRange (kind_of kind.now) }
    ensures want { option_to_list result ≡ wants_on layout.now fid (kind_of kind.now) (stripe ∷ []) }
{
    match kind {
        Kind::Narrow { offset, count } => {
            want_span(layout, fid, Mode::PR, stripe, *offset, *offset + *count)
        }
        Kind::Wide { offset, .. } => {
            let first = below(layout, stripe, *offset);
            Some(want_rest(layout, fid, Mode::PR, stripe, first))
        }
        Kind::Writes { offset, bytes } => {
            let end = *offset + bytes.len() as u64;
            want_span(layout, fid, Mode::PW, stripe, *offset, end)
        }
        Kind::Cuts { size } => {
            let first = below(layout, stripe, *size).saturating_sub(1);
            Some(want_rest(layout, fid, Mode::PW, stripe, first))
        }
        Kind::Stats { .. } | Kind::Glimpses { .. } => {
            let first = below(layout, stripe, 0);
            Some(want_rest(layout, fid, Mode::PR, stripe, first))
        }
    }
}

/// The locks that a call wants, stripe by stripe in rising order.
pub(crate) fn wants_of(
    alloc: Global,
    layout: &Layout,
    fid: Fid,
    kind: &Kind,
) -> Result<VecDeque<Use>, Memory>
    requires range { IsInRange (kind_of kind.now) }
    ensures wants { IfOk result (λ wants. wants.items ≡ wants_of layout.now fid (kind_of kind.now)) }
    ensures sound { IsLayout layout.now }
{
    let mut wants = VecDeque::new(alloc);
    for stripe in 0..layout.count() {
        if let Some(wanted) = want_on(layout, fid, kind, stripe) {
            wants.push_back(wanted)?;
        }
    }
    Ok(wants)
}

impl Work {
    /// A call on bytes of a file that uses no locks yet, and wants all.
    pub(crate) fn new(alloc: Global, layout: Layout, fid: Fid, kind: Kind) -> Result<Work, Memory>
        requires range { IsInRange (kind_of kind) }
        ensures work { IfOk result (λ work. work_of work ≡ work_on fid layout (kind_of kind)) }
        ensures sound { IfOk result (λ work. IsWork (work_of work)) }
    {
        let left = wants_of(alloc, &layout, fid, &kind)?;
        Ok(Work {
            kind,
            fid,
            layout,
            used: Vec::new(alloc),
            left,
        })
    }
}
