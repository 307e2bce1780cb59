//! Pages of a file that are missing.

ghost use Rattle.std.specs.Prelude.{◌≡◌, ◌<◌, ◌≤◌, ◌+◌, ◌^◌, [], All, length, option_map, unwrap_or};
ghost use Rattle.std.specs.Option.{option_copied};
ghost use Rattle.lu_spec_client.specs.Patches.{clean};
ghost use Rattle.lu_spec_client.specs.Looks.{is_there, first_missing, end_under, missing_under, missing};
ghost use Rattle.lu_held.specs.Locks.{reaches_end};
ghost use Rattle.lu_client_store.specs.Pages.{page_of, missing_on};

use super::store::Store;
use lu_base::{Lock, Policy};
use lu_layout::Layout;
use lu_page::{PAGE, Places};
use lu_patch::Patch;
use lu_spec_entries::Using;
use std::cmp::min;

/// Whether a lock reaches the end of its object.
pub(crate) fn reaches_end(lock: &Lock) -> bool
    ensures { result ≡ reaches_end lock.now.ask.policy }
{
    match lock.ask.policy {
        Policy::Range(extent) => extent.last == u64::MAX,
        Policy::Bits(_) => false,
    }
}

/// Whether a byte of an object is there: known, or changed by the client.
fn is_there(known: Option<&Places<u8>>, patch: Option<&Patch>, at: u64) -> bool
    ensures { result ≡ is_there (unwrap_or (option_copied known.entry) [])
        (unwrap_or (option_copied patch.entry) clean).dirty at }
{
    if let Some(places) = known {
        if places.at(at).is_some() {
            return true;
        }
    }
    match patch {
        Some(patch) => patch.is_dirty(at),
        None => false,
    }
}

/// The first of so many offsets of an object whose byte isn't there.
fn first_missing(
    known: Option<&Places<u8>>,
    patch: Option<&Patch>,
    first: u64,
    count: u64,
) -> Option<u64>
    requires fits { first + count ≤ 2 ^ 63 }
    ensures missing { result
        ≡ first_missing (unwrap_or (option_copied known.entry) [])
        (unwrap_or (option_copied patch.entry) clean).dirty first count }
{
    for k in 0..count {
        if !is_there(known, patch, first + k) {
            return Some(first + k);
        }
    }
    None
}

impl Store {
    /// Where a search for missing bytes of a lock's object ends: at the object's size, where the lock reaches the end.
    fn end_under(&self, lock: &Lock, end: u64) -> u64
        ensures end { result ≡ end_under lock.now end self.now.store }
        ensures within { result ≤ end }
    {
        if reaches_end(lock) {
            return min(end, self.size_under(lock));
        }
        end
    }

    /// The first offset of a lock's object, of a range that ends before `end`, whose byte isn't there.
    fn missing_under(&self, lock: &Lock, first: u64, end: u64) -> Option<u64>
        requires fits { first ≤ 2 ^ 44 }
        requires end { end ≤ 2 ^ 44 }
        ensures missing { result ≡ missing_under lock.now first end self.now.store }
    {
        let end = self.end_under(lock, end);
        let known = self.bytes(lock.resource);
        let patch = self.patch(lock.resource);
        first_missing(known, patch, first, end.saturating_sub(first))
    }

    /// The same under a lock in use, for positions of the file.
    fn missing_on(&self, layout: &Layout, one: Using, position: u64, end: u64) -> Option<u64>
        requires position { position ≤ 2 ^ 44 }
        requires end { end ≤ 2 ^ 44 }
        requires stripe { one.want.resource.stripe < length layout.now.targets }
        ensures missing { result ≡ missing_on layout.now position end self.now.store one }
    {
        let _size = layout.size();
        let stripe = one.want.resource.stripe;
        let first = layout.below(stripe, position);
        let end = layout.below(stripe, end);
        self.missing_under(&one.lock, first, end)
    }

    /// The first page of a file with a byte that isn't there, of the positions from `position` on and before `end`, in the
    /// order of the locks in use, and the lock under which it is to be fetched. A byte is there where it is known or the
    /// client has written it. Where a lock reaches the end of its object nothing past the object's size is missing. Pages
    /// have 4,096 bytes and are counted from 0 in their object. Both positions are at most 2^44.
    pub fn missing(
        &self,
        layout: &Layout,
        position: u64,
        end: u64,
        used: &[Using],
    ) -> Option<(Using, u64)>
        requires position { position ≤ 2 ^ 44 }
        requires end { end ≤ 2 ^ 44 }
        requires stripes { All (λ u. u.want.resource.stripe < length layout.now.targets) used.now }
        ensures missing { option_map page_of result ≡ missing layout.now position end self.now.store used.now }
    {
        for one in used {
            if let Some(offset) = self.missing_on(layout, *one, position, end) {
                return Some((*one, offset / PAGE));
            }
        }
        None
    }
}
