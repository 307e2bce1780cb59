//! A finite map from position to item.

ghost use Rattle.std.specs.Prelude.{not, ◌&&◌, nat_lt, if◌then◌else◌, ◌<◌, ◌≡◌, ◌≤◌, ◌+◌, ◌^◌, [], length, OnOk, OnErr, IfOk, IfSome, filter, option_map};
ghost use Rattle.lu_spec_machine.specs.Places.{is_in, found_at, below, laid, inside, end_of};
ghost use Rattle.lu_spec_bytes.specs.Runs.{first_position, first_run, found_run};
ghost use Rattle.lu_spec_bytes.specs.Changes.{outside, unmarked, zeroed};

use crate::edits::{DropMarked, Remove, Zero};
use crate::{PAGE, Page, looks, pages, place_reads};
use lu_base::{Extent, Memory};
use lu_spec_bytes::Marked;
use std::alloc::Global;
use std::collections::BTreeMap;
use std::marker::Model;

/// Items at positions. A contract sees the list of pairs of position and item, in rising position.
///
/// They are kept in pages of 4,096 positions, each only where something stands.
#[derive(Drop)]
pub struct Places<T> {
    alloc: Global,
    pages: BTreeMap<u64, Page<T>>,
}

impl<T> Model for Places<T> {
    ghost use Rattle.std.specs.Prelude.{ℕ, List};
    ghost use Rattle.lu_page.specs.Pages.{joined, PagesFrom};

    ghost Value = { List (ℕ × T) };

    ghost view = { λ m. joined m.pages.entries };

    ghost invariant = { λ m. PagesFrom 0 m.pages.entries };
}

impl<T> Places<T> {
    /// Nothing stands anywhere. It takes no memory yet.
    pub fn new(alloc: Global) -> Places<T>
        ensures empty { result ≡ [] }
    {
        Places {
            alloc,
            pages: BTreeMap::new(alloc),
        }
    }

    /// What stands at a position.
    pub fn at(&self, position: u64) -> Option<T>
    where
        T: Copy,
        ensures found { result ≡ found_at self.now position }
    {
        pages::find(&self.pages, position)
    }

    /// Puts items at positions, from this one on. After want of memory all is as before.
    pub fn lay(&mut self, at: u64, items: &[T]) -> Result<(), Memory>
    where
        T: Copy + Drop,
        requires fits { at + length items.now ≤ 2 ^ 62 }
        ensures laid { OnOk result (self.new ≡ laid at items.now self.old) }
        ensures kept { OnErr result (self.new ≡ self.old) }
    {
        let _ = &self.pages;
        let count = items.len();
        if count == 0 {
            return Ok(());
        }
        let last = at + (count as u64 - 1);
        pages::make_pages(self.alloc, &mut self.pages, at / PAGE, last / PAGE)?;
        pages::put_all(&mut self.pages, at, items);
        Ok(())
    }

    /// Takes away what stands in a range.
    pub fn remove(&mut self, extent: Extent)
    where
        T: Copy + Drop,
        ensures outside { self.new ≡ outside extent self.old }
    {
        pages::edit(&mut self.pages, extent, &Remove { extent });
    }

    /// Keeps what stands below a position.
    pub fn keep_below(&mut self, n: u64)
    where
        T: Copy + Drop,
        ensures below { self.new ≡ below n self.old }
    {
        let _ = &self.pages;
        let extent = Extent {
            first: n,
            last: u64::MAX,
        };
        pages::edit(&mut self.pages, extent, &Remove { extent });
    }

    /// Takes away the items that are marked.
    pub fn drop_marked(&mut self)
    where
        T: Marked + Drop,
        ensures unmarked { self.new ≡ unmarked T.marked self.old }
    {
        let _ = &self.pages;
        let extent = Extent {
            first: 0,
            last: u64::MAX,
        };
        pages::edit(&mut self.pages, extent, &DropMarked { extent });
    }

    /// Takes away the items of a range that are marked. It looks at the range's pages alone.
    pub fn drop_marked_in(&mut self, extent: Extent)
    where
        T: Marked + Drop,
        ensures unmarked { self.new ≡ filter (λ e. not (is_in extent e.0 && T.marked e.1)) self.old }
    {
        pages::edit(&mut self.pages, extent, &DropMarked { extent });
    }

    /// One past the last position where something stands, or 0.
    pub fn end(&self) -> u64
    where
        T: Copy,
        ensures end { result ≡ end_of self.now }
    {
        looks::end(&self.pages)
    }

    /// In how many positions of a range something stands.
    pub fn count(&self, extent: Extent) -> u64
    where
        T: Copy,
        requires range { extent.first ≤ extent.last }
        ensures count { result ≡ length (inside extent self.now) }
    {
        looks::count(&self.pages, extent)
    }

    /// One past the last position in a range where something stands, or 0.
    pub fn end_in(&self, extent: Extent) -> u64
    where
        T: Copy,
        requires range { extent.first ≤ extent.last }
        ensures end { result ≡ end_of (inside extent self.now) }
    {
        looks::end_in(&self.pages, extent)
    }

    /// The least position in a range where something stands.
    pub fn first_in(&self, extent: Extent) -> Option<u64>
    where
        T: Copy,
        ensures first { result ≡ first_position (inside extent self.now) }
        ensures fits { IfSome result (λ position. position < 2 ^ 62) }
    {
        let _ = &self.pages;
        looks::first_in(&self.pages, extent)
    }

    /// What stands at so many positions from this one on, with or without an item each.
    pub fn read(&self, alloc: Global, at: u64, count: u64) -> Result<Vec<Option<T>>, Memory>
    where
        T: Copy + Drop,
        requires fits { at + count ≤ 2 ^ 63 }
        ensures found { IfOk result (λ found. found.items ≡ found_run count self.now at) }
    {
        let _ = &self.pages;
        place_reads::read(&self.pages, alloc, at, count)
    }

    /// The unbroken run of least position in a range, up to the end of its page.
    pub fn first_run(&self, alloc: Global, extent: Extent) -> Result<Option<(u64, Vec<T>)>, Memory>
    where
        T: Copy + Drop,
        ensures run { IfOk result (λ run. option_map (λ r. (r.0, r.1.items)) run ≡ first_run (inside extent self.now)) }
        ensures fits { IfOk result (λ run. IfSome run (λ r. r.0 + length r.1.items ≤ 2 ^ 62)) }
    {
        let _ = &self.pages;
        let Some(position) = self.first_in(extent) else {
            return Ok(None);
        };
        let run = place_reads::run(&self.pages, alloc, extent, position)?;
        Ok(Some((position, run)))
    }
}

impl Places<u8> {
    /// Makes the bytes from a position on 0.
    pub fn zero_from(&mut self, n: u64)
        ensures zeroed { self.new ≡ zeroed n self.old }
    {
        let _ = &self.pages;
        let extent = Extent {
            first: n,
            last: u64::MAX,
        };
        pages::edit(&mut self.pages, extent, &Zero { from: n });
    }
}
