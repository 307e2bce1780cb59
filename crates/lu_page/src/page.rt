//! A page of positions.

ghost use Rattle.std.specs.Prelude.{◌≡◌, ◌≤◌, ◌+◌, ◌^◌, [], length, IfOk};
ghost use Rattle.lu_spec_machine.specs.Places.{found_at, laid};
ghost use Rattle.lu_page.specs.Edits.{edited, edit_slot};
ghost use Rattle.lu_page.specs.Sheets.{IsSheet};

use crate::edit::Edit;
use lu_base::Memory;
use std::alloc::Global;
use std::marker::Model;

/// How many positions a page has.
pub const PAGE: u64 = 4096;

/// What stands at 4,096 positions. A contract sees the first position, and the list of pairs of position and item.
#[derive(Drop)]
pub struct Page<T> {
    first: u64,
    slots: Vec<Option<T>>,
}

impl<T> Model for Page<T> {
    ghost use Rattle.std.specs.Prelude.{length, ◌≡◌, ◌≤◌, ◌^◌};
    ghost use Rattle.lu_page.specs.Sheets.{Sheet, shown};

    ghost Value = { Sheet T };

    ghost view = { λ p. record { first = p.first; here = shown p.first p.slots.items } };

    ghost invariant = { λ p. (length p.slots.items ≡ 4096) × (p.first ≤ 2 ^ 62) };
}

impl<T> Page<T> {
    /// A page from this position on, in which nothing stands.
    pub fn new(alloc: Global, first: u64) -> Result<Page<T>, Memory>
    where
        T: Copy + Drop,
        requires first { first ≤ 2 ^ 62 }
        ensures empty { IfOk result (λ page. page ≡ record { first = first; here = [] }) }
    {
        let mut slots = Vec::new(alloc);
        slots.resize(PAGE as usize, None)?;
        Ok(Page { first, slots })
    }

    /// The position from which it starts. Whatever stands in the page stands in the 4,096 from there on.
    pub fn first(&self) -> u64
        ensures first { result ≡ self.now.first }
        ensures sheet { IsSheet self.now }
        ensures bound { self.now.first ≤ 2 ^ 62 }
    {
        self.first
    }

    /// What stands at a position.
    pub fn at(&self, position: u64) -> Option<T>
    where
        T: Copy,
        ensures found { result ≡ found_at self.now.here position }
    {
        if position < self.first {
            return None;
        }
        if PAGE <= position - self.first {
            return None;
        }
        self.slots[(position - self.first) as usize]
    }

    /// Puts items at positions of the page, from this one on.
    pub fn lay(&mut self, at: u64, items: &[T])
    where
        T: Copy + Drop,
        requires low { self.old.first ≤ at }
        requires high { at + length items.now ≤ self.old.first + 4096 }
        ensures laid { self.new ≡ record { first = self.old.first; here = laid at items.now self.old.here } }
    {
        let mut slot = (at - self.first) as usize;
        for item in items {
            self.slots[slot] = Some(*item);
            slot += 1;
        }
    }

    /// Edits each item of the page.
    pub fn edit<E: Edit<T>>(&mut self, edit: &E)
    where
        T: Copy + Drop,
        ensures edited { self.new ≡ record { first = self.old.first; here = edited (E.edits edit.now) self.old.here } }
    {
        let mut position = self.first;
        for slot in 0..self.slots.len() {
            self.slots[slot] = edited_slot(edit, position, self.slots[slot]);
            position += 1;
        }
    }
}

/// What becomes of a slot.
fn edited_slot<T: Copy, E: Edit<T>>(edit: &E, position: u64, slot: Option<T>) -> Option<T>
    ensures { result ≡ edit_slot (E.edits edit.now) position slot }
{
    match slot {
        Some(item) => edit.edit(position, item),
        None => None,
    }
}
