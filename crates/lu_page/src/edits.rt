//! The edits of places.

ghost use Rattle.std.specs.Prelude.{◌≡◌, nat_lt, ◌&&◌, if◌then◌else◌, Some, None};
ghost use Rattle.lu_spec_machine.specs.Places.{is_in};

use crate::Edit;
use lu_base::Extent;
use lu_spec_bytes::Marked;

/// Whether a position is in a range.
pub fn is_in(extent: Extent, position: u64) -> bool
    ensures { result ≡ is_in extent position }
{
    extent.first <= position && position <= extent.last
}

/// Takes away what stands in a range.
#[derive(Clone, Copy)]
pub struct Remove {
    pub extent: Extent,
}

impl<T: Copy> Edit<T> for Remove {
    ghost edits = { λ e p x. if is_in e.extent p then None else Some x };

    fn edit(&self, position: u64, item: T) -> Option<T> {
        if is_in(self.extent, position) {
            None
        } else {
            Some(item)
        }
    }
}

/// Takes away the marked items in a range.
#[derive(Clone, Copy)]
pub struct DropMarked {
    pub extent: Extent,
}

impl<T: Marked> Edit<T> for DropMarked {
    ghost edits = { λ e p x. if is_in e.extent p && T.marked x then None else Some x };

    fn edit(&self, position: u64, item: T) -> Option<T> {
        if is_in(self.extent, position) && item.is_marked() {
            None
        } else {
            Some(item)
        }
    }
}

/// Makes the bytes from a position on 0.
#[derive(Clone, Copy)]
pub struct Zero {
    pub from: u64,
}

impl Edit<u8> for Zero {
    ghost edits = { λ e p x. Some (if nat_lt p e.from then x else 0) };

    fn edit(&self, position: u64, item: u8) -> Option<u8> {
        Some(if position < self.from { item } else { 0 })
    }
}
