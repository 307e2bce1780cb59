//! Pages by number.

ghost use Rattle.std.specs.Prelude.{ℕ, ◌≡◌, ◌≤◌, ◌<◌, ◌+◌, ◌*◌, ◌/◌, ◌-◌, ◌^◌, ◌++◌, length, OnOk, IfOk, IfSome, IfNone, IsSome, Some, false, [], option_map};
ghost use Rattle.lu_spec_machine.specs.Objects.{page_extent};
ghost use Rattle.lu_spec_machine.specs.Places.{found_at, laid, is_in, inside, end_of};
ghost use Rattle.lu_spec_bytes.specs.Runs.{first_position, run_at, found_run};
ghost use Rattle.lu_page.specs.Edits.{edited, in_range};
ghost use Rattle.lu_page.specs.Pages.{joined, PagesFrom, IsBare};

use crate::{Edit, PAGE, Page};
use lu_base::{Extent, Memory};
use std::alloc::Global;
use std::cmp::min;
use std::collections::BTreeMap;

/// The least number of a page in a range of numbers.
pub fn next_page<T>(pages: &BTreeMap<u64, Page<T>>, from: u64, to: u64) -> Option<u64>
    requires pages { PagesFrom 0 pages.now.entries }
    ensures range { IfSome result (λ k. (from ≤ k) × (k ≤ to)) }
    ensures some { IfSome result (λ k. IsBare (from * 4096) (k * 4096) (joined pages.now.entries)) }
    ensures none { IfNone result (IsBare (from * 4096) ((to + 1) * 4096) (joined pages.now.entries)) }
{
    if to < from {
        return None;
    }
    let (number, _) = pages.range(from..=to).next()?;
    Some(*number)
}

/// The greatest number of a page from one number on and below another.
pub fn last_page<T>(pages: &BTreeMap<u64, Page<T>>, from: u64, end: u64) -> Option<u64>
    requires pages { PagesFrom 0 pages.now.entries }
    ensures range { IfSome result (λ k. (from ≤ k) × (k < end)) }
    ensures some { IfSome result (λ k. IsBare ((k + 1) * 4096) (end * 4096) (joined pages.now.entries)) }
    ensures none { IfNone result (IsBare (from * 4096) (end * 4096) (joined pages.now.entries)) }
{
    if end <= from {
        return None;
    }
    let (number, _) = pages.range(from..=end - 1).next_back()?;
    Some(*number)
}

/// Makes a page, if it isn't there. Nothing stands in it.
fn make_page<T: Copy + Drop>(
    alloc: Global,
    pages: &mut BTreeMap<u64, Page<T>>,
    number: u64,
) -> Result<(), Memory>
    requires pages { PagesFrom 0 pages.old.entries }
    requires number { number < 2 ^ 50 }
    ensures same { joined pages.new.entries ≡ joined pages.old.entries }
    ensures pages { PagesFrom 0 pages.new.entries }
    ensures there { OnOk result (IsSome (found_at pages.new.entries number)) }
    ensures others { (k : ℕ) → IsSome (found_at pages.old.entries k) → IsSome (found_at pages.new.entries k) }
{
    if pages.contains_key(&number) {
        return Ok(());
    }
    let page = Page::new(alloc, number * PAGE)?;
    pages.insert(number, page)?;
    Ok(())
}

/// Makes the pages from one number to another. Nothing stands in them.
pub fn make_pages<T: Copy + Drop>(
    alloc: Global,
    pages: &mut BTreeMap<u64, Page<T>>,
    first: u64,
    last: u64,
) -> Result<(), Memory>
    requires pages { PagesFrom 0 pages.old.entries }
    requires last { last < 2 ^ 50 }
    ensures same { joined pages.new.entries ≡ joined pages.old.entries }
    ensures pages { PagesFrom 0 pages.new.entries }
    ensures there { OnOk result ((k : ℕ) → first ≤ k → k ≤ last → IsSome (found_at pages.new.entries k)) }
{
    for number in first..last + 1 {
        make_page(alloc, pages, number)?;
    }
    Ok(())
}

/// Puts items into a page that is there.
pub fn put<T: Copy + Drop>(pages: &mut BTreeMap<u64, Page<T>>, number: u64, at: u64, items: &[T])
    requires pages { PagesFrom 0 pages.old.entries }
    requires there { IsSome (found_at pages.old.entries number) }
    requires low { number * 4096 ≤ at }
    requires high { at + length items.now ≤ (number + 1) * 4096 }
    ensures laid { joined pages.new.entries ≡ laid at items.now (joined pages.old.entries) }
    ensures pages { PagesFrom 0 pages.new.entries }
    ensures others { (k : ℕ) → IsSome (found_at pages.old.entries k) → IsSome (found_at pages.new.entries k) }
{
    match pages.get_mut(&number) {
        Some(page) => page.lay(at, items),
        None => unreachable!(),
    }
}

/// Edits the items of a page. A page in which nothing is left goes.
pub fn edit_page<T: Copy + Drop, E: Edit<T>>(
    pages: &mut BTreeMap<u64, Page<T>>,
    number: u64,
    edit: &E,
)
    requires pages { PagesFrom 0 pages.old.entries }
    ensures edited { joined pages.new.entries
        ≡ edited (in_range (page_extent number) (E.edits edit.now)) (joined pages.old.entries) }
    ensures pages { PagesFrom 0 pages.new.entries }
{
    let Some(page) = pages.get_mut(&number) else {
        return;
    };
    page.edit(edit);
    let first = page.first();
    let whole = Extent {
        first,
        last: first + (PAGE - 1),
    };
    if page.first_in(whole).is_none() {
        pages.remove(&number);
    }
}

/// What stands at a position, by its page.
pub fn find<T: Copy>(pages: &BTreeMap<u64, Page<T>>, position: u64) -> Option<T>
    requires pages { PagesFrom 0 pages.now.entries }
    ensures found { result ≡ found_at (joined pages.now.entries) position }
{
    match pages.get(&(position / PAGE)) {
        Some(page) => page.at(position),
        None => None,
    }
}

/// Puts items at positions from one on, into pages that are there.
pub fn put_all<T: Copy + Drop>(pages: &mut BTreeMap<u64, Page<T>>, at: u64, items: &[T])
    requires pages { PagesFrom 0 pages.old.entries }
    requires some { 0 < length items.now }
    requires fits { at + length items.now ≤ 2 ^ 62 }
    requires there { (k : ℕ) → at / 4096 ≤ k → k ≤ (at + (length items.now - 1)) / 4096
        → IsSome (found_at pages.old.entries k) }
    ensures laid { joined pages.new.entries ≡ laid at items.now (joined pages.old.entries) }
    ensures pages { PagesFrom 0 pages.new.entries }
{
    let mut done = 0usize;
    while done < items.len() {
        let position = at + done as u64;
        let number = position / PAGE;
        let count = min((PAGE - position % PAGE) as usize, items.len() - done);
        put(pages, number, position, &items[done..done + count]);
        done += count;
    }
}

/// Edits the items of the pages that a range meets. What lies outside the range stays.
pub fn edit<T: Copy + Drop, E: Edit<T>>(
    pages: &mut BTreeMap<u64, Page<T>>,
    extent: Extent,
    edit: &E,
)
    requires pages { PagesFrom 0 pages.old.entries }
    requires outside { (p : ℕ) (x : T) → p < 2 ^ 62 → is_in extent p ≡ false → E.edits edit.now p x ≡ Some x }
    ensures edited { joined pages.new.entries ≡ edited (E.edits edit.now) (joined pages.old.entries) }
    ensures pages { PagesFrom 0 pages.new.entries }
{
    let last = extent.last / PAGE;
    let mut next = extent.first / PAGE;
    while let Some(number) = next_page(pages, next, last) {
        edit_page(pages, number, edit);
        next = number + 1;
    }
}
