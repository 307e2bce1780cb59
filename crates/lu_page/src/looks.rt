//! What is asked of pages.

ghost use Rattle.std.specs.Prelude.{◌≡◌, ◌≤◌, length};
ghost use Rattle.lu_spec_machine.specs.Objects.{page_extent};
ghost use Rattle.lu_spec_machine.specs.Places.{inside, end_of};
ghost use Rattle.lu_spec_bytes.specs.Runs.{first_position};
ghost use Rattle.lu_page.specs.Pages.{joined, PagesFrom};

use crate::pages::{last_page, next_page};
use crate::{PAGE, Page};
use lu_base::Extent;
use std::collections::BTreeMap;

/// The least position of a page in a range where something stands.
fn first_in_page<T: Copy>(
    pages: &BTreeMap<u64, Page<T>>,
    number: u64,
    extent: Extent,
) -> Option<u64>
    requires pages { PagesFrom 0 pages.now.entries }
    ensures first { result ≡ first_position (inside extent (inside (page_extent number) (joined pages.now.entries))) }
{
    match pages.get(&number) {
        Some(page) => page.first_in(extent),
        None => None,
    }
}

/// In how many positions of a page in a range something stands.
fn count_in_page<T: Copy>(pages: &BTreeMap<u64, Page<T>>, number: u64, extent: Extent) -> u64
    requires pages { PagesFrom 0 pages.now.entries }
    ensures count { result ≡ length (inside extent (inside (page_extent number) (joined pages.now.entries))) }
{
    match pages.get(&number) {
        Some(page) => page.count(extent),
        None => 0,
    }
}

/// One past the last position of a page in a range where something stands, or 0.
fn end_in_page<T: Copy>(pages: &BTreeMap<u64, Page<T>>, number: u64, extent: Extent) -> u64
    requires pages { PagesFrom 0 pages.now.entries }
    ensures end { result ≡ end_of (inside extent (inside (page_extent number) (joined pages.now.entries))) }
{
    match pages.get(&number) {
        Some(page) => page.end_in(extent),
        None => 0,
    }
}

/// The least position in a range where something stands.
pub fn first_in<T: Copy>(pages: &BTreeMap<u64, Page<T>>, extent: Extent) -> Option<u64>
    requires pages { PagesFrom 0 pages.now.entries }
    ensures first { result ≡ first_position (inside extent (joined pages.now.entries)) }
{
    let last = extent.last / PAGE;
    let mut next = extent.first / PAGE;
    while let Some(number) = next_page(pages, next, last) {
        let found = first_in_page(pages, number, extent);
        if found.is_some() {
            return found;
        }
        next = number + 1;
    }
    None
}

/// In how many positions of a range something stands.
pub fn count<T: Copy>(pages: &BTreeMap<u64, Page<T>>, extent: Extent) -> u64
    requires pages { PagesFrom 0 pages.now.entries }
    requires range { extent.first ≤ extent.last }
    ensures count { result ≡ length (inside extent (joined pages.now.entries)) }
{
    let last = extent.last / PAGE;
    let mut next = extent.first / PAGE;
    let mut count = 0;
    while let Some(number) = next_page(pages, next, last) {
        count += count_in_page(pages, number, extent);
        next = number + 1;
    }
    count
}

/// One past the last position in a range where something stands, or 0. It looks at the pages from the last one down.
pub fn end_in<T: Copy>(pages: &BTreeMap<u64, Page<T>>, extent: Extent) -> u64
    requires pages { PagesFrom 0 pages.now.entries }
    ensures end { result ≡ end_of (inside extent (joined pages.now.entries)) }
{
    let first = extent.first / PAGE;
    let mut end = extent.last / PAGE + 1;
    while let Some(number) = last_page(pages, first, end) {
        let found = end_in_page(pages, number, extent);
        if found != 0 {
            return found;
        }
        end = number;
    }
    0
}

/// One past the last position where something stands, or 0.
pub fn end<T: Copy>(pages: &BTreeMap<u64, Page<T>>) -> u64
    requires pages { PagesFrom 0 pages.now.entries }
    ensures end { result ≡ end_of (joined pages.now.entries) }
{
    let whole = Extent {
        first: 0,
        last: u64::MAX,
    };
    end_in(pages, whole)
}
