//! What is read of pages, one page after the other.

ghost use Rattle.std.specs.Prelude.{◌≡◌, ◌≤◌, ◌<◌, ◌+◌, ◌-◌, ◌%◌, ◌^◌, ◌++◌, [], OnOk, IfOk};
ghost use Rattle.lu_spec_machine.specs.Places.{inside};
ghost use Rattle.lu_spec_bytes.specs.Runs.{run_at, found_run};
ghost use Rattle.lu_page.specs.Pages.{joined, PagesFrom};

use crate::{PAGE, Page};
use lu_base::{Extent, Memory};
use std::alloc::Global;
use std::cmp::min;
use std::collections::BTreeMap;

/// Puts so many positions at which nothing stands behind what was read.
fn read_nothing<T: Copy + Drop>(
    at: u64,
    count: u64,
    into: &mut Vec<Option<T>>,
) -> Result<(), Memory>
    requires fits { at + count ≤ 2 ^ 63 }
    ensures found { OnOk result (into.new.items ≡ into.old.items ++ found_run count [] at) }
{
    for k in 0..count {
        into.push(None)?;
    }
    Ok(())
}

/// Puts what stands at so many positions of one page behind what was read.
fn read_page<T: Copy + Drop>(
    pages: &BTreeMap<u64, Page<T>>,
    at: u64,
    count: u64,
    into: &mut Vec<Option<T>>,
) -> Result<(), Memory>
    requires pages { PagesFrom 0 pages.now.entries }
    requires page { at % 4096 + count ≤ 4096 }
    requires fits { at + count ≤ 2 ^ 63 }
    ensures found { OnOk result (into.new.items ≡ into.old.items ++ found_run count (joined pages.now.entries) at) }
{
    match pages.get(&(at / PAGE)) {
        Some(page) => page.read(at, count, into),
        None => read_nothing(at, count, into),
    }
}

/// What stands at so many positions from one on, with or without an item each.
pub fn read<T: Copy + Drop>(
    pages: &BTreeMap<u64, Page<T>>,
    alloc: Global,
    at: u64,
    count: u64,
) -> Result<Vec<Option<T>>, Memory>
    requires pages { PagesFrom 0 pages.now.entries }
    requires fits { at + count ≤ 2 ^ 63 }
    ensures found { IfOk result (λ found. found.items ≡ found_run count (joined pages.now.entries) at) }
{
    let mut found = Vec::new(alloc);
    let mut done = 0;
    while done < count {
        let position = at + done;
        let part = min(PAGE - position % PAGE, count - done);
        read_page(pages, position, part, &mut found)?;
        done += part;
    }
    Ok(found)
}

/// What stands in a range from a position on without a gap, up to the end of its page.
pub fn run<T: Copy + Drop>(
    pages: &BTreeMap<u64, Page<T>>,
    alloc: Global,
    extent: Extent,
    from: u64,
) -> Result<Vec<T>, Memory>
    requires pages { PagesFrom 0 pages.now.entries }
    requires fits { from < 2 ^ 62 }
    ensures run { IfOk result (λ run. run.items
        ≡ run_at (4096 - from % 4096) (inside extent (joined pages.now.entries)) from) }
{
    match pages.get(&(from / PAGE)) {
        Some(page) => page.run(alloc, extent, from, PAGE - from % PAGE),
        None => Ok(Vec::new(alloc)),
    }
}
