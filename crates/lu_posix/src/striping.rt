//! The layouts of new files.

ghost use Rattle.std.specs.Prelude.{◌≡◌, ◌<◌, ◌≤◌, ℤ, take};
ghost use Rattle.lu_spec_machine.specs.Striping.{is_bad, new_layout, stripe_count, stripe_size, stripe_targets};

use lu_base::Txn;
use lu_layout::Layout;

/// The size of a stripe where none is given, in bytes.
const DEFAULT_SIZE: u64 = 1048576;

/// The granule of stripe sizes, in bytes.
const SIZE_GRANULE: u64 = 65536;

/// The greatest stripe size, in bytes.
const MOST_SIZE: u64 = 4294901760;

/// The greatest number of stripes.
const MOST_STRIPES: usize = 8;

/// One more than the greatest low half of a number.
const HALF: u64 = 4294967296;

/// The stripe size that is meant: 0 stands for the default.
fn stripe_size(size: u64) -> u64
    ensures size { result ≡ stripe_size size }
    ensures some { 0 < result }
{
    if size == 0 { DEFAULT_SIZE } else { size }
}

/// The number of stripes that is meant: 0 stands for one, a negative number for one on each object storage target.
fn stripe_count(osts: u16, count: i32) -> u64
    requires { 1 ≤ osts }
    ensures count { result ≡ stripe_count osts count }
    ensures some { 0 < result }
{
    if count < 0 {
        osts as u64
    } else if count == 0 {
        1
    } else {
        count as u64
    }
}

/// Whether there is no such layout: the size is no multiple of the granule or too great, or there are more stripes
/// than targets.
fn is_bad(osts: u16, size: u64, count: u64) -> bool
    ensures { result ≡ is_bad osts size count }
{
    !(size % SIZE_GRANULE == 0) || MOST_SIZE < size || (osts as u64) < count
}

/// The targets of the stripes of a new file, in the first places.
fn targets(osts: u16, number: Txn, count: u64) -> [u16; MOST_STRIPES]
    requires some { 1 ≤ osts }
    requires most { count ≤ 8 }
    ensures { take count result ≡ stripe_targets osts number count }
{
    let mut targets = [0; MOST_STRIPES];
    for stripe in 0..count {
        targets[stripe as usize] = (1 + (number.0 % HALF + stripe) % osts as u64) as u16;
    }
    targets
}

/// The layout of a new file, none where there is no such layout.
pub(crate) fn new_layout(osts: u16, number: Txn, size: u64, count: i32) -> Option<Layout>
    requires some { 1 ≤ osts }
    requires most { osts ≤ 8 }
    ensures layout { result ≡ new_layout osts number size count }
{
    let size = stripe_size(size);
    let count = stripe_count(osts, count);
    if is_bad(osts, size, count) {
        return None;
    }
    let targets = targets(osts, number, count);
    Layout::make(size, &targets[..count as usize]).ok()
}
