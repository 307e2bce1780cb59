//! A layout and where it places the bytes of a file.

ghost use Rattle.std.specs.Prelude.{◌≡◌, ℕ, ◌^◌, ◌<◌, ◌≤◌, ◌==◌, ◌&&◌, ◌↔◌, All, length, nat_eq, slice_get, Some, IfOk, IsOk, IsTrue};
ghost use Rattle.std.specs.Cmp.{and_equiv, on_equiv, nat_eq_equiv, partial_equiv_from_equiv};
ghost use Rattle.std.specs.Cmp.Lexicographic.{pointwise, nat_list_eq_equiv};
ghost use Rattle.lu_layout.specs.Raid0.{stripe_of, offset_of, position_of, below_of, file_size_of, IsFileSize};
ghost use Rattle.lu_layout.specs.Sound.{IsStripeSize, IsBadSize, IsBadCount, AreStripes, HasRepeat, IsLayout};

use std::marker::Model;
use thiserror::Error;

/// The greatest number of stripes.
const MOST_STRIPES: usize = 8;

/// The granule of stripe sizes, in bytes.
const SIZE_GRANULE: u64 = 65536;

/// The greatest stripe size, in bytes: the last multiple of the granule below 2^32.
const MOST_SIZE: u64 = 4294901760;

/// Why there is no such layout. Nothing was made.
#[derive(Clone, Copy, Debug, PartialEq, Eq, Error)]
pub enum LayoutError {
    /// The stripe size is 0, no multiple of 65,536 or above 2^32 - 65,536.
    #[error("bad stripe size")]
    BadSize,
    /// The size is good, but there are no stripes or more than eight, or a target stands twice.
    #[error("bad stripes")]
    BadCount,
}

/// A striped layout: a stripe size in bytes and one to eight stripes, each on a target of its own.
///
/// A contract sees the size and the list of the targets, and two layouts are equal exactly where these
/// are. Stripes are counted from 0, and so are positions in a file and offsets in an object, in bytes.
#[derive(Clone, Copy, Debug)]
pub struct Layout {
    unit: u64,
    width: u16,
    slots: [u16; MOST_STRIPES],
}

impl Model for Layout {
    ghost use Rattle.std.specs.Prelude.{length, take, ◌++◌, replicate};
    ghost use Rattle.lu_layout.specs.Raid0.{Raid0};

    ghost Value = { Raid0 };

    ghost use Rattle.lu_layout.specs.Slots.{raid0_of, AreSlots, inside_of, inside_of-raid0_of};

    ghost view = { raid0_of };

    ghost invariant = { AreSlots };

    ghost inverse = { inside_of };

    ghost inverse_ok = { inside_of-raid0_of };
}

impl Layout {
    /// The layout of this stripe size, in bytes, with a stripe on each of these targets in turn.
    pub fn make(size: u64, stripes: &[u16]) -> Result<Layout, LayoutError>
        ensures bad_size { (result ≡ Err LayoutError.BadSize) ↔ IsBadSize size }
        ensures bad_count { (result ≡ Err LayoutError.BadCount) ↔ (IsStripeSize size × IsBadCount stripes.now) }
        ensures ok { IfOk result (λ l. l ≡ record { size = size; targets = stripes.now }) }
        ensures sound { IfOk result IsLayout }
        ensures succeeds { IsStripeSize size → AreStripes stripes.now → IsOk result }
    {
        if size == 0 || size % SIZE_GRANULE != 0 || size > MOST_SIZE {
            return Err(LayoutError::BadSize);
        }
        if stripes.is_empty() || stripes.len() > MOST_STRIPES || has_repeat(stripes) {
            return Err(LayoutError::BadCount);
        }
        let mut slots = [0; MOST_STRIPES];
        slots[..stripes.len()].copy_from_slice(stripes);
        Ok(Layout {
            unit: size,
            width: stripes.len() as u16,
            slots,
        })
    }

    /// The stripe size, in bytes: a multiple of 65,536 from 65,536 to 2^32 - 65,536.
    pub fn size(&self) -> u64
        ensures value { result ≡ self.now.size }
        ensures sound { IsLayout self.now }
    {
        self.unit
    }

    /// The number of stripes, 1 to 8.
    pub fn count(&self) -> u16
        ensures value { result ≡ length self.now.targets }
        ensures sound { IsLayout self.now }
    {
        self.width
    }

    /// The number of the target on which a stripe lies.
    pub fn target(&self, stripe: u16) -> u16
        requires { stripe < length self.now.targets }
        ensures { slice_get self.now.targets stripe ≡ Some result }
    {
        self.slots[stripe as usize]
    }

    /// The numbers of the targets, stripe by stripe.
    pub fn targets(&self) -> &[u16]
        ensures { result.now ≡ self.now.targets }
    {
        &self.slots[..self.width as usize]
    }

    /// The stripe of the byte at this position of the file, and the byte's offset in the stripe's object.
    pub fn place(&self, position: u64) -> (u16, u64)
        ensures stripe { result.0 ≡ stripe_of self.now position }
        ensures offset { result.1 ≡ offset_of self.now position }
        ensures in_range { result.0 < length self.now.targets }
        ensures within { result.1 ≤ position }
        ensures inverse { position_of self.now result.0 result.1 ≡ position }
    {
        let unit = position / self.unit;
        let width = self.width as u64;
        let offset = unit / width * self.unit + position % self.unit;
        ((unit % width) as u16, offset)
    }

    /// The position of the file for which an offset, at most 2^40, of a stripe's object stands.
    pub fn position(&self, stripe: u16, offset: u64) -> u64
        requires stripe { stripe < length self.now.targets }
        requires offset { offset ≤ 2 ^ 40 }
        ensures value { result ≡ position_of self.now stripe offset }
        ensures same_stripe { stripe_of self.now result ≡ stripe }
        ensures same_offset { offset_of self.now result ≡ offset }
        ensures rising { (other : ℕ) → (other < offset) ↔ (position_of self.now stripe other < result) }
        ensures beyond { offset ≤ result }
        ensures fits { result < 2 ^ 44 }
    {
        let unit = offset / self.unit * self.width as u64 + stripe as u64;
        unit * self.unit + offset % self.unit
    }

    /// How many of a stripe's offsets stand for positions below `n`, which is at most 2^44: they are those
    /// from 0 on.
    pub fn below(&self, stripe: u16, n: u64) -> u64
        requires stripe { stripe < length self.now.targets }
        requires n { n ≤ 2 ^ 44 }
        ensures value { result ≡ below_of self.now stripe n }
        ensures below { (offset : ℕ) → (offset < result) ↔ (position_of self.now stripe offset < n) }
        ensures within { result ≤ n }
    {
        let (reached, offset) = self.place(n);
        let round = offset - n % self.unit;
        if stripe < reached {
            round + self.unit
        } else if stripe == reached {
            offset
        } else {
            round
        }
    }

    /// The size of a file whose objects have these sizes, at most 2^40 bytes each, one for each stripe:
    /// one more than the greatest position that stands for an object's last byte, or 0 where all are empty.
    pub fn file_size(&self, sizes: &[u64]) -> u64
        requires count { length sizes.now ≡ length self.now.targets }
        requires sizes { All (λ n. n ≤ 2 ^ 40) sizes.now }
        ensures value { result ≡ file_size_of self.now sizes.now }
        ensures greatest { IsFileSize self.now sizes.now result }
        ensures fits { result ≤ 2 ^ 44 }
    {
        let mut end = 0;
        for stripe in 0..self.count() {
            let size = sizes[stripe as usize];
            if size > 0 {
                end = end.max(self.position(stripe, size - 1) + 1);
            }
        }
        end
    }
}

impl PartialEq for Layout {
    ghost eq = { λ a b. (a.size == b.size) && pointwise nat_eq a.targets b.targets };

    ghost laws = { partial_equiv_from_equiv
        (and_equiv (on_equiv (λ l. l.size) nat_eq_equiv) (on_equiv (λ l. l.targets) nat_list_eq_equiv)) };

    fn eq(&self, other: &Self) -> bool {
        self.unit == other.unit && self.targets() == other.targets()
    }
}

impl Eq for Layout {
    ghost laws = { and_equiv (on_equiv (λ l. l.size) nat_eq_equiv) (on_equiv (λ l. l.targets) nat_list_eq_equiv) };
}

/// Whether some target stands twice.
fn has_repeat(stripes: &[u16]) -> bool
    ensures { IsTrue result ↔ HasRepeat stripes.now }
{
    for (i, target) in stripes.iter().enumerate() {
        if stripes[..i].contains(target) {
            return true;
        }
    }
    false
}
