//! The laws of striping, for every layout and all numbers.
//!
//! These functions do nothing: each carries laws to a caller's proof. The same laws are lemmas of
//! `proofs/Places.antt`, `proofs/Below.antt` and `proofs/Sizes.antt`.

ghost use Rattle.std.specs.Prelude.{◌≡◌, ℕ, ◌<◌, ◌≤◌, ◌↔◌, List, length};
ghost use Rattle.lu_layout.specs.Raid0.{Raid0, stripe_of, offset_of, position_of, below_of, CountsBelow, file_size_of, IsFileSize};
ghost use Rattle.lu_layout.specs.Sound.{IsLayout};

/// A place is a stripe and an offset, and each place stands for one position.
pub fn places()
    ensures in_range { (l : Raid0) (p : ℕ) → IsLayout l → stripe_of l p < length l.targets }
    ensures position { (l : Raid0) (p : ℕ) → IsLayout l → position_of l (stripe_of l p) (offset_of l p) ≡ p }
    ensures stripe { (l : Raid0) (i q : ℕ) → IsLayout l → i < length l.targets → stripe_of l (position_of l i q) ≡ i }
    ensures offset { (l : Raid0) (i q : ℕ) → IsLayout l → i < length l.targets → offset_of l (position_of l i q) ≡ q }
{}

/// Within a stripe, greater offsets stand for greater positions, and none for a position below itself.
pub fn order()
    ensures rising { (l : Raid0) (i q r : ℕ) → IsLayout l → (q < r) ↔ (position_of l i q < position_of l i r) }
    ensures beyond { (l : Raid0) (i q : ℕ) → IsLayout l → q ≤ position_of l i q }
{}

/// `below_of` counts a stripe's offsets, from 0 on, that stand for positions below `n`.
pub fn counts()
    ensures below { (l : Raid0) (i n q : ℕ) → IsLayout l → i < length l.targets → CountsBelow l i n q }
    ensures within { (l : Raid0) (i n : ℕ) → IsLayout l → i < length l.targets → below_of l i n ≤ n }
{}

/// Objects give their file one size, which is `file_size_of`.
pub fn sizes()
    ensures size { (l : Raid0) (sizes : List ℕ) → IsFileSize l sizes (file_size_of l sizes) }
    ensures one { (l : Raid0) (sizes : List ℕ) (m n : ℕ) → IsFileSize l sizes m → IsFileSize l sizes n → m ≡ n }
{}
