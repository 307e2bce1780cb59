//! What every allowed story of one object keeps. Each function does nothing: its contract is a theorem over the definitions.

ghost use Rattle.std.specs.Prelude.{ℕ, Bool, true, false, List, Option, Some, None, ◌≡◌, ◌<◌};
ghost use Rattle.lu_proof_bytes.specs.Object.Words.{Lock, Entry};
ghost use Rattle.lu_proof_bytes.specs.Object.Folds.{evicted, IsGranted, nothing_lost};
ghost use Rattle.lu_proof_bytes.specs.Object.History.{Locks, History, Puts, Right, history, size_of};
ghost use Rattle.lu_proof_bytes.specs.Object.Guards.{AllAllowed, KeptFor, IsEnd, EndAt};

/// What holds in each story all of whose entries are allowed.
///
/// - `locks`: at no moment do two different locks conflict that are held by lives which aren't evicted by then.
/// - `history`: the calls told to lives that aren't evicted by the end of the story, in the order in which they were told, and of
///   the evicted ones the changes that the target executed, where it executed them, but for those that a close lost, are one
///   history: each read got what a plain byte map has at that place of it, up to its size, absent bytes as 0.
/// - `puts`: each change that is executed came from calls told before its request was first sent: each byte of a write was told
///   in a write of that life, or is 0 and the last byte before the end of a cut that was told; and a cut was told as it is.
#[tactic(auto, using(crate::proofs::Object::World::allowed_lawful, crate::proofs::Object::Origins::allowed_puts))]
pub fn lawful()
    ensures locks { (h : List Entry) → AllAllowed h → Locks h }
    ensures history { (h : List Entry) → AllAllowed h → History h }
    ensures puts { (h : List Entry) → AllAllowed h → Puts h }
{}

/// The same history for the prefix of a longer story, in which more lives will be evicted and more transactions lost.
///
/// - `history`: for any set of lives (`out`) that has all in it that are evicted so far, and any set of transactions (`lost`) that
///   has none in it that is committed, or that a life which isn't in `out` made and heard of, or saw: the calls told to lives that
///   aren't in `out`, with the executed changes of the others that are neither in `lost` nor lost by a close so far, are one history.
#[tactic(auto, using(crate::proofs::Object::World::any_right))]
pub fn lawful_for_any()
    ensures history { (h : List Entry) → AllAllowed h → (out lost : ℕ → Bool) → ((c : ℕ) → evicted c h ≡ true → out c ≡ true)
        → KeptFor out lost h → Right (history out lost h) }
{}

/// What a glimpse may tell: sizes that are the size of the history at that moment, whoever will be evicted later (`out`, any set
/// of lives with all in it that are evicted so far).
///
/// - `free`: the size of the target's object, where no lock for writing (PW) is granted.
/// - `above`: the size of the target's object, where each granted lock for writing has a last byte and that lies below the size.
/// - `peek`: the size that a life which isn't in `out` knows under a lock that it holds to the end, from the end that it was told
///   with the lock and its own changes since, where that size lies above the lock's first byte.
#[tactic(auto, using(crate::proofs::Object::Glimpse::glimpse_free, crate::proofs::Object::Glimpse::glimpse_above, crate::proofs::Object::Glimpse::glimpse_peek))]
pub fn glimpses()
    ensures free { (out : ℕ → Bool) (h : List Entry) (s : ℕ) → AllAllowed h → ((c : ℕ) → evicted c h ≡ true → out c ≡ true)
        → IsEnd h s → ((l : Lock) → IsGranted h l → l.write ≡ true → ⊥) → s ≡ size_of (history out nothing_lost h) }
    ensures above { (out : ℕ → Bool) (h : List Entry) (s : ℕ) → AllAllowed h → ((c : ℕ) → evicted c h ≡ true → out c ≡ true)
        → IsEnd h s → ((l : Lock) → IsGranted h l → l.write ≡ true → (e : ℕ) × (l.last ≡ Some e) × (e < s))
        → s ≡ size_of (history out nothing_lost h) }
    ensures peek { (out : ℕ → Bool) (h : List Entry) (c at z : ℕ) → AllAllowed h → ((d : ℕ) → evicted d h ≡ true → out d ≡ true)
        → out c ≡ false → (u : EndAt h c at z) → u.lock.first < z → z ≡ size_of (history out nothing_lost h) }
{}
