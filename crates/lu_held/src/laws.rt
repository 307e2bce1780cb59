//! The laws of order and choice among held locks, for every list of locks.
//!
//! These functions do nothing: each carries laws to a caller's proof. The same laws are lemmas of
//! `proofs/Choices.antt`.

ghost use Rattle.std.specs.Prelude.{◌≡◌, true, false, List, All, AllPairs, Contains, IfSome, IfNone};
ghost use Rattle.lu_held.specs.declared.locks.HeldLock.{HeldLock};
ghost use Rattle.lu_held.specs.declared.locks.Use.{Use};
ghost use Rattle.lu_held.specs.Locks.{serves_use};
ghost use Rattle.lu_held.specs.Held.{in_order, serving, IsOnce, IsBefore, IsBest};

/// The locks by target and cookie are the same locks, and they rise where no two are held under one name.
pub fn order()
    ensures rising { (locks : List HeldLock) → IsOnce locks → AllPairs IsBefore (in_order locks) }
    ensures all { (locks : List HeldLock) → All (Contains (in_order locks)) locks }
    ensures only { (locks : List HeldLock) → All (Contains locks) (in_order locks) }
{}

/// The lock that does for a use is one that does, and the best of them; there is none only where none does.
pub fn choice()
    ensures held { (wanted : Use) (locks : List HeldLock) → IfSome (serving wanted locks) (Contains locks) }
    ensures serves { (wanted : Use) (locks : List HeldLock) →
        IfSome (serving wanted locks) (λ held. serves_use wanted held ≡ true) }
    ensures none { (wanted : Use) (locks : List HeldLock) →
        IfNone (serving wanted locks) (All (λ held. serves_use wanted held ≡ false) locks) }
    ensures best { (wanted : Use) (locks : List HeldLock) → IsOnce locks →
        IfSome (serving wanted locks) (λ held.
        All (λ other. serves_use wanted other ≡ true → IsBest held other) locks) }
{}
