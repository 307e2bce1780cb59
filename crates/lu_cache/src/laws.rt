//! The laws of what is known, for every history of calls, each seen as the entry whose step it makes.
//!
//! These functions do nothing: each carries laws to a caller's proof. The same laws are lemmas of
//! `proofs/Histories.antt`.

ghost use Rattle.std.specs.Prelude.{◌≡◌, ◌↔◌, ℕ, List};
ghost use Rattle.lu_base.specs.declared.locks.Resource.{Resource};
ghost use Rattle.lu_spec_machine.specs.Places.{found_at};
ghost use Rattle.lu_spec_entries.specs.Words.{Entry};
ghost use Rattle.lu_spec_client.specs.Facts.{Fact};
ghost use Rattle.lu_spec_client.specs.Caches.{bytes_at};
ghost use Rattle.lu_cache.specs.Histories.{known_after, byte_known, IsAmong, IsKnown};

/// A byte is known exactly from its filling until a lock on its object that holds it is given up, and is 0 once a cut
/// at or below it was answered.
pub fn bytes()
    ensures byte { (r : Resource) (p : ℕ) (history : List Entry) →
        found_at (bytes_at r (known_after history).bytes) p ≡ byte_known r p history }
{}

/// A fact is known exactly from the answer that taught it until its lock is given up.
pub fn facts()
    ensures fact { (f : Fact) (history : List Entry) → IsAmong f (known_after history).facts ↔ IsKnown f history }
{}
