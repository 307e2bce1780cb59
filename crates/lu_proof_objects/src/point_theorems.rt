//! What rows and theory have in common, position by position. Each function does nothing: its contract is a theorem over the
//! definitions of `specs/`.

ghost use Rattle.lu_proof_objects.specs.Alike.{PatchMade, PatchTaken, BytesAcked, CutAcked, NextIs, PutGoesFirst, ObjectChanged, ObjectEnds, LockCovers, LocksConflict, WritesClash};

/// A client's patch of an object: a pending cut, and dirty bytes over it.
///
/// - `made`: a change that a call makes leaves of the pending cut, of each dirty byte, and of what is under way, what the theory says.
/// - `taken`: a change whose bytes are the patch's is taken to be written back: just its bytes are under way besides.
/// - `bytes_acked`, `cut_acked`: the answer takes away what was under way and wasn't touched since; a cut of another size stays.
/// - `next`: what is written back next under a lock is the pending cut, if the lock is over it, else bytes of the patch under the lock.
/// - `goes_first`: these bytes lie below each pending cut, if such a cut is under another lock, which doesn't meet this one.
#[tactic(auto, using(crate::proofs::Patches::patch_made, crate::proofs::Patches::patch_taken, crate::proofs::Patches::bytes_acked, crate::proofs::Patches::cut_acks, crate::proofs::Patches::next_is, crate::proofs::Patches::put_goes_first))]
pub fn patches_are_those_of_the_theory()
    ensures made { PatchMade }
    ensures taken { PatchTaken }
    ensures bytes_acked { BytesAcked }
    ensures cut_acked { CutAcked }
    ensures next { NextIs }
    ensures goes_first { PutGoesFirst }
{}

/// An object of a target, by its offsets.
///
/// - `changed`: a put and a cut make of each offset what the theory's change does.
/// - `ends`: nothing stands at the object's size or later, and a byte right before it.
#[tactic(auto, using(crate::proofs::Objects::object_changed, crate::proofs::Objects::object_ends))]
pub fn objects_are_those_of_the_theory()
    ensures changed { ObjectChanged }
    ensures ends { ObjectEnds }
{}

/// Locks on ranges of an object, in the modes PR and PW.
///
/// - `covers`: a lock covers the offsets of its range.
/// - `conflict`: two conflict where one is for writing and their ranges meet.
/// - `clash`: the modes are compatible just where neither is for writing.
#[tactic(auto, using(crate::proofs::Locks::lock_covers, crate::proofs::Locks::locks_conflict, crate::proofs::Locks::writes_clash))]
pub fn locks_are_those_of_the_theory()
    ensures covers { LockCovers }
    ensures conflict { LocksConflict }
    ensures clash { WritesClash }
{}
