//! What comes to a client, and to a target that serves or recovers, in every covered run. Each function does nothing: its
//! contract is a theorem over the definition of a run.

ghost use Rattle.lu_proof_taken.specs.Heeding.{AllMayBeHeeded};
ghost use Rattle.lu_proof_taken.specs.Taken.{AllMayCome, AllMayBeKept, AllMayBeRestored};

/// Whatever a target of the run has sent to a client, at any time and however often the network repeats it, may come to that
/// client between two turns: it brings no lock that is held already, no two locks of one name, and no size above that of the
/// greatest file, what it answers lies in a file, and a number is left for the client's next life, in every run of fewer turns
/// than there are such numbers.
pub fn what_is_sent_to_a_client_may_come()
    ensures comes { AllMayCome }
{}

/// What a life with a slot sends again to a target that recovers, in its present boot, may be kept: a request was done in an
/// earlier boot, under a number above 1, and a lock was granted in an earlier boot; and no other life handed in that number, or
/// that cookie.
pub fn what_is_sent_again_may_be_kept()
    ensures kept { AllMayBeKept }
    ensures restored { AllMayBeRestored }
{}

/// Whatever a client sent to a target that is up, the target may heed, at any time and however often the network repeats it. A
/// request, while the target serves: its tag is one that there is, its operation one of the target's service, in order and in a
/// file, and each request that waits there of its life and number has its tag. What a life with a slot hands in of the present
/// boot, while the target recovers: a request that may be performed again, with such a tag, was done in an earlier boot, under
/// a number above 1 that no other life has handed in; a lock was granted in an earlier boot, its range is in order, it is for
/// reading at the metadata target, and no other life has handed in its cookie. Of other messages nothing is asked.
pub fn what_is_sent_to_a_target_may_be_heeded()
    ensures heeded { AllMayBeHeeded }
{}
