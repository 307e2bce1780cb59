//! What is asked of objects, and what a lock brings, in every covered run. Each function does nothing: its contract is a theorem
//! over the definitions of `specs/`.

ghost use Rattle.lu_proof_lawful.specs.Coming.{AllInFiles, LivesAreFew, OfAllLines};

/// All that is asked of objects lies in the greatest file, of 2^40 bytes: each page that is read, each run of bytes that is
/// put and each size that is cut to, from where it is queued. So does each size that comes with a lock, in a reply or in a
/// notice of its grant, over crashes and recoveries too.
pub fn all_that_is_asked_lies_in_a_file()
    ensures lines { OfAllLines AllInFiles }
{}

/// Each turn begins one life of a client at most, so after so many turns no client has come further than one life more: a number
/// is left for each life that a run can come to.
pub fn lives_are_few()
    ensures few { LivesAreFew }
{}
