//! What a client's rows on bytes rest on: those that write changes back and give locks up, and the calls on bytes; what they make of pins;
//! and what is known of bytes. Each function does nothing: its contract is a theorem over the definitions of `specs/`.

ghost use Rattle.lu_proof_objects.specs.Rows.{TrimsGo, LocksGo, FlushGoes, FlushingGoes};
ghost use Rattle.lu_proof_objects.specs.CallRows.{LooksGo, ComesGo, StartsGo, StatsGo};
ghost use Rattle.lu_proof_objects.specs.Pins.{CallsBalanced, LocksBalanced, CountsStay, CountedPinned};
ghost use Rattle.lu_proof_objects.specs.Known.{DropForgets, ShowStands, BytesMustGo, OthersKeep};

/// From a sound state each entry rests on what it has to, at the state before it, and the state after them all is sound again.
///
/// - `trims`: unused locks are marked.
/// - `locks`: the pass over the held locks.
/// - `flush`, `flushing`: the call that writes a file back, which pins nothing.
#[tactic(auto, using(crate::proofs::Walks::trims_go, crate::proofs::Walks::locks_go_on, crate::proofs::Walks::flush_goes, crate::proofs::Walks::flushing_goes))]
pub fn locks_and_write_backs()
    ensures trims { TrimsGo }
    ensures locks { LocksGo }
    ensures flush { FlushGoes }
    ensures flushing { FlushingGoes }
{}

/// A call on bytes that isn't a glimpse, from a state that is sound but for gets: each entry rests on what it has to, at the state before
/// it, and the state after them all is such again.
///
/// - `looks`: it looks for its locks, and acts once it has them.
/// - `comes`: the lock that it asked for came.
/// - `starts`: it begins.
/// - `stats`: a stat of a file goes on for its size.
#[tactic(auto, using(crate::proofs::Calls::looks_at_go, crate::proofs::Calls::comes_at_go, crate::proofs::Calls::starts_go, crate::proofs::Calls::stats_go))]
pub fn calls_on_bytes()
    ensures looks { LooksGo }
    ensures comes { ComesGo }
    ensures starts { StartsGo }
    ensures stats { StatsGo }
{}

/// Pins are counted: each held lock has at least as many as it stands among those of the calls.
///
/// - `calls`, `locks`: a row leaves the call on its slot with the pins that it made, or told and with none.
/// - `stay`: such rows keep the count, while the pins are no more than are counted.
/// - `pinned`: by the count, a held lock among a call's pins is pinned.
#[tactic(auto, using(crate::proofs::Pins::calls_balanced, crate::proofs::Pins::locks_balanced, crate::proofs::Pins::counts_stay, crate::proofs::Pins::counted_pinned))]
pub fn pins_are_counted()
    ensures calls { CallsBalanced }
    ensures locks { LocksBalanced }
    ensures stay { CountsStay }
    ensures pinned { CountedPinned }
{}

/// What is known of bytes and sizes, and what was shown, stands under held locks, and goes with them.
///
/// - `drops`: as a held lock goes, what is left stands under the locks that are left.
/// - `shows`: an offset that is shown under a held lock stands under the lock of its cookie.
/// - `must`: a byte that is known under one lock alone can't stay known as that lock goes.
/// - `others`: what a message brings is known under held locks, where its bytes lie under such and its lock is new.
#[tactic(auto, using(crate::proofs::Known::drop_forgets, crate::proofs::Known::show_stands, crate::proofs::Known::bytes_must_go, crate::proofs::Others::others_keep))]
pub fn what_is_known()
    ensures drops { DropForgets }
    ensures shows { ShowStands }
    ensures must { BytesMustGo }
    ensures others { OthersKeep }
{}
