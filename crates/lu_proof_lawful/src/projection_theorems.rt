//! What the map from pasts to stories keeps, whatever the past. Each function does nothing: its contract is a theorem over the
//! definitions of `specs/`.

ghost use Rattle.std.specs.Prelude.{ℕ, ◌<◌, true, false, List, Option, Some, ◌≡◌};
ghost use Rattle.lu_base.specs.declared.ids.Who.{Who};
ghost use Rattle.lu_spec_entries.specs.declared.changes.Flush.{Flush};
ghost use Rattle.lu_spec_entries.specs.Words.{Line};
ghost use Rattle.lu_spec_client.specs.Calls.{life_at};
ghost use Rattle.lu_proof_bytes.specs.Object.Words.{Lock, Change, Entry, changes};
ghost use Rattle.lu_proof_bytes.specs.Object.Folds.{HeldBy, WasGranted, evicted};
ghost use Rattle.lu_proof_bytes.specs.Object.Guards.{Allowed, AllAllowed, UnderNumber};
ghost use Rattle.lu_proof_objects.specs.Points.{change_of};
ghost use Rattle.lu_proof_lawful.specs.Projection.Lives.{number_of, is_over, is_live};
ghost use Rattle.lu_proof_lawful.specs.Projection.Locks.{given, held, spans, lock_over};
ghost use Rattle.lu_proof_lawful.specs.Projection.Calls.{did};
ghost use Rattle.lu_proof_lawful.specs.Projection.Closes.{lost_by};

/// No two lives share a number.
#[tactic(auto, using(crate::proofs::Projection::Lives::same_life))]
pub fn lives_have_numbers()
    ensures apart { (v w : Who) → number_of v ≡ number_of w → v ≡ w }
{}

/// What is looked up in the story so far is what the theory asks for.
///
/// - `told`: a change that the map tells is allowed where it is told.
/// - `under`: the lock over a change is held for writing, by the life whose change it is, and covers all that it may change; so it
///   is of each change that is taken to be written back.
/// - `right`: in an allowed story a lock that a life which isn't evicted holds for writing over a change is the one that is found, so no
///   change under a lock is left out, and none is told under another lock.
/// - `granted`, `cookie`: the lock that a cookie stands for was granted, under that cookie.
#[tactic(auto, using(crate::proofs::Projection::Lookups::did_ok, crate::proofs::Projection::Lookups::lies_under, crate::proofs::Projection::Lookups::right_lock, crate::proofs::Projection::Lookups::given_granted, crate::proofs::Projection::Lookups::given_cookie))]
pub fn locks_are_looked_up()
    ensures told { (h : List Entry) (c : ℕ) (flush : Flush) (e : Entry) → did c flush h ≡ Some e → Allowed h e }
    ensures under { (h : List Entry) (c k : ℕ) (flush : Flush) → lock_over c (change_of flush) (held h) ≡ Some k
        → UnderNumber h c k true (changes (change_of flush)) }
    ensures right { (h : List Entry) (l : Lock) (change : Change) → AllAllowed h → HeldBy h l → l.write ≡ true → evicted l.life h ≡ false
        → spans l change ≡ true → lock_over l.life change (held h) ≡ Some l.cookie }
    ensures granted { (k : ℕ) (h : List Entry) (l : Lock) → given k h ≡ Some l → WasGranted h l }
    ensures cookie { (k : ℕ) (h : List Entry) (l : Lock) → given k h ≡ Some l → l.cookie ≡ k }
{}

/// What counts no more.
///
/// - `over`: a life whose client has heard, of any target, that it is over isn't live, so no line of it counts.
/// - `above`: what a close loses is above what is committed.
#[tactic(auto, using(crate::proofs::Projection::Ends::over_ends, crate::proofs::Projection::Ends::lost_above))]
pub fn lives_end_and_close_loses()
    ensures over { (c : ℕ) (past : List Line) (h : List Entry) → is_over c (life_at c past) past ≡ true → is_live c past h ≡ false }
    ensures above { (to boot : ℕ) (kept : List ℕ) (n : ℕ) → lost_by to boot kept n ≡ true → to < n }
{}
