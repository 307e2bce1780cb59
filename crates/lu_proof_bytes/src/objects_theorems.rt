//! What every allowed whole past keeps, object by object. Each function does nothing: its contract is a theorem over the
//! definitions of `specs/`.

ghost use Rattle.std.specs.Prelude.{ℕ, Bool, true, false, List, Option, Some, ◌≡◌, ◌<◌};
ghost use Rattle.lu_proof_bytes.specs.Object.Words.{Lock};
ghost use Rattle.lu_proof_bytes.specs.Object.Folds.{nothing_lost, IsGranted};
ghost use Rattle.lu_proof_bytes.specs.Object.History.{Right, Puts, size_of};
ghost use Rattle.lu_proof_bytes.specs.Object.Guards.{AllAllowed, IsEnd, EndAt};
ghost use Rattle.lu_proof_bytes.specs.Objects.Words.{Line};
ghost use Rattle.lu_proof_bytes.specs.Objects.Only.{only};
ghost use Rattle.lu_proof_bytes.specs.Objects.Guards.{AllOk};
ghost use Rattle.lu_proof_bytes.specs.Objects.Rows.{Run, past_of};
ghost use Rattle.lu_proof_bytes.specs.Objects.History.{gone, items, WholeLocks};

/// The laws of an allowed whole past, of every target `t` and every object `o` of it.
///
/// `projection`: the story of the object is an allowed one, so all that `object_theorems` says of stories holds of it.
/// `locks`: two locks on one object, held by lives that no target evicted, don't conflict, but for a lock and itself.
/// `history`: of any lives that will be out, if all that some target evicted are among them, each read told to a life that
/// isn't out got the bytes that stand in the object's history there, up to its size: what lives that aren't out were told,
/// and the transactions that stand of those that are.
/// `puts`: each put carries bytes that its life was told to have written before the request was first sent, or the zero byte
/// of a cut.
pub fn pasts_are_lawful()
    ensures projection { (past : List Line) → AllOk past → (t o : ℕ) → AllAllowed (only t o past) }
    ensures locks { (past : List Line) → AllOk past → WholeLocks past }
    ensures history { (past : List Line) → AllOk past → (t o : ℕ) (out : ℕ → Bool)
        → ((c : ℕ) → gone c past ≡ true → out c ≡ true) → Right (items out nothing_lost t o past) }
    ensures puts { (past : List Line) → AllOk past → (t o : ℕ) → Puts (only t o past) }
{}

/// What a glimpse may tell of an object is the size of its history at that moment, for any lives that will be out, if all that
/// some target evicted are among them.
///
/// `free`: the size of the target's object is, where no lock for writing is granted on it.
/// `above`: so it is where each lock for writing that is granted ends below it.
/// `peek`: the end that a life which isn't out knows, under a lock that it holds to the end of the object, is, where it lies
/// above the first position of that lock.
pub fn glimpses()
    ensures free { (past : List Line) → AllOk past → (t o : ℕ) (out : ℕ → Bool) (s : ℕ)
        → ((c : ℕ) → gone c past ≡ true → out c ≡ true) → IsEnd (only t o past) s
        → ((l : Lock) → IsGranted (only t o past) l → l.write ≡ true → ⊥) → s ≡ size_of (items out nothing_lost t o past) }
    ensures above { (past : List Line) → AllOk past → (t o : ℕ) (out : ℕ → Bool) (s : ℕ)
        → ((c : ℕ) → gone c past ≡ true → out c ≡ true) → IsEnd (only t o past) s
        → ((l : Lock) → IsGranted (only t o past) l → l.write ≡ true → (e : ℕ) × (l.last ≡ Some e) × (e < s))
        → s ≡ size_of (items out nothing_lost t o past) }
    ensures peek { (past : List Line) → AllOk past → (t o : ℕ) (out : ℕ → Bool) (c at z : ℕ)
        → ((d : ℕ) → gone d past ≡ true → out d ≡ true) → out c ≡ false → (u : EndAt (only t o past) c at z)
        → u.lock.first < z → z ≡ size_of (items out nothing_lost t o past) }
{}

/// `allowed`: every run makes an allowed past. A run is a list of turns (`Row`) from the lives that have a slot at a target
/// from the start; in it any message that was ever sent may come, again, late or never.
#[tactic(auto, using(crate::proofs::Objects::Rows::run_ok))]
pub fn runs_are_allowed()
    ensures allowed { (first : List (ℕ × ℕ)) (turns : List (List Line)) → Run first turns → AllOk (past_of first turns) }
{}
