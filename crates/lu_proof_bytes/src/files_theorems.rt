//! What every allowed past of calls on a file keeps. Each function does nothing: its contract is a theorem over the
//! definitions of `specs/`.

ghost use Rattle.std.specs.Prelude.{List};
ghost use Rattle.lu_proof_bytes.specs.Files.File.{Places, Step, StepsOk, FileHistory};
ghost use Rattle.lu_proof_bytes.specs.Files.Puts.{FilePuts};

/// Wherever the stripes of a file lie, and whatever layout each call uses:
///
/// `history`: each read told to a life that no target ever evicts got the bytes that the file has where the read stands in
/// the file's history, up to the file's size, and each stat told to such a life got that size, both through the call's layout.
/// `puts`: each put to a stripe carries bytes that its life was told to have written at these positions before the request was
/// first sent, or the zero that a told cut leaves at the last offset below it; and each cut of a stripe's object is the
/// part of a cut of the file that its life was told before the request was first sent.
#[tactic(auto, using(crate::proofs::Files::File::file_history, crate::proofs::Files::Puts::file_puts))]
pub fn files_are_lawful()
    ensures history { (w : Places) (h : List Step) → StepsOk w h → FileHistory w h }
    ensures puts { (w : Places) (h : List Step) → StepsOk w h → FilePuts w h }
{}
