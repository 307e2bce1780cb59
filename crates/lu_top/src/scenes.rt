//! The scenario that a command line asks for.

ghost use Rattle.std.specs.Prelude.{◌≡◌, ◌≢◌, ◌⊎◌, ℕ, List, Ok, Err, IfOk};
ghost use Rattle.lu_base.specs.Faults.{Rose, CameMore};
ghost use Rattle.lu_scene.specs.Lines.{lines_of};
ghost use Rattle.lu_scene.specs.Grammar.{IsScene, IsFirstFault};
ghost use Rattle.lu_scene.specs.Storms.{storm_of};
ghost use Rattle.lu_scene.specs.declared.scene.Scene.{Scene as SceneOf};
ghost use Rattle.lu_scene.specs.declared.faults.Fault.{Fault as FaultOf};
ghost use Rattle.lu_top.specs.Asked.{most_scene_bytes, WasRead, IsGiven, IsSceneBy, IsRefusal};

use super::forms::Performance;
use lu_base::{Memory, ReadError, Source, read_all};
use lu_scene::{Fault, Scene, SceneFault, read_scene, storm};
use std::alloc::Global;

/// The most bytes that a scenario has.
const MOST_SCENE_BYTES: usize = 1048576;

/// Why there is no scenario.
#[derive(Clone, Copy, Debug)]
pub(crate) enum Refusal {
    /// The source failed.
    ReadFault,
    /// The source gave more bytes than a scenario has.
    TooLong,
    /// The bytes are no scenario: the first bad line, counted from 1, and its first fault.
    Bad { line: u64, fault: Fault },
    /// Want of memory.
    Memory,
}

/// The scenario of a performance: the one that the source has, or the storm of the number.
pub(crate) fn scene_of<S: Source>(
    alloc: Global,
    performance: Performance,
    source: &mut S,
) -> Result<Scene, Refusal>
    ensures scene { IfOk result (IsSceneBy performance (S.left source.old) (S.left source.new)) }
    ensures bad { (line : ℕ) (fault : FaultOf) → result ≡ Err (Refusal.Bad line fault)
        → WasRead most_scene_bytes (S.left source.old) (S.left source.new)
        (λ text. IsFirstFault (lines_of text) line fault) }
    ensures too_long { result ≡ Err Refusal.TooLong
        → CameMore (S.left source.old) (S.left source.new) most_scene_bytes }
    ensures read_fault { result ≡ Err Refusal.ReadFault → Rose (S.faults source.old) (S.faults source.new) }
    ensures steady { result ≢ Err Refusal.ReadFault → S.faults source.new ≡ S.faults source.old }
    // Where the source meets no fault, the answer is that of its bytes, unless memory runs out.
    ensures only { (text : List ℕ) (scene : SceneOf) → performance ≡ Performance.Play
        → IsGiven most_scene_bytes (S.left source.old) (S.faults source.old) (S.faults source.new) text
        → IsScene text scene → (result ≡ Ok scene) ⊎ (result ≡ Err Refusal.Memory) }
    ensures refused { (text : List ℕ) → performance ≡ Performance.Play
        → IsGiven most_scene_bytes (S.left source.old) (S.faults source.old) (S.faults source.new) text
        → ((scene : SceneOf) → ¬ IsScene text scene) → IsRefusal result }
    // Of a storm nothing is read.
    ensures unread { (seed : ℕ) → performance ≡ Performance.Storm seed → source.new ≡ source.old }
    ensures storm { (seed : ℕ) → performance ≡ Performance.Storm seed
        → (result ≡ Ok (storm_of seed)) ⊎ (result ≡ Err Refusal.Memory) }
{
    match performance {
        Performance::Play => read_from(alloc, source),
        Performance::Storm(seed) => match storm(alloc, seed) {
            Ok(scene) => Ok(scene),
            Err(Memory) => Err(Refusal::Memory),
        },
    }
}

/// The scenario that the source has.
fn read_from<S: Source>(alloc: Global, source: &mut S) -> Result<Scene, Refusal>
    ensures scene { IfOk result (λ scene. WasRead most_scene_bytes (S.left source.old) (S.left source.new)
        (λ text. IsScene text scene)) }
    ensures bad { (line : ℕ) (fault : FaultOf) → result ≡ Err (Refusal.Bad line fault)
        → WasRead most_scene_bytes (S.left source.old) (S.left source.new)
        (λ text. IsFirstFault (lines_of text) line fault) }
    ensures too_long { result ≡ Err Refusal.TooLong
        → CameMore (S.left source.old) (S.left source.new) most_scene_bytes }
    ensures read_fault { result ≡ Err Refusal.ReadFault → Rose (S.faults source.old) (S.faults source.new) }
    ensures steady { result ≢ Err Refusal.ReadFault → S.faults source.new ≡ S.faults source.old }
    ensures only { (text : List ℕ) (scene : SceneOf)
        → IsGiven most_scene_bytes (S.left source.old) (S.faults source.old) (S.faults source.new) text
        → IsScene text scene → (result ≡ Ok scene) ⊎ (result ≡ Err Refusal.Memory) }
    ensures refused { (text : List ℕ)
        → IsGiven most_scene_bytes (S.left source.old) (S.faults source.old) (S.faults source.new) text
        → ((scene : SceneOf) → ¬ IsScene text scene) → IsRefusal result }
{
    let text = match read_all(alloc, source, MOST_SCENE_BYTES) {
        Ok(text) => text,
        Err(ReadError::ReadFault) => return Err(Refusal::ReadFault),
        Err(ReadError::TooLong) => return Err(Refusal::TooLong),
        Err(ReadError::Memory) => return Err(Refusal::Memory),
    };
    match read_scene(alloc, text.as_slice()) {
        Ok(scene) => Ok(scene),
        Err(SceneFault::Bad { line, fault }) => Err(Refusal::Bad { line, fault }),
        Err(SceneFault::Memory) => Err(Refusal::Memory),
    }
}
