//! Which scenarios are foreseen. The function does nothing: its contract is a theorem over the definition of the run of a
//! scenario.

ghost use Rattle.lu_scene.specs.declared.scene.Scene.{Scene};
ghost use Rattle.lu_proof_scenes.specs.Quiet.{IsBareScene, AsksNoDisk};
ghost use Rattle.lu_core.specs.Scenes.{AllForeseen};

/// Each scenario that changes no bytes and asks no disk is: no line calls `write` or `cut` or gives a command to a target, and
/// the lines show that no client is evicted.
pub fn quiet_scenes_are_foreseen()
    ensures foreseen { (scene : Scene) → IsBareScene scene → AsksNoDisk scene → AllForeseen scene }
{}
