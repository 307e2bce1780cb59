//! Scenarios that keep the limits. Each function does nothing: its contract is a theorem over the definitions of the language
//! of scenarios.

ghost use Rattle.std.specs.Prelude.{ℕ, List};
ghost use Rattle.lu_scene.specs.Grammar.{IsScene};
ghost use Rattle.lu_scene.specs.Storms.{storm_of};
ghost use Rattle.lu_scene.specs.declared.scene.Scene.{Scene};
ghost use Rattle.lu_spec_run.specs.Limits.{KeepsLimits};

/// Each scenario that is read keeps the limits.
pub fn read_scenes_keep_limits()
    ensures limits { (text : List ℕ) (scene : Scene) → IsScene text scene → KeepsLimits scene }
{}

/// Each storm keeps the limits, whatever number it is made from.
pub fn storms_keep_limits()
    ensures limits { (seed : ℕ) → KeepsLimits (storm_of seed) }
{}
