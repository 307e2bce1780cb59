//! What holds of each scenario, and of each run of the whole table. Each function does nothing: its contract is a theorem over
//! the definition of a run, or of the run of a scenario.

ghost use Rattle.std.specs.Prelude.{◌≡◌, ◌+◌, false, None};
ghost use Rattle.lu_scene.specs.declared.scene.Scene.{Scene};
ghost use Rattle.lu_spec_entries.specs.Printed.{printed};
ghost use Rattle.lu_spec_run.specs.Runs.{has_failed, IsRun};
ghost use Rattle.lu_spec_run.specs.Scenarios.{Config, Disks, start_fails, Leads, start, head_of, past_of};
ghost use Rattle.lu_spec_run.specs.Limits.{KeepsLimits};
ghost use Rattle.lu_proof_lawful.specs.Covered.Runs.{AllCovered, AllBare};
ghost use Rattle.lu_proof_lawful.specs.Lawful.{Lawful};
ghost use Rattle.lu_proof_scenes.specs.Quiet.{IsBareScene, AsksNoDisk};
ghost use Rattle.lu_spec_laws.specs.Holds.{Holds};
ghost use Rattle.lu_spec_laws.specs.Laws.Acts.{ActsOf};
ghost use Rattle.lu_spec_laws.specs.Laws.History.{HistoryOf};
ghost use Rattle.lu_spec_laws.specs.Orderly.{Orderly};
ghost use Rattle.lu_proof_scenes.specs.Unfailed.{OfUnfailedRuns, OfRunsToFailure, OfAllThatFit, AllAreCovered, GoOn};

/// Whatever a scenario comes to is a run of the whole table, and its trace is lawful, by all laws, whatever bytes it writes,
/// whichever targets crash, boot, recover and close their windows, and whichever call to a disk fails, in a turn or at a target's
/// start: that turn is the last. Where none has failed each line is covered. Where no line's call changes bytes, none begins
/// (`bare`). Where beside that no line gives a command to a target and the lines show that no client is evicted no call has
/// failed, unless one at a target's start: its turns make no other.
pub fn scenes_are_lawful()
    ensures run { (scene : Scene) → KeepsLimits scene → let head = head_of scene.head in (disks : Disks) (c : Config)
        → Leads head disks (start head disks scene) c → IsRun head c.turns }
    ensures covered { (scene : Scene) → KeepsLimits scene → let head = head_of scene.head in (disks : Disks) (c : Config)
        → Leads head disks (start head disks scene) c → has_failed (past_of c) ≡ false → AllCovered (past_of c) }
    ensures lawful { (scene : Scene) → KeepsLimits scene → let head = head_of scene.head in (disks : Disks) (c : Config)
        → Leads head disks (start head disks scene) c → Lawful scene.head.osts (printed (past_of c)) }
    ensures bare { (scene : Scene) → IsBareScene scene → let head = head_of scene.head in (disks : Disks) (c : Config)
        → Leads head disks (start head disks scene) c → has_failed (past_of c) ≡ false → AllBare (past_of c) }
    ensures unfailed { (scene : Scene) → IsBareScene scene → AsksNoDisk scene
        → let head = head_of scene.head in (disks : Disks) (c : Config)
        → Leads head disks (start head disks scene) c → start_fails disks 0 (head.osts + 1) ≡ None
        → has_failed (past_of c) ≡ false }
{}

/// Every run of the whole table in which no disk fails is covered, and its printed trace is lawful, by all seven laws, and
/// orderly: whatever turns come, in whatever order, whoever performs them. The laws of acts and of history hold for all lives that
/// may be out and numbers that may be lost at the end, so far as these fit the run. And one of fewer turns than 2^26 goes on
/// with each turn that comes later and may come: each target has numbers left for it. A run of which a call to a disk fails in
/// the last turn, whichever it is, has a lawful trace too (`failed`).
pub fn every_run_is_lawful()
    ensures covered { AllAreCovered }
    ensures lawful { OfUnfailedRuns (λ osts whole. Lawful osts whole) }
    ensures failed { OfRunsToFailure (λ osts whole. Lawful osts whole) }
    ensures orderly { OfUnfailedRuns (λ osts whole. Orderly osts whole) }
    ensures acts_of { OfAllThatFit (λ out lost osts whole. Holds (ActsOf out lost whole) whole) }
    ensures history_of { OfAllThatFit (λ out lost osts whole. Holds (HistoryOf out lost osts) whole) }
    ensures goes_on { GoOn }
{}
