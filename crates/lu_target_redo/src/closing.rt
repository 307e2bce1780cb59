//! What the close of a recovery window makes of a service.

ghost use Rattle.std.specs.Prelude.{◌≡◌, ℕ, map, IfOk, OnOk};
ghost use Rattle.lu_window.specs.Shown.{kept_replay};
ghost use Rattle.lu_spec_target.specs.States.{Target};
ghost use Rattle.lu_spec_target.specs.Stored.{last_number};
ghost use Rattle.lu_spec_target.specs.Outcomes.{outcome_of};
ghost use Rattle.lu_target_refines.specs.Journals.{AreRising};
ghost use Rattle.lu_target_redo.specs.Shown.{deed_of, transactions_of, AreRepeatable, Shows};
ghost use Rattle.lu_target_redo.specs.Closes.{Closes};

use super::batches::forget_all;
use super::deeds::{Close, Deeds};
use super::replays::redo;
use lu_base::{Memory, Who};
use lu_service::Service;
use lu_window::KeptReplays;
use std::alloc::Global;

/// Closes a recovery window over what stands on the disk: the kept replays are performed again, in their order, and then
/// the opens of the lives that lose their slots go. Whatever target of the rows closes so, the deeds are those of its
/// outcome, and the service has the contents of that. The replays are of what the service performs, at an object target
/// puts and cuts alone, and their numbers rise, from above all that the service has used. After want of memory the service
/// may have performed the first of them.
pub fn close_window<S: Service>(
    alloc: Global,
    service: &mut S,
    close: Close,
    kept: KeptReplays,
    gone: &[Who],
) -> Result<Deeds, Memory>
    requires repeatable { AreRepeatable S.kind (transactions_of kept) }
    requires rising { AreRising (S.contents service.old).last (transactions_of kept) }
    ensures deeds { IfOk result (λ deeds. (v : Target) (n : ℕ)
        → Closes S.kind close (map kept_replay kept) gone.now (S.contents service.old) n v
        → map deed_of deeds ≡ (outcome_of v close.at).kept) }
    ensures shows { OnOk result ((v : Target) (n : ℕ)
        → Closes S.kind close (map kept_replay kept) gone.now (S.contents service.old) n v
        → Shows S.kind v.setting.osts (last_number (transactions_of kept) n)
        (S.contents service.new) (outcome_of v close.at).disk.contents) }
{
    let deeds = redo(alloc, service, close, kept)?;
    forget_all(service, gone);
    Ok(deeds)
}
