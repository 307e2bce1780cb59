//! The kept replays of a recovery window, performed again.

ghost use Rattle.std.specs.Prelude.{◌≡◌, ◌<◌, ◌≤◌, [], ◌∷◌, map, IfOk, OnOk};
ghost use Rattle.lu_window.specs.Shown.{kept_replay};
ghost use Rattle.lu_target_refines.specs.Contents.{transaction_again};
ghost use Rattle.lu_target_refines.specs.Journals.{AreRising};
ghost use Rattle.lu_target_redo.specs.Shown.{deed_of, transactions_of, IsRepeatable, AreRepeatable, ShowsDone, AreDeeds};

use super::deeds::{Close, Deed, Deeds};
use super::performing::perform;
use lu_base::{Locks, Memory, Numbers, Txn, Who};
use lu_msg::{Answer, Reply};
use lu_replay::Replay;
use lu_service::Service;
use lu_window::{KeptReplay, KeptReplays};
use std::alloc::Global;

/// Performs the kept replays again, in their order, over what stands on the disk: each gets its answer and its written
/// parts anew. They are of what the service performs, at an object target puts and cuts alone, and their numbers rise, from
/// above all that the service has used. After want of memory the service may have performed the first of them.
pub fn redo<S: Service>(
    alloc: Global,
    service: &mut S,
    close: Close,
    kept: KeptReplays,
) -> Result<Deeds, Memory>
    requires repeatable { AreRepeatable S.kind (transactions_of kept) }
    requires rising { AreRising (S.contents service.old).last (transactions_of kept) }
    ensures deeds { IfOk result (λ deeds. AreDeeds S.kind close (map kept_replay kept)
        (S.contents service.old) (map deed_of deeds)) }
    ensures shows { OnOk result (ShowsDone S.kind (transactions_of kept)
        (S.contents service.old) (S.contents service.new)) }
{
    let mut deeds = Deeds::new(alloc);
    for replay in kept.into_vec() {
        let deed = redo_one(alloc, service, close, replay)?;
        deeds.push(deed)?;
    }
    Ok(deeds)
}

/// Performs a kept replay again. After want of memory the service has what it had.
fn redo_one<S: Service>(
    alloc: Global,
    service: &mut S,
    close: Close,
    kept: KeptReplay,
) -> Result<Deed, Memory>
    requires repeatable { IsRepeatable S.kind kept.replay.op }
    requires above { (S.contents service.old).last < kept.replay.number.0 }
    ensures deed { IfOk result (λ deed. AreDeeds S.kind close (kept_replay kept ∷ [])
        (S.contents service.old) (deed_of deed ∷ [])) }
    ensures shows { OnOk result (ShowsDone S.kind (transaction_again (kept_replay kept) ∷ [])
        (S.contents service.old) (S.contents service.new)) }
    ensures last { OnOk result ((S.contents service.new).last ≤ kept.replay.number.0) }
{
    let KeptReplay { who, replay } = kept;
    let Replay {
        number,
        xid,
        tag,
        op,
        seen: _,
    } = replay;
    let writes = service.writes(alloc, who, &op)?;
    let answer = perform(alloc, service, number, who, &op)?;
    let reply = Reply {
        who,
        boot: close.boot,
        xid,
        txn: number,
        committed: close.committed,
        seen: Numbers::new(alloc),
        at: close.at,
        locks: Locks::new(alloc),
        answer,
    };
    Ok(Deed {
        tag,
        op,
        writes,
        reply,
    })
}
