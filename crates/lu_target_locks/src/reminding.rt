//! What a tick sends again of what is outstanding.

ghost use Rattle.std.specs.Prelude.{◌≡◌, filter_map, IfOk};
ghost use Rattle.lu_target_locks.specs.Reminding.{reminder_of};

use lu_base::{Lock, Memory};
use lu_callback::{Asked, Callbacks, Kind};
use lu_lockspace::Lockspace;
use std::alloc::Global;

/// What is outstanding of a granted lock, to be sent again to its holder.
#[derive(Clone, Copy, Debug, PartialEq, Eq)]
pub struct Reminder {
    pub kind: Kind,
    pub lock: Lock,
}

/// What was asked, where it is outstanding still.
fn remind(calls: &Callbacks, space: &Lockspace, asked: Asked) -> Option<Reminder>
    ensures { result ≡ reminder_of calls.now space.now asked }
{
    if !calls.is_outstanding(asked.cookie, asked.kind) {
        return None;
    }
    let lock = space.find(asked.cookie)?;
    Some(Reminder {
        kind: asked.kind,
        lock,
    })
}

/// Those of all that was asked before.
pub(crate) fn reminders(
    alloc: Global,
    calls: &Callbacks,
    space: &Lockspace,
    before: &[Asked],
) -> Result<Vec<Reminder>, Memory>
    ensures reminders { IfOk result (λ reminders. reminders.items
        ≡ filter_map (reminder_of calls.now space.now) before.now) }
{
    let reminders: Vec<Reminder> = before
        .iter()
        .filter_map(|asked| remind(calls, space, *asked))
        .collect(alloc)?;
    Ok(reminders)
}
