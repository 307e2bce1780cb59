//! One transaction, performed again.

ghost use Rattle.std.specs.Prelude.{◌≡◌, ◌<◌, ◌≤◌, IfOk, OnOk};
ghost use Rattle.lu_service.specs.Contents.{asked};
ghost use Rattle.lu_target_redo.specs.Shown.{IsRepeatable};

use lu_base::{Memory, Txn, Who};
use lu_msg::{Answer, Op};
use lu_service::Service;
use std::alloc::Global;

/// Performs an operation again as the transaction of that number, which is above all numbers used before. After want
/// of memory nothing has changed.
pub(crate) fn perform<S: Service>(
    alloc: Global,
    service: &mut S,
    number: Txn,
    who: Who,
    op: &Op,
) -> Result<Answer, Memory>
    requires repeatable { IsRepeatable S.kind op.now }
    requires above { (S.contents service.old).last < number.0 }
    ensures answer { IfOk result (λ answer. answer
        ≡ S.acts.answer (S.contents service.old) (asked number who op.now)) }
    ensures after { OnOk result (S.contents service.new
        ≡ S.acts.after (S.contents service.old) (asked number who op.now)) }
    ensures last { OnOk result ((S.contents service.new).last ≤ number.0) }
{
    service.apply(alloc, number, who, op)
}
