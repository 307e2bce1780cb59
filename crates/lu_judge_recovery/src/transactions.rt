//! Transactions: their numbers, and what they saw.

ghost use Rattle.std.specs.Prelude.{◌≡◌, IfOk, IsTrue, ◌↔◌};
ghost use Rattle.lu_spec_laws.specs.Words.Pasts.{Past};
ghost use Rattle.lu_spec_laws.specs.Laws.Recovery.{request_sees, TransactionAt};
ghost use Rattle.lu_judge_recovery.specs.Known.{ShowsKnown};

use super::dues::are_same;
use super::known::Known;
use lu_base::{Memory, Numbers, Txn, Who, Xid};
use lu_msg::Answer;

/// Whether a transaction of the target, next, has a number above all earlier ones and of the target's boot, and names the
/// numbers that it saw.
pub fn allows_transaction(
    known: &Known<'_>,
    target: u16,
    number: Txn,
    who: Who,
    xid: Xid,
    seen: &Numbers,
    answer: &Answer,
) -> Result<bool, Memory>
    ensures decided { IfOk result (λ holds. (past : Past) → ShowsKnown known.now past → IsTrue holds
        ↔ TransactionAt target past number.0 seen.now
        (request_sees known.now.osts target past number who xid.0 answer.now)) }
{
    if number.0 <= known.windows.greatest(target) {
        return Ok(false);
    }
    if number.0 / (1 << 32) != u64::from(known.windows.boot(target)) {
        return Ok(false);
    }
    let due = known.request_sees(target, number, who, xid, answer)?;
    Ok(are_same(seen, &due))
}
