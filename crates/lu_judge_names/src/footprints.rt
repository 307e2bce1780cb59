//! What an operation writes and touches at a target: names at the metadata target, bytes of an object elsewhere.

ghost use Rattle.std.specs.Prelude.{◌≡◌, ℕ, IfOk};
ghost use Rattle.std.specs.Option.{option_map};
ghost use Rattle.lu_spec_laws.specs.Words.Pasts.{Past};
ghost use Rattle.lu_spec_laws.specs.Words.Seen.{writes_of, touches_of};
ghost use Rattle.lu_judge_names.specs.Contents.{ShowsContents};
ghost use Rattle.lu_judge_names.specs.Formed.{IsFormed};

use super::objects::{object_touches, object_writes};
use crate::Contents;
use lu_base::{Memory, Txn, Who};
use lu_msg::{Answer, Op};
use lu_part::Parts;
use std::alloc::Global;

/// What a well formed operation of a life writes at the target, as transaction `number`; without one nothing.
pub fn writes_at(
    alloc: Global,
    contents: &Contents,
    target: u16,
    number: Txn,
    who: Who,
    op: Option<&Op>,
) -> Result<Parts, Memory>
    ensures writes { IfOk result (λ parts. (osts : ℕ) (past : Past) → ShowsContents osts contents.now past
        → IsFormed (option_map (λ o. o.now) op.entry)
        → parts ≡ writes_of osts target past number who (option_map (λ o. o.now) op.entry)) }
{
    if target == 0 {
        return contents.writes(alloc, number, who, op);
    }
    match op {
        Some(op) => object_writes(alloc, op),
        None => Ok(Parts::new(alloc)),
    }
}

/// What a well formed operation of a life touches at the target, where it has this answer; without one nothing.
pub fn touches_at(
    alloc: Global,
    contents: &Contents,
    target: u16,
    number: Txn,
    who: Who,
    op: Option<&Op>,
    answer: &Answer,
) -> Result<Parts, Memory>
    ensures touches { IfOk result (λ parts. (osts : ℕ) (past : Past) → ShowsContents osts contents.now past
        → IsFormed (option_map (λ o. o.now) op.entry)
        → parts ≡ touches_of osts target past number who (option_map (λ o. o.now) op.entry) answer.now) }
{
    if target == 0 {
        return contents.touches(alloc, number, who, op, answer);
    }
    match op {
        Some(op) => object_touches(alloc, op, answer),
        None => Ok(Parts::new(alloc)),
    }
}
