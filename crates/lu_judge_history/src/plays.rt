//! What the plain machine answers and becomes, by what is asked of it.
//!
//! Calls and operations past the limits of well formed traces are none that a trace has: they are refused, and change
//! nothing.

ghost use Rattle.std.specs.Prelude.{◌≡◌, ℕ, IsTrue, ◌↔◌, IfOk, OnOk};
ghost use Rattle.std.specs.Option.{option_map};
ghost use Rattle.lu_base.specs.declared.ids.Txn.{Txn as SpecTxn};
ghost use Rattle.lu_base.specs.declared.ids.Who.{Who as SpecWho};
ghost use Rattle.lu_spec_machine.specs.Machine.{Machine as Plain, answer, next};
ghost use Rattle.lu_spec_laws.specs.Words.Histories.{none, names_act, piece_act, after_item, request_answer};
ghost use Rattle.lu_posix.specs.Limits.{KeepsPiece};
ghost use Rattle.lu_posix.specs.Shown.{Shows};
ghost use Rattle.lu_judge_history.specs.Deeds.{deed_asked, IsAskedWithin, PieceWithin, act_asked};

use super::asked::Asked;
use lu_base::{MOST_POSITION, Memory, Txn, Who};
use lu_judge_calls::is_within;
use lu_msg::{Answer, Errno, Op};
use lu_posix::Machine;
use std::alloc::Global;

/// Whether what the operation puts or cuts ends at or below 2^40, as in each well formed trace.
pub(crate) fn is_piece_within(op: &Op) -> bool
    ensures { IsTrue result ↔ KeepsPiece op.now }
{
    match op {
        Op::Put { offset, bytes, .. } => {
            *offset <= MOST_POSITION && bytes.len() as u64 <= MOST_POSITION - *offset
        }
        Op::Cut { size, .. } => *size <= MOST_POSITION,
        _ => true,
    }
}

/// What the machine tells of what is asked in the act of a call. Nothing changes.
pub(crate) fn told(
    alloc: Global,
    machine: &Machine,
    who: Who,
    asked: &Asked<'_>,
) -> Result<Answer, Memory>
    ensures told { IfOk result (λ told. (osts : ℕ) (m : Plain) → Shows osts machine.now m → IsAskedWithin asked.now
        → told ≡ answer osts m (act_asked who asked.now)) }
{
    match asked {
        Asked::Names(op) => machine.would_answer(alloc, Txn(0), who, op),
        Asked::Data(fid, call) => {
            if is_within(call) {
                machine.would_tell(alloc, *fid, call)
            } else {
                Ok(Answer::Refused(Errno::EBADF))
            }
        }
    }
}

/// The act of a call is performed: under no number an operation on names changes nothing.
pub(crate) fn perform(alloc: Global, machine: &mut Machine, asked: &Asked<'_>) -> Result<(), Memory>
    ensures next { OnOk result ((osts : ℕ) (m : Plain) (who : SpecWho) → Shows osts machine.old m
        → IsAskedWithin asked.now
        → Shows osts machine.new (next osts m (act_asked who asked.now))) }
{
    match asked {
        Asked::Names(_) => Ok(()),
        Asked::Data(fid, call) => {
            if is_within(call) {
                machine.call(alloc, *fid, call)?;
            }
            Ok(())
        }
    }
}

/// What the machine answers to an operation on names of a life, under a number; none where none is asked. Nothing changes.
pub(crate) fn answered(
    alloc: Global,
    machine: &Machine,
    who: Who,
    number: Txn,
    op: Option<&Op>,
) -> Result<Option<Answer>, Memory>
    ensures answer { IfOk result (λ told. (osts : ℕ) (m : Plain) → Shows osts machine.now m
        → told ≡ request_answer osts m who number (option_map (λ o. o.now) op.entry)) }
{
    match op {
        Some(op) => Ok(Some(machine.would_answer(alloc, number, who, op)?)),
        None => Ok(None),
    }
}

/// Performs an operation on names of a life under a number, and answers as the machine does; none where none is asked.
pub(crate) fn perform_names(
    alloc: Global,
    machine: &mut Machine,
    who: Who,
    number: Txn,
    op: Option<&Op>,
) -> Result<Option<Answer>, Memory>
    ensures answer { IfOk result (λ told. (osts : ℕ) (m : Plain) → Shows osts machine.old m
        → told ≡ request_answer osts m who number (option_map (λ o. o.now) op.entry)) }
    ensures next { OnOk result ((osts : ℕ) (m : Plain) → Shows osts machine.old m
        → Shows osts machine.new (after_item osts m (names_act who number (option_map (λ o. o.now) op.entry)))) }
{
    match op {
        Some(op) => Ok(Some(machine.perform(alloc, number, who, op)?)),
        None => Ok(None),
    }
}

/// Performs an operation at an object.
pub(crate) fn perform_piece(
    alloc: Global,
    machine: &mut Machine,
    op: Option<&Op>,
) -> Result<(), Memory>
    ensures next { OnOk result ((osts : ℕ) (m : Plain) (who : SpecWho) (number : SpecTxn) → Shows osts machine.old m
        → PieceWithin (option_map (λ o. o.now) op.entry)
        → Shows osts machine.new (after_item osts m (piece_act who number (option_map (λ o. o.now) op.entry)))) }
{
    match op {
        Some(op) => {
            if is_piece_within(op) {
                machine.reach(alloc, op)?;
            }
            Ok(())
        }
        None => Ok(()),
    }
}
