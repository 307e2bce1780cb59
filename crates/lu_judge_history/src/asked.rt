//! What a call asks of the plain machine.

ghost use Rattle.std.specs.Prelude.{◌≡◌, IfOk};
ghost use Rattle.std.specs.Option.{option_map};
ghost use Rattle.lu_judge_calls.specs.Tables.{begun_of};
ghost use Rattle.lu_spec_machine.specs.declared.acts.Deed.TheVariants as deed;
ghost use Rattle.lu_spec_laws.specs.Words.Calls.{operation, file_of};
ghost use Rattle.lu_spec_laws.specs.Words.Histories.{deed_on, data_deed};
ghost use Rattle.lu_judge_calls.specs.Marks.{IsWithin};
ghost use Rattle.lu_judge_history.specs.Deeds.{deed_asked, AreWithin};

use lu_base::{Fid, Memory};
use lu_judge_calls::{Begun, file, operation};
use lu_msg::{Call, Op};
use std::alloc::Global;

/// What is asked of the machine: an operation on names, or a call on the bytes of a file.
#[derive(Debug, Drop)]
pub(crate) enum Asked<'a> {
    Names(Op),
    Data(Fid, &'a Call),
}

/// The call on the bytes of the file of its handle; none where its handle isn't bound.
fn data<'a>(begun: &Begun<'a>) -> Option<Asked<'a>>
    ensures deed { option_map deed_asked result ≡ data_deed begun.now.call.now (file_of (begun_of begun.now)) }
    ensures within { IsWithin begun.now.call.now → AreWithin result }
{
    match file(begun) {
        Some(fid) => Some(Asked::Data(fid, begun.call)),
        None => None,
    }
}

/// The operation on names that the call is, if it is one.
fn names<'a>(alloc: Global, begun: &Begun<'a>) -> Result<Option<Asked<'a>>, Memory>
    ensures deed { IfOk result (λ asked. option_map deed_asked asked
        ≡ option_map deed.Names (operation (begun_of begun.now))) }
    ensures within { IfOk result AreWithin }
{
    match operation(alloc, begun)? {
        Some(op) => Ok(Some(Asked::Names(op))),
        None => Ok(None),
    }
}

/// What a call that was begun asks of the machine: a call on bytes and a `flush` name the file of their handle, a
/// `glimpse` asks nothing, and any other is an operation on names.
pub(crate) fn asked_by<'a>(alloc: Global, begun: &Begun<'a>) -> Result<Option<Asked<'a>>, Memory>
    ensures deed { IfOk result (λ asked. option_map deed_asked asked
        ≡ deed_on (begun_of begun.now) begun.now.call.now) }
    ensures within { IfOk result (λ asked. IsWithin begun.now.call.now → AreWithin asked) }
{
    match begun.call {
        Call::Read { .. } => Ok(data(begun)),
        Call::Write { .. } => Ok(data(begun)),
        Call::Cut { .. } => Ok(data(begun)),
        Call::Flush(_) => Ok(data(begun)),
        Call::Glimpse(_) => Ok(None),
        _ => names(alloc, begun),
    }
}
