//! What a call is for the metadata target.

ghost use Rattle.std.specs.Prelude.{◌≡◌, Some, IfOk, IsTrue, ◌↔◌};
ghost use Rattle.std.specs.Option.{option_map};
ghost use Rattle.lu_spec_laws.specs.Words.Calls.{operation, closes, file_of};
ghost use Rattle.lu_judge_calls.specs.Tables.{begun_of, binding_of, stripes_or};

use super::begun::{Begun, Binding};
use lu_base::{Duplicate, Fid, Memory, Path, Txn};
use lu_msg::{Call, Op};
use std::alloc::Global;

/// The stripe size in bytes of a `create` that names none (Lustre Operations Manual, striping).
const DEFAULT_SIZE: u64 = 1 << 20;

/// The number of stripes of a `create` that names none (Lustre Operations Manual, striping).
const DEFAULT_COUNT: i32 = 1;

/// The operation of a `close` of what the handle is bound to; none where it isn't bound or has no transaction.
fn close_of(bound: Option<Binding>) -> Option<Op>
    ensures close { result ≡ closes (option_map binding_of bound) }
{
    let binding = bound?;
    let txn = binding.number?;
    Some(Op::Close {
        txn,
        fid: binding.fid,
    })
}

/// What the call is for the metadata target; none for a call on bytes, `flush`, `glimpse`, and a `close` whose handle has
/// no transaction. It answers want of memory alone.
pub fn operation(alloc: Global, begun: &Begun) -> Result<Option<Op>, Memory>
    ensures operation { IfOk result (λ op. op ≡ operation (begun_of begun.now)) }
{
    match begun.call {
        Call::Lookup(path) => Ok(Some(Op::Lookup(path.copy(alloc)?))),
        Call::Stat(path) => Ok(Some(Op::Stat(path.copy(alloc)?))),
        Call::List(path) => Ok(Some(Op::List(path.copy(alloc)?))),
        Call::Layout(path) => Ok(Some(Op::Layout(path.copy(alloc)?))),
        Call::Mkdir(path) => Ok(Some(Op::Mkdir(path.copy(alloc)?))),
        Call::Create { path, stripes } => {
            let (size, count) = stripes.unwrap_or((DEFAULT_SIZE, DEFAULT_COUNT));
            Ok(Some(Op::Create {
                path: path.copy(alloc)?,
                size,
                count,
            }))
        }
        Call::Link { old, new } => Ok(Some(Op::Link {
            old: old.copy(alloc)?,
            new: new.copy(alloc)?,
        })),
        Call::Unlink(path) => Ok(Some(Op::Unlink(path.copy(alloc)?))),
        Call::Rmdir(path) => Ok(Some(Op::Rmdir(path.copy(alloc)?))),
        Call::Rename { old, new } => Ok(Some(Op::Rename {
            old: old.copy(alloc)?,
            new: new.copy(alloc)?,
        })),
        Call::Chmod { path, mode } => Ok(Some(Op::Chmod {
            path: path.copy(alloc)?,
            mode: *mode,
        })),
        Call::Open { path, .. } => Ok(Some(Op::Open(path.copy(alloc)?))),
        Call::Close(_) => Ok(close_of(begun.bound)),
        _ => Ok(None),
    }
}

/// Whether the paths are one.
fn same_path(a: &Path, b: &Path) -> bool
    ensures same { IsTrue result ↔ (a.now ≡ b.now) }
{
    a == b
}

/// Whether a `create` with these numbers asks for this stripe size and number of stripes.
fn are_stripes(stripes: Option<(u64, i32)>, size: u64, count: i32) -> bool
    ensures same { IsTrue result ↔ ((stripes_or stripes).0 ≡ size) × ((stripes_or stripes).1 ≡ count) }
{
    match stripes {
        Some((some_size, some_count)) => some_size == size && some_count == count,
        None => size == DEFAULT_SIZE && count == DEFAULT_COUNT,
    }
}

/// Whether a `close` of what the handle is bound to is the close of this transaction's open of the file.
fn is_close_of(bound: Option<Binding>, txn: Txn, fid: Fid) -> bool
    ensures close { IsTrue result ↔ (closes (option_map binding_of bound) ≡ Some (Op.Close txn fid)) }
{
    match bound {
        Some(binding) => match binding.number {
            Some(number) => number.0 == txn.0 && binding.fid.0 == fid.0,
            None => false,
        },
        None => false,
    }
}

/// Whether this operation is what the call is for the metadata target.
pub fn asks_for(begun: &Begun, op: &Op) -> bool
    ensures asks { IsTrue result ↔ (operation (begun_of begun.now) ≡ Some op.now) }
{
    match (begun.call, op) {
        (Call::Lookup(path), Op::Lookup(other))
        | (Call::Stat(path), Op::Stat(other))
        | (Call::List(path), Op::List(other))
        | (Call::Layout(path), Op::Layout(other))
        | (Call::Mkdir(path), Op::Mkdir(other))
        | (Call::Unlink(path), Op::Unlink(other))
        | (Call::Rmdir(path), Op::Rmdir(other))
        | (Call::Open { path, .. }, Op::Open(other)) => same_path(path, other),
        (
            Call::Create { path, stripes },
            Op::Create {
                path: other,
                size,
                count,
            },
        ) => { same_path(path, other) && are_stripes(*stripes, *size, *count) }
        (Call::Link { old, new }, Op::Link { old: from, new: to })
        | (Call::Rename { old, new }, Op::Rename { old: from, new: to }) => {
            same_path(old, from) && same_path(new, to)
        }
        (
            Call::Chmod { path, mode },
            Op::Chmod {
                path: other,
                mode: wanted,
            },
        ) => { same_path(path, other) && mode == wanted }
        (Call::Close(_), Op::Close { txn, fid }) => is_close_of(begun.bound, *txn, *fid),
        _ => false,
    }
}

/// The file of a call on a handle, as the handle was bound where the call began.
pub fn file(begun: &Begun) -> Option<Fid>
    ensures file { result ≡ file_of (begun_of begun.now) }
{
    match begun.bound {
        Some(binding) => Some(binding.fid),
        None => None,
    }
}
