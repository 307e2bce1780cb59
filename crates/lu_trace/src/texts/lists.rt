//! The texts of lists.

ghost use Rattle.std.specs.Prelude.{◌≡◌, ◌++◌, ◌∷◌, ℕ, List, map, OnOk, decimal};
ghost use Rattle.std.specs.List.{join_with_byte};
ghost use Rattle.lu_base.specs.Texts.{pair_text};
ghost use Rattle.lu_base.specs.declared.locks.Lock.{Lock};
ghost use Rattle.lu_trace.specs.Lists.{list_text, seen_text, numbers_text, lock_text, locks_text, layout_text};

use super::values::put_policy;
use lu_base::{Bytes, Lock, Locks, Memory, Name, Numbers, put_number, put_pair};
use lu_layout::Layout;

/// How the items of a list are written.
trait Writes<T> {
    ghost text: { T → List ℕ };

    /// Appends the text of an item.
    fn put(out: &mut Bytes, item: &T) -> Result<(), Memory>
        ensures put { OnOk result (out.new ≡ out.old ++ text item.now) };
}

/// Transactions.
struct Pairs;

impl Writes<u64> for Pairs {
    ghost text = { pair_text };

    fn put(out: &mut Bytes, item: &u64) -> Result<(), Memory> {
        put_pair(out, *item)
    }
}

/// Numbers.
struct Decimals;

impl Writes<u64> for Decimals {
    ghost text = { decimal };

    fn put(out: &mut Bytes, item: &u64) -> Result<(), Memory> {
        put_number(out, *item)
    }
}

impl Writes<u16> for Decimals {
    ghost text = { decimal };

    fn put(out: &mut Bytes, item: &u16) -> Result<(), Memory> {
        put_number(out, u64::from(*item))
    }
}

/// Locks of a reply.
struct ReplyLocks;

impl Writes<Lock> for ReplyLocks {
    ghost text = { lock_text };

    fn put(out: &mut Bytes, item: &Lock) -> Result<(), Memory> {
        put_pair(out, item.cookie.0)?;
        out.push(b':')?;
        put_pair(out, item.resource.fid.0)?;
        out.push(b':')?;
        put_policy(out, item.ask.policy)
    }
}

/// An item, and the rest with commas before them.
fn put_items<T, W: Writes<T>>(out: &mut Bytes, first: &T, rest: &[T]) -> Result<(), Memory>
    ensures put { OnOk result (out.new ≡ out.old ++ join_with_byte 44 (map W.text (first.now ∷ rest.now))) }
{
    W::put(out, first)?;
    for item in rest {
        out.push(b',')?;
        W::put(out, item)?;
    }
    Ok(())
}

/// A list.
fn put_list<T, W: Writes<T>>(out: &mut Bytes, items: &[T]) -> Result<(), Memory>
    ensures put { OnOk result (out.new ≡ out.old ++ list_text W.text items.now) }
{
    match items.split_first() {
        None => out.push(b'-'),
        Some((first, rest)) => put_items::<T, W>(out, first, rest),
    }
}

/// Transactions, as of what an operation has seen.
pub fn put_seen(out: &mut Bytes, seen: &Numbers) -> Result<(), Memory>
    ensures put { OnOk result (out.new ≡ out.old ++ seen_text seen.now) }
{
    put_list::<u64, Pairs>(out, seen.as_slice())
}

/// Numbers, as of the sizes of objects.
pub fn put_numbers(out: &mut Bytes, numbers: &Numbers) -> Result<(), Memory>
    ensures put { OnOk result (out.new ≡ out.old ++ numbers_text numbers.now) }
{
    put_list::<u64, Decimals>(out, numbers.as_slice())
}

/// The locks of a reply.
pub fn put_locks(out: &mut Bytes, locks: &Locks) -> Result<(), Memory>
    ensures put { OnOk result (out.new ≡ out.old ++ locks_text locks.now) }
{
    put_list::<Lock, ReplyLocks>(out, locks.as_slice())
}

/// A layout.
pub fn put_layout(out: &mut Bytes, layout: &Layout) -> Result<(), Memory>
    ensures put { OnOk result (out.new ≡ out.old ++ layout_text layout.now) }
{
    put_number(out, layout.size())?;
    out.push(b':')?;
    match layout.targets().split_first() {
        None => Ok(()),
        Some((first, rest)) => put_items::<u16, Decimals>(out, first, rest),
    }
}

/// A name, and the rest with a byte before each of them.
pub fn put_joined(out: &mut Bytes, first: &Name, rest: &[Name], between: u8) -> Result<(), Memory>
    ensures put { OnOk result (out.new ≡ out.old ++ join_with_byte between (first.now ∷ rest.now)) }
{
    out.extend(first.as_slice())?;
    for name in rest {
        out.push(between)?;
        out.extend(name.as_slice())?;
    }
    Ok(())
}
