//! Transactions as a journal keeps them, each with what it writes and its reply.

ghost use Rattle.std.specs.Prelude.{◌≡◌, List, IfOk};
ghost use Rattle.std.specs.List.{filter_map};
ghost use Rattle.lu_txn.specs.Logs.{meets_written, is_seen, seen_at};

use lu_msg::{Reply, Transaction};
use lu_part::{Part, Parts, meets};
use std::alloc::{AllocError, Global};
use std::collections::VecDeque;

/// A transaction, the parts of the target's contents that it writes, and its reply.
#[derive(Debug, Drop)]
pub struct Logged {
    pub transaction: Transaction,
    pub writes: Parts,
    pub reply: Reply,
}

impl Logged {
    /// What it writes.
    pub(crate) fn into_writes(self) -> Parts {
        self.writes
    }
}

/// Whether this part meets one of those written.
fn meets_written(writes: &[Part], part: &Part) -> bool
    ensures { result ≡ meets_written writes.now part.now }
{
    writes.iter().any(|written| meets(part, written))
}

/// Whether what was touched meets what this transaction writes.
fn is_seen(logged: &Logged, touched: &Parts) -> bool
    ensures { result ≡ is_seen touched.now logged.now }
{
    touched
        .as_slice()
        .iter()
        .any(|part| meets_written(logged.writes.as_slice(), part))
}

/// The numbers of the transactions at these places that are seen by what touches these parts. The first one
/// stands at place `first`.
pub(crate) fn seen_among(
    alloc: Global,
    transactions: &VecDeque<Logged>,
    first: usize,
    touched: &Parts,
    places: &[usize],
) -> Result<Vec<u64>, AllocError>
    ensures { IfOk result (λ numbers.
        numbers.items ≡ filter_map (seen_at touched.now first transactions.now.items) places.now) }
{
    places
        .iter()
        .filter_map(|place| seen_at(transactions, first, touched, *place))
        .collect(alloc)
}

/// The number of the transaction at this place, where what was touched meets what it writes; none where
/// it doesn't, or no transaction stands there.
fn seen_at(
    transactions: &VecDeque<Logged>,
    first: usize,
    touched: &Parts,
    place: usize,
) -> Option<u64>
    ensures { result ≡ seen_at touched.now first transactions.now.items place }
{
    let logged = transactions.get(place.checked_sub(first)?)?;
    if is_seen(logged, touched) {
        Some(logged.transaction.txn.0)
    } else {
        None
    }
}
