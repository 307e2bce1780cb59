//! Calls that were begun, and what their handles are bound to.

use lu_base::{At, Fid, Txn};
use lu_msg::Call;

/// What a handle stands for.
#[derive(Clone, Copy, Debug)]
pub struct Binding {
    /// The file that was opened.
    pub fid: Fid,
    /// The transaction that opened it; none where the turn that was named has none.
    pub number: Option<Txn>,
}

/// A call that was begun.
#[derive(Clone, Copy, Debug)]
pub struct Begun<'a> {
    /// The turn in which it began.
    pub at: At,
    pub call: &'a Call,
    /// Whether it was bad there: on a handle that wasn't bound, or an `open` of one that was bound or being opened.
    pub bad: bool,
    /// What its handle was bound to there; none for a call that names no handle.
    pub bound: Option<Binding>,
}
