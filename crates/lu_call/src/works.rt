//! What a call on bytes does.

use lu_base::{Bytes, Fid, Numbers, Txn};
use lu_held::Use;
use lu_layout::Layout;
use lu_spec_entries::Using;
use std::collections::VecDeque;

/// The file of a handle.
#[derive(Clone, Copy, Debug)]
pub struct HandleFile {
    pub fid: Fid,
    /// The transaction that opened it.
    pub number: Txn,
    pub layout: Layout,
}

/// What a call on bytes does. Positions, counts and sizes are in bytes.
#[derive(Debug, Drop)]
pub enum Kind {
    /// A read that asks for the locks on its bytes alone.
    Narrow { offset: u64, count: u64 },
    /// A read that asks for locks to the end, since a narrow one hasn't reached its last byte.
    Wide { offset: u64, count: u64 },
    Writes { offset: u64, bytes: Bytes },
    /// The file ends at this size.
    Cuts { size: u64 },
    /// The file's size is told beside its mode (octal 0 to 7777) and its number of names.
    Stats { mode: u16, links: u64 },
    /// How long each stripe's object is; the sizes so far.
    Glimpses { sizes: Numbers },
}

/// A call on bytes: its file, the locks in use, and those still wanted, stripe by stripe.
#[derive(Debug, Drop)]
pub struct Work {
    pub kind: Kind,
    pub fid: Fid,
    pub layout: Layout,
    pub used: Vec<Using>,
    pub left: VecDeque<Use>,
}
