//! What the plain machine is asked.

use lu_base::{Fid, Txn, Who};
use lu_msg::{Call, Op};

/// One of the three kinds of act.
#[derive(Debug, Drop)]
pub enum Deed {
    /// An operation of the metadata target.
    Names(Op),
    /// A read, write, cut or flush of a file, whatever its handle. Any other call is refused with EBADF.
    Data(Fid, Call),
    /// A put or cut that reaches the object of one stripe. Any other operation changes nothing.
    Piece(Op),
}

/// An act of a life, under the number of its transaction, 0 where it makes none.
#[derive(Debug, Drop)]
pub struct Act {
    /// The life that acts.
    pub who: Who,
    /// The transaction's number.
    pub number: Txn,
    /// What it does.
    pub deed: Deed,
}
