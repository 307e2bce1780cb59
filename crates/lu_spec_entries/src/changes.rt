//! Changes of an object that a client has made and not written back.

ghost use Rattle.std.specs.Prelude.{◌≡◌};

use lu_base::Bytes;
use lu_spec_bytes::Marked;

/// A byte that a client has written, and whether it is in flight: it was sent in a request that isn't answered, and
/// wasn't touched since.
#[derive(Clone, Copy, Debug, PartialEq, Eq)]
pub struct Dirty {
    pub byte: u8,
    pub flies: bool,
}

impl Marked for Dirty {
    ghost marked = { λ d. d.flies };

    fn is_marked(&self) -> bool {
        self.flies
    }
}

/// What one request makes of an object.
#[derive(Debug, PartialEq, Eq, Drop)]
pub enum Flush {
    /// The object ends at this size, in bytes.
    Cut(u64),
    /// These bytes stand from this offset on.
    Put(u64, Bytes),
}
