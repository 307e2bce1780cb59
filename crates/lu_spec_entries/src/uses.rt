//! What a call on bytes keeps in mind of its locks.

use lu_base::Lock;
use lu_held::Use;

/// A lock in use, and what it was wanted for.
#[derive(Clone, Copy, Debug, PartialEq, Eq)]
pub struct Using {
    pub want: Use,
    pub lock: Lock,
}
