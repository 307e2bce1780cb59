//! The names of locks, in order.

ghost use Rattle.std.specs.Prelude.{◌≡◌};
ghost use Rattle.lu_held.specs.Names.{is_before};

use lu_base::{Cookie, TargetId};

/// What names a lock among all: its target, and its cookie there. Names are in order by target, then by cookie.
#[derive(Clone, Copy, Debug, PartialEq, Eq, PartialOrd, Ord, Hash)]
pub struct LockName {
    pub target: TargetId,
    pub cookie: Cookie,
}

impl LockName {
    /// Whether it comes before another.
    pub(crate) fn is_before(&self, other: LockName) -> bool
        ensures { result ≡ is_before self.now other }
    {
        self.target.0 < other.target.0
            || (self.target.0 == other.target.0 && self.cookie.0 < other.cookie.0)
    }
}
