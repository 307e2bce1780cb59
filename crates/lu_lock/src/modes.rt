//! What the modes of locks allow (Wang et al., Understanding Lustre Filesystem Internals, the lock manager).

ghost use Rattle.std.specs.Prelude.{◌≡◌, IsTrue, ◌↔◌};
ghost use Rattle.lu_lock.specs.Modes.{compatible, serves, Serves};

use lu_base::Mode;

/// Whether two locks in these modes may be granted together where they meet.
pub fn compatible(a: Mode, b: Mode) -> bool
    ensures table { result ≡ compatible a b }
    ensures symmetric { result ≡ compatible b a }
{
    match a {
        Mode::EX => b == Mode::NL,
        Mode::PW => matches!(b, Mode::CR | Mode::NL),
        Mode::PR => matches!(b, Mode::PR | Mode::CR | Mode::NL),
        Mode::CW => matches!(b, Mode::CW | Mode::CR | Mode::NL),
        Mode::CR => b != Mode::EX,
        Mode::NL => true,
    }
}

/// Whether a lock held in the one mode does for a use that wants the other.
pub fn serves(held: Mode, wanted: Mode) -> bool
    ensures table { result ≡ serves held wanted }
    ensures rule { IsTrue result ↔ Serves held wanted }
{
    held == wanted || (held == Mode::PW && wanted == Mode::PR)
}
