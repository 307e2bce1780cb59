//! Which locks guard what is known.

ghost use Rattle.std.specs.Prelude.{◌≡◌, ◌==◌, ℕ, Bool};
ghost use Rattle.std.specs.List.{list_any};
ghost use Rattle.lu_base.specs.declared.ids.Cookie.{Cookie as CookieOf};
ghost use Rattle.lu_spec_client.specs.Known.{is_usable};
ghost use Rattle.lu_cache.specs.Usable.{isn't_marked};

use lu_base::{Cookie, Cookies, TargetId};
use lu_held::{Held, LockName};

/// The locks of the metadata target under which facts may be used: those that are held and not called back.
pub trait Guards {
    ghost may_use: { Self → CookieOf → Bool };

    /// Whether the lock with this cookie is held and not called back.
    fn is_usable(&self, cookie: Cookie) -> bool
        ensures usable { result ≡ may_use self.now cookie };
}

/// Whether a lock is among those that are called back.
fn is_marked(marked: &[Cookie], cookie: Cookie) -> bool
    ensures { result ≡ list_any (λ m. m.0 == cookie.0) marked.now }
{
    marked.iter().any(|other| other.0 == cookie.0)
}

/// The cookies of the locks that are called back; all others are held.
impl Guards for Cookies {
    ghost may_use = { isn't_marked };

    fn is_usable(&self, cookie: Cookie) -> bool {
        !is_marked(self.as_slice(), cookie)
    }
}

impl Guards for Held {
    ghost may_use = { λ held cookie. is_usable cookie held.locks };

    fn is_usable(&self, cookie: Cookie) -> bool {
        let name = LockName {
            target: TargetId(0),
            cookie,
        };
        match self.held(name) {
            Some(held) => !held.marked,
            None => false,
        }
    }
}
