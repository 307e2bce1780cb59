//! For whom the holder of a lock was asked how long its object is.

ghost use Rattle.std.specs.Prelude.{◌≡◌, map, IfOk};
ghost use Rattle.lu_base.specs.declared.locks.Lock.{Lock as SpecLock};
ghost use Rattle.lu_spec_entries.specs.Carried.{Glimpse};
ghost use Rattle.lu_spec_target.specs.Glimpses.{glimpses_of};
ghost use Rattle.lu_spec_target.specs.States.{Target};
ghost use Rattle.lu_target_locks.specs.declared.departing.Asker.{Asker as SpecAsker};
ghost use Rattle.lu_target_locks.specs.Departing.{asker_of};
ghost use Rattle.lu_target_locks.specs.Servers.{Shows};

use super::departing::{Asker, all_askers};
use super::server::LockServer;
use lu_base::{Cookie, Memory, Sequence};
use std::alloc::Global;

impl LockServer {
    /// For whom the holder of this lock was asked how long its object is, in the order of asking.
    pub fn askers(&self, alloc: Global, cookie: Cookie) -> Result<Sequence<Asker>, Memory>
        ensures askers { IfOk result (λ askers. (v : Target) (l : SpecLock) → Shows self.now v → l.cookie ≡ cookie
            → askers ≡ map {A = Glimpse} {B = SpecAsker} asker_of (glimpses_of l v.glimpses)) }
    {
        let kinds = self.calls.kinds(alloc, cookie)?;
        Ok(Sequence::from(all_askers(alloc, kinds.as_slice(), &[])?))
    }
}
