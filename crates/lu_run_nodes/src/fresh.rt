//! New services.

ghost use Rattle.std.specs.Prelude.{◌≡◌, ◌≤◌, IfOk};
ghost use Rattle.lu_target.specs.Shown.{Shows};
ghost use Rattle.lu_spec_target.specs.States.{no_contents};

use lu_base::Memory;
use lu_mdt::Mdt;
use lu_ost::Ost;
use lu_service::Service;
use std::alloc::Global;

/// A service of which a new one can be made.
pub trait Fresh: Service + Drop {
    /// A new one, in a run of so many object storage targets, 1 to 8.
    fn fresh(alloc: Global, osts: u16) -> Result<Self, Memory>
        requires some { 1 ≤ osts }
        requires few { osts ≤ 8 }
        ensures fresh { IfOk result (λ service. Shows Self.kind osts 1 (Self.contents service) no_contents) };
}

impl Fresh for Mdt {
    #[tactic(auto, using(crate::proofs::Beginnings::names_begin))]
    fn fresh(alloc: Global, osts: u16) -> Result<Mdt, Memory> {
        Mdt::new(alloc, osts)
    }
}

impl Fresh for Ost {
    #[tactic(auto, using(crate::proofs::Beginnings::objects_begin))]
    fn fresh(alloc: Global, _osts: u16) -> Result<Ost, Memory> {
        Ok(Ost::new(alloc))
    }
}
