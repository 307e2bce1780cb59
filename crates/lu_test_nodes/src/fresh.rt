//! New services.

ghost use Rattle.std.specs.Prelude.{◌≡◌, ◌≤◌, IfOk};
ghost use Rattle.lu_target.specs.Shown.{Shows};
ghost use Rattle.lu_spec_target.specs.States.{no_contents};

use super::faults::PlayFault;
use lu_mdt::Mdt;
use lu_ost::Ost;
use lu_service::Service;
use std::alloc::Global;

/// A service of which a new one can be made.
pub trait Fresh: Service + Drop {
    /// A new one, over so many object storage targets.
    fn fresh(alloc: Global, osts: u16) -> Result<Self, PlayFault>
        ensures fresh { IfOk result (λ service. Shows Self.kind osts 1 (Self.contents service) no_contents) };
}

impl Fresh for Mdt {
    #[tactic(auto, using(crate::proofs::Beginnings::names_begin))]
    fn fresh(alloc: Global, osts: u16) -> Result<Mdt, PlayFault> {
        if osts == 0 || osts > 8 {
            return Err(PlayFault::Misplaced);
        }
        Ok(Mdt::new(alloc, osts)?)
    }
}

impl Fresh for Ost {
    #[tactic(auto, using(crate::proofs::Beginnings::objects_begin))]
    fn fresh(alloc: Global, _osts: u16) -> Result<Ost, PlayFault> {
        Ok(Ost::new(alloc))
    }
}
