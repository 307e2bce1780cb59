//! What holds of every service of names beside the laws of its trait. The functions do nothing: their contracts are
//! the laws.

ghost use Rattle.std.specs.Prelude.{ℕ};
ghost use Rattle.lu_service.specs.declared.services.Kind.TheVariants.{Mdt};
ghost use Rattle.lu_service.specs.Names.{names, fresh};
ghost use Rattle.lu_service.specs.Removal.{Removes};
ghost use Rattle.lu_mdt.specs.Footprints.{OthersStay, NewFromOld, ForgetDropsOpens};

/// What an operation leaves, part by part: outside what it writes all but opens, and parts of an inode that it makes
/// or removes; and what it writes depends on what it touches and on what stood there before. A life that is forgotten
/// loses its opens, and with them go only files that have neither a name nor an open.
pub fn footprints()
    ensures others { OthersStay }
    ensures written { NewFromOld }
    ensures forgetting { ForgetDropsOpens }
{}

/// Transactions can be taken out of all that a service of names has performed, as a recovery does that lost them:
/// where no remaining one touched what an earlier one of them wrote, the next operation comes out the same, if it
/// touches nothing that they wrote.
pub fn removal()
    ensures removes { (osts : ℕ) → Removes names Mdt (fresh osts) }
{}
