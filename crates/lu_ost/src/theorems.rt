//! What holds of every service of objects beside the laws of its trait. The functions do nothing: their contracts are
//! the laws.

ghost use Rattle.lu_service.specs.declared.services.Kind.TheVariants.{Ost};
ghost use Rattle.lu_service.specs.Objects.{objects, bare};
ghost use Rattle.lu_service.specs.Removal.{Removes};
ghost use Rattle.lu_ost.specs.Footprints.{OthersStay, NewFromOld, ForgetLeavesAll};

/// What an operation leaves, part by part: the bytes that meet nothing that it writes; and each byte after it depends
/// on the operation and on that byte before it alone. A life that is forgotten changes nothing.
pub fn footprints()
    ensures others { OthersStay }
    ensures written { NewFromOld }
    ensures forgetting { ForgetLeavesAll }
{}

/// Transactions can be taken out of all that a service of objects has performed, as a recovery does that lost them:
/// where no remaining one touched what an earlier one of them wrote, the next operation and a read come out the same,
/// if they touch nothing that they wrote.
pub fn removal()
    ensures removes { Removes objects Ost bare }
{}
