//! What stands on a disk, performed again over a new service.

ghost use Rattle.std.specs.Prelude.{◌≡◌, ◌≤◌, [], ◌∷◌, OnOk};
ghost use Rattle.lu_spec_target.specs.Stored.{last_number};
ghost use Rattle.lu_target_refines.specs.Journals.{AreRising, AllRising};
ghost use Rattle.lu_target_redo.specs.Shown.{AreRepeatable, AllRepeatable, ShowsDone, ShowsForgotten, ShowsLoaded, ShowsDiskOf};

use super::performing::perform;
use lu_base::{Memory, Who};
use lu_msg::{Batch, Transaction};
use lu_service::Service;
use std::alloc::Global;

/// Performs again what these batches tell, in their order: the transactions of each, and then the opens of its removed
/// lives go. The transactions are of what the service performs, at an object target puts and cuts alone, and their numbers
/// rise, from above all that the service has used. After want of memory the service may have performed the first of them.
pub fn load<S: Service>(alloc: Global, service: &mut S, batches: &[Batch]) -> Result<(), Memory>
    requires repeatable { AllRepeatable S.kind batches.now }
    requires rising { AllRising (S.contents service.old).last batches.now }
    ensures shows { OnOk result (ShowsLoaded S.kind batches.now
        (S.contents service.old) (S.contents service.new)) }
    ensures disk { OnOk result (ShowsDiskOf S.kind batches.now
        (S.contents service.old) (S.contents service.new)) }
{
    for batch in batches {
        perform_all(alloc, service, batch.transactions.as_slice())?;
        forget_all(service, batch.removed.as_slice());
    }
    Ok(())
}

/// Performs these transactions again, in their order.
fn perform_all<S: Service>(
    alloc: Global,
    service: &mut S,
    transactions: &[Transaction],
) -> Result<(), Memory>
    requires repeatable { AreRepeatable S.kind transactions.now }
    requires rising { AreRising (S.contents service.old).last transactions.now }
    ensures shows { OnOk result (ShowsDone S.kind transactions.now
        (S.contents service.old) (S.contents service.new)) }
    ensures last { OnOk result ((S.contents service.new).last
        ≤ last_number transactions.now (S.contents service.old).last) }
{
    for transaction in transactions {
        perform(
            alloc,
            service,
            transaction.txn,
            transaction.who,
            &transaction.op,
        )?;
    }
    Ok(())
}

/// The opens of these lives go.
pub fn forget_all<S: Service>(service: &mut S, gone: &[Who])
    ensures shows { ShowsForgotten S.kind gone.now (S.contents service.old) (S.contents service.new) }
    ensures last { (S.contents service.new).last ≡ (S.contents service.old).last }
{
    for who in gone {
        service.forget(*who);
    }
}
