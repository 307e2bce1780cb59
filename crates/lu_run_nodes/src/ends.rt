//! The disks of a run that ends.

ghost use Rattle.std.specs.Prelude.{◌≡◌, ◌++◌, All, IsSome, map, reverse, OnOk};
ghost use Rattle.lu_run_nodes.specs.Disks.{HaveDisks, disk_or_none, disks_of};
ghost use Rattle.lu_run_nodes.specs.States.{disk_in};

use super::nodes::Nodes;
use super::targets::TargetSeat;
use lu_base::Memory;
use lu_disk::Disk;
use lu_ost::Ost;

impl<D: Disk + Drop> Nodes<D> {
    /// The disks of the targets go to the end of a list, in the other order: that of the last object storage target first,
    /// that of the metadata target last. A target that is up goes down.
    pub fn give_back(self, disks: &mut Vec<D>) -> Result<(), Memory>
        requires kept { HaveDisks self }
        ensures given { OnOk result (map (λ d. record { batches = D.batches d; faults = D.faults d }) disks.new.items
            ≡ map (λ d. record { batches = D.batches d; faults = D.faults d }) disks.old.items
            ++ reverse (disks_of self)) }
    {
        give_objects(self.objects, disks)?;
        disks.push(self.names.into_disk())?;
        Ok(())
    }
}

/// The same of the object storage targets.
fn give_objects<D: Disk + Drop>(
    objects: Vec<TargetSeat<Ost, D>>,
    disks: &mut Vec<D>,
) -> Result<(), Memory>
    requires kept { All (λ seat. IsSome (disk_in seat)) objects.items }
    ensures given { OnOk result (map (λ d. record { batches = D.batches d; faults = D.faults d }) disks.new.items
        ≡ map (λ d. record { batches = D.batches d; faults = D.faults d }) disks.old.items
        ++ reverse (map (λ seat. disk_or_none (disk_in seat)) objects.items)) }
{
    let mut seats = objects;
    while let Some(seat) = seats.pop() {
        disks.push(seat.into_disk())?;
    }
    Ok(())
}
