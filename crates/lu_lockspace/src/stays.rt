//! Notes of where each life has locks.

ghost use Rattle.std.specs.Prelude.{◌≡◌, ◌<◌, ◌^◌, ◌-◌, true, IfOk, OnOk};
ghost use Rattle.std.specs.List.{list_any};
ghost use Rattle.lu_lockspace.specs.Spaces.{same_resource};
ghost use Rattle.lu_lockspace.specs.Notes.{stay, is_noted, is_waited, AllNoted, HasResources, HasStays};

use lu_base::{Fid, Memory, Resource, Who};
use std::alloc::Global;
use std::collections::BTreeSet;

/// A life and a resource on which it has locks. Those of one life are next to each other.
#[derive(Clone, Copy, Debug, PartialEq, Eq, PartialOrd, Ord, Hash)]
pub(crate) struct Stay {
    pub who: Who,
    pub resource: Resource,
}

/// Notes that a life has locks on a resource. After want of memory nothing has changed.
pub(crate) fn note_stay(
    stays: &mut BTreeSet<Stay>,
    who: Who,
    resource: Resource,
) -> Result<(), Memory>
    ensures noted { OnOk result (is_noted (stay who resource) stays.new.keys ≡ true) }
    ensures others { HasStays stays.old.keys stays.new.keys }
{
    stays.insert(Stay { who, resource })?;
    Ok(())
}

/// Notes that locks wait on a resource. After want of memory nothing has changed.
pub(crate) fn note_waits(waited: &mut BTreeSet<Resource>, resource: Resource) -> Result<(), Memory>
    ensures noted { OnOk result (is_waited resource waited.new.keys ≡ true) }
    ensures others { HasResources waited.old.keys waited.new.keys }
{
    waited.insert(resource)?;
    Ok(())
}

/// The first note that a life may have.
fn first_stay(who: Who) -> Stay
    ensures { result ≡ stay who (record { fid = record { 0 = 0 }; stripe = 0 }) }
{
    Stay {
        who,
        resource: Resource {
            fid: Fid(0),
            stripe: 0,
        },
    }
}

/// What is noted of a life that isn't a client's last, from its first note to the next life's.
fn stays_to_next(alloc: Global, stays: &BTreeSet<Stay>, who: Who) -> Result<Vec<Stay>, Memory>
    requires { who.life < 2 ^ 32 - 1 }
    ensures { IfOk result (λ some. (resource : Resource) → is_noted (stay who resource) stays.now.keys ≡ true
        → is_noted (stay who resource) some.items ≡ true) }
{
    let next = Who {
        client: who.client,
        life: who.life + 1,
    };
    let some = stays
        .range(first_stay(who)..first_stay(next))
        .map(|stay| *stay)
        .collect(alloc)?;
    Ok(some)
}

/// What is noted of a life, and of what comes after it.
fn stays_from(alloc: Global, stays: &BTreeSet<Stay>, who: Who) -> Result<Vec<Stay>, Memory>
    ensures { IfOk result (λ some. (resource : Resource) → is_noted (stay who resource) stays.now.keys ≡ true
        → is_noted (stay who resource) some.items ≡ true) }
{
    let some = stays
        .range(first_stay(who)..)
        .map(|stay| *stay)
        .collect(alloc)?;
    Ok(some)
}

/// What is noted of a life; of a client's last life that there is, of later clients too.
fn stays_in(alloc: Global, stays: &BTreeSet<Stay>, who: Who) -> Result<Vec<Stay>, Memory>
    ensures { IfOk result (λ some. (resource : Resource) → is_noted (stay who resource) stays.now.keys ≡ true
        → is_noted (stay who resource) some.items ≡ true) }
{
    if who.life < u32::MAX {
        stays_to_next(alloc, stays, who)
    } else {
        stays_from(alloc, stays, who)
    }
}

/// What is noted of these lives.
pub(crate) fn stays_of(
    alloc: Global,
    stays: &BTreeSet<Stay>,
    lives: &[Who],
) -> Result<Vec<Stay>, Memory>
    ensures { IfOk result (λ some. AllNoted lives.now stays.now.keys some.items) }
{
    let mut some: Vec<Stay> = Vec::new(alloc);
    for who in lives {
        some.extend_from_slice(&stays_in(alloc, stays, *who)?)?;
    }
    Ok(some)
}

/// The resources of these notes, each once and in order.
pub(crate) fn resources_of(alloc: Global, stays: &[Stay]) -> Result<BTreeSet<Resource>, Memory>
    ensures { IfOk result (λ resources. (resource : Resource)
        → list_any (λ stay. same_resource resource stay.resource) stays.now ≡ true
        → is_waited resource resources.keys ≡ true) }
{
    let mut resources: BTreeSet<Resource> = BTreeSet::new(alloc);
    for stay in stays {
        resources.insert(stay.resource)?;
    }
    Ok(resources)
}
