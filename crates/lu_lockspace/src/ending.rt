//! How all locks of some lives are taken away: the new queues are made first, and then take the places of the
//! old ones, which needs no memory.

ghost use Rattle.std.specs.Prelude.{◌≡◌, IfOk};
ghost use Rattle.lu_queue.specs.Queues.{without_lives, AreGranted, IsQueue};
ghost use Rattle.lu_lockspace.specs.Entries.{at, AreRising};
ghost use Rattle.std.specs.Map.{keys_of};
ghost use Rattle.std.specs.List.Sorted.{IsStrictlySortedBy};
ghost use Rattle.std.specs.Ordering.{nat_cmp};
ghost use Rattle.lu_lockspace.specs.Ending.{AllEnded, AllThere, AllReplaced, taken, taken_on_all, AreGone};
ghost use Rattle.lu_lockspace.specs.Notes.{AllFewer};

use super::listing::taken_in;
use super::noted::Noted;
use lu_base::{Cookie, Memory, Resource, Who};
use lu_queue::{Grant, Grants, Queue};
use std::alloc::Global;
use std::collections::{BTreeMap, VecDeque};

/// The queue of a resource without the locks of these lives, once all is granted that may be then, and what
/// was granted.
fn ended_on(
    alloc: Global,
    queues: &Noted,
    lives: &[Who],
    resource: Resource,
) -> Result<(Queue, Grants), Memory>
    ensures granted { IfOk result (λ new. AreGranted (without_lives lives.now (at resource queues.now)) new.1 new.0) }
    ensures lawful { IfOk result (λ new. IsQueue new.0) }
{
    match queues.of(resource) {
        Some(queue) => queue.ended(alloc, lives),
        None => Queue::new(alloc).ended(alloc, lives),
    }
}

/// The queues of these resources without the locks of these lives, once all is granted that may be then, and
/// what was granted, resource by resource.
pub(crate) fn ended(
    alloc: Global,
    queues: &Noted,
    lives: &[Who],
    resources: &[Resource],
) -> Result<(VecDeque<(Resource, Queue)>, Grants), Memory>
    ensures resources { IfOk result (λ new. keys_of new.0.items ≡ resources.now) }
    ensures ended { IfOk result (λ new. AllEnded lives.now queues.now new.0.items new.1) }
{
    let mut ended = VecDeque::new(alloc);
    let mut grants: Vec<Grant> = Vec::new(alloc);
    for resource in resources {
        let (queue, first) = ended_on(alloc, queues, lives, *resource)?;
        grants.extend_from_slice(first.as_slice())?;
        ended.push_back((*resource, queue))?;
    }
    Ok((ended, Grants::from(grants)))
}

/// Puts these queues in the places of those of their resources, one after another.
pub(crate) fn replace_all(queues: &mut Noted, mut ended: VecDeque<(Resource, Queue)>)
    requires there { AllThere queues.old (keys_of ended.items) }
    requires fewer { AllFewer ended.items queues.old }
    requires rising { AreRising queues.old }
    ensures replaced { AllReplaced ended.items queues.old queues.new }
    ensures rising { AreRising queues.new }
{
    while let Some((resource, queue)) = ended.pop_front() {
        queues.replace(resource, queue);
    }
}

/// The cookies of the locks of these lives on a resource.
fn taken_on(
    alloc: Global,
    queues: &Noted,
    lives: &[Who],
    resource: Resource,
) -> Result<Vec<Cookie>, Memory>
    ensures { IfOk result (λ cookies. cookies.items ≡ taken lives.now (at resource queues.now)) }
{
    match queues.of(resource) {
        Some(queue) => taken_in(alloc, queue, lives),
        None => Ok(Vec::new(alloc)),
    }
}

/// The cookies of the locks of these lives on these resources.
pub(crate) fn taken(
    alloc: Global,
    queues: &Noted,
    lives: &[Who],
    resources: &[Resource],
) -> Result<Vec<Cookie>, Memory>
    ensures { IfOk result (λ cookies. cookies.items ≡ taken_on_all lives.now resources.now queues.now) }
{
    let mut cookies: Vec<Cookie> = Vec::new(alloc);
    for resource in resources {
        cookies.extend_from_slice(&taken_on(alloc, queues, lives, *resource)?)?;
    }
    Ok(cookies)
}

/// Forgets the places of these cookies.
pub(crate) fn forget(places: &mut BTreeMap<Cookie, Resource>, cookies: &[Cookie])
    ensures gone { AreGone cookies.now places.old.entries places.new.entries }
    ensures ordered { IsStrictlySortedBy (λ a b. nat_cmp a.0 b.0) (keys_of places.new.entries) }
{
    for cookie in cookies {
        places.remove(cookie);
    }
    let _ = places.len();
}
