//! The locks that lives hold.

ghost use Rattle.std.specs.Prelude.{◌≡◌, not, None, Some, List, [], ◌∷◌, map, unwrap_or, OnOk};
ghost use Rattle.std.specs.Option.{option_map};
ghost use Rattle.lu_spec_laws.specs.Words.Held.{Held, all_but, with_lock};
ghost use Rattle.lu_judge_windows.specs.Lists.{held_of};
ghost use Rattle.lu_judge_windows.specs.Shown.{is_write, is_none_listed, named, listed_on, listed_of, ShowsHoldings};

use super::lists::{Holding, Lists};
use lu_base::{Cookie, Lock, Memory, Mode, Resource, Who};
use std::alloc::Global;
use std::collections::HashMap;

/// The locks that are held, by target, cookie and life; and in lists, all by target and resource, and those in mode PW by
/// life.
#[derive(Debug, Drop)]
pub(crate) struct Holdings<'a> {
    by_name: HashMap<((u16, u64), (u16, u32)), &'a Lock>,
    by_resource: Lists<'a, (u16, (u64, u16))>,
    writers: Lists<'a, (u16, u32)>,
}

impl<'a> Holdings<'a> {
    /// Nothing is held. It takes no memory yet.
    pub(crate) fn new(alloc: Global) -> Holdings<'a>
        ensures shows { ShowsHoldings result [] }
    {
        Holdings {
            by_name: HashMap::new(alloc),
            by_resource: Lists::new(alloc),
            writers: Lists::new(alloc),
        }
    }

    /// The locks of the target on that resource that are held; without a list none is.
    pub(crate) fn on(&self, target: u16, resource: Resource) -> Option<&Vec<Holding<'a>>>
        ensures { unwrap_or (option_map (λ list. map held_of list.now.items) result) []
            ≡ listed_on self.now target resource }
    {
        self.by_resource
            .get(&(target, (resource.fid.0, resource.stripe)))
    }

    /// Whether the life holds a lock in mode PW.
    pub(crate) fn has_write(&self, who: Who) -> bool
        ensures { result ≡ not (is_none_listed (listed_of self.now who)) }
    {
        match self.writers.get(&(who.client, who.life)) {
            Some(list) => !list.is_empty(),
            None => false,
        }
    }

    /// The life holds the lock of that cookie at the target no longer.
    pub(crate) fn let_go(&mut self, who: Who, target: u16, cookie: Cookie)
        ensures shows { (held : List Held) → ShowsHoldings self.old held
            → ShowsHoldings self.new (all_but who target cookie.0 held) }
        ensures none { named self.new who target cookie.0 ≡ None }
    {
        let name = ((target, cookie.0), (who.client, who.life));
        match self.by_name.remove(&name) {
            Some(lock) => {
                let resource = (target, (lock.resource.fid.0, lock.resource.stripe));
                self.by_resource.remove(&resource, who, target, cookie);
                if is_write(lock) {
                    self.writers
                        .remove(&(who.client, who.life), who, target, cookie);
                }
            }
            None => {}
        }
    }

    /// The life holds the lock as well. After want of memory nothing is known of the tables.
    fn put(&mut self, holding: Holding<'a>) -> Result<(), Memory>
        ensures shows { OnOk result ((held : List Held) → ShowsHoldings self.old held
            → named self.old holding.entry.who holding.entry.target holding.entry.lock.now.cookie.0 ≡ None
            → ShowsHoldings self.new (held_of holding.entry ∷ held)) }
    {
        let who = holding.who;
        let lock = holding.lock;
        let resource = (holding.target, (lock.resource.fid.0, lock.resource.stripe));
        self.by_name.insert(
            ((holding.target, lock.cookie.0), (who.client, who.life)),
            lock,
        )?;
        self.by_resource.add(resource, holding)?;
        if !is_write(lock) {
            return Ok(());
        }
        self.writers.add((who.client, who.life), holding)?;
        Ok(())
    }

    /// The life holds the lock of the target, and no other of its cookie there. After want of memory nothing is known of
    /// the tables.
    pub(crate) fn hold(&mut self, who: Who, target: u16, lock: &'a Lock) -> Result<(), Memory>
        ensures shows { OnOk result ((held : List Held) → ShowsHoldings self.old held
            → ShowsHoldings self.new (with_lock who target (Some lock.now) held)) }
    {
        self.let_go(who, target, lock.cookie);
        self.put(Holding { who, target, lock })?;
        Ok(())
    }
}

/// Whether it is a lock in mode PW.
fn is_write(lock: &Lock) -> bool
    ensures { result ≡ is_write lock.now }
{
    matches!(lock.ask.mode, Mode::PW)
}
