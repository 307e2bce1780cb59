//! Numbers that are kept for the locks of objects: sizes, or the greatest offsets that were shown.

ghost use Rattle.std.specs.Prelude.{◌≡◌, ◌∷◌, [], map, filter, IfOk, OnOk, OnErr, Option, Some, None};
ghost use Rattle.lu_spec_client.specs.Caches.{noted, with_note, without_note, grown, grown_notes};
ghost use Rattle.lu_cache.specs.Kept.{grown_one, Fits};

use super::filing::Filing;
use super::numbers::next_number;
use lu_base::{Cookie, Memory, Resource};
use lu_spec_entries::Flush;
use std::alloc::Global;
use std::cmp::max;
use std::collections::BTreeMap;
use std::marker::Model;

/// A number that is kept for a lock of an object.
#[derive(Clone, Copy, Debug, PartialEq, Eq)]
pub(crate) struct Note {
    resource: Resource,
    cookie: Cookie,
    number: u64,
}

/// The notes, each lock's once, the last written first.
#[derive(Debug, Drop)]
pub(crate) struct Notes {
    /// The notes by number; one written later has a lesser number.
    log: BTreeMap<u64, Note>,
    /// The number of each object's notes by lock.
    objects: Filing<Resource>,
}

impl Model for Notes {
    ghost use Rattle.std.specs.Prelude.{List};
    ghost use Rattle.lu_spec_client.specs.Caches.{Note as RowNote};
    ghost use Rattle.lu_cache.specs.Kept.{notes_of, AreNoted};

    ghost Value = { List RowNote };

    ghost view = { λ n. notes_of n.log.entries };

    ghost invariant = { λ n. AreNoted n.log.entries n.objects };
}

impl Note {
    /// The same once the object was changed.
    fn grown(self, resource: Resource, change: &Flush) -> Note
        requires fits { Fits change.now }
        ensures { result ≡ grown_one resource change.now self }
    {
        if self.resource != resource {
            return self;
        }
        let number = match change {
            Flush::Cut(size) => *size,
            Flush::Put(offset, bytes) => max(self.number, *offset + bytes.len() as u64),
        };
        Note { number, ..self }
    }
}

impl Notes {
    /// No note. It takes no memory yet.
    pub(crate) fn new(alloc: Global) -> Notes
        ensures empty { result ≡ [] }
    {
        Notes {
            log: BTreeMap::new(alloc),
            objects: Filing::new(alloc),
        }
    }

    /// The number that is kept for a lock of an object.
    pub(crate) fn of(&self, resource: Resource, cookie: Cookie) -> Option<u64>
        ensures noted { result ≡ noted resource cookie self.now }
    {
        let place = self.objects.number(&resource, cookie)?;
        let note = self.log.get(&place)?;
        Some(note.number)
    }

    /// Keeps a number for a lock of an object, in place of one that was kept. After want of memory nothing has changed.
    pub(crate) fn keep(
        &mut self,
        resource: Resource,
        cookie: Cookie,
        number: u64,
    ) -> Result<(), Memory>
        ensures kept { OnOk result (self.new ≡ with_note resource cookie number self.old) }
        ensures same { OnErr result (self.new ≡ self.old) }
    {
        let note = Note {
            resource,
            cookie,
            number,
        };
        let place = next_number(&self.log)?;
        self.log.insert(place, note)?;
        match self.objects.file(resource, cookie, place) {
            Ok(None) => Ok(()),
            Ok(Some(before)) => {
                self.log.remove(&before);
                Ok(())
            }
            Err(error) => {
                self.log.remove(&place);
                Err(error)
            }
        }
    }

    /// Keeps nothing for a lock of an object any more.
    pub(crate) fn forget(&mut self, resource: Resource, cookie: Cookie)
        ensures forgotten { self.new ≡ without_note resource cookie self.old }
    {
        let Some(place) = self.objects.take_away(&resource, cookie) else {
            return;
        };
        self.log.remove(&place);
    }

    /// Makes the numbers that are kept for an object those after a change of it.
    pub(crate) fn grow(&mut self, resource: Resource, change: &Flush)
        requires fits { Fits change.now }
        ensures grown { self.new ≡ grown_notes resource change.now self.old }
    {
        self.log.retain(|_, note| {
            *note = note.grown(resource, change);
            true
        });
    }
}
