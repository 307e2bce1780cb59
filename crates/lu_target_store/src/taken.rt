//! The newest request of each life and tag, beside the replies that the journal keeps.

ghost use Rattle.std.specs.Prelude.{◌≡◌, OnOk};
ghost use Rattle.lu_target_refines.specs.Journals.{IsEntered, IsAnswered, IsWithout, IsUntaken};
ghost use Rattle.lu_target_store.specs.Taken.{newest_of, taken_of, IsPut};

use lu_base::{Memory, Who, Xid};
use std::alloc::Global;
use std::collections::HashMap;
use std::marker::Model;

/// The newest request of a life and tag that was taken since the target serves.
#[derive(Clone, Copy, Debug, PartialEq, Eq)]
pub(crate) struct Newest {
    pub(crate) xid: Xid,
    /// Whether a request of that life and tag was answered since.
    pub(crate) answered: bool,
}

/// The newest request of each life and tag; none where none was taken.
#[derive(Debug, Drop)]
pub(crate) struct TakenRequests {
    by_tag: HashMap<(Who, u8), Newest>,
}

impl Model for TakenRequests {
    ghost use Rattle.lu_target_store.specs.Taken.{Entries};

    ghost Value = { Entries };

    ghost view = { λ taken. taken.by_tag.entries };
}

impl TakenRequests {
    /// Nothing was taken. It takes no memory yet.
    pub(crate) fn new(alloc: Global) -> TakenRequests
        ensures none { IsUntaken (taken_of result) }
    {
        TakenRequests {
            by_tag: HashMap::new(alloc),
        }
    }

    /// The newest request of this life and tag.
    pub(crate) fn newest(&self, who: Who, tag: u8) -> Option<Newest>
        ensures newest { result ≡ newest_of self.now who tag }
    {
        self.by_tag.get(&(who, tag)).copied()
    }

    /// Puts this one in place of the newest of its life and tag.
    fn put(&mut self, who: Who, tag: u8, newest: Newest) -> Result<(), Memory>
        ensures put { OnOk result (IsPut who tag newest self.old self.new) }
    {
        self.by_tag.insert((who, tag), newest)?;
        Ok(())
    }

    /// A request of this life, tag and number is taken: it isn't answered.
    pub(crate) fn enter(&mut self, who: Who, tag: u8, xid: Xid) -> Result<(), Memory>
        ensures entered { OnOk result (IsEntered who tag xid.0 (taken_of self.old) (taken_of self.new)) }
    {
        let newest = Newest {
            xid,
            answered: false,
        };
        self.put(who, tag, newest)
    }

    /// A request of this life and tag is answered.
    pub(crate) fn answer(&mut self, who: Who, tag: u8) -> Result<(), Memory>
        ensures answered { OnOk result (IsAnswered who tag (taken_of self.old) (taken_of self.new)) }
    {
        let Some(newest) = self.newest(who, tag) else {
            return Ok(());
        };
        let newest = Newest {
            xid: newest.xid,
            answered: true,
        };
        self.put(who, tag, newest)
    }

    /// These lives leave, with all that was taken of them.
    pub(crate) fn forget(&mut self, lives: &[Who])
        ensures without { IsWithout lives.now (taken_of self.old) (taken_of self.new) }
    {
        self.by_tag.retain(|name, _| !lives.contains(&name.0));
    }
}
