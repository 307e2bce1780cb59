//! Requests that wait to be answered.

ghost use Rattle.std.specs.Prelude.{◌≡◌, ◌↔◌, ◌++◌, [], ◌∷◌, true, not, filter, length, slice_get, All, OnOk, OnErr, IsTrue};
ghost use Rattle.std.specs.Option.{option_copied};
ghost use Rattle.lu_spec_target.specs.Lives.{is_life};
ghost use Rattle.lu_spec_target.specs.Locks.{same_request};
ghost use Rattle.lu_target_server.specs.Requests.{request_of, is_named};

use lu_base::{Memory, Who, Xid};
use lu_msg::Request;
use std::alloc::Global;
use std::marker::Model;

/// Requests that were taken and aren't answered, in the order in which they came.
#[derive(Debug, Drop)]
pub(crate) struct Requests {
    items: Vec<Request>,
}

impl Model for Requests {
    ghost use Rattle.std.specs.Prelude.{List};
    ghost use Rattle.lu_msg.specs.declared.messages.Request.{Request as SpecRequest};

    ghost Value = { List SpecRequest };

    ghost view = { λ requests. requests.items.items };
}

impl Requests {
    /// None. It takes no memory yet.
    pub(crate) fn new(alloc: Global) -> Requests
        ensures none { result ≡ [] }
    {
        Requests {
            items: Vec::new(alloc),
        }
    }

    /// How many there are.
    pub(crate) fn len(&self) -> usize
        ensures count { result ≡ length self.now }
    {
        self.items.len()
    }

    /// The request at this place, from 0; none past the last.
    pub(crate) fn at(&self, place: usize) -> Option<&Request>
        ensures request { option_copied result ≡ slice_get self.now place }
    {
        self.items.get(place)
    }

    /// The first request of this life and number.
    pub(crate) fn find(&self, who: Who, xid: Xid) -> Option<&Request>
        ensures request { option_copied result ≡ request_of who xid self.now }
    {
        self.items
            .iter()
            .find(|request| who == request.who && xid == request.xid)
    }

    /// Whether each request of the life and number of this one has its tag.
    pub(crate) fn agree(&self, request: &Request) -> bool
        ensures tags { IsTrue result ↔ All (λ q. same_request q request.now ≡ true → q.tag ≡ request.now.tag) self.now }
    {
        for other in &self.items {
            if other.who == request.who && other.xid == request.xid && other.tag != request.tag {
                return false;
            }
        }
        true
    }

    /// One request more.
    pub(crate) fn push(&mut self, request: Request) -> Result<(), Memory>
        ensures added { OnOk result (self.new ≡ self.old ++ request ∷ []) }
        ensures kept { OnErr result (self.new ≡ self.old) }
    {
        self.items.push(request)?;
        Ok(())
    }

    /// Takes away what is of this life and number.
    pub(crate) fn remove(&mut self, who: Who, xid: Xid)
        ensures removed { self.new ≡ filter (λ r. not (is_named who xid r)) self.old }
    {
        self.items
            .retain(|request| !(who == request.who && xid == request.xid));
    }

    /// Takes away all of these lives.
    pub(crate) fn forget(&mut self, gone: &[Who])
        ensures left { self.new ≡ filter (λ r. not (is_life r.who gone.now)) self.old }
    {
        self.items.retain(|request| !gone.contains(&request.who));
    }
}
