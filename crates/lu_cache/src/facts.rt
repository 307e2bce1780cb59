//! What is known of a topic.

ghost use Rattle.std.specs.Prelude.{◌≡◌};
ghost use Rattle.lu_cache.specs.Topics.{kind_of};

use super::topics::Topic;
use lu_base::{Cookie, Fid};
use lu_msg::Answer;

/// The root of the tree.
pub(crate) const ROOT: Fid = Fid(1);

/// What is known of a topic, under the lock with this cookie.
#[derive(Debug, Drop)]
pub(crate) struct Fact {
    pub(crate) topic: Topic,
    pub(crate) cookie: Cookie,
    pub(crate) answer: Answer,
}

/// What the last name of a path leads to.
#[derive(Clone, Copy, Debug, PartialEq, Eq)]
pub(crate) enum Kind {
    Directory,
    File,
}

impl Kind {
    /// What a lookup of such an inode tells.
    pub(crate) fn told(self, fid: Fid) -> Answer
        ensures told { result ≡ kind_of self fid }
    {
        match self {
            Kind::Directory => Answer::Dir(fid),
            Kind::File => Answer::File(fid),
        }
    }
}
