//! What facts are about.

ghost use Rattle.std.specs.Prelude.{◌≡◌, IfOk};
ghost use Rattle.lu_cache.specs.declared.topics.Topic.TheVariants as topic;

use lu_base::{Fid, Memory, Name};
use std::alloc::Global;

/// A part of the metadata target's contents of which a client may know something.
#[derive(Debug, PartialEq, Eq, Hash, Drop)]
pub(crate) enum Topic {
    /// A name in a directory.
    Name(Fid, Name),
    /// The names in a directory.
    List(Fid),
    /// An inode's attributes.
    Attr(Fid),
    /// A file's layout.
    Layout(Fid),
}

/// The topic of a name in a directory.
pub(crate) fn of_name(alloc: Global, directory: Fid, name: &Name) -> Result<Topic, Memory>
    ensures name { IfOk result (λ t. t ≡ topic.Name directory name.now) }
{
    Ok(Topic::Name(directory, Name::from_slice(alloc, name.as_slice())?))
}

impl Topic {
    /// The same topic.
    pub(crate) fn copy(&self, alloc: Global) -> Result<Topic, Memory>
        ensures same { IfOk result (λ t. t ≡ self.now) }
    {
        match self {
            Topic::Name(directory, name) => of_name(alloc, *directory, name),
            Topic::List(fid) => Ok(Topic::List(*fid)),
            Topic::Attr(fid) => Ok(Topic::Attr(*fid)),
            Topic::Layout(fid) => Ok(Topic::Layout(*fid)),
        }
    }
}
