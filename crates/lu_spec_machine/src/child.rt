//! What a name leads to.

use lu_base::Fid;

/// What a name in a directory leads to: an inode and its kind.
#[derive(Clone, Copy, Debug, PartialEq, Eq)]
pub enum Child {
    /// A directory.
    Dir(Fid),
    /// A file.
    File(Fid),
}
