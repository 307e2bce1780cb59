//! What a target answers to an operation, and what a client tells its user.

use lu_base::{Bytes, Cookie, Duplicate, Extent, Fid, Memory, Names, Numbers, Txn};
use lu_layout::Layout;
use std::alloc::Global;

/// Why a call or an operation is refused, by the names of POSIX.1.
#[derive(Clone, Copy, Debug, PartialEq, Eq)]
pub enum Errno {
    /// No such name.
    ENOENT,
    /// The name is there already.
    EEXIST,
    /// A file stands where a directory is needed.
    ENOTDIR,
    /// A directory stands where a file is needed.
    EISDIR,
    /// The directory isn't empty.
    ENOTEMPTY,
    /// A hard link to a directory.
    EPERM,
    /// A bad layout, or a directory moved below itself.
    EINVAL,
    /// The root can't be removed or renamed.
    EBUSY,
    /// The handle isn't bound, or is bound already.
    EBADF,
    /// A name of more than 255 bytes.
    ENAMETOOLONG,
    /// The life of the client that made the call was evicted.
    EIO,
}

/// An answer: of a target to an operation, or of a client to its user.
#[derive(Debug, PartialEq, Eq, Drop)]
pub enum Answer {
    /// It is done.
    Done,
    /// It is done: of `mkdir` and `create` the new inode, of an `open` that is told the file.
    Made(Fid),
    /// A directory, of `lookup`.
    Dir(Fid),
    /// A file, of `lookup`.
    File(Fid),
    /// A directory with its mode (octal 0 to 7777), of `stat`.
    DirStat {
        fid: Fid,
        mode: u16,
    },
    /// A file with its mode (octal 0 to 7777), its number of names and its layout, of `stat` at the
    /// metadata target.
    FileStat {
        fid: Fid,
        mode: u16,
        links: u64,
        layout: Layout,
    },
    /// A file with its mode (octal 0 to 7777), its number of names and its size in bytes, of a
    /// `stat` that is told.
    FileSize {
        fid: Fid,
        mode: u16,
        links: u64,
        size: u64,
    },
    /// The names in a directory, in the order of their bytes.
    Names(Names),
    /// The layout of a file.
    Layout(Layout),
    /// The file that was opened, the transaction that opened it and the file's layout.
    OpenFile {
        fid: Fid,
        txn: Txn,
        layout: Layout,
    },
    /// The lock that was asked for, the range that it was granted on and the object's size in bytes.
    Granted {
        cookie: Cookie,
        extent: Extent,
        size: u64,
    },
    /// The lock that was asked for waits; a grant follows.
    Waiting(Cookie),
    /// Bytes that were read.
    Content(Bytes),
    /// The size of an object in bytes.
    Size(u64),
    /// A glimpse gives no size, since a PW lock is or was granted whose holder may know it better: take a
    /// lock.
    Lock,
    /// The sizes of a file's objects in bytes, stripe by stripe.
    Sizes(Numbers),
    /// No granted lock of the asker covers what was asked.
    Uncovered,
    /// It is refused, and nothing has changed.
    Refused(Errno),
}

impl Duplicate for Errno {
    fn copy(&self, _alloc: Global) -> Result<Errno, Memory> {
        Ok(*self)
    }
}

impl Duplicate for Answer {
    fn copy(&self, alloc: Global) -> Result<Answer, Memory> {
        match self {
            Answer::Done => Ok(Answer::Done),
            Answer::Made(fid) => Ok(Answer::Made(*fid)),
            Answer::Dir(fid) => Ok(Answer::Dir(*fid)),
            Answer::File(fid) => Ok(Answer::File(*fid)),
            Answer::DirStat { fid, mode } => Ok(Answer::DirStat {
                fid: *fid,
                mode: *mode,
            }),
            Answer::FileStat {
                fid,
                mode,
                links,
                layout,
            } => Ok(Answer::FileStat {
                fid: *fid,
                mode: *mode,
                links: *links,
                layout: *layout,
            }),
            Answer::FileSize {
                fid,
                mode,
                links,
                size,
            } => Ok(Answer::FileSize {
                fid: *fid,
                mode: *mode,
                links: *links,
                size: *size,
            }),
            Answer::Names(names) => Ok(Answer::Names(names.copy(alloc)?)),
            Answer::Layout(layout) => Ok(Answer::Layout(*layout)),
            Answer::OpenFile { fid, txn, layout } => Ok(Answer::OpenFile {
                fid: *fid,
                txn: *txn,
                layout: *layout,
            }),
            Answer::Granted {
                cookie,
                extent,
                size,
            } => Ok(Answer::Granted {
                cookie: *cookie,
                extent: *extent,
                size: *size,
            }),
            Answer::Waiting(cookie) => Ok(Answer::Waiting(*cookie)),
            Answer::Content(bytes) => Ok(Answer::Content(bytes.copy(alloc)?)),
            Answer::Size(size) => Ok(Answer::Size(*size)),
            Answer::Lock => Ok(Answer::Lock),
            Answer::Sizes(sizes) => Ok(Answer::Sizes(sizes.copy(alloc)?)),
            Answer::Uncovered => Ok(Answer::Uncovered),
            Answer::Refused(errno) => Ok(Answer::Refused(*errno)),
        }
    }
}
