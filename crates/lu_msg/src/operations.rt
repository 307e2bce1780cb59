//! What a client asks of a target.

use lu_base::{Bytes, Cookie, Duplicate, Extent, Fid, Memory, Mode, Path, Resource, Txn};
use std::alloc::Global;

/// An operation: up to `Close` of the metadata target, from `Enqueue` on of an object storage target.
#[derive(Debug, PartialEq, Eq, Drop)]
pub enum Op {
    /// What a path leads to.
    Lookup(Path),
    /// The attributes of what a path leads to.
    Stat(Path),
    /// The names in a directory.
    List(Path),
    /// The layout of a file.
    Layout(Path),
    /// Makes a directory.
    Mkdir(Path),
    /// Makes a file with this stripe size in bytes (0 to 2^32, 0 for the default) and number of
    /// stripes (0 to 1000, 0 for the default, -1 for one on each object storage target).
    Create {
        path: Path,
        size: u64,
        count: i32,
    },
    /// Gives a file a second name.
    Link {
        old: Path,
        new: Path,
    },
    /// Removes a name of a file.
    Unlink(Path),
    /// Removes an empty directory.
    Rmdir(Path),
    /// Moves what the old path leads to.
    Rename {
        old: Path,
        new: Path,
    },
    /// Sets the mode, octal 0 to 7777.
    Chmod {
        path: Path,
        mode: u16,
    },
    /// Opens a file.
    Open(Path),
    /// Ends the open that this transaction made, of this file.
    Close {
        txn: Txn,
        fid: Fid,
    },
    /// Asks for a lock on a range of an object.
    Enqueue {
        resource: Resource,
        mode: Mode,
        extent: Extent,
    },
    /// The bytes of a page of an object, as far as the lock covers it. Pages are counted from 0 and
    /// have 4,096 bytes.
    Get {
        resource: Resource,
        cookie: Cookie,
        page: u64,
    },
    /// Writes bytes of an object from this offset on, under the lock.
    Put {
        resource: Resource,
        cookie: Cookie,
        offset: u64,
        bytes: Bytes,
    },
    /// Makes an object end at this size, in bytes, under the lock.
    Cut {
        resource: Resource,
        cookie: Cookie,
        size: u64,
    },
    /// The size of an object, without a lock.
    Size(Resource),
}

impl Duplicate for Op {
    fn copy(&self, alloc: Global) -> Result<Op, Memory> {
        match self {
            Op::Lookup(path) => Ok(Op::Lookup(path.copy(alloc)?)),
            Op::Stat(path) => Ok(Op::Stat(path.copy(alloc)?)),
            Op::List(path) => Ok(Op::List(path.copy(alloc)?)),
            Op::Layout(path) => Ok(Op::Layout(path.copy(alloc)?)),
            Op::Mkdir(path) => Ok(Op::Mkdir(path.copy(alloc)?)),
            Op::Create { path, size, count } => Ok(Op::Create {
                path: path.copy(alloc)?,
                size: *size,
                count: *count,
            }),
            Op::Link { old, new } => Ok(Op::Link {
                old: old.copy(alloc)?,
                new: new.copy(alloc)?,
            }),
            Op::Unlink(path) => Ok(Op::Unlink(path.copy(alloc)?)),
            Op::Rmdir(path) => Ok(Op::Rmdir(path.copy(alloc)?)),
            Op::Rename { old, new } => Ok(Op::Rename {
                old: old.copy(alloc)?,
                new: new.copy(alloc)?,
            }),
            Op::Chmod { path, mode } => Ok(Op::Chmod {
                path: path.copy(alloc)?,
                mode: *mode,
            }),
            Op::Open(path) => Ok(Op::Open(path.copy(alloc)?)),
            Op::Close { txn, fid } => Ok(Op::Close {
                txn: *txn,
                fid: *fid,
            }),
            Op::Enqueue {
                resource,
                mode,
                extent,
            } => Ok(Op::Enqueue {
                resource: *resource,
                mode: *mode,
                extent: *extent,
            }),
            Op::Get {
                resource,
                cookie,
                page,
            } => Ok(Op::Get {
                resource: *resource,
                cookie: *cookie,
                page: *page,
            }),
            Op::Put {
                resource,
                cookie,
                offset,
                bytes,
            } => Ok(Op::Put {
                resource: *resource,
                cookie: *cookie,
                offset: *offset,
                bytes: bytes.copy(alloc)?,
            }),
            Op::Cut {
                resource,
                cookie,
                size,
            } => Ok(Op::Cut {
                resource: *resource,
                cookie: *cookie,
                size: *size,
            }),
            Op::Size(resource) => Ok(Op::Size(*resource)),
        }
    }
}
