//! What the user of a client asks for.

use lu_base::{Bytes, Duplicate, Memory, Path};
use std::alloc::Global;

/// A call on a client. Handles are 0 to 15; positions and sizes are in bytes, at most 2^40.
#[derive(Debug, PartialEq, Eq, Drop)]
pub enum Call {
    /// What a path leads to.
    Lookup(Path),
    /// The attributes of what a path leads to.
    Stat(Path),
    /// The names in a directory.
    List(Path),
    /// The layout of a file.
    Layout(Path),
    /// Makes a directory.
    Mkdir(Path),
    /// Makes a file: with the default layout, or with this stripe size in bytes (0 to 2^32, 0 for
    /// the default) and number of stripes (0 to 1000, 0 for the default, -1 for one on each object
    /// storage target).
    Create {
        path: Path,
        stripes: Option<(u64, i32)>,
    },
    /// Gives a file a second name.
    Link {
        old: Path,
        new: Path,
    },
    /// Removes a name of a file.
    Unlink(Path),
    /// Removes an empty directory.
    Rmdir(Path),
    /// Moves what the old path leads to.
    Rename {
        old: Path,
        new: Path,
    },
    /// Sets the mode, octal 0 to 7777.
    Chmod {
        path: Path,
        mode: u16,
    },
    /// Opens a file under a handle.
    Open {
        handle: u8,
        path: Path,
    },
    /// Ends the open of a handle.
    Close(u8),
    /// Reads this many bytes (1 to 65,536) from this position on.
    Read {
        handle: u8,
        offset: u64,
        length: u64,
    },
    /// Writes these bytes (1 to 65,536) from this position on.
    Write {
        handle: u8,
        offset: u64,
        bytes: Bytes,
    },
    /// Makes the file end at this size.
    Cut {
        handle: u8,
        size: u64,
    },
    /// Writes back what the client has changed.
    Flush(u8),
    /// The sizes of the file's objects, with a lock only on an object whose target asks for it.
    Glimpse(u8),
}

impl Duplicate for Call {
    fn copy(&self, alloc: Global) -> Result<Call, Memory> {
        match self {
            Call::Lookup(path) => Ok(Call::Lookup(path.copy(alloc)?)),
            Call::Stat(path) => Ok(Call::Stat(path.copy(alloc)?)),
            Call::List(path) => Ok(Call::List(path.copy(alloc)?)),
            Call::Layout(path) => Ok(Call::Layout(path.copy(alloc)?)),
            Call::Mkdir(path) => Ok(Call::Mkdir(path.copy(alloc)?)),
            Call::Create { path, stripes } => Ok(Call::Create {
                path: path.copy(alloc)?,
                stripes: *stripes,
            }),
            Call::Link { old, new } => Ok(Call::Link {
                old: old.copy(alloc)?,
                new: new.copy(alloc)?,
            }),
            Call::Unlink(path) => Ok(Call::Unlink(path.copy(alloc)?)),
            Call::Rmdir(path) => Ok(Call::Rmdir(path.copy(alloc)?)),
            Call::Rename { old, new } => Ok(Call::Rename {
                old: old.copy(alloc)?,
                new: new.copy(alloc)?,
            }),
            Call::Chmod { path, mode } => Ok(Call::Chmod {
                path: path.copy(alloc)?,
                mode: *mode,
            }),
            Call::Open { handle, path } => Ok(Call::Open {
                handle: *handle,
                path: path.copy(alloc)?,
            }),
            Call::Close(handle) => Ok(Call::Close(*handle)),
            Call::Read {
                handle,
                offset,
                length,
            } => Ok(Call::Read {
                handle: *handle,
                offset: *offset,
                length: *length,
            }),
            Call::Write {
                handle,
                offset,
                bytes,
            } => Ok(Call::Write {
                handle: *handle,
                offset: *offset,
                bytes: bytes.copy(alloc)?,
            }),
            Call::Cut { handle, size } => Ok(Call::Cut {
                handle: *handle,
                size: *size,
            }),
            Call::Flush(handle) => Ok(Call::Flush(*handle)),
            Call::Glimpse(handle) => Ok(Call::Glimpse(*handle)),
        }
    }
}
