//! The inode bits of locks (Wang et al., Understanding Lustre Filesystem Internals, the lock manager; the
//! numbers, and what each bit guards, are this project's profile).

/// The names that lead to an inode.
pub const LOOKUP: u8 = 1;

/// An inode's attributes, and a directory's names.
pub const UPDATE: u8 = 2;

/// A file's layout.
pub const LAYOUT: u8 = 4;
