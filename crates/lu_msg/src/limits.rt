//! How much a client may have under way.

/// The slots of a client, numbered from 0: each has one call that isn't told at a time.
pub const SLOTS: u8 = 4;

/// The tags of a life at a target, numbered from 0: each is that of one request in flight at a time.
pub const TAGS: u8 = 8;
