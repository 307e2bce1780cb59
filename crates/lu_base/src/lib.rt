//! The vocabulary below everything: identifiers, locks, lists, the texts of values, and the
//! sources and sinks through which the program meets the outside.
#![tactic(auto)]

mod faults;
mod ids;
mod limits;
mod locks;
mod sequence;
mod sink;
mod source;
mod text;
mod values;

pub use faults::{Failed, Memory, ReadError};
pub use ids::{At, Cookie, Fid, Node, Stamp, TargetId, Txn, Who, Xid};
pub use limits::{MOST_CALL_BYTES, MOST_POSITION};
pub use locks::{Ask, Cause, Extent, Lock, Mode, Policy, Resource};
pub use sequence::{
    Bytes, Cookies, Duplicate, Lives, Locks, Name, Names, Numbers, Path, Resources, Sequence,
};
pub use sink::{MemorySink, Sink, StdSink, write_all};
pub use source::{MemorySource, Source, StdSource, read_all};
pub use text::{
    is_name, put_bytes, put_number, put_pair, put_path, read_bytes, read_number, read_path,
    split_at_byte,
};
pub use values::{put_client, put_mode, put_node, put_octal, put_target};
