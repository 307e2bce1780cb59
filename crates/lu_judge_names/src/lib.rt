//! What the transactions of a trace leave: the names of the metadata target, as its standing transactions leave them at each
//! line; what transactions wrote, found by what touches it; what is seen of it, and what operations write and touch.
#![tactic(auto)]

mod contents;
mod events;
mod footprints;
mod index;
mod logs;
mod names;
mod objects;
mod seen;

pub use contents::Contents;
pub use footprints::{touches_at, writes_at};
pub use logs::{Log, Written};
pub use objects::{object_touches, object_writes, range};
pub use seen::SeenLog;
