//! The calls of clients, as the laws see them at each line of a trace: the call that stands in a slot, what each handle is
//! bound to, and the operation that a call is for the metadata target. And where the bytes that reach an object may come
//! from: what each life was told of the layout of a file, what it wrote and cut there, and when each request was first sent;
//! these tables are kept by their keys, and know no line of a trace.
#![tactic(auto)]

mod begun;
mod cuts;
mod handles;
mod kept;
mod layouts;
mod open_calls;
mod operations;
mod origins;
mod sent;
mod transactions;
mod writes;

pub use begun::{Begun, Binding};
pub use kept::is_within;
pub use layouts::Layouts;
pub use open_calls::OpenCalls;
pub use operations::{asks_for, file, operation};
pub use origins::{Carrier, Done};
pub use sent::Sent;
