//! What decides the laws of a trace: one pass over its lines, whatever the law, and tables of what was so far, which
//! several laws look into.
#![tactic(auto)]

mod calls;
mod deaths;
mod evictions;
mod ledgers;
mod lives;
mod passes;
mod present;
mod requests;
mod sendings;
mod turns;

pub use calls::Calls;
pub use deaths::Deaths;
pub use evictions::{Evictions, Gone, gone_in};
pub use ledgers::Ledger;
pub use lives::Lives;
pub use passes::{Judge, first_broken};
pub use present::Present;
pub use requests::Requests;
pub use sendings::{Sending, Sendings};
pub use turns::{is_up_to, rest_of_turn, same_node, same_turn};
