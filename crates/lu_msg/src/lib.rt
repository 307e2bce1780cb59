//! What clients and targets say to each other: the calls of a client's user, the operations that
//! they become, the answers, the messages that carry both, and what a target commits to its disk.
//!
//! The forms follow Lustre's request processing and recovery (Wang et al., Understanding Lustre
//! Filesystem Internals; Lustre Operations Manual, recovery). The words are this project's profile.
#![tactic(auto)]

mod answers;
mod calls;
mod commits;
mod limits;
mod messages;
mod operations;

pub use answers::{Answer, Errno};
pub use calls::Call;
pub use commits::{Batch, Batches, KeptReplies, KeptReply, Transaction, Transactions};
pub use limits::{SLOTS, TAGS};
pub use messages::{
    GrantNotice, LockReplay, Message, Post, Reply, Request, RequestReplay, Sends, SizeReport,
};
pub use operations::Op;
