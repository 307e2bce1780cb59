//! Scenarios as values.

use lu_base::{Duplicate, Memory, Node, Sequence, TargetId};
use lu_msg::Call;
use std::alloc::Global;

/// What a scenario says first: who takes part, and which limits hold.
#[derive(Clone, Copy, Debug, PartialEq, Eq)]
pub struct Head {
    /// The number of clients, 1 to 16; 1 by default.
    pub clients: u16,
    /// The number of object storage targets, 1 to 8; 1 by default.
    pub osts: u16,
    /// After how many ticks a client that doesn't answer is evicted, 1 to 1,000; 8 by default.
    pub expire: u64,
    /// The most changed bytes that a client holds, 4,096 to 2^30; 2^20 by default.
    pub dirty: u64,
    /// The most unused locks that a client holds, 1 to 100,000; 64 by default.
    pub unused: u32,
    /// The most rounds of a run, 1 to 1,000,000; 1,000,000 by default.
    pub rounds: u64,
    /// The most requests in flight from a client to a target, 1 to 8; 1 by default.
    pub flight: u16,
}

/// A line of a scenario: one step that is performed.
#[derive(Debug, PartialEq, Eq, Drop)]
pub enum SceneLine {
    /// A client begins a call on a slot, 0 to 3.
    Call { client: u16, slot: u8, call: Call },
    /// Turns are made until nothing is left to do.
    Run,
    /// At most this many turns are made, 1 to 65,536.
    RunSome(u64),
    /// The message of this number, 1 to 1,000,000, comes, also again.
    Deliver(u64),
    /// The message of this number, 1 to 1,000,000, is thrown away.
    Lose(u64),
    /// Time passes at a node.
    Tick(Node),
    /// A target commits all its transactions.
    Commit(TargetId),
    /// A target commits this many of its transactions, 1 to 65,536.
    CommitSome { target: TargetId, count: u64 },
    /// A target goes down.
    Crash(TargetId),
    /// A target comes up.
    Boot(TargetId),
    /// A target closes its recovery window.
    Close(TargetId),
    /// A client is gone for good.
    Die(u16),
}

/// The lines of a scenario.
pub type Lines = Sequence<SceneLine>;

/// A scenario: its head and its lines.
#[derive(Debug, PartialEq, Eq, Drop)]
pub struct Scene {
    pub head: Head,
    pub lines: Lines,
}

impl Duplicate for SceneLine {
    fn copy(&self, alloc: Global) -> Result<SceneLine, Memory> {
        match self {
            SceneLine::Call { client, slot, call } => Ok(SceneLine::Call {
                client: *client,
                slot: *slot,
                call: call.copy(alloc)?,
            }),
            SceneLine::Run => Ok(SceneLine::Run),
            SceneLine::RunSome(turns) => Ok(SceneLine::RunSome(*turns)),
            SceneLine::Deliver(number) => Ok(SceneLine::Deliver(*number)),
            SceneLine::Lose(number) => Ok(SceneLine::Lose(*number)),
            SceneLine::Tick(node) => Ok(SceneLine::Tick(*node)),
            SceneLine::Commit(target) => Ok(SceneLine::Commit(*target)),
            SceneLine::CommitSome { target, count } => Ok(SceneLine::CommitSome {
                target: *target,
                count: *count,
            }),
            SceneLine::Crash(target) => Ok(SceneLine::Crash(*target)),
            SceneLine::Boot(target) => Ok(SceneLine::Boot(*target)),
            SceneLine::Close(target) => Ok(SceneLine::Close(*target)),
            SceneLine::Die(client) => Ok(SceneLine::Die(*client)),
        }
    }
}

impl Duplicate for Scene {
    fn copy(&self, alloc: Global) -> Result<Scene, Memory> {
        Ok(Scene {
            head: self.head,
            lines: self.lines.copy(alloc)?,
        })
    }
}
