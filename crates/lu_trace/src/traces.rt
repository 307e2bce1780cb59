//! Traces: of a turn, of a node and of a run.

use super::entries::Entries;
use lu_base::Node;
use lu_msg::Sends;

/// What a node does in a turn. The `Send` entries are the `sends`, in order. A message's number
/// isn't known yet: it is 0 in a `Send` and a `Take`.
#[derive(Debug, PartialEq, Eq, Drop)]
pub struct Step {
    pub sends: Sends,
    pub entries: Entries,
}

/// The lines of one node, its turns in rising stamp. The number of a message is `32 * place + code`:
/// `place` counts the sends of its sender from 1, and `code` is the sender's: 0 to 15 of a client,
/// 16 to 24 of a target.
#[derive(Debug, PartialEq, Eq, Drop)]
pub struct NodeJournal {
    pub node: Node,
    pub entries: Entries,
}

/// The lines of a run. The entries of a turn stand together, and the turns in the order of their
/// stamps and nodes, clients before targets.
#[derive(Debug, PartialEq, Eq, Drop)]
pub struct Trace {
    /// The number of object storage targets, 1 to 8.
    pub osts: u16,
    pub entries: Entries,
}

/// How a run ended.
#[derive(Clone, Copy, Debug, PartialEq, Eq)]
pub enum End {
    /// All was performed.
    Done,
    /// One more turn was due, and the limit of turns or messages forbade it.
    Limit,
    /// A disk failed.
    Fault,
}
