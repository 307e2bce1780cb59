//! Nodes and turns, compared.

ghost use Rattle.std.specs.Prelude.{◌≡◌, IsTrue, ◌↔◌};
ghost use Rattle.lu_spec_laws.specs.Words.Pasts.{same_node, same_turn, NodeUpTo, UpTo};
ghost use Rattle.lu_judge_pass.specs.Places.{turn_of};

use lu_base::{At, Node};
use lu_trace::Line;

/// Whether both are one node.
pub fn same_node(a: Node, b: Node) -> bool
    ensures { result ≡ same_node a b }
{
    match b {
        Node::Client(client) => match a {
            Node::Client(other) => other == client,
            Node::Target(_) => false,
        },
        Node::Target(target) => match a {
            Node::Client(_) => false,
            Node::Target(other) => other == target,
        },
    }
}

/// Whether the node is the other one or stands before it: clients stand before targets, each by their numbers.
fn is_node_up_to(a: Node, b: Node) -> bool
    ensures { IsTrue result ↔ NodeUpTo a b }
{
    match a {
        Node::Client(client) => match b {
            Node::Client(other) => client <= other,
            Node::Target(_) => true,
        },
        Node::Target(target) => match b {
            Node::Client(_) => false,
            Node::Target(other) => target <= other,
        },
    }
}

/// Whether the turn is the other one or stands before it: turns stand by their stamps, and at one stamp by their nodes,
/// clients before targets, each by their numbers.
pub fn is_up_to(a: At, b: At) -> bool
    ensures { IsTrue result ↔ UpTo a b }
{
    if a.stamp.0 < b.stamp.0 {
        return true;
    }
    a.stamp.0 == b.stamp.0 && is_node_up_to(a.node, b.node)
}

/// Whether both are one turn.
pub fn same_turn(a: At, b: At) -> bool
    ensures { result ≡ same_turn a b }
{
    a.stamp.0 == b.stamp.0 && same_node(a.node, b.node)
}

/// The lines that follow in this turn, up to the first line of another one.
pub fn rest_of_turn<'a>(at: At, later: &'a [Line]) -> &'a [Line]
    ensures { result.now ≡ turn_of at later.now }
{
    let mut count = 0;
    while count < later.len() && same_turn(later[count].at, at) {
        count += 1;
    }
    &later[..count]
}
