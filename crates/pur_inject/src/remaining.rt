//! Lists of nodes that are taken apart, front first.

ghost use Rattle.std.specs.Prelude.{◌≡◌, ◌<◌, length, IfSome, IfNone};
ghost use Rattle.pur_tree.specs.Image.{nodes_of, node_before};
ghost use Rattle.pur_tree.specs.Nodes.{no_nodes};
ghost use Rattle.pur_inject.specs.Private.Remaining.{remaining};

use pur_tree::Node;

/// What remains of a list of nodes. The room of those that are taken is given back now and then, so that a list and what is
/// made of it never stand whole beside each other.
#[derive(Drop)]
pub(crate) struct Remaining {
    /// The nodes that remain, the last in front.
    pub nodes: Vec<Node>,
}

impl Remaining {
    /// All nodes of a list.
    pub(crate) fn of(mut nodes: Vec<Node>) -> Remaining
        ensures { remaining result ≡ nodes_of nodes.items }
    {
        nodes.reverse();
        Remaining { nodes }
    }

    /// Takes the first node.
    pub(crate) fn take_first(&mut self) -> Option<Node>
        ensures some { IfSome result (λ node. remaining self.old ≡ node_before node (remaining self.new)) }
        ensures none { IfNone result (remaining self.old ≡ no_nodes) }
        ensures fewer { IfSome result (λ node. length self.new.nodes.items < length self.old.nodes.items) }
    {
        let first = self.nodes.pop();
        self.give_room_back();
        first
    }

    // Gives the room back that is free, if it is more than an eighth.
    fn give_room_back(&mut self)
        ensures { self.new.nodes.items ≡ self.old.nodes.items }
    {
        if self.nodes.len() < self.nodes.capacity() / 8 * 7 {
            self.nodes.shrink_to_fit();
        }
    }
}
