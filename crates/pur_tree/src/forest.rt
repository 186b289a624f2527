ghost use Rattle.std.specs.Prelude.{◌≡◌, OnOk, OnErr, IsOk, IsTrue};
ghost use Rattle.pur_tree.specs.Forests.{IsForest};
ghost use Rattle.pur_tree.specs.Image.{nodes_of};
ghost use Rattle.pur_tree.specs.Nodes.{no_nodes, is_joined};
ghost use Rattle.pur_tree.specs.Walks.{joined_nodes};

use crate::joining::{are_joined, join_nodes};
use crate::node::Node;
use std::alloc::{AllocError, Global};
use std::marker::Model;
use std::mem;

/// A list of nodes in document order: a fragment of a document.
///
/// In every forest no element's level passes 128, EMPTY elements have no children, and no text is empty.
#[derive(Drop)]
pub struct Forest {
    nodes: Vec<Node>,
}

impl Model for Forest {
    ghost use Rattle.std.specs.Prelude.{List};
    ghost use Rattle.std.specs.Coded.{codes};
    ghost use Rattle.pur_tree.specs.declared.node.Node.{Node};
    ghost use Rattle.pur_tree.specs.contracts.node.Node as n;
    ghost use Rattle.pur_tree.specs.Forests.{IsForest};
    ghost use Rattle.pur_tree.specs.Image.{nodes_of};

    ghost Value = { List Node };

    ghost coded = { Prim.hlevel (codes, n.the_row.coded) };

    ghost view = { λ f. f.nodes.items };

    ghost invariant = { λ f. IsForest (nodes_of f.nodes.items) };
}

impl Forest {
    /// The forest without nodes. It takes no memory.
    pub fn new(alloc: Global) -> Forest
        ensures { nodes_of result ≡ no_nodes }
    {
        Forest {
            nodes: Vec::new(alloc),
        }
    }

    /// The nodes, in document order.
    pub fn nodes(&self) -> &[Node]
        ensures nodes { nodes_of result.now ≡ nodes_of self.now }
        ensures forest { IsForest (nodes_of self.now) }
    {
        &self.nodes
    }

    /// Whether no texts are neighbours, at any depth.
    pub fn is_joined(&self) -> bool
        ensures { result ≡ is_joined (nodes_of self.now) }
    {
        are_joined(&self.nodes)
    }

    /// Joins neighbouring texts, at every depth. Where there are none nothing is done, and no memory is taken.
    ///
    /// Fails only where memory is wanting, and the forest is then empty.
    pub fn join_texts(&mut self) -> Result<(), AllocError>
        ensures ok { OnOk result (nodes_of self.new ≡ joined_nodes (nodes_of self.old)) }
        ensures err { OnErr result (nodes_of self.new ≡ no_nodes) }
        ensures settled { IsTrue (is_joined (nodes_of self.old)) → IsOk result }
    {
        if are_joined(&self.nodes) {
            return Ok(());
        }
        let alloc = *self.nodes.allocator();
        let nodes = mem::replace(&mut self.nodes, Vec::new(alloc));
        self.nodes = join_nodes(alloc, nodes)?;
        Ok(())
    }

    /// Moves the nodes out, and leaves an empty forest. It takes no memory.
    pub fn take_nodes(&mut self) -> Vec<Node>
        ensures taken { nodes_of result.items ≡ nodes_of self.old }
        ensures forest { IsForest (nodes_of result.items) }
        ensures left { nodes_of self.new ≡ no_nodes }
    {
        let alloc = *self.nodes.allocator();
        mem::replace(&mut self.nodes, Vec::new(alloc))
    }

    /// Moves nodes in, which must meet what every forest keeps; the forest must be empty. It takes no memory.
    pub fn put_nodes(&mut self, nodes: Vec<Node>)
        requires empty { nodes_of self.old ≡ no_nodes }
        requires forest { IsForest (nodes_of nodes.items) }
        ensures { nodes_of self.new ≡ nodes_of nodes.items }
    {
        self.nodes = nodes;
    }

    /// A forest of these nodes, which must meet what every forest keeps.
    pub(crate) fn from_nodes(nodes: Vec<Node>) -> Forest
        requires { IsForest (nodes_of nodes.items) }
        ensures { nodes_of result ≡ nodes_of nodes.items }
    {
        Forest { nodes }
    }
}
