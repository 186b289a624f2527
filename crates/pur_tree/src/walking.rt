//! Nodes gone through from the leaves up, by a rule.

ghost use Rattle.std.specs.Prelude.{◌≡◌, OnOk, IfOk};
ghost use Rattle.pur_tree.specs.Image.{nodes_of};
ghost use Rattle.pur_tree.specs.Nodes.{PlainElem, Nodes, plain_elem, nodes_append};
ghost use Rattle.pur_tree.specs.Walks.{walk};

use crate::joining::push_text_node;
use crate::node::{Elem, Node};
use crate::room::{with_room, without_slack};
use std::alloc::{AllocError, Global};

/// What stands in the place of an element. It is asked for each element after its children were gone through.
pub trait Rule {
    ghost made: { Self → PlainElem → Nodes → Nodes };

    /// Puts what stands in the element's place behind nodes. The error is want of memory.
    fn put(&self, alloc: Global, out: &mut Vec<Node>, elem: Elem) -> Result<(), AllocError>
        ensures { OnOk result ((more : Nodes) → nodes_append (nodes_of out.new.items) more
            ≡ nodes_append (nodes_of out.old.items) (nodes_append (made self.now (plain_elem elem.name elem.attrs) (nodes_of elem.children.items)) more)) };
}

/// The nodes gone through from the leaves up. They are moved, and none is copied. The error is want of memory.
pub fn walk_nodes<R: Rule>(
    alloc: Global,
    rule: &R,
    nodes: Vec<Node>,
) -> Result<Vec<Node>, AllocError>
    ensures { IfOk result (λ out. nodes_of out.items ≡ walk (R.made rule.now) (nodes_of nodes.items)) }
{
    let mut out = with_room(alloc, nodes.len())?;
    for node in nodes {
        match node {
            Node::Text(text) => push_text_node(&mut out, text)?,
            Node::Elem(elem) => {
                let Elem {
                    name,
                    attrs,
                    children,
                } = elem;
                let children = walk_nodes(alloc, rule, children)?;
                rule.put(
                    alloc,
                    &mut out,
                    Elem {
                        name,
                        attrs,
                        children,
                    },
                )?;
            }
        }
    }
    Ok(without_slack(out))
}
