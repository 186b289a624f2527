//! Nodes put behind others: what stood, then what is put, then whatever comes next.

ghost use Rattle.std.specs.Prelude.{◌≡◌, OnOk, IfOk};
ghost use Rattle.pur_tree.specs.Image.{nodes_of};
ghost use Rattle.pur_tree.specs.Nodes.{plain_elem, bare, Nodes, no_nodes, elem_first, nodes_append, has_no_nodes};

use pur_attrlist::AttrList;
use pur_names::Element;
use pur_tree::{Elem, Node, push_elem};
use std::alloc::{AllocError, Global};

/// Moves nodes behind others, and leaves none where they were.
pub fn move_all(out: &mut Vec<Node>, nodes: &mut Vec<Node>) -> Result<(), AllocError>
    ensures { OnOk result ((more : Nodes) → nodes_append (nodes_of out.new.items) more
        ≡ nodes_append (nodes_of out.old.items) (nodes_append (nodes_of nodes.old.items) more)) }
{
    out.append(nodes)?;
    Ok(())
}

/// Puts nodes behind others.
pub fn push_all(out: &mut Vec<Node>, mut nodes: Vec<Node>) -> Result<(), AllocError>
    ensures { OnOk result ((more : Nodes) → nodes_append (nodes_of out.new.items) more
        ≡ nodes_append (nodes_of out.old.items) (nodes_append (nodes_of nodes.items) more)) }
{
    out.append(&mut nodes)?;
    Ok(())
}

fn are_none(nodes: &[Node]) -> bool
    ensures { result ≡ has_no_nodes (nodes_of nodes.now) }
{
    nodes.is_empty()
}

/// Nodes with others behind them. Where the first are none, the others are handed on.
pub fn chained(mut nodes: Vec<Node>, others: Vec<Node>) -> Result<Vec<Node>, AllocError>
    ensures { IfOk result (λ all. (more : Nodes) → nodes_append (nodes_of all.items) more
        ≡ nodes_append (nodes_of nodes.items) (nodes_append (nodes_of others.items) more)) }
{
    if are_none(&nodes) {
        return Ok(others);
    }
    push_all(&mut nodes, others)?;
    Ok(nodes)
}

/// The same nodes, without room for more of them: a tree keeps what its lists have until it is written.
pub fn without_slack(mut nodes: Vec<Node>) -> Vec<Node>
    ensures { result.items ≡ nodes.items }
{
    nodes.shrink_to_fit();
    nodes
}

/// An element without attributes.
pub fn bare(alloc: Global, name: Element, children: Vec<Node>) -> Elem
    ensures itself { plain_elem result.name result.attrs ≡ bare name }
    ensures children { nodes_of result.children.items ≡ nodes_of children.items }
{
    Elem {
        name,
        attrs: AttrList::new(alloc),
        children: without_slack(children),
    }
}

/// An element alone.
pub fn single(alloc: Global, elem: Elem) -> Result<Vec<Node>, AllocError>
    ensures { IfOk result (λ out. nodes_of out.items ≡ elem_first (plain_elem elem.name elem.attrs) (nodes_of elem.children.items) no_nodes) }
{
    let mut out = Vec::new(alloc);
    push_elem(&mut out, elem)?;
    Ok(out)
}
