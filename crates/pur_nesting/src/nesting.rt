//! Nesting repair, from the leaves up.

ghost use Rattle.std.specs.Prelude.{◌≡◌, true, false, IfOk, OnOk, OnErr, IsOk, if◌then◌else◌, nat_lt, length};
ghost use Rattle.pur_modules.specs.Groups.{is_among};
ghost use Rattle.pur_tree.specs.Forests.{IsForest};
ghost use Rattle.pur_tree.specs.Image.{nodes_of, node_before};
ghost use Rattle.pur_tree.specs.Nodes.{plain_elem, Nodes, nodes_append, no_nodes};
ghost use Rattle.pur_tree.specs.Walks.{walk};
ghost use Rattle.pur_nesting.specs.Nesting.{permits_of, needed_by, vanishes, repair, nested};
ghost use Rattle.pur_nesting.specs.Settled.{IsSettled};
ghost use Rattle.pur_nesting.specs.Tables.{has_child};

use crate::permits::Permits;
use crate::pushing::push_all;
use crate::settled::is_settled;
use crate::tables::repaired_table;
use pur_names::Element;
use pur_settings::Settings;
use pur_tree::{Elem, Forest, Node, Rule, is_table, push_elem, walk_nodes};
use std::alloc::{AllocError, Global};

/// Whether an element must have a child of some kind.
fn needs_a_child(parent: Element) -> bool
    ensures { result ≡ nat_lt 0 (length (needed_by parent)) }
{
    matches!(
        parent,
        Element::Ul
            | Element::Ol
            | Element::Dir
            | Element::Menu
            | Element::Dl
            | Element::Tr
            | Element::Thead
            | Element::Tfoot
            | Element::Tbody
    )
}

/// Whether a child is one of those of which its parent needs one.
fn is_needed(parent: Element, child: Element) -> bool
    ensures { result ≡ is_among (needed_by parent) child }
{
    match parent {
        Element::Ul | Element::Ol | Element::Dir | Element::Menu => matches!(child, Element::Li),
        Element::Dl => matches!(child, Element::Dt | Element::Dd),
        Element::Tr => matches!(child, Element::Th | Element::Td),
        Element::Thead | Element::Tfoot | Element::Tbody => matches!(child, Element::Tr),
        _ => false,
    }
}

fn is_needed_node(parent: Element, node: &Node) -> bool
    ensures { (more : Nodes) → has_child (needed_by parent) (node_before node.now more) ≡ (if result then true else has_child (needed_by parent) more) }
{
    match node {
        Node::Text(_) => false,
        Node::Elem(elem) => is_needed(parent, elem.name),
    }
}

/// Whether one of the children is of those of which the parent needs one.
pub fn has_needed(parent: Element, nodes: &[Node]) -> bool
    ensures { result ≡ has_child (needed_by parent) (nodes_of nodes.now) }
{
    for node in nodes {
        if is_needed_node(parent, node) {
            return true;
        }
    }
    false
}

/// Whether an element must have a child of some kind, and has none.
pub fn vanishes(name: Element, children: &[Node]) -> bool
    ensures { result ≡ vanishes name (nodes_of children.now) }
{
    needs_a_child(name) && !has_needed(name, children)
}

impl Rule for Permits {
    ghost made = { λ permits e kids. repair permits e kids };

    fn put(&self, alloc: Global, out: &mut Vec<Node>, elem: Elem) -> Result<(), AllocError> {
        if is_table(elem.name) {
            let table = repaired_table(alloc, *self, elem)?;
            push_all(out, table)?;
            return Ok(());
        }
        if vanishes(elem.name, &elem.children) {
            return Ok(());
        }
        push_elem(out, elem)?;
        Ok(())
    }
}

/// The nodes, each element repaired when its children are.
fn repair_nodes(alloc: Global, permits: Permits, nodes: Vec<Node>) -> Result<Vec<Node>, AllocError>
    requires { IsForest (nodes_of nodes.items) }
    ensures repaired { IfOk result (λ out. nodes_of out.items ≡ walk (repair permits) (nodes_of nodes.items)) }
    ensures forest { IfOk result (λ out. IsForest (nodes_of out.items)) }
{
    let out = walk_nodes(alloc, &permits, nodes)?;
    Ok(out)
}

/// Repairs the nesting of a forest, each element when its children are repaired: lists without items, rows without cells,
/// and heads, feet and bodies without rows vanish; the parts of each table come into the order of XHTML, and what is
/// surplus in it vanishes; a table that still has no rows gives way to a paragraph of its caption, or vanishes. Texts that
/// become neighbours are joined. What repair puts in, a `p` or a `tbody`, the settings must permit.
///
/// Nodes are moved, and none is copied; each list of children is gone through a fixed number of times. Nodes that need no
/// repair stay as they are, and no memory is taken for them.
///
/// The error is want of memory, and the forest is then empty.
///
/// Source: the third strategy of HTML Purifier.
pub fn fix_nesting(
    alloc: Global,
    settings: &Settings,
    forest: &mut Forest,
) -> Result<(), AllocError>
    ensures nested { OnOk result (nodes_of forest.new ≡ nested (permits_of settings.now) (nodes_of forest.old)) }
    ensures settled { IsSettled (nodes_of forest.old) → IsOk result }
    ensures err { OnErr result (nodes_of forest.new ≡ no_nodes) }
{
    if is_settled(forest.nodes()) {
        return Ok(());
    }
    let permits = Permits::of(settings);
    let nodes = repair_nodes(alloc, permits, forest.take_nodes())?;
    forest.put_nodes(nodes);
    forest.join_texts()
}
