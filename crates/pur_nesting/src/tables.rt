//! A table whose parts are put in order.

ghost use Rattle.std.specs.Prelude.{◌≡◌, ◌&&◌, not, true, false, IfOk, OnOk, if◌then◌else◌};
ghost use Rattle.std.specs.Str.{chars};
ghost use Rattle.pur_text.specs.Characters.{is_blank};
ghost use Rattle.pur_tree.specs.Image.{nodes_of, node_before};
ghost use Rattle.pur_tree.specs.Nodes.{plain_elem, Nodes, no_nodes, elem_first, nodes_append, has_no_nodes};
ghost use Rattle.pur_nesting.specs.Private.Grouping.{before_bodies, stack};
ghost use Rattle.pur_nesting.specs.Tables.{are_blank, as_bodies, of_one_kind, table, table_of_parts, paragraph_of, without_bodies, repaired_table};

use crate::bodies::{as_bodies, of_one_kind};
use crate::parts::{Parts, grouped};
use crate::permits::Permits;
use crate::pushing::{bare, chained, move_all, single, without_slack};
use pur_attrlist::AttrList;
use pur_names::Element;
use pur_text::is_space;
use pur_tree::{Elem, Node};
use std::alloc::{AllocError, Global};
use std::mem;

/// A table of its parts, in their order; heads and feet among the bodies become bodies.
fn table(
    alloc: Global,
    permits: Permits,
    name: Element,
    attrs: AttrList,
    mut parts: Parts,
) -> Result<Vec<Node>, AllocError>
    ensures { IfOk result (λ out. nodes_of out.items ≡ table (plain_elem name attrs)
        (nodes_of parts.lead.items) (nodes_of parts.captions.items) (nodes_of parts.columns.items)
        (nodes_of parts.heads.items) (nodes_of parts.feet.items) (as_bodies permits.tbody (nodes_of parts.bodies.items))) }
{
    let children = in_order(alloc, permits.tbody, &mut parts)?;
    single(
        alloc,
        Elem {
            name,
            attrs,
            children,
        },
    )
}

// The parts of a table one behind another, moved out of where they were; heads and feet among the bodies become bodies.
fn in_order(alloc: Global, tbody: bool, parts: &mut Parts) -> Result<Vec<Node>, AllocError>
    ensures { IfOk result (λ out. nodes_of out.items ≡ nodes_append (nodes_of parts.old.lead.items)
        (before_bodies (nodes_of parts.old.captions.items) (nodes_of parts.old.columns.items) (nodes_of parts.old.heads.items) (nodes_of parts.old.feet.items)
        (of_one_kind (as_bodies tbody (nodes_of parts.old.bodies.items))))) }
{
    let bodies = mem::replace(&mut parts.bodies, Vec::new(alloc));
    let bodies = as_bodies(alloc, tbody, bodies)?;
    let bodies = of_one_kind(alloc, bodies)?;
    let mut children = mem::replace(&mut parts.lead, Vec::new(alloc));
    put_between(&mut children, parts)?;
    let all = chained(children, bodies)?;
    Ok(without_slack(all))
}

// Moves the parts that stand between a table's lead and its bodies behind other nodes.
fn put_between(out: &mut Vec<Node>, parts: &mut Parts) -> Result<(), AllocError>
    ensures { OnOk result ((more : Nodes) → nodes_append (nodes_of out.new.items) more
        ≡ nodes_append (nodes_of out.old.items)
        (before_bodies (nodes_of parts.old.captions.items) (nodes_of parts.old.columns.items) (nodes_of parts.old.heads.items) (nodes_of parts.old.feet.items) more)) }
{
    move_all(out, &mut parts.captions)?;
    move_all(out, &mut parts.columns)?;
    move_all(out, &mut parts.heads)?;
    move_all(out, &mut parts.feet)?;
    Ok(())
}

/// A table of its parts; where there are no bodies the foot becomes the body, and where there is no foot the head.
fn table_of_parts(
    alloc: Global,
    permits: Permits,
    name: Element,
    attrs: AttrList,
    mut parts: Parts,
) -> Result<Vec<Node>, AllocError>
    ensures { IfOk result (λ out. nodes_of out.items ≡ table_of_parts permits (plain_elem name attrs) (λ wanted. stack wanted parts)) }
{
    if has_nodes(&parts.bodies) {
        return table(alloc, permits, name, attrs, parts);
    }
    if has_nodes(&parts.feet) {
        parts.bodies = mem::replace(&mut parts.feet, Vec::new(alloc));
        return table(alloc, permits, name, attrs, parts);
    }
    if has_nodes(&parts.heads) {
        parts.feet = Vec::new(alloc);
        parts.bodies = mem::replace(&mut parts.heads, Vec::new(alloc));
        return table(alloc, permits, name, attrs, parts);
    }
    let Parts { captions, .. } = parts;
    without_bodies(alloc, permits.paragraph, captions)
}

/// What stands for a table without bodies: a paragraph of its caption's children, or nothing.
fn without_bodies(
    alloc: Global,
    paragraph: bool,
    captions: Vec<Node>,
) -> Result<Vec<Node>, AllocError>
    ensures { IfOk result (λ out. nodes_of out.items ≡ without_bodies paragraph (nodes_of captions.items)) }
{
    let mut nodes = captions.into_iter();
    match nodes.next() {
        Some(node) => paragraph_of(alloc, paragraph, node),
        None => Ok(Vec::new(alloc)),
    }
}

// A paragraph of what the first caption holds, given as a node.
fn paragraph_of(alloc: Global, paragraph: bool, node: Node) -> Result<Vec<Node>, AllocError>
    ensures { IfOk result (λ out. (more : Nodes) → nodes_of out.items ≡ without_bodies paragraph (node_before node more)) }
{
    match node {
        Node::Text(_) => Ok(Vec::new(alloc)),
        Node::Elem(elem) => {
            let out = paragraph_in_place_of(alloc, paragraph, elem)?;
            Ok(out)
        }
    }
}

// A paragraph of what the first caption holds, where it is more than white space.
fn paragraph_in_place_of(
    alloc: Global,
    paragraph: bool,
    elem: Elem,
) -> Result<Vec<Node>, AllocError>
    ensures { IfOk result (λ out. nodes_of out.items ≡ paragraph_of paragraph (nodes_of elem.children.items)) }
{
    let Elem { children, .. } = elem;
    if fills_paragraph(paragraph, &children) {
        return single(alloc, bare(alloc, Element::P, children));
    }
    Ok(Vec::new(alloc))
}

// Whether a paragraph may be made of these children.
fn fills_paragraph(paragraph: bool, children: &[Node]) -> bool
    ensures { result ≡ (paragraph && not (are_blank (nodes_of children.now))) }
{
    paragraph && !are_blank(children)
}

fn has_nodes(nodes: &[Node]) -> bool
    ensures { result ≡ not (has_no_nodes (nodes_of nodes.now)) }
{
    !nodes.is_empty()
}

fn are_blank(nodes: &[Node]) -> bool
    ensures { result ≡ are_blank (nodes_of nodes.now) }
{
    for node in nodes {
        if !is_blank_node(node) {
            return false;
        }
    }
    true
}

fn is_blank_node(node: &Node) -> bool
    ensures { (more : Nodes) → are_blank (node_before node.now more) ≡ (if result then are_blank more else false) }
{
    match node {
        Node::Text(text) => is_blank(text.as_str()),
        Node::Elem(_) => false,
    }
}

/// Whether a text is white space alone.
pub fn is_blank(text: &str) -> bool
    ensures { result ≡ is_blank (chars text.now) }
{
    text.chars().all(|c| is_space(c))
}

/// What stands in the place of a table, of itself and its repaired children.
pub fn repaired_table(alloc: Global, permits: Permits, elem: Elem) -> Result<Vec<Node>, AllocError>
    ensures { IfOk result (λ out. nodes_of out.items ≡ repaired_table permits (plain_elem elem.name elem.attrs) (nodes_of elem.children.items)) }
{
    let Elem {
        name,
        attrs,
        children,
    } = elem;
    let parts = grouped(alloc, children)?;
    table_of_parts(alloc, permits, name, attrs, parts)
}
