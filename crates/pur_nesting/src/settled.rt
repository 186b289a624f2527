//! Whether nodes need no repair. Nothing is changed, and no memory is taken.

ghost use Rattle.std.specs.Prelude.{◌≡◌, true, false, ◌&&◌, ◌||◌, not, if◌then◌else◌};
ghost use Rattle.pur_nesting.specs.Parts.{role_of};
ghost use Rattle.pur_tree.specs.Image.{nodes_of, node_before};
ghost use Rattle.pur_tree.specs.Nodes.{PlainElem, Nodes, elem_first};
ghost use Rattle.pur_nesting.specs.Private.Order.{stage, after, goes_on, goes_from, is_in_order, is_settled, is_settled_after, is_settled_from, is_settled_element};

use crate::nesting::vanishes;
use crate::roles::{Role, role_of};
use crate::tables::is_blank;
use pur_tree::{Elem, Node, is_table};

// The stages of a table in order: a caption, columns, a head, a foot, bodies.
const CAPTION: u8 = 0;

const COLUMNS: u8 = 1;

const HEAD: u8 = 2;

const FOOT: u8 = 3;

const BODIES: u8 = 4;
// What has no place in such a table.
const NONE: u8 = 9;

/// How far a table in order has come: the least stage that may follow, and whether there was a body.
#[derive(Clone, Copy)]
pub struct Order {
    pub stage: u8,
    pub had: bool,
}

// The stage at which an element stands in a table whose columns are groups, or columns alone, and whose bodies are bodies, or
// rows alone.
fn stage(groups: bool, bodies: bool, role: Role) -> u8
    ensures { result ≡ stage groups bodies role }
{
    match role {
        Role::Title => CAPTION,
        Role::Column => if groups { NONE } else { COLUMNS },
        Role::ColumnGroup => if groups { COLUMNS } else { NONE },
        Role::Header => HEAD,
        Role::Footer => FOOT,
        Role::Body => if bodies { BODIES } else { NONE },
        Role::Row => if bodies { NONE } else { BODIES },
        Role::Stranger => NONE,
    }
}

// The least stage that may follow an element.
fn after(role: Role) -> u8
    ensures { result ≡ after role }
{
    match role {
        Role::Title | Role::Column | Role::ColumnGroup => COLUMNS,
        Role::Header => FOOT,
        Role::Footer | Role::Body | Role::Row => BODIES,
        Role::Stranger => NONE,
    }
}

// How far a table in order has come with an element more; nothing where it isn't in order.
fn order_after_element(groups: bool, bodies: bool, order: Order, role: Role) -> Option<Order>
    ensures { (e : PlainElem) (kids : Nodes) (more : Nodes) → role_of e.name ≡ role
        → goes_on groups bodies order.stage order.had (elem_first e kids more) ≡ goes_from groups bodies result more }
{
    let here = stage(groups, bodies, role);
    if here < order.stage {
        return None;
    }
    if BODIES < here {
        return None;
    }
    if BODIES <= here {
        return Some(Order {
            stage: after(role),
            had: true,
        });
    }
    Some(Order {
        stage: after(role),
        had: order.had,
    })
}

// How far it has come with a node more.
fn order_after(groups: bool, bodies: bool, order: Order, node: &Node) -> Option<Order>
    ensures { (more : Nodes) → goes_on groups bodies order.stage order.had (node_before node.now more) ≡ goes_from groups bodies result more }
{
    match node {
        Node::Text(text) => {
            if is_blank(text.as_str()) {
                return Some(order);
            }
            None
        }
        Node::Elem(elem) => order_after_element(groups, bodies, order, role_of(elem.name)),
    }
}

// Whether a table's children are in order, with columns and bodies of these kinds.
fn goes_on(groups: bool, bodies: bool, nodes: &[Node]) -> bool
    ensures { result ≡ goes_on groups bodies 0 false (nodes_of nodes.now) }
{
    let mut order = Order {
        stage: CAPTION,
        had: false,
    };
    for node in nodes {
        match order_after(groups, bodies, order, node) {
            Some(next) => order = next,
            None => return false,
        }
    }
    order.had
}

// Whether a table's children are in order.
fn is_in_order(nodes: &[Node]) -> bool
    ensures { result ≡ is_in_order (nodes_of nodes.now) }
{
    goes_on(false, false, nodes)
        || goes_on(false, true, nodes)
        || goes_on(true, false, nodes)
        || goes_on(true, true, nodes)
}

// Whether an element needs no repair, nor any in it.
#[cycle(settled)]
fn is_settled_element(elem: &Elem) -> bool
    ensures { result ≡ is_settled_element elem.now.name (nodes_of elem.now.children.items) }
{
    if vanishes(elem.name, &elem.children) {
        return false;
    }
    if is_table(elem.name) {
        if !is_in_order(&elem.children) {
            return false;
        }
    }
    is_settled(&elem.children)
}

// Whether a node is a text, where it needs no repair behind what stands before it; else nothing.
#[cycle(settled)]
fn after_node(after_text: bool, node: &Node) -> Option<bool>
    ensures { (more : Nodes) → is_settled_after after_text (node_before node.now more) ≡ is_settled_from result more }
{
    match node {
        Node::Text(_) => {
            if after_text {
                return None;
            }
            Some(true)
        }
        Node::Elem(elem) => {
            if is_settled_element(elem) {
                return Some(false);
            }
            None
        }
    }
}

/// Whether nodes need no repair: no texts are neighbours, no element wants a child, and the parts of each table are in
/// order. It takes no memory.
#[cycle(settled)]
pub fn is_settled(nodes: &[Node]) -> bool
    ensures { result ≡ is_settled (nodes_of nodes.now) }
{
    let mut after_text = false;
    for node in nodes {
        match after_node(after_text, node) {
            Some(next) => after_text = next,
            None => return false,
        }
    }
    true
}
