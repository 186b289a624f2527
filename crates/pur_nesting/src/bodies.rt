//! The bodies of a table: heads and feet become bodies, and runs of rows get bodies of their own.

ghost use Rattle.std.specs.Prelude.{◌≡◌, ◌&&◌, true, false, [], ◌∷◌, IfOk, OnOk, if◌then◌else◌, string_bytes};
ghost use Rattle.std.specs.Str.{chars};
ghost use Rattle.pur_names.specs.Elements.{same_element};
ghost use Rattle.pur_names.specs.declared.elements.Element.TheVariants.{Tbody, Tr};
ghost use Rattle.pur_modules.specs.Groups.{is_among};
ghost use Rattle.pur_tree.specs.Image.{nodes_of, node_before};
ghost use Rattle.pur_tree.specs.Nodes.{PlainElem, plain_elem, Nodes, no_nodes, text_first, elem_first, nodes_append};
ghost use Rattle.pur_nesting.specs.Private.Grouping.{pending};
ghost use Rattle.pur_nesting.specs.Private.Handing.{has_head_or_foot};
ghost use Rattle.pur_nesting.specs.Tables.{from_first_element, is_head_or_foot, as_body, as_bodies, runs_in_bodies, of_one_kind, has_child};

use crate::nesting::has_needed;
use crate::pushing::{bare, push_all};
use crate::roles::{Role, role_of};
use pur_names::Element;
use pur_tree::{Elem, Node, push_elem, push_text_node};
use std::alloc::{AllocError, Global};
use std::mem;

fn is_element(node: &Node) -> bool
    ensures { (more : Nodes) → from_first_element (node_before node.now more)
        ≡ (if result then node_before node.now more else from_first_element more) }
{
    match node {
        Node::Text(_) => false,
        Node::Elem(_) => true,
    }
}

/// Whether an element was met when this node was.
fn met_after(met: bool, node: &Node) -> bool
    ensures { (more : Nodes) → (if met then node_before node.now more else from_first_element (node_before node.now more))
        ≡ (if result then node_before node.now more else from_first_element more) }
{
    if met {
        return true;
    }
    is_element(node)
}

/// The nodes without the texts before the first element.
fn from_first_element(alloc: Global, nodes: Vec<Node>) -> Result<Vec<Node>, AllocError>
    ensures { IfOk result (λ out. nodes_of out.items ≡ from_first_element (nodes_of nodes.items)) }
{
    let mut out = Vec::new(alloc);
    let mut met = false;
    for node in nodes {
        met = met_after(met, &node);
        if met {
            out.push(node)?;
        }
    }
    Ok(out)
}

fn is_head_or_foot(role: Role) -> bool
    ensures { result ≡ is_head_or_foot role }
{
    matches!(role, Role::Header | Role::Footer)
}

/// Puts an element behind nodes as a body: a head or foot becomes a body that keeps its attributes, or its rows stand for it
/// where no bodies are permitted.
fn push_body(alloc: Global, tbody: bool, out: &mut Vec<Node>, elem: Elem) -> Result<(), AllocError>
    ensures { OnOk result ((more : Nodes) → nodes_append (nodes_of out.new.items) more
        ≡ nodes_append (nodes_of out.old.items) (nodes_append (as_body tbody (plain_elem elem.name elem.attrs) (nodes_of elem.children.items)) more)) }
{
    if !is_head_or_foot(role_of(elem.name)) {
        push_elem(out, elem)?;
        return Ok(());
    }
    let Elem {
        attrs,
        children,
        ..
    } = elem;
    if tbody {
        let name = Element::Tbody;
        push_elem(
            out,
            Elem {
                name,
                attrs,
                children,
            },
        )?;
        return Ok(());
    }
    let rows = from_first_element(alloc, children)?;
    push_all(out, rows)?;
    Ok(())
}

fn push_as_body(
    alloc: Global,
    tbody: bool,
    out: &mut Vec<Node>,
    node: Node,
) -> Result<(), AllocError>
    ensures { OnOk result ((more : Nodes) → nodes_append (nodes_of out.new.items) (as_bodies tbody more)
        ≡ nodes_append (nodes_of out.old.items) (as_bodies tbody (node_before node more))) }
{
    match node {
        Node::Text(text) => push_text_node(out, text)?,
        Node::Elem(elem) => push_body(alloc, tbody, out, elem)?,
    }
    Ok(())
}

fn has_head_or_foot(nodes: &[Node]) -> bool
    ensures { result ≡ has_head_or_foot (nodes_of nodes.now) }
{
    for node in nodes {
        if becomes_body(node) {
            return true;
        }
    }
    false
}

fn becomes_body(node: &Node) -> bool
    ensures { (more : Nodes) → has_head_or_foot (node_before node.now more) ≡ (if result then true else has_head_or_foot more) }
{
    match node {
        Node::Text(_) => false,
        Node::Elem(elem) => is_head_or_foot(role_of(elem.name)),
    }
}

/// The nodes with each head and foot as a body. Where there is none they are handed on.
pub fn as_bodies(alloc: Global, tbody: bool, nodes: Vec<Node>) -> Result<Vec<Node>, AllocError>
    ensures { IfOk result (λ out. nodes_of out.items ≡ as_bodies tbody (nodes_of nodes.items)) }
{
    if has_head_or_foot(&nodes) {
        return each_as_body(alloc, tbody, nodes);
    }
    Ok(nodes)
}

fn each_as_body(alloc: Global, tbody: bool, nodes: Vec<Node>) -> Result<Vec<Node>, AllocError>
    ensures { IfOk result (λ out. nodes_of out.items ≡ as_bodies tbody (nodes_of nodes.items)) }
{
    let mut out = Vec::new(alloc);
    for node in nodes {
        push_as_body(alloc, tbody, &mut out, node)?;
    }
    Ok(out)
}

/// Nodes whose rows are put into bodies: those done, and the run of rows at hand.
#[derive(Drop)]
struct Runs {
    done: Vec<Node>,
    run: Vec<Node>,
    in_run: bool,
}

impl Runs {
    fn put_text(&mut self, text: String) -> Result<(), AllocError>
        ensures { OnOk result ((more : Nodes) → pending self.new more ≡ pending self.old (text_first (chars (string_bytes text)) more)) }
    {
        if self.in_run {
            push_text_node(&mut self.run, text)?;
        } else {
            push_text_node(&mut self.done, text)?;
        }
        Ok(())
    }

    /// Begins a run, if there is none at hand.
    fn begin_run(&mut self, alloc: Global)
        ensures begun { self.new.in_run ≡ true }
        ensures same { (e : PlainElem) (kids : Nodes) (more : Nodes) → same_element e.name Tr ≡ true
            → pending self.new (elem_first e kids more) ≡ pending self.old (elem_first e kids more) }
    {
        if !self.in_run {
            self.run = Vec::new(alloc);
            self.in_run = true;
        }
    }

    fn put_row(&mut self, alloc: Global, row: Elem) -> Result<(), AllocError>
        requires { same_element row.name Tr ≡ true }
        ensures { OnOk result ((more : Nodes) → pending self.new more
            ≡ pending self.old (elem_first (plain_elem row.name row.attrs) (nodes_of row.children.items) more)) }
    {
        self.begin_run(alloc);
        push_elem(&mut self.run, row)?;
        Ok(())
    }

    /// Ends the run at hand, if there is one: its rows are put into a new body.
    fn end_run(&mut self, alloc: Global) -> Result<(), AllocError>
        ensures over { OnOk result (self.new.in_run ≡ false) }
        ensures same { OnOk result ((e : PlainElem) (kids : Nodes) (more : Nodes) → same_element e.name Tr ≡ false
            → pending self.new (elem_first e kids more) ≡ pending self.old (elem_first e kids more)) }
        ensures all { OnOk result (pending self.new no_nodes ≡ pending self.old no_nodes) }
    {
        if self.in_run {
            let rows = mem::replace(&mut self.run, Vec::new(alloc));
            push_elem(&mut self.done, bare(alloc, Element::Tbody, rows))?;
            self.in_run = false;
        }
        Ok(())
    }

    fn put_other(&mut self, alloc: Global, elem: Elem) -> Result<(), AllocError>
        requires { same_element elem.name Tr ≡ false }
        ensures { OnOk result ((more : Nodes) → pending self.new more
            ≡ pending self.old (elem_first (plain_elem elem.name elem.attrs) (nodes_of elem.children.items) more)) }
    {
        self.end_run(alloc)?;
        push_elem(&mut self.done, elem)?;
        Ok(())
    }

    fn put(&mut self, alloc: Global, node: Node) -> Result<(), AllocError>
        ensures { OnOk result ((more : Nodes) → pending self.new more ≡ pending self.old (node_before node more)) }
    {
        match node {
            Node::Text(text) => self.put_text(text)?,
            Node::Elem(elem) => {
                if is_row(elem.name) {
                    self.put_row(alloc, elem)?;
                } else {
                    self.put_other(alloc, elem)?;
                }
            }
        }
        Ok(())
    }
}

fn is_tbody(name: Element) -> bool
    ensures { result ≡ is_among (Tbody ∷ []) name }
{
    matches!(name, Element::Tbody)
}

fn is_row(name: Element) -> bool
    ensures { result ≡ same_element name Tr }
{
    matches!(name, Element::Tr)
}

/// The nodes with each run of rows in a new body.
fn runs_in_bodies(alloc: Global, nodes: Vec<Node>) -> Result<Vec<Node>, AllocError>
    ensures { IfOk result (λ out. nodes_of out.items ≡ runs_in_bodies false (nodes_of nodes.items)) }
{
    let mut runs = Runs {
        done: Vec::new(alloc),
        run: Vec::new(alloc),
        in_run: false,
    };
    for node in nodes {
        runs.put(alloc, node)?;
    }
    runs.end_run(alloc)?;
    Ok(runs.done)
}

fn has_body(nodes: &[Node]) -> bool
    ensures { result ≡ has_child (Tbody ∷ []) (nodes_of nodes.now) }
{
    for node in nodes {
        if is_body(node) {
            return true;
        }
    }
    false
}

fn is_body(node: &Node) -> bool
    ensures { (more : Nodes) → has_child (Tbody ∷ []) (node_before node.now more) ≡ (if result then true else has_child (Tbody ∷ []) more) }
{
    match node {
        Node::Text(_) => false,
        Node::Elem(elem) => is_tbody(elem.name),
    }
}

// Whether bodies and rows stand beside each other.
fn are_mixed(bodies: &[Node]) -> bool
    ensures { result ≡ (has_child (Tbody ∷ []) (nodes_of bodies.now) && has_child (Tr ∷ []) (nodes_of bodies.now)) }
{
    has_body(bodies) && has_needed(Element::Tbody, bodies)
}

/// Bodies of one kind: where there is a `tbody`, each run of rows is put into one too. Where there is no row, or no `tbody`, they
/// are handed on.
pub fn of_one_kind(alloc: Global, bodies: Vec<Node>) -> Result<Vec<Node>, AllocError>
    ensures { IfOk result (λ out. nodes_of out.items ≡ of_one_kind (nodes_of bodies.items)) }
{
    if are_mixed(&bodies) {
        return runs_in_bodies(alloc, bodies);
    }
    Ok(bodies)
}
