//! Texts that became neighbours are joined.

ghost use Rattle.std.specs.Prelude.{◌≡◌, false, IfOk, OnOk, IfSome, IfNone, string_bytes};
ghost use Rattle.std.specs.Str.{chars};
ghost use Rattle.pur_tree.specs.Image.{node_before, nodes_of};
ghost use Rattle.pur_tree.specs.Private.Joining.{joining, joined_behind};
ghost use Rattle.pur_tree.specs.Nodes.{PlainElem, Nodes, no_nodes, text_first, elem_first, plain_elem, nodes_append, is_joined};
ghost use Rattle.pur_tree.specs.Walks.{text_joined, joined_nodes};

use crate::node::{Elem, Node};
use crate::room::{with_room, without_slack};
use std::alloc::{AllocError, Global};
use std::mem;

/// Nodes in which texts are joined, and the run of text at hand.
#[derive(Drop)]
struct Joining {
    done: Vec<Node>,
    run: String,
    in_run: bool,
}

impl Joining {
    fn put_text(&mut self, text: String) -> Result<(), AllocError>
        ensures { OnOk result ((more : Nodes) → joining self.new more ≡ joining self.old (text_joined (chars (string_bytes text)) more)) }
    {
        if self.in_run {
            self.run.push_str(text.as_str())?;
            return Ok(());
        }
        self.run = text;
        self.in_run = true;
        Ok(())
    }

    fn end_run(&mut self, alloc: Global) -> Result<(), AllocError>
        ensures over { OnOk result (self.new.in_run ≡ false) }
        ensures same { OnOk result ((e : PlainElem) (kids : Nodes) (more : Nodes) → joining self.new (elem_first e kids more) ≡ joining self.old (elem_first e kids more)) }
        ensures all { OnOk result (joining self.new no_nodes ≡ joining self.old no_nodes) }
    {
        if self.in_run {
            let run = mem::replace(&mut self.run, String::new(alloc));
            push_text_node(&mut self.done, run)?;
            self.in_run = false;
        }
        Ok(())
    }

    fn put_elem(&mut self, alloc: Global, elem: Elem) -> Result<(), AllocError>
        ensures { OnOk result ((more : Nodes) → joining self.new more ≡ joining self.old (elem_first (plain_elem elem.name elem.attrs) (nodes_of elem.children.items) more)) }
    {
        self.end_run(alloc)?;
        push_elem(&mut self.done, elem)?;
        Ok(())
    }
}

/// Puts a text behind nodes, as a node of its own. The error is want of memory.
pub fn push_text_node(out: &mut Vec<Node>, text: String) -> Result<(), AllocError>
    ensures { OnOk result ((more : Nodes) → nodes_append (nodes_of out.new.items) more
        ≡ nodes_append (nodes_of out.old.items) (text_first (chars (string_bytes text)) more)) }
{
    out.push(Node::Text(text))?;
    Ok(())
}

/// Puts an element behind nodes. The error is want of memory.
pub fn push_elem(out: &mut Vec<Node>, elem: Elem) -> Result<(), AllocError>
    ensures { OnOk result ((more : Nodes) → nodes_append (nodes_of out.new.items) more
        ≡ nodes_append (nodes_of out.old.items) (elem_first (plain_elem elem.name elem.attrs) (nodes_of elem.children.items) more)) }
{
    out.push(Node::Elem(elem))?;
    Ok(())
}

/// The nodes, with neighbouring texts joined everywhere.
pub(crate) fn join_nodes(alloc: Global, nodes: Vec<Node>) -> Result<Vec<Node>, AllocError>
    ensures { IfOk result (λ out. nodes_of out.items ≡ joined_nodes (nodes_of nodes.items)) }
{
    let mut joining = Joining {
        done: with_room(alloc, nodes.len())?,
        run: String::new(alloc),
        in_run: false,
    };
    for node in nodes {
        match node {
            Node::Text(text) => joining.put_text(text)?,
            Node::Elem(elem) => {
                let Elem {
                    name,
                    attrs,
                    children,
                } = elem;
                let children = join_nodes(alloc, children)?;
                joining.put_elem(
                    alloc,
                    Elem {
                        name,
                        attrs,
                        children,
                    },
                )?;
            }
        }
    }
    joining.end_run(alloc)?;
    Ok(without_slack(joining.done))
}

/// Whether no texts are neighbours, at any depth.
#[cycle(are_joined)]
pub(crate) fn are_joined(nodes: &[Node]) -> bool
    ensures { result ≡ is_joined (nodes_of nodes.now) }
{
    let mut after_text = false;
    for node in nodes {
        match ends_with_text(after_text, node) {
            Some(is_text) => after_text = is_text,
            None => return false,
        }
    }
    true
}

/// Whether a node is a text; nothing where it is one behind a text, or where texts are neighbours in it.
#[cycle(are_joined)]
fn ends_with_text(after_text: bool, node: &Node) -> Option<bool>
    ensures apart { IfSome result (λ is_text. (rest : Nodes) → joined_behind is_text rest ≡ joined_behind after_text (node_before node.now rest)) }
    ensures beside { IfNone result ((rest : Nodes) → joined_behind after_text (node_before node.now rest) ≡ false) }
{
    match node {
        Node::Text(_) => {
            if after_text {
                return None;
            }
            Some(true)
        }
        Node::Elem(elem) => {
            if !are_joined(elem.children.as_slice()) {
                return None;
            }
            Some(false)
        }
    }
}
