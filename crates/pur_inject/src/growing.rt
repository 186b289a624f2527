//! Lists of nodes that grow at their end.

ghost use Rattle.std.specs.Prelude.{◌≡◌, [], IfOk, OnOk, string_bytes};
ghost use Rattle.std.specs.Str.{chars};
ghost use Rattle.pur_tree.specs.Image.{nodes_of};
ghost use Rattle.pur_tree.specs.Nodes.{PlainElem, Nodes, no_nodes, elem_first, nodes_append, plain_elem};
ghost use Rattle.pur_inject.specs.Signs.{letters, signs_of, signs_before};
ghost use Rattle.pur_inject.specs.Private.Growing.{grown};

use pur_tree::{Elem, Node, push_elem, push_text_node};
use std::alloc::{AllocError, Global};
use std::mem;

/// Nodes, and the text at hand behind them: texts that are put behind one another become one.
#[derive(Drop)]
pub(crate) struct Growing {
    /// The nodes before the text at hand.
    pub nodes: Vec<Node>,
    /// The text at hand.
    pub text: String,
}

impl Growing {
    /// No nodes. It takes no memory.
    pub(crate) fn new(alloc: Global) -> Growing
        ensures nodes { result.nodes.items ≡ [] }
        ensures text { string_bytes result.text ≡ [] }
    {
        Growing {
            nodes: Vec::new(alloc),
            text: String::new(alloc),
        }
    }

    /// No nodes, and room for so many. A list that grows long without leaves holes where it stood before it grew.
    pub(crate) fn with_room(alloc: Global, room: usize) -> Result<Growing, AllocError>
        ensures nodes { IfOk result (λ growing. growing.nodes.items ≡ []) }
        ensures text { IfOk result (λ growing. string_bytes growing.text ≡ []) }
    {
        let nodes = Vec::with_capacity(alloc, room)?;
        let text = String::new(alloc);
        Ok(Growing { nodes, text })
    }

    /// Puts a text behind the nodes.
    pub(crate) fn put_text(&mut self, text: &str) -> Result<(), AllocError>
        ensures { OnOk result ((more : Nodes) → grown self.new more ≡ grown self.old (signs_before (letters (chars text.now)) more)) }
    {
        self.text.push_str(text)?;
        Ok(())
    }

    /// Puts an element behind the nodes.
    pub(crate) fn put_elem(&mut self, alloc: Global, elem: Elem) -> Result<(), AllocError>
        ensures over { OnOk result (string_bytes self.new.text ≡ []) }
        ensures same { OnOk result ((more : Nodes) → grown self.new more ≡ grown self.old (elem_first (plain_elem elem.name elem.attrs) (nodes_of elem.children.items) more)) }
    {
        self.end_text(alloc)?;
        push_elem(&mut self.nodes, elem)?;
        Ok(())
    }

    /// Makes a node of the text at hand, if it has a character.
    pub(crate) fn end_text(&mut self, alloc: Global) -> Result<(), AllocError>
        ensures over { OnOk result (string_bytes self.new.text ≡ []) }
        ensures elem { OnOk result ((e : PlainElem) (kids : Nodes) (more : Nodes) → grown self.new (elem_first e kids more) ≡ grown self.old (elem_first e kids more)) }
        ensures all { OnOk result (nodes_of self.new.nodes.items ≡ grown self.old no_nodes) }
    {
        if self.text.is_empty() {
            return Ok(());
        }
        let text = mem::replace(&mut self.text, String::new(alloc));
        push_text_node(&mut self.nodes, text)?;
        Ok(())
    }

    /// The nodes with the text at hand.
    pub(crate) fn finish(mut self, alloc: Global) -> Result<Vec<Node>, AllocError>
        ensures { IfOk result (λ nodes. nodes_of nodes.items ≡ grown self no_nodes) }
    {
        self.end_text(alloc)?;
        self.nodes.shrink_to_fit();
        Ok(self.nodes)
    }

    /// Puts nodes behind the nodes.
    pub(crate) fn put_nodes(&mut self, alloc: Global, nodes: Vec<Node>) -> Result<(), AllocError>
        ensures { OnOk result ((more : Nodes) → grown self.new more ≡ grown self.old (signs_before (signs_of (nodes_of nodes.items)) more)) }
    {
        for node in nodes {
            match node {
                Node::Text(text) => self.put_text(text.as_str())?,
                Node::Elem(elem) => self.put_elem(alloc, elem)?,
            }
        }
        Ok(())
    }
}
