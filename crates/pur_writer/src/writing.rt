//! The one spelling of a forest, as UTF-8.

ghost use Rattle.std.specs.Prelude.{◌≡◌, ◌++◌, OnOk, IfOk, IsTrue, encode_utf8_all, codes};
ghost use Rattle.pur_names.specs.Elements.{element_name};
ghost use Rattle.pur_tree.specs.Image.{node_before, nodes_of};
ghost use Rattle.pur_tree.specs.Nodes.{Nodes, elem_first, plain_elem, is_joined};
ghost use Rattle.pur_tree.specs.Spelling.{Spells, attributes_text, end_tag_of, is_spellable, spelling_of};

use crate::attributes::push_attributes;
use crate::escaping::push_escaped;
use pur_modules::is_declared_empty;
use pur_names::Element;
use pur_tree::{Elem, Forest, Node};
use std::alloc::{AllocError, Global};

/// The spelling of a forest, in UTF-8 (XML 1.0, in one of its spellings).
///
/// An element declared EMPTY is `<br />`, with attributes `<img src="v" alt="v" />`; any other is its start tag, as
/// `<p title="v">`, its children and its end tag, also where it has no children. In a text `&`, `<` and `>` are `&amp;`,
/// `&lt;` and `&gt;`, in a value `"` is `&quot;` too, and all other characters stand for themselves. Nothing is put
/// between nodes.
///
/// What is written is a spelling that can be read back where the texts are joined, all characters are allowed, and the names
/// of the attributes are those of XHTML, no two in one tag.
///
/// The error is want of memory.
pub fn write(alloc: Global, forest: &Forest) -> Result<Vec<u8>, AllocError>
    ensures text { IfOk result (λ out. out.items ≡ encode_utf8_all (spelling_of (nodes_of forest.now))) }
    ensures spelled { IsTrue (is_joined (nodes_of forest.now)) → IsTrue (is_spellable (nodes_of forest.now))
        → IfOk result (λ _. Spells (nodes_of forest.now) (spelling_of (nodes_of forest.now))) }
{
    let mut out = Vec::new(alloc);
    push_nodes(&mut out, forest.nodes())?;
    Ok(out)
}

/// Writes nodes, in order.
#[cycle(write)]
fn push_nodes(out: &mut Vec<u8>, nodes: &[Node]) -> Result<(), AllocError>
    ensures { OnOk result (out.new.items ≡ out.old.items ++ encode_utf8_all (spelling_of (nodes_of nodes.now))) }
{
    for node in nodes {
        push_node(out, node)?;
    }
    Ok(())
}

/// Writes a node; whatever nodes come next, what is written and their spelling is the spelling of all.
#[cycle(write)]
fn push_node(out: &mut Vec<u8>, node: &Node) -> Result<(), AllocError>
    ensures { OnOk result ((rest : Nodes) → out.new.items ++ encode_utf8_all (spelling_of rest)
        ≡ out.old.items ++ encode_utf8_all (spelling_of (node_before node.now rest))) }
{
    match node {
        Node::Text(text) => {
            push_escaped(out, text.as_str().as_bytes())?;
            Ok(())
        }
        Node::Elem(elem) => {
            push_elem(out, elem)?;
            Ok(())
        }
    }
}

/// Writes an element with its children.
#[cycle(write)]
fn push_elem(out: &mut Vec<u8>, elem: &Elem) -> Result<(), AllocError>
    ensures { OnOk result ((rest : Nodes) → out.new.items ++ encode_utf8_all (spelling_of rest)
        ≡ out.old.items ++ encode_utf8_all (spelling_of (elem_first (plain_elem elem.now.name elem.now.attrs) (nodes_of elem.now.children.items) rest))) }
{
    if is_declared_empty(elem.name) {
        push_tag(out, elem, b" />")?;
        return Ok(());
    }
    push_tag(out, elem, b">")?;
    push_nodes(out, elem.children.as_slice())?;
    push_end_tag(out, elem.name)?;
    Ok(())
}

/// Writes a tag that has attributes, with this end.
fn push_tag(out: &mut Vec<u8>, elem: &Elem, end: &[u8]) -> Result<(), AllocError>
    ensures { OnOk result (out.new.items ≡ out.old.items ++ (codes "<" ++ (element_name elem.now.name
        ++ (encode_utf8_all (attributes_text elem.now.attrs) ++ end.now)))) }
{
    out.extend_from_slice(b"<")?;
    out.extend_from_slice(elem.name.name().as_bytes())?;
    push_attributes(out, &elem.attrs)?;
    out.extend_from_slice(end)?;
    Ok(())
}

/// Writes an end tag.
fn push_end_tag(out: &mut Vec<u8>, name: Element) -> Result<(), AllocError>
    ensures { OnOk result (out.new.items ≡ out.old.items ++ end_tag_of name) }
{
    out.extend_from_slice(b"</")?;
    out.extend_from_slice(name.name().as_bytes())?;
    out.extend_from_slice(b">")?;
    Ok(())
}
