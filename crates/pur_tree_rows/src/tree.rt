//! Trees built with ample memory, and a rule that goes through one.

ghost use Rattle.std.specs.Prelude.{◌≡◌, [], if◌then◌else◌, OnOk};
ghost use Rattle.pur_names.specs.Elements.{same_element};
ghost use Rattle.pur_tree.specs.Building.{opened_of};
ghost use Rattle.pur_tree.specs.Image.{nodes_of};
ghost use Rattle.pur_tree.specs.Nodes.{PlainElem, Nodes, no_nodes, elem_first, plain_elem, nodes_append};

use crate::endings::{Failing, assert_holds, assert_none_fails, first_false};
use pur_attrlist::AttrList;
use pur_names::Element;
use pur_tree::{Builder, Elem, Forest, Node, Rule, walk_nodes};
use std::alloc::{AllocError, Global};

// Puts two texts, and a paragraph with a title, a text and a break.
fn put_paragraph(alloc: Global, builder: &mut Builder, attrs: AttrList) -> Result<(), AllocError>
    requires { opened_of builder.old ≡ [] }
{
    builder.text("a")?;
    builder.text("b")?;
    builder.enter(Element::P, attrs)?;
    builder.text("c")?;
    builder.enter(Element::Br, AttrList::new(alloc))?;
    builder.leave()?;
    Ok(())
}

// Whether a node is this text.
fn is_text(node: Option<&Node>, want: &str) -> bool {
    match node {
        Some(Node::Text(text)) => text.as_str() == want,
        _ => false,
    }
}

// Whether a node is a paragraph of two children, with this title or none.
fn is_paragraph(node: Option<&Node>, title: Option<&str>) -> bool {
    match node {
        Some(Node::Elem(elem)) => {
            elem.name == Element::P && elem.attrs.get("title") == title && elem.children.len() == 2
        }
        _ => false,
    }
}

// Attributes with a title.
fn titled(alloc: Global) -> Result<AttrList, AllocError> {
    let mut attrs = AttrList::new(alloc);
    attrs.set("title", "t")?;
    Ok(attrs)
}

// What nodes lack of a text and a paragraph with a title.
fn lack_of_paragraph(nodes: &[Node]) -> Option<&'static str> {
    first_false(&[
        ("two nodes", nodes.len() == 2),
        ("a text of two", is_text(nodes.first(), "ab")),
        ("a paragraph", is_paragraph(nodes.get(1), Some("t"))),
    ])
}

// The same of what is built with these attributes.
fn lack_in_tree(alloc: Global, attrs: AttrList) -> Failing {
    let mut builder = Builder::new(alloc);
    put_paragraph(alloc, &mut builder, attrs)?;
    let forest = builder.finish()?;
    Ok(lack_of_paragraph(forest.nodes()))
}

fn lack_in_titled_tree(alloc: Global) -> Failing {
    let attrs = titled(alloc)?;
    lack_in_tree(alloc, attrs)
}

#[test]
fn builds_a_tree(rt: HostRuntime) {
    assert_none_fails(&rt, lack_in_titled_tree(rt.alloc()));
}

// Takes the elements of a name off what stands in them.
#[derive(Drop)]
struct Without {
    name: Element,
}

impl Rule for Without {
    ghost made = { λ rule e kids. if same_element e.name rule.name then kids else elem_first e kids no_nodes };

    fn put(&self, _alloc: Global, out: &mut Vec<Node>, elem: Elem) -> Result<(), AllocError> {
        if elem.name.is_same(self.name) {
            let mut children = elem.children;
            out.append(&mut children)?;
            return Ok(());
        }
        out.push(Node::Elem(elem))?;
        Ok(())
    }
}

// Puts a paragraph with bold in it, and bold in that.
fn put_bold(alloc: Global, builder: &mut Builder) -> Result<(), AllocError>
    requires { opened_of builder.old ≡ [] }
{
    builder.enter(Element::P, AttrList::new(alloc))?;
    builder.enter(Element::B, AttrList::new(alloc))?;
    builder.text("a")?;
    builder.enter(Element::B, AttrList::new(alloc))?;
    builder.text("b")?;
    Ok(())
}

// A forest of that.
fn bold_forest(alloc: Global) -> Result<Forest, AllocError> {
    let mut builder = Builder::new(alloc);
    put_bold(alloc, &mut builder)?;
    builder.finish()
}

// Whether a rule leaves one paragraph of a forest, with two children.
fn leaves_paragraph(
    alloc: Global,
    rule: &Without,
    forest: &mut Forest,
) -> Result<bool, AllocError> {
    let nodes = walk_nodes(alloc, rule, forest.take_nodes())?;
    Ok(nodes.len() == 1 && is_paragraph(nodes.first(), None))
}

fn takes_bold_off(alloc: Global) -> Result<bool, AllocError> {
    let mut forest = bold_forest(alloc)?;
    leaves_paragraph(alloc, &Without { name: Element::B }, &mut forest)
}

#[test]
fn goes_through_from_the_leaves_up(rt: HostRuntime) {
    assert_holds(&rt, takes_bold_off(rt.alloc()));
}
