//! The attributes of all elements, in document order.

ghost use Rattle.std.specs.Prelude.{◌≡◌, ℕ, List, true, IfOk, OnOk, OnErr};
ghost use Rattle.pur_tree.specs.Image.{nodes_of, node_before};
ghost use Rattle.pur_tree.specs.Nodes.{Nodes, no_nodes};
ghost use Rattle.pur_tree.specs.Spelling.{has_distinct_names};
ghost use Rattle.pur_attrlist.specs.Attributes.{is_distinct};
ghost use Rattle.pur_attrs.specs.Attributes.{with_valid_attributes};
ghost use Rattle.pur_attrs.specs.Steps.{completed_attributes, kept_attributes};
ghost use Rattle.pur_attrs.specs.Private.Along.{seen_in, seen_behind, prefixed_ids, with_id_behind, attributes_behind, ids_put, valid_behind};
ghost use Rattle.pur_attrs.specs.Private.Parts.{source_of};

use crate::completing::complete;
use crate::ids::keep_first_id;
use crate::keeping::{Kept, kept_attributes};
use crate::laws::keeps_forests;
use pur_attrlist::AttrList;
use pur_names::Element;
use pur_settings::Settings;
use pur_tree::{Elem, Forest, Node};
use pur_uri::Uri;
use pur_uripolicy::{UriGate, UriTest};
use std::alloc::{AllocError, Global};
use std::collections::BTreeSet;
use std::mem;

/// Goes through the attributes of all elements, in document order. The `name` of an `a` or an `img` becomes its `id`, and in
/// Strict a style stands for some attributes. Each attribute stays that the doctype declares, the settings permit and whose value
/// is read, with what it is read as. Ids get the site's prefix, and the first of the same stays. Where a language is told, both
/// `lang` and `xml:lang` tell it; a `bdo` without a direction goes from left to right, an `img` without a text in its place has the
/// name of its source, and a `form`, an `optgroup` and a `textarea` get what they must have. The settings and the gate decide about
/// each URI.
///
/// Nodes are changed where they stand. Each list of attributes is gone through a fixed number of times, and made anew once.
///
/// The error is want of memory, and the forest is then empty.
///
/// Source: the fourth strategy of HTML Purifier.
pub fn validate<F: UriTest>(
    alloc: Global,
    settings: &Settings,
    gate: &UriGate<F>,
    forest: &mut Forest,
) -> Result<(), AllocError>
    ensures ok { OnOk result (nodes_of forest.new ≡ with_valid_attributes settings.now gate.now (nodes_of forest.old)) }
    ensures distinct { OnOk result (has_distinct_names (nodes_of forest.new) ≡ true) }
    ensures err { OnErr result (nodes_of forest.new ≡ no_nodes) }
{
    keeps_forests();
    let mut seen = BTreeSet::new(alloc);
    let mut nodes = forest.take_nodes();
    change_nodes(alloc, settings, gate, &mut seen, &mut nodes)?;
    forest.put_nodes(nodes);
    Ok(())
}

// Nodes changed where they stand, where ids were seen before them.
#[cycle(change)]
fn change_nodes<F: UriTest>(
    alloc: Global,
    settings: &Settings,
    gate: &UriGate<F>,
    seen: &mut BTreeSet<String>,
    nodes: &mut Vec<Node>,
) -> Result<(), AllocError>
    ensures nodes { OnOk result (nodes_of nodes.new.items ≡ valid_behind settings.now gate.now (seen_in seen.old) (nodes_of nodes.old.items)) }
    ensures seen { OnOk result ((id : List ℕ) → seen_in seen.new id ≡ seen_behind (seen_in seen.old) (ids_put settings.now gate.now (nodes_of nodes.old.items)) id) }
    ensures distinct { OnOk result (has_distinct_names (nodes_of nodes.new.items) ≡ true) }
{
    for at in 0..nodes.len() {
        change_node(alloc, settings, gate, seen, &mut nodes[at])?;
    }
    Ok(())
}

// A node changed where it stands, whatever stands behind it.
#[cycle(change)]
fn change_node<F: UriTest>(
    alloc: Global,
    settings: &Settings,
    gate: &UriGate<F>,
    seen: &mut BTreeSet<String>,
    node: &mut Node,
) -> Result<(), AllocError>
    ensures node { OnOk result ((rest : Nodes) → node_before node.new (valid_behind settings.now gate.now (seen_in seen.new) rest)
        ≡ valid_behind settings.now gate.now (seen_in seen.old) (node_before node.old rest)) }
    ensures seen { OnOk result ((rest : Nodes) (id : List ℕ) → seen_behind (seen_in seen.new) (ids_put settings.now gate.now rest) id
        ≡ seen_behind (seen_in seen.old) (ids_put settings.now gate.now (node_before node.old rest)) id) }
    ensures distinct { OnOk result ((rest : Nodes) → has_distinct_names rest ≡ true → has_distinct_names (node_before node.new rest) ≡ true) }
{
    match node {
        Node::Text(_) => Ok(()),
        Node::Elem(elem) => change_elem(alloc, settings, gate, seen, elem),
    }
}

// An element changed where it stands.
#[cycle(change)]
fn change_elem<F: UriTest>(
    alloc: Global,
    settings: &Settings,
    gate: &UriGate<F>,
    seen: &mut BTreeSet<String>,
    elem: &mut Elem,
) -> Result<(), AllocError>
    ensures name { elem.new.name ≡ elem.old.name }
    ensures attrs { OnOk result (elem.new.attrs ≡ attributes_behind settings.now gate.now (seen_in seen.old) elem.old.name elem.old.attrs) }
    ensures children { OnOk result (nodes_of elem.new.children.items
        ≡ valid_behind settings.now gate.now
        (seen_behind (seen_in seen.old) (prefixed_ids settings.now.id_prefix (kept_attributes settings.now gate.now elem.old.name elem.old.attrs)))
        (nodes_of elem.old.children.items)) }
    ensures seen { OnOk result ((id : List ℕ) → seen_in seen.new id
        ≡ seen_behind
        (seen_behind (seen_in seen.old) (prefixed_ids settings.now.id_prefix (kept_attributes settings.now gate.now elem.old.name elem.old.attrs)))
        (ids_put settings.now gate.now (nodes_of elem.old.children.items)) id) }
    ensures distinct { OnOk result ((is_distinct elem.new.attrs ≡ true) × (has_distinct_names (nodes_of elem.new.children.items) ≡ true)) }
{
    let attrs = mem::replace(&mut elem.attrs, AttrList::new(alloc));
    elem.attrs = valid_attributes(alloc, settings, gate, seen, elem.name, attrs)?;
    change_nodes(alloc, settings, gate, seen, &mut elem.children)
}

// What becomes of an element's attributes, where ids were seen before.
fn valid_attributes<F: UriTest>(
    alloc: Global,
    settings: &Settings,
    gate: &UriGate<F>,
    seen: &mut BTreeSet<String>,
    element: Element,
    attrs: AttrList,
) -> Result<AttrList, AllocError>
    ensures attrs { IfOk result (λ valid. valid ≡ attributes_behind settings.now gate.now (seen_in seen.old) element attrs) }
    ensures seen { OnOk result ((id : List ℕ) → seen_in seen.new id
        ≡ seen_behind (seen_in seen.old) (prefixed_ids settings.now.id_prefix (kept_attributes settings.now gate.now element attrs)) id) }
    ensures distinct { IfOk result (λ valid. is_distinct valid ≡ true) }
{
    let Kept { mut attrs, source } = kept_attributes(alloc, settings, gate, element, attrs)?;
    finish(alloc, settings, seen, element, &source, &mut attrs)?;
    Ok(attrs)
}

// Makes the id of attributes that are kept the first of its text, and puts in what they lack, where ids were seen before.
fn finish(
    alloc: Global,
    settings: &Settings,
    seen: &mut BTreeSet<String>,
    element: Element,
    source: &Option<Uri>,
    attrs: &mut AttrList,
) -> Result<(), AllocError>
    requires { source.now ≡ source_of attrs.old }
    ensures attrs { OnOk result (attrs.new ≡ completed_attributes element (with_id_behind settings.now.id_prefix (seen_in seen.old) attrs.old)) }
    ensures seen { OnOk result ((id : List ℕ) → seen_in seen.new id ≡ seen_behind (seen_in seen.old) (prefixed_ids settings.now.id_prefix attrs.old) id) }
{
    keep_first_id(alloc, settings.id_prefix(), seen, attrs)?;
    complete(alloc, element, source, attrs)?;
    Ok(())
}
