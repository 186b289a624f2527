//! Whether nodes are valid.
ghost use Rattle.std.specs.Prelude.{◌≡◌, ◌&&◌, ◌↔◌, ◌||◌, ℕ, List, true, IfOk, IsTrue};
ghost use Rattle.std.specs.Str.{chars};
ghost use Rattle.pur_modules.specs.Contents.{content_held};
ghost use Rattle.pur_tree.specs.Image.{nodes_of, node_before};
ghost use Rattle.pur_tree.specs.Nodes.{Nodes, plain_elem};
ghost use Rattle.pur_validity.specs.Attributes.{ids_of, ids_in};
ghost use Rattle.pur_validity.specs.Validity.{IsValid};
ghost use Rattle.pur_reader.specs.Private.Judging.{is_right_here, has_right_attributes, right_within, seen_in, seen_behind, ids_right};

use crate::values::has_right_attributes;
use crate::words::are_word;
use pur_attrlist::AttrList;
use pur_modules::{Content, Excluders, content_of};
use pur_names::Element;
use pur_settings::Settings;
use pur_tree::{Forest, Node};
use pur_uripolicy::{UriGate, UriTest};
use pur_validity::validity_is_decided;
use std::alloc::{AllocError, Global};
use std::collections::BTreeSet;

/// Whether nodes are valid under the settings: children are words of what their parents hold, no element stands in one that
/// excludes it, elements and attributes are permitted, each value is its own reading, and ids have the prefix and are distinct.
///
/// Goes over each node a fixed number of times. The error is want of memory.
///
/// Source: XML 1.0, section 3; XHTML 1.0, the two DTDs and appendix B.
pub fn valid<F: UriTest>(
    alloc: Global,
    settings: &Settings,
    gate: &UriGate<F>,
    forest: &Forest,
) -> Result<bool, AllocError>
    ensures { IfOk result (λ is. IsTrue is ↔ IsValid settings.now gate.now (nodes_of forest.now)) }
{
    validity_is_decided();
    let nodes = forest.nodes();
    let parent = settings.parent();
    let is_word = are_word(alloc, settings.doctype(), parent, nodes)?;
    if !is_word {
        return Ok(false);
    }
    let is_right = are_right(alloc, settings, gate, parent, Excluders::none(), nodes)?;
    if !is_right {
        return Ok(false);
    }
    let mut seen = BTreeSet::new(alloc);
    let has_ids = have_right_ids(alloc, settings.id_prefix(), &mut seen, nodes)?;
    Ok(has_ids)
}

// Whether nodes are right in some content, with what stands round them.
#[cycle(are_right)]
fn are_right<F: UriTest>(
    alloc: Global,
    settings: &Settings,
    gate: &UriGate<F>,
    content: Content,
    round: Excluders,
    nodes: &[Node],
) -> Result<bool, AllocError>
    ensures { IfOk result (λ is. is ≡ right_within settings.now gate.now content round (nodes_of nodes.now)) }
{
    for node in nodes {
        let is_right = is_right_node(alloc, settings, gate, content, round, node)?;
        if !is_right {
            return Ok(false);
        }
    }
    Ok(true)
}

// Whether a node is right in some content, with what stands round it.
#[cycle(are_right)]
fn is_right_node<F: UriTest>(
    alloc: Global,
    settings: &Settings,
    gate: &UriGate<F>,
    content: Content,
    round: Excluders,
    node: &Node,
) -> Result<bool, AllocError>
    ensures { IfOk result (λ is. (rest : Nodes) → right_within settings.now gate.now content round (node_before node.now rest)
        ≡ (is && right_within settings.now gate.now content round rest)) }
{
    match node {
        Node::Text(_) => Ok(true),
        Node::Elem(elem) => {
            let name = elem.name;
            let kids = elem.children.as_slice();
            let is_here = is_right_here(alloc, settings, content, round, name, kids)?;
            if !is_here {
                return Ok(false);
            }
            let has_attrs = has_right_attributes(alloc, settings, gate, name, &elem.attrs)?;
            if !has_attrs {
                return Ok(false);
            }
            let held = content_of(settings.doctype(), name, content);
            let within = round.inside(name);
            let inside = are_right(alloc, settings, gate, held, within, kids)?;
            Ok(inside)
        }
    }
}

// Whether an element may stand here, with these children.
fn is_right_here(
    alloc: Global,
    settings: &Settings,
    content: Content,
    round: Excluders,
    name: Element,
    kids: &[Node],
) -> Result<bool, AllocError>
    ensures { IfOk result (λ is. is ≡ is_right_here settings.now content round name (nodes_of kids.now)) }
{
    if !settings.permits(name) {
        return Ok(false);
    }
    if round.exclude(name) {
        return Ok(false);
    }
    let held = content_of(settings.doctype(), name, content);
    let is_word = are_word(alloc, settings.doctype(), held, kids)?;
    Ok(is_word)
}

// Whether the ids of nodes begin with the prefix, and none was seen or stands earlier; they are then seen.
#[cycle(have_right_ids)]
fn have_right_ids(
    alloc: Global,
    prefix: &str,
    seen: &mut BTreeSet<String>,
    nodes: &[Node],
) -> Result<bool, AllocError>
    ensures right { IfOk result (λ is. is ≡ ids_right (chars prefix.now) (seen_in seen.old) (ids_of (nodes_of nodes.now))) }
    ensures seen { IfOk result (λ is. is ≡ true → (id : List ℕ) → seen_in seen.new id ≡ seen_behind (seen_in seen.old) (ids_of (nodes_of nodes.now)) id) }
{
    for node in nodes {
        let is_right = has_right_ids(alloc, prefix, seen, node)?;
        if !is_right {
            return Ok(false);
        }
    }
    Ok(true)
}

// The same of one node, in front of others.
#[cycle(have_right_ids)]
fn has_right_ids(
    alloc: Global,
    prefix: &str,
    seen: &mut BTreeSet<String>,
    node: &Node,
) -> Result<bool, AllocError>
    ensures right { IfOk result (λ is. (rest : Nodes) → ids_right (chars prefix.now) (seen_in seen.old) (ids_of (node_before node.now rest))
        ≡ (is && ids_right (chars prefix.now) (seen_in seen.new) (ids_of rest))) }
    ensures seen { IfOk result (λ is. is ≡ true → (rest : Nodes) (id : List ℕ) → seen_behind (seen_in seen.old) (ids_of (node_before node.now rest)) id
        ≡ seen_behind (seen_in seen.new) (ids_of rest) id) }
{
    match node {
        Node::Text(_) => Ok(true),
        Node::Elem(elem) => {
            let is_new = has_new_id(alloc, prefix, seen, &elem.attrs)?;
            if !is_new {
                return Ok(false);
            }
            let inside = have_right_ids(alloc, prefix, seen, elem.children.as_slice())?;
            Ok(inside)
        }
    }
}

// The same of an element's own id.
fn has_new_id(
    alloc: Global,
    prefix: &str,
    seen: &mut BTreeSet<String>,
    attrs: &AttrList,
) -> Result<bool, AllocError>
    ensures right { IfOk result (λ is. is ≡ ids_right (chars prefix.now) (seen_in seen.old) (ids_in attrs.now)) }
    ensures seen { IfOk result (λ is. is ≡ true → (id : List ℕ) → seen_in seen.new id ≡ seen_behind (seen_in seen.old) (ids_in attrs.now) id) }
{
    match attrs.get("id") {
        Some(id) => {
            if !id.as_bytes().starts_with(prefix.as_bytes()) {
                return Ok(false);
            }
            if seen.contains(id) {
                return Ok(false);
            }
            let id = String::from_str(alloc, id)?;
            seen.insert(id)?;
            Ok(true)
        }
        None => Ok(true),
    }
}
