//! Links made of the addresses in texts.

ghost use Rattle.std.specs.Prelude.{◌≡◌, [], ℕ, true, IfOk, OnOk, OnErr, IsTrue, if◌then◌else◌, string_bytes};
ghost use Rattle.std.specs.List.{list_all};
ghost use Rattle.std.specs.Str.{chars};
ghost use Rattle.pur_tree.specs.Image.{nodes_of, node_before};
ghost use Rattle.pur_tree.specs.Nodes.{Nodes, no_nodes, text_first, nodes_append, plain_elem};
ghost use Rattle.pur_inject.specs.Addresses.{is_address_character};
ghost use Rattle.pur_inject.specs.Links.{is_address_sign, link_to, linked, linked_run, linked_text, link_place_inside, may_be_linked, makes_links, with_links};
ghost use Rattle.pur_inject.specs.Runs.{with_runs};
ghost use Rattle.pur_inject.specs.Signs.{letters, nodes_from, signs_before};
ghost use Rattle.pur_inject.specs.Private.Cutting.{are_colonless, says};
ghost use Rattle.pur_inject.specs.Private.Growing.{grown};
ghost use Rattle.pur_inject.specs.Private.Linking.{linked_inside, texts_linked, texts_linked_at};

use crate::addresses::{address_in, is_colonless, may_be_linked, prefix_count};
use crate::growing::Growing;
use crate::places::LinkPlace;
use crate::remaining::Remaining;
use crate::runs::{Sort, cut_run};
use pur_attrlist::AttrList;
use pur_names::{Attr, Element};
use pur_settings::Settings;
use pur_tree::{Elem, Forest, Node, push_text_node};
use pur_uripolicy::{UriGate, UriTest};
use std::alloc::{AllocError, Global};
use std::mem;

/// Makes links of the addresses in texts, where the settings say so and permit an `a` with its `href`. A text is looked at where
/// its parent may hold an `a`, no element round it excludes one, and a level is left for it.
///
/// An address begins with `http://`, `https://` or `ftp://` in lower case, at the text's start or behind a character that is no
/// ASCII letter or digit. It goes on through ASCII letters, digits and the marks `-._~:/?#@!$&*+=%`, and the marks `.:!?` at its
/// end are taken off. It becomes a link where it is then longer than its prefix, and may be what a link leads to: the settings and
/// the gate decide about that.
///
/// Nodes are changed where they stand, and none is copied; a list of children is made anew where one of its own texts has an address.
///
/// The error is want of memory, and the forest is then empty.
///
/// Source: HTML Purifier's injector AutoFormat.Linkify, in outline.
pub fn linkify<F: UriTest>(
    alloc: Global,
    settings: &Settings,
    gate: &UriGate<F>,
    forest: &mut Forest,
) -> Result<(), AllocError>
    ensures ok { OnOk result (nodes_of forest.new ≡ with_links settings.now gate.now (nodes_of forest.old)) }
    ensures err { OnErr result (nodes_of forest.new ≡ no_nodes) }
{
    if !makes_links(settings) {
        return Ok(());
    }
    let mut nodes = forest.take_nodes();
    link_nodes(alloc, settings, gate, LinkPlace::of(settings), &mut nodes)?;
    forest.put_nodes(nodes);
    Ok(())
}

fn makes_links(settings: &Settings) -> bool
    ensures { result ≡ makes_links settings.now }
{
    settings.linkify()
        && settings.permits(Element::A)
        && settings.permits_attr(Element::A, Attr::Href)
}

// Links made in nodes that stand in a place.
#[cycle(link)]
pub(crate) fn link_nodes<F: UriTest>(
    alloc: Global,
    settings: &Settings,
    gate: &UriGate<F>,
    place: LinkPlace,
    nodes: &mut Vec<Node>,
) -> Result<(), AllocError>
    ensures { OnOk result (nodes_of nodes.new.items ≡ linked settings.now.doctype (may_be_linked settings.now gate.now) place (nodes_of nodes.old.items)) }
{
    for at in 0..nodes.len() {
        link_in_node(alloc, settings, gate, place, &mut nodes[at])?;
    }
    link_texts(alloc, settings, gate, place, nodes)
}

// Links made inside a node, where it is an element.
#[cycle(link)]
fn link_in_node<F: UriTest>(
    alloc: Global,
    settings: &Settings,
    gate: &UriGate<F>,
    place: LinkPlace,
    node: &mut Node,
) -> Result<(), AllocError>
    ensures { OnOk result ((rest : Nodes) → node_before node.new (linked_inside settings.now.doctype (may_be_linked settings.now gate.now) place rest)
        ≡ linked_inside settings.now.doctype (may_be_linked settings.now gate.now) place (node_before node.old rest)) }
{
    match node {
        Node::Text(_) => Ok(()),
        Node::Elem(elem) => link_in_elem(alloc, settings, gate, place, elem),
    }
}

// Links made in an element that stands in a place.
#[cycle(link)]
fn link_in_elem<F: UriTest>(
    alloc: Global,
    settings: &Settings,
    gate: &UriGate<F>,
    place: LinkPlace,
    elem: &mut Elem,
) -> Result<(), AllocError>
    ensures itself { plain_elem elem.new.name elem.new.attrs ≡ plain_elem elem.old.name elem.old.attrs }
    ensures children { OnOk result (nodes_of elem.new.children.items
        ≡ linked settings.now.doctype (may_be_linked settings.now gate.now) (link_place_inside settings.now.doctype place elem.old.name) (nodes_of elem.old.children.items)) }
{
    let inside = place.inside(settings.doctype(), elem.name);
    link_nodes(alloc, settings, gate, inside, &mut elem.children)
}

// Links made of nodes' own texts, where links may stand.
fn link_texts<F: UriTest>(
    alloc: Global,
    settings: &Settings,
    gate: &UriGate<F>,
    place: LinkPlace,
    nodes: &mut Vec<Node>,
) -> Result<(), AllocError>
    ensures { OnOk result (nodes_of nodes.new.items ≡ texts_linked_at settings.now.doctype (may_be_linked settings.now gate.now) place (nodes_of nodes.old.items)) }
{
    if !place.takes_links(settings.doctype()) {
        return Ok(());
    }
    if are_colonless(nodes) {
        return Ok(());
    }
    let texts = mem::replace(nodes, Vec::new(alloc));
    *nodes = texts_linked(alloc, settings, gate, texts)?;
    Ok(())
}

// Whether nodes' own texts have no colon, and so no address.
fn are_colonless(nodes: &[Node]) -> bool
    ensures { result ≡ true → are_colonless (nodes_of nodes.now) ≡ true }
{
    for node in nodes {
        if !is_colonless_node(node) {
            return false;
        }
    }
    true
}

fn is_colonless_node(node: &Node) -> bool
    ensures { (more : Nodes) → result ≡ true → are_colonless (node_before node.now more) ≡ are_colonless more }
{
    match node {
        Node::Text(text) => is_colonless(text.as_str()),
        Node::Elem(_) => true,
    }
}

// Nodes in which links are made of their own texts.
fn texts_linked<F: UriTest>(
    alloc: Global,
    settings: &Settings,
    gate: &UriGate<F>,
    nodes: Vec<Node>,
) -> Result<Vec<Node>, AllocError>
    ensures { IfOk result (λ out. nodes_of out.items ≡ texts_linked (may_be_linked settings.now gate.now) (nodes_of nodes.items)) }
{
    let mut out = Growing::with_room(alloc, room_for(&nodes))?;
    let mut remaining = Remaining::of(nodes);
    'taking: while let Some(node) = remaining.take_first() {
        match node {
            Node::Text(text) => put_text_node(alloc, settings, gate, &mut out, text)?,
            Node::Elem(elem) => out.put_elem(alloc, elem)?,
        }
    }
    let nodes = out.finish(alloc)?;
    Ok(nodes)
}

// How many nodes there are at most once links are made of nodes' own texts: an address becomes a link and cuts a text in two.
fn room_for(nodes: &[Node]) -> usize {
    let mut room = nodes.len();
    for node in nodes {
        if let Node::Text(text) = node {
            room = room.saturating_add(prefix_count(text.as_str()).saturating_mul(2));
        }
    }
    room
}

// Puts a text behind nodes, as texts and links.
fn put_text_node<F: UriTest>(
    alloc: Global,
    settings: &Settings,
    gate: &UriGate<F>,
    out: &mut Growing,
    text: String,
) -> Result<(), AllocError>
    requires { string_bytes out.old.text ≡ [] }
    ensures over { OnOk result (string_bytes out.new.text ≡ []) }
    ensures nodes { OnOk result ((more : Nodes) → nodes_append (nodes_of out.new.nodes.items) more
        ≡ nodes_append (nodes_of out.old.nodes.items) (nodes_append (linked_text (may_be_linked settings.now gate.now) (chars (string_bytes text))) more)) }
{
    if is_colonless(text.as_str()) {
        push_text_node(&mut out.nodes, text)?;
        return Ok(());
    }
    put_linked_text(alloc, settings, gate, out, text.as_str())?;
    out.end_text(alloc)?;
    Ok(())
}

// Puts a text behind what is done, as texts and links.
fn put_linked_text<F: UriTest>(
    alloc: Global,
    settings: &Settings,
    gate: &UriGate<F>,
    out: &mut Growing,
    text: &str,
) -> Result<(), AllocError>
    ensures { OnOk result (grown out.new no_nodes ≡ grown out.old (nodes_from (with_runs is_address_sign (linked_run (may_be_linked settings.now gate.now)) (letters (chars text.now))))) }
{
    let mut rest = text;
    'cutting: while let Some((run, is, behind)) = cut_run(rest, Sort::Address) {
        put_run(alloc, settings, gate, out, run, is)?;
        rest = behind;
    }
    Ok(())
}

// Puts a run of address characters, or of others, behind what is done.
fn put_run<F: UriTest>(
    alloc: Global,
    settings: &Settings,
    gate: &UriGate<F>,
    out: &mut Growing,
    run: &str,
    is: bool,
) -> Result<(), AllocError>
    requires said { IsTrue (list_all (says is_address_character is) (chars run.now)) }
    requires ascii { is ≡ true → chars run.now ≡ run.now }
    ensures { OnOk result ((more : Nodes) → grown out.new more
        ≡ grown out.old (signs_before (if is then linked_run (may_be_linked settings.now gate.now) (letters (chars run.now)) else letters (chars run.now)) more)) }
{
    if is {
        return put_address_run(alloc, settings, gate, out, run);
    }
    out.put_text(run)
}

// Puts a run of address characters behind what is done.
fn put_address_run<F: UriTest>(
    alloc: Global,
    settings: &Settings,
    gate: &UriGate<F>,
    out: &mut Growing,
    run: &str,
) -> Result<(), AllocError>
    requires said { IsTrue (list_all is_address_character run.now) }
    requires ascii { chars run.now ≡ run.now }
    ensures { OnOk result ((more : Nodes) → grown out.new more
        ≡ grown out.old (signs_before (linked_run (may_be_linked settings.now gate.now) (letters (chars run.now))) more)) }
{
    let (before, address, marks) = address_in(run);
    let may = may_be_linked(alloc, settings, gate, address)?;
    if !may {
        out.put_text(run)?;
        return Ok(());
    }
    out.put_text(before)?;
    out.put_elem(alloc, link(alloc, address)?)?;
    out.put_text(marks)?;
    Ok(())
}

// An `a` that leads to an address, and has it for its text.
fn link(alloc: Global, address: &str) -> Result<Elem, AllocError>
    ensures itself { IfOk result (λ link. plain_elem link.name link.attrs ≡ link_to (chars address.now)) }
    ensures children { IfOk result (λ link. nodes_of link.children.items ≡ text_first (chars address.now) no_nodes) }
{
    let mut attrs = AttrList::new(alloc);
    attrs.set("href", address)?;
    let text = String::from_str(alloc, address)?;
    let mut children = Vec::with_capacity(alloc, 1)?;
    push_text_node(&mut children, text)?;
    Ok(Elem {
        name: Element::A,
        attrs,
        children,
    })
}
