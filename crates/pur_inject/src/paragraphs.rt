//! Paragraphs made of what stands between blank lines.

ghost use Rattle.std.specs.Prelude.{◌≡◌, ◌∷◌, ◌++◌, ◌≤◌, [], List, Bool, true, false, IfOk, OnOk, OnErr, IsTrue, if◌then◌else◌, nat_le, string_bytes};
ghost use Rattle.std.specs.Str.{chars};
ghost use Rattle.pur_names.specs.declared.elements.Element.TheVariants.{P};
ghost use Rattle.pur_tree.specs.Image.{nodes_of, node_before};
ghost use Rattle.pur_tree.specs.Nodes.{Nodes, no_nodes, plain_elem, bare, level_in};
ghost use Rattle.pur_tree.specs.Places.{level_limit};
ghost use Rattle.pur_text.specs.Characters.{is_blank};
ghost use Rattle.pur_inject.specs.Paragraphs.{in_paragraphs, is_in_paragraphs, is_flow, are_blank, is_paragraph, makes_paragraphs, marked_run, with_blank_lines, with_paragraphs};
ghost use Rattle.pur_inject.specs.Signs.{Sign, element, letters};
ghost use Rattle.pur_inject.specs.Private.Growing.{grown};
ghost use Rattle.pur_inject.specs.Private.Standing.{are_apart, going_on, piece_before, standing};

use crate::growing::Growing;
use crate::remaining::Remaining;
use crate::runs::{Sort, cut_run};
use pur_attrlist::AttrList;
use pur_modules::{Content, Doctype, is_edit, is_inline};
use pur_names::Element;
use pur_settings::Settings;
use pur_text::is_space;
use pur_tree::{Elem, Forest, LEVEL_LIMIT, Node, is_table, level_rise};
use std::alloc::{AllocError, Global};
use std::mem;

/// Makes paragraphs of a fragment's own texts and inline elements, `ins` and `del` apart, where the settings say so, the fragment
/// stands in a `div` and a `p` is permitted. Two or more line feeds in a row are a blank line: two of them stay, the others are
/// taken. What stands between blank lines, other elements and the ends of the fragment becomes a `p`, if it has more than white
/// space and no level passes the limit. Texts that become neighbours are joined.
///
/// Nodes are moved, and none is copied.
///
/// The error is want of memory, and the forest is then empty.
///
/// Source: HTML Purifier's injector AutoFormat.AutoParagraph, in outline.
pub fn auto_paragraph(
    alloc: Global,
    settings: &Settings,
    forest: &mut Forest,
) -> Result<(), AllocError>
    ensures ok { OnOk result (nodes_of forest.new ≡ with_paragraphs settings.now (nodes_of forest.old)) }
    ensures err { OnErr result (nodes_of forest.new ≡ no_nodes) }
{
    if !makes_paragraphs(settings) {
        return Ok(());
    }
    let nodes = in_paragraphs(alloc, settings.doctype(), forest.take_nodes())?;
    forest.put_nodes(nodes);
    Ok(())
}

fn makes_paragraphs(settings: &Settings) -> bool
    ensures { result ≡ makes_paragraphs settings.now }
{
    settings.auto_paragraph() && is_flow(settings.parent()) && settings.permits(Element::P)
}

fn is_flow(content: Content) -> bool
    ensures { result ≡ is_flow content }
{
    matches!(content, Content::Flow)
}

fn is_in_paragraphs(doctype: Doctype, name: Element) -> bool
    ensures { result ≡ is_in_paragraphs doctype name }
{
    is_inline(doctype, name) && !is_edit(name)
}

// A fragment's own nodes in paragraphs.
fn in_paragraphs(alloc: Global, doctype: Doctype, nodes: Vec<Node>) -> Result<Vec<Node>, AllocError>
    ensures { IfOk result (λ out. nodes_of out.items ≡ in_paragraphs doctype (nodes_of nodes.items)) }
{
    if are_apart(doctype, &nodes) {
        return Ok(nodes);
    }
    let done = Growing::with_room(alloc, room_for(&nodes))?;
    let mut remaining = Remaining::of(nodes);
    let mut paragraphs = Paragraphs {
        done,
        piece: Growing::new(alloc),
        text: String::new(alloc),
    };
    'taking: while let Some(node) = remaining.take_first() {
        match node {
            Node::Text(text) => paragraphs.put_text(text)?,
            Node::Elem(elem) => paragraphs.put_elem(alloc, doctype, elem)?,
        }
    }
    paragraphs.end_text(alloc, doctype)?;
    paragraphs.end_piece(alloc)?;
    let nodes = paragraphs.done.finish(alloc)?;
    Ok(nodes)
}

// Whether nodes are elements that stand in no paragraph, all of them: then there is nothing to do.
fn are_apart(doctype: Doctype, nodes: &[Node]) -> bool
    ensures { result ≡ are_apart doctype (nodes_of nodes.now) }
{
    for node in nodes {
        if !is_apart(doctype, node) {
            return false;
        }
    }
    true
}

fn is_apart(doctype: Doctype, node: &Node) -> bool
    ensures { (more : Nodes) → are_apart doctype (node_before node.now more) ≡ (if result then are_apart doctype more else false) }
{
    match node {
        Node::Text(_) => false,
        Node::Elem(elem) => !is_in_paragraphs(doctype, elem.name),
    }
}

// How many nodes there are at most once nodes are in paragraphs, if no blank line lies in two texts: it becomes a text of its
// own, and cuts another in two.
fn room_for(nodes: &[Node]) -> usize {
    let mut room = nodes.len();
    for node in nodes {
        if let Node::Text(text) = node {
            room = room.saturating_add(blank_line_count(text.as_str()).saturating_mul(2));
        }
    }
    room
}

// How many blank lines a text has.
fn blank_line_count(text: &str) -> usize {
    let mut count = 0usize;
    let mut within = false;
    let mut rest = text.as_bytes();
    'counting: while let [first, behind @ ..] = rest {
        if !within && rest.starts_with(b"\n\n") {
            count = count.saturating_add(1);
        }
        within = *first == b'\n';
        rest = behind;
    }
    count
}

/// What is done of a fragment, the piece that stands open behind it, and the text at hand behind that, which isn't cut yet.
#[derive(Drop)]
struct Paragraphs {
    done: Growing,
    piece: Growing,
    text: String,
}

impl Paragraphs {
    fn put_text(&mut self, text: String) -> Result<(), AllocError>
        ensures { OnOk result ((doctype : Doctype) (more : List Sign) → standing doctype self.new more ≡ standing doctype self.old (letters (chars (string_bytes text)) ++ more)) }
    {
        if self.text.is_empty() {
            self.text = text;
            return Ok(());
        }
        self.text.push_str(text.as_str())?;
        Ok(())
    }

    fn put_elem(&mut self, alloc: Global, doctype: Doctype, elem: Elem) -> Result<(), AllocError>
        ensures { OnOk result ((more : List Sign) → standing doctype self.new more
            ≡ standing doctype self.old (element (plain_elem elem.name elem.attrs) (nodes_of elem.children.items) ∷ more)) }
    {
        self.end_text(alloc, doctype)?;
        if is_in_paragraphs(doctype, elem.name) {
            self.piece.put_elem(alloc, elem)?;
            return Ok(());
        }
        self.end_piece(alloc)?;
        self.done.put_elem(alloc, elem)?;
        Ok(())
    }

    // Cuts the text at hand at its blank lines.
    fn end_text(&mut self, alloc: Global, doctype: Doctype) -> Result<(), AllocError>
        ensures over { OnOk result (string_bytes self.new.text ≡ []) }
        ensures same { OnOk result ((more : List Sign) → going_on doctype self.new more
            ≡ going_on doctype self.old (with_blank_lines (letters (chars (string_bytes self.old.text))) ++ more)) }
    {
        let text = mem::replace(&mut self.text, String::new(alloc));
        let mut rest = text.as_str();
        'cutting: while let Some((run, is, behind)) = cut_run(rest, Sort::LineFeed) {
            self.put_run(alloc, doctype, run, is)?;
            rest = behind;
        }
        Ok(())
    }

    // Puts a run of line feeds, or of other characters, behind the piece.
    fn put_run(
        &mut self,
        alloc: Global,
        doctype: Doctype,
        run: &str,
        is: bool,
    ) -> Result<(), AllocError>
        requires { is ≡ true → chars run.now ≡ run.now }
        ensures text { OnOk result (string_bytes self.new.text ≡ string_bytes self.old.text) }
        ensures same { OnOk result ((more : List Sign) → going_on doctype self.new more
            ≡ going_on doctype self.old ((if is then marked_run (letters (chars run.now)) else letters (chars run.now)) ++ more)) }
    {
        if is && run.len() > 1 {
            self.end_piece(alloc)?;
            self.done.put_text("\n\n")?;
            return Ok(());
        }
        self.piece.put_text(run)?;
        Ok(())
    }

    // Ends the piece, as a paragraph or as it is.
    fn end_piece(&mut self, alloc: Global) -> Result<(), AllocError>
        ensures piece { OnOk result ((more : Nodes) → grown self.new.piece more ≡ more) }
        ensures text { OnOk result (string_bytes self.new.text ≡ string_bytes self.old.text) }
        ensures done { OnOk result ((more : Nodes) → grown self.new.done more ≡ grown self.old.done (piece_before (grown self.old.piece no_nodes) more)) }
    {
        let piece = mem::replace(&mut self.piece, Growing::new(alloc));
        let nodes = piece.finish(alloc)?;
        if is_paragraph(&nodes) {
            self.done.put_elem(alloc, paragraph(alloc, nodes))?;
            return Ok(());
        }
        self.done.put_nodes(alloc, nodes)?;
        Ok(())
    }
}

fn paragraph(alloc: Global, children: Vec<Node>) -> Elem
    ensures itself { plain_elem result.name result.attrs ≡ bare P }
    ensures children { nodes_of result.children.items ≡ nodes_of children.items }
{
    Elem {
        name: Element::P,
        attrs: AttrList::new(alloc),
        children,
    }
}

// Whether a piece becomes a paragraph.
fn is_paragraph(piece: &[Node]) -> bool
    ensures { result ≡ is_paragraph (nodes_of piece.now) }
{
    !are_blank(piece) && levels_fit(1, false, piece)
}

fn are_blank(nodes: &[Node]) -> bool
    ensures { result ≡ are_blank (nodes_of nodes.now) }
{
    for node in nodes {
        if !is_blank_node(node) {
            return false;
        }
    }
    true
}

fn is_blank_node(node: &Node) -> bool
    ensures { (more : Nodes) → are_blank (node_before node.now more) ≡ (if result then are_blank more else false) }
{
    match node {
        Node::Text(text) => is_blank(text.as_str()),
        Node::Elem(_) => false,
    }
}

fn is_blank(text: &str) -> bool
    ensures { result ≡ is_blank (chars text.now) }
{
    text.chars().all(|c| is_space(c))
}

// Whether the levels of nodes fit that stand in a parent of this level.
#[cycle(levels_fit)]
fn levels_fit(level: usize, in_table: bool, nodes: &[Node]) -> bool
    requires { level ≤ level_limit }
    ensures { result ≡ nat_le (level_in (record { level = level; in_table = in_table }) (nodes_of nodes.now)) level_limit }
{
    for node in nodes {
        if !level_fits(level, in_table, node) {
            return false;
        }
    }
    true
}

#[cycle(levels_fit)]
fn level_fits(level: usize, in_table: bool, node: &Node) -> bool
    requires { level ≤ level_limit }
    ensures { (more : Nodes) → nat_le (level_in (record { level = level; in_table = in_table }) (node_before node.now more)) level_limit
        ≡ (if result then nat_le (level_in (record { level = level; in_table = in_table }) more) level_limit else false) }
{
    match node {
        Node::Text(_) => true,
        Node::Elem(elem) => {
            let inside = level + level_rise(in_table, elem.name);
            inside <= LEVEL_LIMIT && levels_fit(inside, is_table(elem.name), &elem.children)
        }
    }
}
