//! Closing with ample memory: attributes are carried along, and what a copy costs.

ghost use Rattle.std.specs.Prelude.{◌≡◌, true, map, OnOk};
ghost use Rattle.std.specs.List.{list_all};
ghost use Rattle.pur_tokens.specs.Tokens.{plain_token};
ghost use Rattle.pur_wellform.specs.Standing.{can_be_closed};

use crate::endings::{Failing, assert_none_fails, first_false};
use pur_attrlist::AttrList;
use pur_names::Element;
use pur_settings::Settings;
use pur_tokens::{Tag, Token};
use pur_tree::{Elem, Node};
use pur_wellform::make_wellformed;
use std::alloc::{AllocError, Global};

// Puts a token behind those that may be closed, where it may be closed too.
fn put(settings: &Settings, tokens: &mut Vec<Token>, token: Token) -> Result<(), AllocError>
    requires before { list_all (can_be_closed settings.now) (map plain_token tokens.old.items) ≡ true }
    requires token { can_be_closed settings.now (plain_token token) ≡ true }
    ensures { OnOk result (list_all (can_be_closed settings.now) (map plain_token tokens.new.items) ≡ true) }
{
    tokens.push(token)?;
    Ok(())
}

// Puts the start tag of a permitted element.
fn put_start(
    alloc: Global,
    settings: &Settings,
    tokens: &mut Vec<Token>,
    element: Element,
    attrs: AttrList,
) -> Result<(), AllocError>
    requires { list_all (can_be_closed settings.now) (map plain_token tokens.old.items) ≡ true }
    ensures { OnOk result (list_all (can_be_closed settings.now) (map plain_token tokens.new.items) ≡ true) }
{
    if settings.permits(element) {
        let name = String::from_str(alloc, element.name())?;
        put(settings, tokens, Token::Start(Tag { name, attrs }))?;
    }
    Ok(())
}

// Puts the end tag of a permitted element.
fn put_end(
    alloc: Global,
    settings: &Settings,
    tokens: &mut Vec<Token>,
    element: Element,
) -> Result<(), AllocError>
    requires { list_all (can_be_closed settings.now) (map plain_token tokens.old.items) ≡ true }
    ensures { OnOk result (list_all (can_be_closed settings.now) (map plain_token tokens.new.items) ≡ true) }
{
    if settings.permits(element) {
        let name = String::from_str(alloc, element.name())?;
        put(settings, tokens, Token::End(name))?;
    }
    Ok(())
}

// Puts one character of text.
fn put_char(
    alloc: Global,
    settings: &Settings,
    tokens: &mut Vec<Token>,
    character: char,
) -> Result<(), AllocError>
    requires { list_all (can_be_closed settings.now) (map plain_token tokens.old.items) ≡ true }
    ensures { OnOk result (list_all (can_be_closed settings.now) (map plain_token tokens.new.items) ≡ true) }
{
    let mut text = String::new(alloc);
    text.push(character)?;
    put(settings, tokens, Token::Text(text))?;
    Ok(())
}

// The one child of an element, if it is an element.
fn only_element(elem: &Elem) -> Option<&Elem> {
    if elem.children.len() != 1 {
        return None;
    }
    match elem.children.first() {
        Some(Node::Elem(child)) => Some(child),
        _ => None,
    }
}

// Puts the start tag of a paragraph, and a character.
fn put_paragraph(
    alloc: Global,
    settings: &Settings,
    tokens: &mut Vec<Token>,
    character: char,
) -> Result<(), AllocError>
    requires { list_all (can_be_closed settings.now) (map plain_token tokens.old.items) ≡ true }
    ensures { OnOk result (list_all (can_be_closed settings.now) (map plain_token tokens.new.items) ≡ true) }
{
    let none = AttrList::new(alloc);
    put_start(alloc, settings, tokens, Element::P, none)?;
    put_char(alloc, settings, tokens, character)?;
    Ok(())
}

// Puts bold with these attributes, and two paragraphs in it.
fn put_bold(
    alloc: Global,
    settings: &Settings,
    tokens: &mut Vec<Token>,
    attrs: AttrList,
) -> Result<(), AllocError>
    requires { list_all (can_be_closed settings.now) (map plain_token tokens.old.items) ≡ true }
    ensures { OnOk result (list_all (can_be_closed settings.now) (map plain_token tokens.new.items) ≡ true) }
{
    put_start(alloc, settings, tokens, Element::B, attrs)?;
    put_char(alloc, settings, tokens, '1')?;
    put_paragraph(alloc, settings, tokens, '2')?;
    put_paragraph(alloc, settings, tokens, '3')?;
    Ok(())
}

// A title of 600,000 letters.
fn long_title(alloc: Global) -> Result<String, AllocError> {
    let mut title = String::new(alloc);
    for _ in 0..60_000 {
        title.push_str("AAAAAAAAAA")?;
    }
    Ok(title)
}

// Attributes with a value of this name.
fn attrs_of(alloc: Global, name: &str, value: &str) -> Result<AttrList, AllocError> {
    let mut attrs = AttrList::new(alloc);
    attrs.set(name, value)?;
    Ok(attrs)
}

// Whether an element is bold with the long title.
fn is_titled_bold(elem: &Elem) -> bool {
    elem.name == Element::B && elem.attrs.weight() == 600_005
}

// Whether there is a paragraph that holds bold with the long title alone.
fn has_paid_copy(node: Option<&Node>) -> bool {
    match node {
        Some(Node::Elem(paragraph)) => {
            paragraph.name == Element::P
                && only_element(paragraph).is_some_and(|bold| is_titled_bold(bold))
        }
        _ => false,
    }
}

// Whether there is a paragraph with one child, which is no element.
fn has_no_copy(node: Option<&Node>) -> bool {
    match node {
        Some(Node::Elem(paragraph)) => {
            paragraph.name == Element::P
                && only_element(paragraph).is_none()
                && paragraph.children.len() == 1
        }
        _ => false,
    }
}

fn begins_with_titled_bold(node: Option<&Node>) -> bool {
    match node {
        Some(Node::Elem(bold)) => is_titled_bold(bold),
        _ => false,
    }
}

// Attributes with the long title.
fn long_attrs(alloc: Global) -> Result<AttrList, AllocError> {
    let title = long_title(alloc)?;
    attrs_of(alloc, "title", title.as_str())
}

// What nodes lack of bold with the long title, and of two paragraphs, the first with a copy of it.
fn lack_of_copies(nodes: &[Node]) -> Option<&'static str> {
    first_false(&[
        ("three nodes", nodes.len() == 3),
        ("bold", begins_with_titled_bold(nodes.first())),
        ("the first copy is paid", has_paid_copy(nodes.get(1))),
        ("the second can't be paid", has_no_copy(nodes.get(2))),
    ])
}

// The same of what bold with these attributes is closed to.
fn lack_in_bold(alloc: Global, settings: &Settings, attrs: AttrList) -> Failing {
    let mut tokens = Vec::new(alloc);
    put_bold(alloc, settings, &mut tokens, attrs)?;
    let forest = make_wellformed(alloc, settings, tokens)?;
    Ok(lack_of_copies(forest.nodes()))
}

fn lack_in_long_bold(alloc: Global, settings: &Settings) -> Failing {
    let attrs = long_attrs(alloc)?;
    lack_in_bold(alloc, settings, attrs)
}

#[test]
fn a_copy_is_paid_by_bytes(rt: HostRuntime) {
    let site = Settings::defaults();
    assert_none_fails(&rt, lack_in_long_bold(rt.alloc(), &site));
}

// Puts preformatted text, bold in it, a character and an image with these attributes in that, and the ends of both.
fn put_image_in_pre(
    alloc: Global,
    settings: &Settings,
    tokens: &mut Vec<Token>,
    source: AttrList,
) -> Result<(), AllocError>
    requires { list_all (can_be_closed settings.now) (map plain_token tokens.old.items) ≡ true }
    ensures { OnOk result (list_all (can_be_closed settings.now) (map plain_token tokens.new.items) ≡ true) }
{
    put_pre(alloc, settings, tokens)?;
    put_char(alloc, settings, tokens, 'a')?;
    put_start(alloc, settings, tokens, Element::Img, source)?;
    put_end(alloc, settings, tokens, Element::B)?;
    put_end(alloc, settings, tokens, Element::Pre)?;
    Ok(())
}

// Puts the start tags of preformatted text and of bold.
fn put_pre(alloc: Global, settings: &Settings, tokens: &mut Vec<Token>) -> Result<(), AllocError>
    requires { list_all (can_be_closed settings.now) (map plain_token tokens.old.items) ≡ true }
    ensures { OnOk result (list_all (can_be_closed settings.now) (map plain_token tokens.new.items) ≡ true) }
{
    let none = AttrList::new(alloc);
    put_start(alloc, settings, tokens, Element::Pre, none)?;
    let none = AttrList::new(alloc);
    put_start(alloc, settings, tokens, Element::B, none)?;
    Ok(())
}

// Whether there is preformatted text that holds bold alone, with one child.
fn has_bold_in_pre(node: Option<&Node>) -> bool {
    match node {
        Some(Node::Elem(pre)) => {
            pre.name == Element::Pre
                && only_element(pre).is_some_and(|bold| bold.children.len() == 1)
        }
        _ => false,
    }
}

// What nodes lack of preformatted text alone, with the bold text.
fn lack_of_bold(nodes: &[Node]) -> Option<&'static str> {
    first_false(&[
        ("one node", nodes.len() == 1),
        ("the bold text stays", has_bold_in_pre(nodes.first())),
    ])
}

// The same of what preformatted text is closed to, with an image of these attributes.
fn lack_in_pre(alloc: Global, settings: &Settings, source: AttrList) -> Failing {
    let mut tokens = Vec::new(alloc);
    put_image_in_pre(alloc, settings, &mut tokens, source)?;
    let forest = make_wellformed(alloc, settings, tokens)?;
    Ok(lack_of_bold(forest.nodes()))
}

fn lack_with_image(alloc: Global, settings: &Settings) -> Failing {
    let source = attrs_of(alloc, "src", "x")?;
    lack_in_pre(alloc, settings, source)
}

#[test]
fn an_image_below_bold_is_not_let_into_pre(rt: HostRuntime) {
    let site = Settings::defaults();
    assert_none_fails(&rt, lack_with_image(rt.alloc(), &site));
}
