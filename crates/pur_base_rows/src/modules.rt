//! Values typed from the standard, by people: the definitions that the contracts cite could share a slip with the tables.

use crate::endings::{assert_none_fails, first_false};
use pur_modules::{
    Child, Content, Doctype, allows, attributes, children, content_of, declares, excludes, implied,
    is_declared_empty, required, text_allowed,
};
use pur_names::{Attr, Element, SchemeName, StyleProp};

fn first_other_name() -> Option<&'static str> {
    let last_width = StyleProp::from_name("border-bottom-width");
    first_false(&[
        (
            "an element is read",
            Element::from_name("blockquote") == Some(Element::Blockquote),
        ),
        (
            "names are in lower case",
            Element::from_name("TD").is_none(),
        ),
        ("an element is told", Element::Acronym.name() == "acronym"),
        (
            "an option is read",
            Element::from_name("option") == Some(Element::OptionItem),
        ),
        (
            "an attribute of forms is read",
            Attr::from_name("maxlength") == Some(Attr::Maxlength),
        ),
        ("a control is told", Element::Textarea.name() == "textarea"),
        (
            "an attribute is read",
            Attr::from_name("xml:lang") == Some(Attr::XmlLang),
        ),
        ("an attribute is told", Attr::ListType.name() == "type"),
        (
            "a property is read",
            last_width == Some(StyleProp::BorderBottomWidth),
        ),
        (
            "a shorthand that is left out",
            StyleProp::from_name("font").is_none(),
        ),
        ("no scheme", SchemeName::from_name("javascript").is_none()),
        ("a scheme is told", SchemeName::Nntp.name() == "nntp"),
    ])
}

#[test]
fn names_are_read_and_told(rt: HostRuntime) {
    assert_none_fails(&rt, Ok(first_other_name()));
}

// A kind of content, and how many elements it has.
static COUNTS: [(Doctype, Content, usize); 15] = [
    (Doctype::Strict, Content::Inline, 30),
    (Doctype::Transitional, Content::Inline, 34),
    (Doctype::Strict, Content::Flow, 48),
    (Doctype::Transitional, Content::Flow, 55),
    (Doctype::Strict, Content::Block, 20),
    (Doctype::Transitional, Content::AddressMix, 35),
    (Doctype::Strict, Content::Items, 1),
    (Doctype::Strict, Content::TableParts, 7),
    (Doctype::Strict, Content::Options, 2),
    (Doctype::Transitional, Content::OptionItems, 1),
    (Doctype::Strict, Content::TextOnly, 0),
    (Doctype::Strict, Content::FieldsetMix, 49),
    (Doctype::Transitional, Content::FieldsetMix, 56),
    (Doctype::Transitional, Content::Block, 23),
    (Doctype::Strict, Content::Nothing, 0),
];

// The first kind of content that has more elements, or fewer.
fn first_other_count() -> Option<Content> {
    for (doctype, content, count) in &COUNTS {
        if children(*doctype, *content).len() != *count {
            return Some(*content);
        }
    }
    None
}

fn first_other_child() -> Option<&'static str> {
    let menu = Child::Elem(Element::Menu);
    first_false(&[
        ("text in a mix", text_allowed(Content::AddressMix)),
        ("text in a table", !text_allowed(Content::TableParts)),
        ("a menu", !allows(Doctype::Strict, Content::Flow, menu)),
        ("`big`", declares(Doctype::Strict, Element::Big)),
        ("`hr`", is_declared_empty(Element::Hr)),
    ])
}

#[test]
fn children_are_as_many_as_in_the_standard(rt: HostRuntime) {
    assert_eq!(rt; first_other_count(), None);
    assert_none_fails(&rt, Ok(first_other_child()));
}

fn first_other_content() -> Option<&'static str> {
    let address = content_of(Doctype::Strict, Element::Address, Content::Flow);
    let in_mix = content_of(Doctype::Transitional, Element::Del, Content::AddressMix);
    let in_block = content_of(Doctype::Strict, Element::Del, Content::Block);
    first_false(&[
        ("an address", address == Content::Inline),
        ("`del` in a mix", in_mix == Content::Inline),
        ("`del` in a block", in_block == Content::Flow),
        (
            "`pre` without `font`",
            excludes(Element::Pre, Element::Font),
        ),
    ])
}

fn first_other_part() -> Option<&'static str> {
    let in_pairs = implied(Doctype::Transitional, Content::Pairs, Child::Text);
    let in_rows = implied(Doctype::Strict, Content::Rows, Child::Text);
    let cell = attributes(Doctype::Transitional, Element::Td);
    let font = attributes(Doctype::Strict, Element::Font);
    first_false(&[
        ("text in pairs", in_pairs == Some(Element::Dd)),
        ("text in rows", in_rows.is_none()),
        ("attributes of `td`", cell.len() == 17),
        ("attributes of `font`", font.is_empty()),
        ("required of `bdo`", required(Element::Bdo).len() == 1),
    ])
}

#[test]
fn elements_hold_what_the_standard_says(rt: HostRuntime) {
    assert_none_fails(&rt, Ok(first_other_content()));
    assert_none_fails(&rt, Ok(first_other_part()));
}
