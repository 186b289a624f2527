//! The elements of forms, typed from the standard, by people: what they hold, which attributes they have, what they
//! exclude, and what the contents of their lists imply.

use crate::endings::{assert_none_fails, first_false};
use pur_modules::{
    Child, Content, Doctype, attributes, content_of, declares, excludes, implied,
    is_declared_empty, is_of_forms, required,
};
use pur_names::{Attr, Element};

// An element, and what it holds under Strict and under Transitional.
static HELD: [(Element, Content, Content); 10] = [
    (Element::Form, Content::Block, Content::Flow),
    (Element::Input, Content::Nothing, Content::Nothing),
    (Element::Select, Content::Options, Content::Options),
    (
        Element::Optgroup,
        Content::OptionItems,
        Content::OptionItems,
    ),
    (Element::OptionItem, Content::TextOnly, Content::TextOnly),
    (Element::Textarea, Content::TextOnly, Content::TextOnly),
    (
        Element::Fieldset,
        Content::FieldsetMix,
        Content::FieldsetMix,
    ),
    (Element::Legend, Content::Inline, Content::Inline),
    (Element::Label, Content::Inline, Content::Inline),
    (Element::Button, Content::Flow, Content::Flow),
];

// The first element that holds something else, or isn't of forms, or isn't in both doctypes.
fn first_other_holder() -> Option<Element> {
    for (element, strict, transitional) in &HELD {
        let known = declares(Doctype::Strict, *element)
            && declares(Doctype::Transitional, *element)
            && is_of_forms(*element);
        let held = content_of(Doctype::Strict, *element, Content::Flow) == *strict
            && content_of(Doctype::Transitional, *element, Content::Inline) == *transitional;
        let empty = is_declared_empty(*element) == (*strict == Content::Nothing);
        if !(known && held && empty) {
            return Some(*element);
        }
    }
    None
}

#[test]
fn elements_of_forms_hold_what_the_standard_says(rt: HostRuntime) {
    assert_eq!(rt; first_other_holder(), None);
}

// An element, its attributes under Transitional beside those of all elements, how many of these Strict has, and those that
// it must have.
static ATTRIBUTES: [(Element, &[Attr], usize, &[Attr]); 10] = [
    (
        Element::Form,
        &[Attr::Action, Attr::Method],
        2,
        &[Attr::Action],
    ),
    (
        Element::Input,
        &[
            Attr::ListType,
            Attr::Value,
            Attr::Alt,
            Attr::Checked,
            Attr::Disabled,
            Attr::Readonly,
            Attr::Size,
            Attr::Maxlength,
        ],
        8,
        &[],
    ),
    (
        Element::Select,
        &[Attr::Size, Attr::Multiple, Attr::Disabled],
        3,
        &[],
    ),
    (
        Element::Optgroup,
        &[Attr::Label, Attr::Disabled],
        2,
        &[Attr::Label],
    ),
    (
        Element::OptionItem,
        &[Attr::Label, Attr::Value, Attr::Selected, Attr::Disabled],
        4,
        &[],
    ),
    (
        Element::Textarea,
        &[Attr::Rows, Attr::Cols, Attr::Disabled, Attr::Readonly],
        4,
        &[Attr::Rows, Attr::Cols],
    ),
    (
        Element::Button,
        &[Attr::ListType, Attr::Value, Attr::Disabled],
        3,
        &[],
    ),
    (Element::Legend, &[Attr::Align], 0, &[]),
    (Element::Fieldset, &[], 0, &[]),
    (Element::Label, &[], 0, &[]),
];

const COMMON: usize = 7;

// The first element that has or needs other attributes.
fn first_other_list() -> Option<Element> {
    for (element, own, in_strict, needed) in &ATTRIBUTES {
        let list = attributes(Doctype::Transitional, *element);
        let strict = attributes(Doctype::Strict, *element);
        if list.len() != COMMON + own.len() || strict.len() != COMMON + *in_strict {
            return Some(*element);
        }
        if !list.ends_with(own) || required(*element) != *needed {
            return Some(*element);
        }
    }
    None
}

#[test]
fn elements_of_forms_have_their_attributes(rt: HostRuntime) {
    assert_eq!(rt; first_other_list(), None);
}

static BELOW_A_BUTTON: [Element; 8] = [
    Element::A,
    Element::Input,
    Element::Select,
    Element::Textarea,
    Element::Label,
    Element::Button,
    Element::Form,
    Element::Fieldset,
];

static NOT_BELOW_A_BUTTON: [Element; 5] = [
    Element::Legend,
    Element::Optgroup,
    Element::OptionItem,
    Element::P,
    Element::Span,
];

fn all_are_excluded(outer: Element, inner: &[Element]) -> bool {
    inner.iter().all(|element| excludes(outer, *element))
}

fn none_is_excluded(outer: Element, inner: &[Element]) -> bool {
    inner.iter().all(|element| !excludes(outer, *element))
}

fn first_other_exclusion() -> Option<&'static str> {
    first_false(&[
        (
            "below a button",
            all_are_excluded(Element::Button, &BELOW_A_BUTTON),
        ),
        (
            "what a button doesn't exclude",
            none_is_excluded(Element::Button, &NOT_BELOW_A_BUTTON),
        ),
        ("a form in a form", excludes(Element::Form, Element::Form)),
        (
            "a label in a label",
            excludes(Element::Label, Element::Label),
        ),
        (
            "a label in a form",
            !excludes(Element::Form, Element::Label),
        ),
        ("a link in a label", !excludes(Element::Label, Element::A)),
        (
            "a form in a fieldset",
            !excludes(Element::Fieldset, Element::Form),
        ),
    ])
}

#[test]
fn elements_of_forms_exclude_each_other(rt: HostRuntime) {
    assert_none_fails(&rt, Ok(first_other_exclusion()));
}

const BOLD: Child = Child::Elem(Element::B);

const INPUT: Child = Child::Elem(Element::Input);

const EDIT: Child = Child::Elem(Element::Ins);

fn first_other_wrapper() -> Option<&'static str> {
    let strict = Doctype::Strict;
    let transitional = Doctype::Transitional;
    let option = Some(Element::OptionItem);
    let paragraph = Some(Element::P);
    first_false(&[
        (
            "text in a list of options",
            implied(strict, Content::Options, Child::Text) == option,
        ),
        (
            "text in a group of options",
            implied(transitional, Content::OptionItems, Child::Text) == option,
        ),
        (
            "an element in a list of options",
            implied(strict, Content::Options, BOLD).is_none(),
        ),
        (
            "text in a Strict form",
            implied(strict, Content::Block, Child::Text) == paragraph,
        ),
        (
            "a control in a Strict form",
            implied(strict, Content::Block, INPUT) == paragraph,
        ),
        (
            "an edit in a Strict form",
            implied(strict, Content::Block, EDIT).is_none(),
        ),
        (
            "an element in an option",
            implied(strict, Content::TextOnly, BOLD).is_none(),
        ),
        (
            "a part of a list in a fieldset",
            implied(strict, Content::FieldsetMix, Child::Elem(Element::Li)).is_none(),
        ),
    ])
}

#[test]
fn lists_of_options_imply_an_option(rt: HostRuntime) {
    assert_none_fails(&rt, Ok(first_other_wrapper()));
}
