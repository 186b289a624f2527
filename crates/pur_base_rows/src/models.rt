//! Words of each kind of content, typed from the standard, by people: the definitions that the contracts cite could
//! share a slip with the code.

use crate::endings::{Failing, assert_none_fails};
use pur_models::{matches, model};
use pur_modules::{Child, Content, Doctype};
use pur_names::Element;
use std::alloc::{AllocError, Global};

const TEXT: Child = Child::Text;

const B: Child = Child::Elem(Element::B);

const U: Child = Child::Elem(Element::U);

const P: Child = Child::Elem(Element::P);

const DIV: Child = Child::Elem(Element::Div);

const INS: Child = Child::Elem(Element::Ins);

const CENTER: Child = Child::Elem(Element::Center);

const LI: Child = Child::Elem(Element::Li);

const DT: Child = Child::Elem(Element::Dt);

const DD: Child = Child::Elem(Element::Dd);

const CAPTION: Child = Child::Elem(Element::Caption);

const COL: Child = Child::Elem(Element::Col);

const COLGROUP: Child = Child::Elem(Element::Colgroup);

const THEAD: Child = Child::Elem(Element::Thead);

const TFOOT: Child = Child::Elem(Element::Tfoot);

const TBODY: Child = Child::Elem(Element::Tbody);

const TR: Child = Child::Elem(Element::Tr);

const TH: Child = Child::Elem(Element::Th);

const TD: Child = Child::Elem(Element::Td);

const INPUT: Child = Child::Elem(Element::Input);

const OPTGROUP: Child = Child::Elem(Element::Optgroup);

const OPTION: Child = Child::Elem(Element::OptionItem);

const LEGEND: Child = Child::Elem(Element::Legend);

const FORM: Child = Child::Elem(Element::Form);

// A name, children of a table, and whether they are its parts in order.
static TABLES: [(&str, &[Child], bool); 12] = [
    ("a_caption_a_column_and_a_row", &[CAPTION, COL, TR], true),
    ("a_row_alone", &[TR], true),
    (
        "all_parts",
        &[CAPTION, COLGROUP, COLGROUP, THEAD, TFOOT, TBODY, TBODY],
        true,
    ),
    ("a_foot_before_a_head", &[TFOOT, THEAD, TR], false),
    ("no_children", &[], false),
    ("no_body", &[CAPTION, THEAD, TFOOT], false),
    ("columns_of_two_kinds", &[COL, COLGROUP, TR], false),
    ("bodies_of_two_kinds", &[TBODY, TR], false),
    ("two_captions", &[CAPTION, CAPTION, TR], false),
    ("a_foot_behind_the_bodies", &[TBODY, TFOOT], false),
    ("a_cell", &[TR, TD], false),
    ("text", &[TEXT, TR], false),
];

// Whether these children are a word of a kind of content.
fn is_word(
    alloc: Global,
    doctype: Doctype,
    content: Content,
    word: &[Child],
) -> Result<bool, AllocError> {
    let expression = model(alloc, doctype, content)?;
    Ok(matches(&expression, word))
}

fn first_other_table(alloc: Global, doctype: Doctype) -> Failing {
    for (name, word, expected) in &TABLES {
        if is_word(alloc, doctype, Content::TableParts, word)? != *expected {
            return Ok(Some(*name));
        }
    }
    Ok(None)
}

#[test]
fn tables_have_their_parts_in_order(rt: HostRuntime) {
    assert_none_fails(&rt, first_other_table(rt.alloc(), Doctype::Strict));
    assert_none_fails(&rt, first_other_table(rt.alloc(), Doctype::Transitional));
}

// A kind of content, children, and whether they are a word of it.
static WORDS: [(Doctype, Content, &[Child], bool); 49] = [
    (Doctype::Strict, Content::Inline, &[], true),
    (
        Doctype::Strict,
        Content::Inline,
        &[TEXT, B, INS, TEXT],
        true,
    ),
    (Doctype::Strict, Content::Inline, &[U], false),
    (Doctype::Transitional, Content::Inline, &[U], true),
    (Doctype::Strict, Content::Inline, &[TEXT, P], false),
    (Doctype::Strict, Content::Flow, &[TEXT, P, B, DIV], true),
    (Doctype::Strict, Content::Flow, &[CENTER], false),
    (Doctype::Transitional, Content::Flow, &[CENTER], true),
    (Doctype::Transitional, Content::Flow, &[LI], false),
    (Doctype::Strict, Content::Block, &[], true),
    (Doctype::Strict, Content::Block, &[P, INS, DIV], true),
    (Doctype::Strict, Content::Block, &[P, TEXT], false),
    (Doctype::Strict, Content::Block, &[B], false),
    (
        Doctype::Transitional,
        Content::AddressMix,
        &[TEXT, B, P],
        true,
    ),
    (Doctype::Transitional, Content::AddressMix, &[DIV], false),
    (Doctype::Strict, Content::Items, &[LI, LI], true),
    (Doctype::Strict, Content::Items, &[], false),
    (Doctype::Strict, Content::Items, &[LI, TEXT], false),
    (Doctype::Strict, Content::Pairs, &[DD, DT, DD], true),
    (Doctype::Strict, Content::Pairs, &[], false),
    (Doctype::Strict, Content::Rows, &[TR, TR], true),
    (Doctype::Strict, Content::Rows, &[], false),
    (Doctype::Strict, Content::Rows, &[TD], false),
    (Doctype::Strict, Content::Cells, &[TH, TD, TD], true),
    (Doctype::Strict, Content::Cells, &[], false),
    (Doctype::Strict, Content::Cols, &[], true),
    (Doctype::Strict, Content::Cols, &[COL, COL], true),
    (Doctype::Strict, Content::Cols, &[COLGROUP], false),
    (Doctype::Strict, Content::Nothing, &[], true),
    (Doctype::Strict, Content::Nothing, &[TEXT], false),
    (Doctype::Transitional, Content::Nothing, &[B], false),
    (Doctype::Strict, Content::Inline, &[TEXT, INPUT], true),
    (Doctype::Strict, Content::Inline, &[FORM], false),
    (Doctype::Strict, Content::Flow, &[FORM, INPUT], true),
    (Doctype::Strict, Content::Block, &[FORM, P], true),
    (Doctype::Strict, Content::Block, &[INPUT], false),
    (Doctype::Strict, Content::Options, &[OPTION, OPTGROUP], true),
    (Doctype::Strict, Content::Options, &[], false),
    (Doctype::Transitional, Content::Options, &[TEXT], false),
    (Doctype::Strict, Content::OptionItems, &[OPTION], true),
    (Doctype::Strict, Content::OptionItems, &[OPTGROUP], false),
    (Doctype::Strict, Content::OptionItems, &[], false),
    (Doctype::Strict, Content::TextOnly, &[], true),
    (Doctype::Strict, Content::TextOnly, &[TEXT], true),
    (Doctype::Transitional, Content::TextOnly, &[B], false),
    (Doctype::Strict, Content::FieldsetMix, &[], true),
    (
        Doctype::Strict,
        Content::FieldsetMix,
        &[LEGEND, TEXT, P, B],
        true,
    ),
    (
        Doctype::Strict,
        Content::FieldsetMix,
        &[TEXT, LEGEND],
        false,
    ),
    (
        Doctype::Transitional,
        Content::FieldsetMix,
        &[LEGEND, LEGEND],
        false,
    ),
];

// The first kind of content with a row that tells otherwise.
fn first_other_kind(alloc: Global) -> Result<Option<Content>, AllocError> {
    for (doctype, content, word, expected) in &WORDS {
        if is_word(alloc, *doctype, *content, word)? != *expected {
            return Ok(Some(*content));
        }
    }
    Ok(None)
}

#[test]
fn kinds_have_their_words(rt: HostRuntime) {
    assert_eq!(rt; first_other_kind(rt.alloc()), Ok(None));
}
