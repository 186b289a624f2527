//! Values that are one of a few words.
ghost use Rattle.std.specs.Prelude.{◌≡◌, IfOk, IsTrue, option_map, map};
ghost use Rattle.std.specs.Char.{is_ascii};
ghost use Rattle.std.specs.List.{list_all};
ghost use Rattle.std.specs.Str.{chars};
ghost use Rattle.pur_values.specs.Choices.{alignments, bullets, bullet_of, control_types, is_font_size, is_size_digit, item_of, lowered_among, numberings, numbering_of, words_of};
ghost use Rattle.pur_values.specs.Kinds.{keywords_of};
ghost use Rattle.pur_text.specs.Texts.{text_of};
ghost use Rattle.pur_values.specs.Words.{is_among};

use crate::kinds::is_declared;
use crate::words::{is_among, kept_where, lower};
use pur_names::{Attr, Element};
use std::alloc::{AllocError, Global};

const BULLETS: [&str; 3] = ["disc", "square", "circle"];

const NUMBERINGS: [&str; 5] = ["1", "a", "A", "i", "I"];

const CAPTION_SIDES: [&str; 4] = ["top", "bottom", "left", "right"];

const IMAGE_SIDES: [&str; 5] = ["top", "middle", "bottom", "left", "right"];

const SIDES: [&str; 3] = ["left", "center", "right"];

const MARGINS: [&str; 4] = ["left", "center", "right", "justify"];

const CLEARED: [&str; 4] = ["left", "all", "right", "none"];

const DIRECTIONS: [&str; 2] = ["ltr", "rtl"];

const FRAMES: [&str; 9] = [
    "void", "above", "below", "hsides", "lhs", "rhs", "vsides", "box", "border",
];

const RULES: [&str; 5] = ["none", "groups", "rows", "cols", "all"];

const SCOPES: [&str; 4] = ["row", "col", "rowgroup", "colgroup"];

const INPUTS: [&str; 8] = [
    "text", "password", "checkbox", "radio", "submit", "reset", "hidden", "button",
];

const BUTTONS: [&str; 3] = ["button", "submit", "reset"];

const METHODS: [&str; 2] = ["get", "post"];

const TARGETS: [&str; 4] = ["_blank", "_self", "_parent", "_top"];

const LINES: [&str; 4] = ["top", "middle", "bottom", "baseline"];

/// The word in lower case, where the attribute takes it on the element.
pub(crate) fn read_keyword(
    alloc: Global,
    element: Element,
    attr: Attr,
    text: &str,
) -> Result<Option<String>, AllocError>
    ensures { IfOk result (λ value. option_map text_of value ≡ lowered_among (keywords_of element attr) (chars text.now)) }
{
    read_word(alloc, keywords(element, attr), text)
}

/// The word in lower case, where it is one of these, which are ASCII.
fn read_word(alloc: Global, words: &[&str], text: &str) -> Result<Option<String>, AllocError>
    requires { IsTrue (list_all (list_all is_ascii) (map (λ w. w.now) words.now)) }
    ensures { IfOk result (λ value. option_map text_of value ≡ lowered_among (map (λ w. w.now) words.now) (chars text.now)) }
{
    let lowered = lower(alloc, text)?;
    if is_one_of(words, lowered.as_str()) {
        Ok(Some(lowered))
    } else {
        Ok(None)
    }
}

fn is_one_of(words: &[&str], word: &str) -> bool
    requires { IsTrue (list_all (list_all is_ascii) (map (λ w. w.now) words.now)) }
    ensures { result ≡ is_among (map (λ w. w.now) words.now) (chars word.now) }
{
    is_among(words, word.as_bytes())
}

fn keywords(element: Element, attr: Attr) -> &'static [&'static str]
    ensures { map (λ w. w.now) result.now ≡ keywords_of element attr }
{
    if is_declared(element, attr) {
        words_of(element, attr)
    } else {
        &[]
    }
}

fn words_of(element: Element, attr: Attr) -> &'static [&'static str]
    ensures { map (λ w. w.now) result.now ≡ words_of element attr }
{
    match attr {
        Attr::Align => alignments(element),
        Attr::Clear => &CLEARED,
        Attr::Dir => &DIRECTIONS,
        Attr::Frame => &FRAMES,
        Attr::ListType => control_types(element),
        Attr::Method => &METHODS,
        Attr::Rules => &RULES,
        Attr::Scope => &SCOPES,
        Attr::Target => &TARGETS,
        Attr::Valign => &LINES,
        _ => &[],
    }
}

fn alignments(element: Element) -> &'static [&'static str]
    ensures { map (λ w. w.now) result.now ≡ alignments element }
{
    match element {
        Element::Caption | Element::Legend => &CAPTION_SIDES,
        Element::Img => &IMAGE_SIDES,
        Element::Table | Element::Hr => &SIDES,
        _ => &MARGINS,
    }
}

fn control_types(element: Element) -> &'static [&'static str]
    ensures { map (λ w. w.now) result.now ≡ control_types element }
{
    match element {
        Element::Input => &INPUTS,
        Element::Button => &BUTTONS,
        _ => &[],
    }
}

pub(crate) fn read_bullet(alloc: Global, text: &str) -> Result<Option<String>, AllocError>
    ensures { IfOk result (λ value. option_map text_of value ≡ bullet_of (chars text.now)) }
{
    read_word(alloc, &BULLETS, text)
}

pub(crate) fn read_numbering(alloc: Global, text: &str) -> Result<Option<String>, AllocError>
    ensures { IfOk result (λ value. option_map text_of value ≡ numbering_of (chars text.now)) }
{
    kept_where(alloc, is_one_of(&NUMBERINGS, text), text)
}

pub(crate) fn read_item(alloc: Global, text: &str) -> Result<Option<String>, AllocError>
    ensures { IfOk result (λ value. option_map text_of value ≡ item_of (chars text.now)) }
{
    if is_one_of(&NUMBERINGS, text) {
        read_numbering(alloc, text)
    } else {
        read_bullet(alloc, text)
    }
}

pub(crate) fn is_font_size(text: &str) -> bool
    ensures { result ≡ is_font_size (chars text.now) }
{
    is_size(text.as_bytes())
}

fn is_size(text: &[u8]) -> bool
    ensures { result ≡ is_font_size text.now }
{
    match text {
        [digit] => is_size_digit(*digit),
        [sign, digit] => matches!(sign, b'+' | b'-') && is_size_digit(*digit),
        _ => false,
    }
}

fn is_size_digit(byte: u8) -> bool
    ensures { result ≡ is_size_digit byte }
{
    matches!(byte, b'1'..=b'7')
}
