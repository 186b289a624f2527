// Tags, without their first and their last character.
ghost use Rattle.std.specs.List.{list_any};
ghost use Rattle.pur_tree.proofs.CutLemmas.{is_stop};
ghost use Rattle.std.specs.Prelude.{ℕ, ◌≡◌, ◌==◌, ◌<◌, ◌∷◌, ◌++◌, Bool, List, [], length, false, true, IfOk, IfSome, IfNone};
ghost use Rattle.std.specs.Str.{chars, IsUtf8};
ghost use Rattle.pur_names.specs.declared.elements.Element.{Element};
ghost use Rattle.pur_names.specs.Elements.{element_name};
ghost use Rattle.pur_text.specs.Texts.{text_of};
ghost use Rattle.pur_attrlist.specs.Attributes.{Attribute};
ghost use Rattle.pur_tree.specs.Nodes.{PlainElem, plain_elem};
ghost use Rattle.pur_tree.specs.Spelling.{is_attr_name, is_spellable_attribute, are_spellable, attribute_text, attributes_text};
ghost use Rattle.pur_reader.specs.Private.Tags.{is_end, end_text, tag_text, IsTagRest, IsAttributeFront};

use crate::cuts::{behind, cut_at};
use crate::escapes::read_escaped;
use pur_attrlist::AttrList;
use pur_names::{Attr, Element};
use std::alloc::{AllocError, Global};

/// A start tag or an empty tag.
#[derive(Drop)]
pub(crate) struct Tag {
    pub(crate) name: Element,
    pub(crate) attrs: AttrList,
    pub(crate) is_empty: bool,
}

/// The start tag or the empty tag that is spelled so, where there is one.
pub(crate) fn read_tag(alloc: Global, inner: &str) -> Result<Option<Tag>, AllocError>
    ensures some { IfOk result (λ found. IfSome found (λ tag. chars inner.now ≡ tag_text (plain_elem tag.name tag.attrs) tag.is_empty)) }
    ensures good { IfOk result (λ found. IfSome found (λ tag. are_spellable tag.attrs ≡ true)) }
    ensures none { IfOk result (λ found. IfNone found ((e : PlainElem) (is_empty : Bool) → are_spellable e.attrs ≡ true → chars inner.now ≡ tag_text e is_empty → ⊥)) }
{
    let (name, rest) = cut_name(inner);
    match element_named(name) {
        Some(name) => {
            let read = read_attributes(alloc, rest)?;
            match read {
                Some((attrs, is_empty)) => Ok(Some(Tag {
                    name,
                    attrs,
                    is_empty,
                })),
                None => Ok(None),
            }
        }
        None => Ok(None),
    }
}

// The text before the first space, and the text from there on.
fn cut_name(inner: &str) -> (&str, &str)
    ensures text { IsUtf8 result.0.now × IsUtf8 result.1.now }
    ensures parts { chars inner.now ≡ chars result.0.now ++ chars result.1.now }
    ensures first { list_any (λ c. c == 0x20) (chars result.0.now) ≡ false }
    ensures stop { is_stop (λ c. c == 0x20) (chars result.1.now) ≡ true }
{
    match inner.find(' ') {
        Some(place) => inner.split_at(place),
        None => (inner, ""),
    }
}

/// The element of this name.
pub(crate) fn element_named(name: &str) -> Option<Element>
    ensures some { IfSome result (λ found. element_name found ≡ chars name.now) }
    ensures none { IfNone result ((e : Element) → element_name e ≡ chars name.now → ⊥) }
{
    match Element::from_name(name) {
        Some(element) => Some(element),
        None => None,
    }
}

// Whether an attribute has this name.
fn is_attr_name(name: &str) -> bool
    ensures { result ≡ is_attr_name (chars name.now) }
{
    match Attr::from_name(name) {
        Some(_) => true,
        None => false,
    }
}

// The attributes that stand behind the name of a tag, and whether an empty tag ends behind them.
fn read_attributes(alloc: Global, text: &str) -> Result<Option<(AttrList, bool)>, AllocError>
    ensures some { IfOk result (λ found. IfSome found (λ read. chars text.now ≡ attributes_text read.0 ++ end_text read.1)) }
    ensures good { IfOk result (λ found. IfSome found (λ read. are_spellable read.0 ≡ true)) }
    ensures none { IfOk result (λ found. IfNone found (IsTagRest [] (chars text.now) → ⊥)) }
{
    let mut attrs = AttrList::new(alloc);
    let mut rest = text;
    'reading: while !is_tag_end(rest) {
        let read = read_attribute(alloc, rest)?;
        match read {
            Some((name, value, behind)) => {
                let is_new = attrs.push_if_new(name, value)?;
                if !is_new {
                    return Ok(None);
                }
                rest = behind;
            }
            None => return Ok(None),
        }
    }
    Ok(Some((attrs, !rest.is_empty())))
}

// Whether no attribute is left.
fn is_tag_end(text: &str) -> bool
    ensures { result ≡ is_end (chars text.now) }
{
    text.is_empty() || text == " /"
}

// The attribute in front of a text, its name and its value, and the text behind it.
fn read_attribute(alloc: Global, text: &str) -> Result<Option<(String, String, &str)>, AllocError>
    ensures text { IfOk result (λ found. IfSome found (λ read. IsUtf8 read.2.now)) }
    ensures shorter { IfOk result (λ found. IfSome found (λ read. length read.2.now < length text.now)) }
    ensures some { IfOk result (λ found. IfSome found (λ read. chars text.now ≡ attribute_text (text_of read.0, text_of read.1) ++ chars read.2.now)) }
    ensures good { IfOk result (λ found. IfSome found (λ read. is_spellable_attribute (text_of read.0, text_of read.1) ≡ true)) }
    ensures none { IfOk result (λ found. IfNone found ((pair : Attribute) (x : List ℕ) → is_spellable_attribute pair ≡ true → chars text.now ≡ attribute_text pair ++ x → ⊥)) }
{
    match cut_attribute(text) {
        Some((name, value, rest)) => {
            if !is_attr_name(name) {
                return Ok(None);
            }
            let read = read_escaped(alloc, value, true)?;
            match read {
                Some(value) => {
                    let name = String::from_str(alloc, name)?;
                    Ok(Some((name, value, rest)))
                }
                None => Ok(None),
            }
        }
        None => Ok(None),
    }
}

// The name of the attribute in front of a text, its value as it is written, and the text behind it.
fn cut_attribute(text: &str) -> Option<(&str, &str, &str)>
    ensures text { IfSome result (λ parts. IsUtf8 parts.0.now × IsUtf8 parts.1.now × IsUtf8 parts.2.now) }
    ensures shorter { IfSome result (λ parts. length parts.2.now < length text.now) }
    ensures some { IfSome result (λ parts. IsAttributeFront (chars parts.0.now) (chars parts.1.now) (chars parts.2.now) (chars text.now)) }
    ensures none { IfNone result ((name value rest : List ℕ) → IsAttributeFront name value rest (chars text.now) → ⊥) }
{
    match behind(text, " ") {
        Some(front) => match cut_at(front, '=') {
            Some((name, quoted)) => match cut_quoted(quoted) {
                Some((value, rest)) => Some((name, value, rest)),
                None => None,
            },
            None => None,
        },
        None => None,
    }
}

// What stands between the quotation mark in front of a text and the next one, and the text behind that.
fn cut_quoted(text: &str) -> Option<(&str, &str)>
    ensures text { IfSome result (λ parts. IsUtf8 parts.0.now × IsUtf8 parts.1.now) }
    ensures shorter { IfSome result (λ parts. length parts.1.now < length text.now) }
    ensures some { IfSome result (λ parts. chars text.now ≡ 0x22 ∷ (chars parts.0.now ++ 0x22 ∷ chars parts.1.now)) }
    ensures first { IfSome result (λ parts. list_any (λ c. c == 0x22) (chars parts.0.now) ≡ false) }
    ensures none { IfNone result ((value rest : List ℕ) → list_any (λ c. c == 0x22) value ≡ false → chars text.now ≡ 0x22 ∷ (value ++ 0x22 ∷ rest) → ⊥) }
{
    match behind(text, "\"") {
        Some(quoted) => match cut_at(quoted, '"') {
            Some((value, rest)) => Some((value, rest)),
            None => None,
        },
        None => None,
    }
}
