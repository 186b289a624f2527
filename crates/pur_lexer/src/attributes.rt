// The attributes of a tag.
ghost use Rattle.std.specs.Prelude.{◌≡◌, ◌-◌, ◌<◌, ◌≤◌, length, IfOk, IfSome, OnOk};
ghost use Rattle.std.specs.Option.{option_map};
ghost use Rattle.std.specs.Str.{chars, IsUtf8};
ghost use Rattle.pur_attrlist.specs.Texts.{text_of};
ghost use Rattle.pur_lexer.specs.Tags.{quoted_value, raw_value, attribute_behind, attribute_at, tag_end};
ghost use Rattle.pur_lexer.specs.Private.Readings.{with_all_new, tag_end_with};

use crate::places::{Stop, behind_first, cut_at, cut_at_character};
use pur_attrlist::AttrList;
use pur_entities::decode;
use pur_text::lower_ascii;
use std::alloc::{AllocError, Global};

/// The attributes of a tag, whether it is an empty tag, and the text behind it, from the text behind its name; None where the text
/// ends before the tag.
pub(crate) fn cut_tag_end(
    alloc: Global,
    text: &str,
) -> Result<Option<(AttrList, bool, &str)>, AllocError>
    ensures text { IfOk result (λ end. IfSome end (λ end. IsUtf8 end.2.now)) }
    ensures shorter { IfOk result (λ end. IfSome end (λ end. length end.2.now ≤ length text.now)) }
    ensures end { IfOk result (λ end. option_map (λ end. tag_end_with end.0 end.1 (chars end.2.now)) end ≡ tag_end (chars text.now)) }
{
    let mut attrs = AttrList::new(alloc);
    let mut rest = text;
    'attributes: while !rest.is_empty() {
        let (skipped, behind) = cut_at(rest, Stop::Gap);
        if let Some(behind) = behind.strip_prefix('>') {
            attrs.drop_index();
            return Ok(Some((attrs, skipped.ends_with('/'), behind)));
        }
        rest = push_attribute(alloc, &mut attrs, behind)?;
    }
    Ok(None)
}

// Puts the attribute that begins this text behind the others, if its name is new, and gives the text behind it.
fn push_attribute<'a>(
    alloc: Global,
    attrs: &mut AttrList,
    text: &'a str,
) -> Result<&'a str, AllocError>
    ensures text { IfOk result (λ rest. IsUtf8 rest.now) }
    ensures shorter { IfOk result (λ rest. length rest.now ≤ length text.now - 1) }
    ensures attrs { OnOk result (attrs.new ≡ with_all_new attrs.old (attribute_at (chars text.now)).pairs) }
    ensures rest { IfOk result (λ rest. chars rest.now ≡ (attribute_at (chars text.now)).rest) }
{
    let (name, behind) = cut_at(text, Stop::AttributeName);
    if name.is_empty() {
        return Ok(behind_first(behind));
    }
    let name = lower_ascii(alloc, name)?;
    let (_, behind) = cut_at(behind, Stop::Space);
    let rest = push_named(alloc, attrs, name, behind)?;
    Ok(rest)
}

// Puts the attribute of this name behind the others, by what follows the name and the white space behind it.
fn push_named<'a>(
    alloc: Global,
    attrs: &mut AttrList,
    name: String,
    text: &'a str,
) -> Result<&'a str, AllocError>
    ensures text { IfOk result (λ rest. IsUtf8 rest.now) }
    ensures shorter { IfOk result (λ rest. length rest.now ≤ length text.now) }
    ensures attrs { OnOk result (attrs.new ≡ with_all_new attrs.old (attribute_behind (text_of name) (chars text.now)).pairs) }
    ensures rest { IfOk result (λ rest. chars rest.now ≡ (attribute_behind (text_of name) (chars text.now)).rest) }
{
    match text.strip_prefix('=') {
        Some(behind) => {
            let (_, behind) = cut_at(behind, Stop::Space);
            let (value, rest) = cut_value(behind);
            let value = decode(alloc, value)?;
            attrs.push_if_new(name, value)?;
            Ok(rest)
        }
        None => {
            let value = String::from_str(alloc, name.as_str())?;
            attrs.push_if_new(name, value)?;
            Ok(text)
        }
    }
}

// The value that begins this text, as it stands, and the text behind it.
fn cut_value(text: &str) -> (&str, &str)
    ensures text { IsUtf8 result.0.now × IsUtf8 result.1.now }
    ensures shorter { length result.1.now ≤ length text.now }
    ensures value { chars result.0.now ≡ (raw_value (chars text.now)).value }
    ensures rest { chars result.1.now ≡ (raw_value (chars text.now)).rest }
{
    if let Some(behind) = text.strip_prefix('"') {
        return cut_quoted_value(behind, b'"');
    }
    if let Some(behind) = text.strip_prefix('\'') {
        return cut_quoted_value(behind, b'\'');
    }
    cut_at(text, Stop::BareValue)
}

// The text before the next of these quotes, and the text behind it.
fn cut_quoted_value(text: &str, quote: u8) -> (&str, &str)
    requires { quote < 128 }
    ensures text { IsUtf8 result.0.now × IsUtf8 result.1.now }
    ensures shorter { length result.1.now ≤ length text.now }
    ensures value { chars result.0.now ≡ (quoted_value quote (chars text.now)).value }
    ensures rest { chars result.1.now ≡ (quoted_value quote (chars text.now)).rest }
{
    let (value, end) = cut_at_character(text, quote);
    (value, behind_first(end))
}
