//! Reading a value by its kind.
ghost use Rattle.std.specs.Prelude.{◌≡◌, IfOk, Some, option_map, if◌then◌else◌, map};
ghost use Rattle.std.specs.Str.{IsUtf8, chars};
ghost use Rattle.pur_text.specs.Trimming.{trimmed};
ghost use Rattle.pur_names.specs.Attributes.{attr_name};
ghost use Rattle.pur_values.specs.Laws.{HasRange};
ghost use Rattle.pur_values.specs.Values.{is_trimmed, spaced, trimmed_value_of, value_of};
ghost use Rattle.pur_text.specs.Texts.{text_of};

use crate::choices::{is_font_size, read_bullet, read_item, read_keyword, read_numbering};
use crate::colors::read_color;
use crate::kinds::ValueKind;
use crate::numbers::{read_length, read_multi_length, read_number, read_pixels};
use crate::tokens::{is_id, is_language, read_classes, read_relations};
use crate::words::{kept_where, lowered_where};
use pur_names::Attr;
use pur_text::trim;
use std::alloc::{AllocError, Global};

/// What a value is read as: its canonical text, or none where the kind has no reading for it.
///
/// White space at the ends doesn't count but for `ValueKind::Text`. A number may have any number of digits. What was read
/// is read as itself.
///
/// The error is want of memory.
///
/// Source: HTML 4.01, section 6, and the attribute lists of XHTML 1.0.
#[tactic(auto, unfolding(crate::specs::Values::value_of))]
pub fn read_value(alloc: Global, kind: ValueKind, raw: &str) -> Result<Option<String>, AllocError>
    ensures { IfOk result (λ value. option_map text_of value ≡ value_of kind (chars raw.now)) }
{
    let value = read_by_kind(alloc, kind, text_to_read(kind, raw))?;
    Ok(value)
}

/// The text without the white space at its ends, where its kind takes no notice of it.
fn text_to_read(kind: ValueKind, raw: &str) -> &str
    ensures text { IsUtf8 result.now }
    ensures part { chars result.now ≡ (if is_trimmed kind then trimmed (chars raw.now) else chars raw.now) }
{
    match kind {
        ValueKind::Text => raw,
        _ => trim(raw),
    }
}

fn read_by_kind(alloc: Global, kind: ValueKind, text: &str) -> Result<Option<String>, AllocError>
    ensures value { IfOk result (λ value. option_map text_of value ≡ trimmed_value_of kind (chars text.now)) }
    ensures range { HasRange kind }
{
    match kind {
        ValueKind::Text => read_text(alloc, text),
        ValueKind::Id => kept_where(alloc, is_id(text), text),
        ValueKind::Class => read_classes(alloc, text),
        ValueKind::Lang => lowered_where(alloc, is_language(text), text),
        ValueKind::Pixels => read_pixels(alloc, text),
        ValueKind::Length => read_length(alloc, text),
        ValueKind::MultiLength => read_multi_length(alloc, text),
        ValueKind::Number { least, most } => read_number(alloc, least, most, text),
        ValueKind::Color => read_color(alloc, text),
        ValueKind::Keyword { element, attr } => read_keyword(alloc, element, attr, text),
        ValueKind::Flag { attr } => read_flag(alloc, attr),
        ValueKind::BulletType => read_bullet(alloc, text),
        ValueKind::NumberType => read_numbering(alloc, text),
        ValueKind::ItemType => read_item(alloc, text),
        ValueKind::FontSize => kept_where(alloc, is_font_size(text), text),
        ValueKind::Rel => read_relations(alloc, text),
    }
}

fn read_flag(alloc: Global, attr: Attr) -> Result<Option<String>, AllocError>
    ensures { IfOk result (λ value. option_map text_of value ≡ Some (attr_name attr)) }
{
    let name = String::from_str(alloc, attr.name())?;
    Ok(Some(name))
}

/// The text with a space for each tab and line feed.
fn read_text(alloc: Global, text: &str) -> Result<Option<String>, AllocError>
    ensures { IfOk result (λ value. option_map text_of value ≡ Some (map spaced (chars text.now))) }
{
    let bytes = spaced_bytes(alloc, text.as_bytes())?;
    Ok(text_of_bytes(bytes))
}

fn spaced_bytes(alloc: Global, text: &[u8]) -> Result<Vec<u8>, AllocError>
    ensures { IfOk result (λ bytes. bytes.items ≡ map spaced text.now) }
{
    text.iter().map(|byte| spaced(*byte)).collect(alloc)
}

fn text_of_bytes(bytes: Vec<u8>) -> Option<String>
    requires { IsUtf8 bytes.items }
    ensures { option_map text_of result ≡ Some (chars bytes.items) }
{
    String::from_utf8(bytes).ok()
}

fn spaced(byte: u8) -> u8
    ensures { result ≡ spaced byte }
{
    match byte {
        b'\t' | b'\n' => b' ',
        _ => byte,
    }
}
