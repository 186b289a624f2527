//! What the value of an attribute is read as.

ghost use Rattle.std.specs.Prelude.{◌≡◌, IfOk, IfSome, None, encode_utf8_all};
ghost use Rattle.std.specs.Option.{option_map, option_and_then};
ghost use Rattle.std.specs.Str.{chars};
ghost use Rattle.pur_names.specs.Attributes.{attr_name};
ghost use Rattle.pur_text.specs.Texts.{text_of};
ghost use Rattle.pur_uri.specs.Uris.{uri_of};
ghost use Rattle.pur_uripolicy.specs.declared.uses.UriUse.TheVariants.{Embed, Link};
ghost use Rattle.pur_values.specs.Kinds.{kind_of};
ghost use Rattle.pur_values.specs.Values.{value_of};
ghost use Rattle.pur_validity.specs.Attributes.{attribute_read, source_in, uri_on, value_on};

use pur_cssprops::canon_style;
use pur_names::{Attr, Element};
use pur_settings::Settings;
use pur_uri::{Uri, text_is_canonical};
use pur_uripolicy::{UriGate, UriTest, UriUse, read_uri};
use pur_values::{kind_of, read_value};
use std::alloc::{AllocError, Global};

/// What the value of an attribute is read as.
#[derive(Drop)]
pub struct Reading {
    /// Its one text.
    pub value: String,
    /// The URI that it writes, if it is a picture's source.
    pub source: Option<Uri>,
}

/// What the value of an attribute is read as, where an attribute has the name, is declared on the element and permitted, and the
/// value has a reading; None where not. A link, the action of a form, or a picture's source is read by its URI, a style by its
/// declarations, any other value by its kind.
///
/// The error is want of memory.
///
/// Source: XML 1.0, section 3.3; XHTML 1.0, the attribute lists of the two DTDs.
pub fn read_attribute<F: UriTest>(
    alloc: Global,
    settings: &Settings,
    gate: &UriGate<F>,
    element: Element,
    name: &str,
    raw: &str,
) -> Result<Option<Reading>, AllocError>
    ensures value { IfOk result (λ read. option_map (λ found. text_of found.value) read ≡ attribute_read settings.now gate.now element (chars name.now) (chars raw.now)) }
    ensures source { IfOk result (λ read. IfSome read (λ found. found.source ≡ source_in (chars name.now) (text_of found.value))) }
{
    match Attr::from_name(name) {
        Some(attr) => {
            if !settings.permits_attr(element, attr) {
                return Ok(None);
            }
            read_on(alloc, settings, gate, element, attr, raw)
        }
        None => Ok(None),
    }
}

// What a value of an attribute on an element is read as.
fn read_on<F: UriTest>(
    alloc: Global,
    settings: &Settings,
    gate: &UriGate<F>,
    element: Element,
    attr: Attr,
    raw: &str,
) -> Result<Option<Reading>, AllocError>
    ensures value { IfOk result (λ read. option_map (λ found. text_of found.value) read ≡ value_on settings.now gate.now element attr (chars raw.now)) }
    ensures source { IfOk result (λ read. IfSome read (λ found. found.source ≡ source_in (attr_name attr) (text_of found.value))) }
{
    match attr {
        Attr::Src => read_source(alloc, settings, gate, raw),
        Attr::Action | Attr::Cite | Attr::Href | Attr::Longdesc => {
            Ok(sourceless(read_link(alloc, settings, gate, raw)?))
        }
        Attr::Style => Ok(sourceless(canon_style(alloc, settings, gate, raw)?)),
        _ => Ok(sourceless(read_by_kind(alloc, element, attr, raw)?)),
    }
}

// What a value is read as that is no picture's source.
fn sourceless(value: Option<String>) -> Option<Reading>
    ensures value { option_map (λ found. text_of found.value) result ≡ option_map text_of value }
    ensures source { IfSome result (λ found. found.source ≡ None) }
{
    match value {
        Some(value) => Some(Reading {
            value,
            source: None,
        }),
        None => None,
    }
}

// What a value is read as by its kind, if it has one.
fn read_by_kind(
    alloc: Global,
    element: Element,
    attr: Attr,
    raw: &str,
) -> Result<Option<String>, AllocError>
    ensures { IfOk result (λ value. option_map text_of value ≡ option_and_then (λ kind. value_of kind (chars raw.now)) (kind_of element attr)) }
{
    match kind_of(element, attr) {
        Some(kind) => read_value(alloc, kind, raw),
        None => Ok(None),
    }
}

// The text of the URI that a link or the action of a form is read as, where it is admissible.
fn read_link<F: UriTest>(
    alloc: Global,
    settings: &Settings,
    gate: &UriGate<F>,
    raw: &str,
) -> Result<Option<String>, AllocError>
    ensures { IfOk result (λ value. option_map text_of value ≡ uri_on settings.now gate.now Link (chars raw.now)) }
{
    text_is_canonical();
    match read_uri(alloc, settings, gate, UriUse::Link, raw)? {
        Some(uri) => {
            let text = uri.write(alloc)?;
            Ok(Some(text))
        }
        None => Ok(None),
    }
}

// The text of the URI that a picture's source is read as, where it is admissible, and the URI.
fn read_source<F: UriTest>(
    alloc: Global,
    settings: &Settings,
    gate: &UriGate<F>,
    raw: &str,
) -> Result<Option<Reading>, AllocError>
    ensures value { IfOk result (λ read. option_map (λ found. text_of found.value) read ≡ uri_on settings.now gate.now Embed (chars raw.now)) }
    ensures source { IfOk result (λ read. IfSome read (λ found. found.source ≡ uri_of (encode_utf8_all (text_of found.value)))) }
{
    text_is_canonical();
    match read_uri(alloc, settings, gate, UriUse::Embed, raw)? {
        Some(uri) => {
            let value = uri.write(alloc)?;
            Ok(Some(Reading {
                value,
                source: Some(uri),
            }))
        }
        None => Ok(None),
    }
}
