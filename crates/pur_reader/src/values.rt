// Whether the attributes of an element are right, ids aside.
ghost use Rattle.std.specs.Prelude.{◌≡◌, false, IfOk};
ghost use Rattle.std.specs.Option.{option_map, option_map_or};
ghost use Rattle.std.specs.Str.{chars};
ghost use Rattle.pur_text.specs.Texts.{text_of};
ghost use Rattle.pur_attrlist.specs.Attributes.{is_same_text, has_name};
ghost use Rattle.pur_names.specs.Attributes.{attr_name};
ghost use Rattle.pur_tree.specs.Nodes.{plain_elem};
ghost use Rattle.pur_validity.specs.Attributes.{is_valid_attribute, has_valid_values, has_required, has_one_language};
ghost use Rattle.pur_reader.specs.Private.Judging.{has_right_attributes};

use pur_attrlist::AttrList;
use pur_modules::required;
use pur_names::{Attr, Element};
use pur_settings::Settings;
use pur_uripolicy::{UriGate, UriTest};
use pur_validity::{Reading, read_attribute};
use std::alloc::{AllocError, Global};

/// Whether each attribute is declared, permitted and its own reading, the required ones are there, and one language is told.
pub(crate) fn has_right_attributes<F: UriTest>(
    alloc: Global,
    settings: &Settings,
    gate: &UriGate<F>,
    element: Element,
    attrs: &AttrList,
) -> Result<bool, AllocError>
    ensures { IfOk result (λ is. is ≡ has_right_attributes settings.now gate.now (plain_elem element attrs.now)) }
{
    if !has_required(element, attrs) {
        return Ok(false);
    }
    if !has_one_language(element, attrs) {
        return Ok(false);
    }
    let is_valid = has_valid_values(alloc, settings, gate, element, attrs)?;
    Ok(is_valid)
}

// Whether the required attributes are there.
fn has_required(element: Element, attrs: &AttrList) -> bool
    ensures { result ≡ has_required (plain_elem element attrs.now) }
{
    let wanted = required(element);
    for attr in wanted {
        if !has_name(attrs, *attr) {
            return false;
        }
    }
    true
}

// Whether an attribute is there.
fn has_name(attrs: &AttrList, attr: Attr) -> bool
    ensures { result ≡ has_name attrs.now (attr_name attr) }
{
    match attrs.get(attr.name()) {
        Some(_) => true,
        None => false,
    }
}

// Whether `lang` and `xml:lang` are both absent, or both there and the same.
fn has_one_language(_element: Element, attrs: &AttrList) -> bool
    ensures { result ≡ has_one_language (plain_elem _element attrs.now) }
{
    match attrs.get("lang") {
        Some(lang) => match attrs.get("xml:lang") {
            Some(other) => is_same(lang, other),
            None => false,
        },
        None => match attrs.get("xml:lang") {
            Some(_) => false,
            None => true,
        },
    }
}

// Whether two texts are the same.
fn is_same(first: &str, second: &str) -> bool
    ensures { result ≡ is_same_text (chars first.now) (chars second.now) }
{
    first == second
}

// Whether each attribute is declared, permitted and its own reading.
fn has_valid_values<F: UriTest>(
    alloc: Global,
    settings: &Settings,
    gate: &UriGate<F>,
    element: Element,
    attrs: &AttrList,
) -> Result<bool, AllocError>
    ensures { IfOk result (λ is. is ≡ has_valid_values settings.now gate.now (plain_elem element attrs.now)) }
{
    for at in 0..attrs.len() {
        let name = attrs.name_at(at);
        let value = attrs.value_at(at);
        let is_valid = is_valid_attribute(alloc, settings, gate, element, name, value)?;
        if !is_valid {
            return Ok(false);
        }
    }
    Ok(true)
}

// Whether an attribute is declared and permitted on an element, and its value is its own reading.
fn is_valid_attribute<F: UriTest>(
    alloc: Global,
    settings: &Settings,
    gate: &UriGate<F>,
    element: Element,
    name: &str,
    value: &str,
) -> Result<bool, AllocError>
    ensures { IfOk result (λ is. is ≡ is_valid_attribute settings.now gate.now element (chars name.now, chars value.now)) }
{
    let read = read_attribute(alloc, settings, gate, element, name, value)?;
    Ok(is_read_as(&read, value))
}

// Whether a value is read, and as this text.
fn is_read_as(read: &Option<Reading>, text: &str) -> bool
    ensures { result ≡ option_map_or (is_same_text (chars text.now)) (option_map (λ found. text_of found.value) read.now) false }
{
    match read {
        Some(reading) => is_same(text, reading.value.as_str()),
        None => false,
    }
}
