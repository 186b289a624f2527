//! The one text of a style.
ghost use Rattle.std.specs.Prelude.{◌≡◌, ◌++◌, ◌∷◌, [], IfOk, IfSome, OnOk, Some, option_map, string_bytes};
ghost use Rattle.std.specs.Str.{chars};
ghost use Rattle.pur_csstok.specs.Declarations.{declaration_body};
ghost use Rattle.pur_csstok.specs.Written.{pair_of};
ghost use Rattle.pur_text.specs.Texts.{text_of};
ghost use Rattle.pur_names.specs.Properties.{prop_named};
ghost use Rattle.pur_cssprops.specs.Private.Held.{held, with_one, written};
ghost use Rattle.pur_cssprops.specs.Styles.{declaration_kept, property_read, style_read};

use crate::laws::styles_are_read_as_themselves;
use crate::properties::form_of;
use crate::reading::read_value;
use indexmap::IndexMap;
use pur_csstok::{Declaration, split};
use pur_names::StyleProp;
use pur_settings::Settings;
use pur_uripolicy::{UriGate, UriTest};
use std::alloc::{AllocError, Global};

/// The one text of a style: its declarations that are kept, each property once, where it comes first and with its last
/// value, written `property:value;` with nothing between them; none where no declaration is kept.
///
/// A declaration is kept where the settings permit its property and its value is read (see [`read_value`]), a URL where
/// they permit its scheme and `gate` admits it. What a style is read as is read as itself, whatever its characters are.
///
/// The error is want of memory.
pub fn canon_style<F: UriTest>(
    alloc: Global,
    settings: &Settings,
    gate: &UriGate<F>,
    raw: &str,
) -> Result<Option<String>, AllocError>
    ensures read { IfOk result (λ style. option_map text_of style ≡ style_read settings.now gate.now (chars raw.now)) }
    ensures itself { IfOk result (λ style. IfSome (option_map text_of style) (λ text. style_read settings.now gate.now text ≡ Some text)) }
{
    styles_are_read_as_themselves();
    let declarations = split(alloc, raw)?;
    let mut values = IndexMap::new(alloc);
    for declaration in &declarations {
        keep(alloc, settings, gate, &mut values, declaration)?;
    }
    let style = write(alloc, &values)?;
    Ok(style)
}

/// Puts in the declaration's value, if it is kept: in the place of an earlier value of its property, or at the end.
fn keep<F: UriTest>(
    alloc: Global,
    settings: &Settings,
    gate: &UriGate<F>,
    values: &mut IndexMap<&'static str, String>,
    declaration: &Declaration,
) -> Result<(), AllocError>
    ensures { OnOk result (held values.new ≡ with_one (held values.old) (declaration_kept settings.now gate.now (pair_of declaration.now))) }
{
    let Some(property) = property_named(declaration.property.as_str()) else {
        return Ok(());
    };
    if let Some(value) = read_property(
        alloc,
        settings,
        gate,
        property,
        declaration.value.as_str(),
    )? {
        values.insert(property.name(), value)?;
    }
    Ok(())
}

fn property_named(name: &str) -> Option<StyleProp>
    ensures { result ≡ prop_named (chars name.now) }
{
    StyleProp::from_name(name)
}

/// What a value of the property is read as; none where the settings don't permit it.
#[tactic(auto, unfolding(crate::specs::Styles::property_read))]
fn read_property<F: UriTest>(
    alloc: Global,
    settings: &Settings,
    gate: &UriGate<F>,
    property: StyleProp,
    value: &str,
) -> Result<Option<String>, AllocError>
    ensures { IfOk result (λ read. option_map (λ text. (property, text_of text)) read ≡ property_read settings.now gate.now (chars value.now) property) }
{
    if !settings.permits_prop(property) {
        return Ok(None);
    }
    read_value(alloc, settings, gate, form_of(property), value)
}

/// The text of declarations; none where there are none.
fn write(
    alloc: Global,
    values: &IndexMap<&'static str, String>,
) -> Result<Option<String>, AllocError>
    ensures { IfOk result (λ style. option_map string_bytes style ≡ written (held values.now)) }
{
    if values.is_empty() {
        return Ok(None);
    }
    let mut style = String::new(alloc);
    for (property, value) in values {
        push_declaration(&mut style, property, value.as_str())?;
    }
    Ok(Some(style))
}

/// Adds the declaration and its `;`.
fn push_declaration(style: &mut String, property: &str, value: &str) -> Result<(), AllocError>
    ensures { OnOk result (string_bytes style.new ≡ string_bytes style.old ++ (declaration_body (property.now, value.now) ++ 0x3B ∷ [])) }
{
    style.push_str(property)?;
    style.push(':')?;
    style.push_str(value)?;
    style.push(';')?;
    Ok(())
}
