//! The style that Strict has in place of some attributes.

ghost use Rattle.std.specs.Prelude.{◌≡◌, ◌++◌, IfOk, OnOk};
ghost use Rattle.std.specs.Option.{option_map};
ghost use Rattle.std.specs.Str.{chars};
ghost use Rattle.pur_modules.specs.Groups.{is_among};
ghost use Rattle.pur_attrlist.specs.Texts.{text_of};
ghost use Rattle.pur_attrs.specs.Steps.{aligned, colored, cells, style_for, with_style_in};
ghost use Rattle.pur_attrs.specs.Private.Parts.{align_style, color_style, nowrap_style, declared};

use pur_attrlist::{AttrList, put_style};
use pur_modules::Doctype;
use pur_names::Element;
use std::alloc::{AllocError, Global};

/// Puts the style that Strict has for some of an element's attributes in front of its own. In Transitional nothing is put.
///
/// The error is want of memory; nothing is said of the attributes then.
pub(crate) fn put_strict_style(
    alloc: Global,
    doctype: Doctype,
    element: Element,
    attrs: &mut AttrList,
) -> Result<(), AllocError>
    ensures { OnOk result (attrs.new ≡ with_style_in doctype element attrs.old) }
{
    match doctype {
        Doctype::Strict => {
            let style = style_for(alloc, element, attrs)?;
            put_style(attrs, style)?;
            Ok(())
        }
        Doctype::Transitional => Ok(()),
    }
}

// Where text stands, what is behind it, and that its lines aren't broken.
fn style_for(alloc: Global, element: Element, attrs: &AttrList) -> Result<String, AllocError>
    ensures { IfOk result (λ style. text_of style ≡ style_for element attrs.now) }
{
    let mut style = String::new(alloc);
    push_align(&mut style, element, attrs)?;
    push_color(&mut style, element, attrs)?;
    push_nowrap(&mut style, element, attrs)?;
    Ok(style)
}

// Puts where an element's text stands behind a style, if `align` tells it.
fn push_align(style: &mut String, element: Element, attrs: &AttrList) -> Result<(), AllocError>
    ensures { OnOk result (text_of style.new ≡ text_of style.old ++ align_style element attrs.now) }
{
    if !is_aligned(element) {
        return Ok(());
    }
    push_declaration(style, "text-align", attrs.get("align"))
}

// Puts the colour behind an element behind a style, if `bgcolor` tells it.
fn push_color(style: &mut String, element: Element, attrs: &AttrList) -> Result<(), AllocError>
    ensures { OnOk result (text_of style.new ≡ text_of style.old ++ color_style element attrs.now) }
{
    if !is_colored(element) {
        return Ok(());
    }
    push_declaration(style, "background-color", attrs.get("bgcolor"))
}

// Puts behind a style that an element's lines aren't broken, if `nowrap` tells it.
fn push_nowrap(style: &mut String, element: Element, attrs: &AttrList) -> Result<(), AllocError>
    ensures { OnOk result (text_of style.new ≡ text_of style.old ++ nowrap_style element attrs.now) }
{
    if !is_cell(element) {
        return Ok(());
    }
    match attrs.get("nowrap") {
        Some(_) => {
            style.push_str("white-space:nowrap;")?;
            Ok(())
        }
        None => Ok(()),
    }
}

// Whether `align` sets the element's text.
fn is_aligned(element: Element) -> bool
    ensures { result ≡ is_among aligned element }
{
    matches!(
        element,
        Element::P
            | Element::Div
            | Element::H1
            | Element::H2
            | Element::H3
            | Element::H4
            | Element::H5
            | Element::H6
    )
}

// Whether `bgcolor` puts a colour behind the element.
fn is_colored(element: Element) -> bool
    ensures { result ≡ is_among colored element }
{
    matches!(
        element,
        Element::Table | Element::Tr | Element::Td | Element::Th
    )
}

// Whether `nowrap` keeps the element's lines whole.
fn is_cell(element: Element) -> bool
    ensures { result ≡ is_among cells element }
{
    matches!(element, Element::Td | Element::Th)
}

// Puts a declaration behind a style, if there is a value.
fn push_declaration(
    style: &mut String,
    property: &str,
    value: Option<&str>,
) -> Result<(), AllocError>
    ensures { OnOk result (text_of style.new ≡ text_of style.old ++ declared (chars property.now) (option_map (λ value. chars value.now) value.entry)) }
{
    match value {
        Some(value) => {
            style.push_str(property)?;
            style.push_str(":")?;
            style.push_str(value)?;
            style.push_str(";")?;
            Ok(())
        }
        None => Ok(()),
    }
}
