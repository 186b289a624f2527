//! What stands in Strict for elements of Transitional alone.

ghost use Rattle.std.specs.Prelude.{◌≡◌, ◌++◌, IfOk, IfSome, OnOk, codes};
ghost use Rattle.std.specs.Option.{option_map};
ghost use Rattle.std.specs.Str.{chars};
ghost use Rattle.pur_attrlist.specs.Attributes.{value_of};
ghost use Rattle.pur_attrlist.specs.Texts.{text_of};
ghost use Rattle.pur_foreign.specs.Strict.{strict_element, strict_attributes, style_text, attributes_left, font_style, declaration, size_named, size_of};

use pur_attrlist::{AttrList, put_style};
use pur_names::Element;
use pur_text::trim;
use std::alloc::{AllocError, Global};

// The element that stands in Strict for another.
pub(crate) fn strict_element(element: Element) -> Element
    ensures { result ≡ strict_element element }
{
    match element {
        Element::Center => Element::Div,
        Element::Font | Element::U | Element::S | Element::Strike => Element::Span,
        Element::Dir | Element::Menu => Element::Ul,
        _ => element,
    }
}

// The attributes that Strict has in place of those of an element.
pub(crate) fn strict_attributes(
    alloc: Global,
    element: Element,
    attrs: AttrList,
) -> Result<AttrList, AllocError>
    ensures { IfOk result (λ changed. changed ≡ strict_attributes element attrs) }
{
    let style = style_text(alloc, element, &attrs)?;
    let mut left = attributes_left(element, attrs);
    put_style(&mut left, style)?;
    Ok(left)
}

// The attributes that stay beside the style that Strict has in place of an element.
fn attributes_left(element: Element, mut attrs: AttrList) -> AttrList
    ensures { result ≡ attributes_left element attrs }
{
    match element {
        Element::Font => {
            attrs.remove("color");
            attrs.remove("face");
            attrs.remove("size");
            attrs
        }
        _ => attrs,
    }
}

// The style that Strict has in place of an element and its attributes.
fn style_text(alloc: Global, element: Element, attrs: &AttrList) -> Result<String, AllocError>
    ensures { IfOk result (λ style. text_of style ≡ style_text element attrs.now) }
{
    match element {
        Element::Center => String::from_str(alloc, "text-align:center;"),
        Element::U => String::from_str(alloc, "text-decoration:underline;"),
        Element::S => String::from_str(alloc, "text-decoration:line-through;"),
        Element::Strike => String::from_str(alloc, "text-decoration:line-through;"),
        Element::Font => font_style(alloc, attrs),
        _ => Ok(String::new(alloc)),
    }
}

// The style of a `font`.
fn font_style(alloc: Global, attrs: &AttrList) -> Result<String, AllocError>
    ensures { IfOk result (λ style. text_of style ≡ font_style attrs.now) }
{
    let mut style = String::new(alloc);
    push_declaration(&mut style, "color", attrs.get("color"))?;
    push_declaration(&mut style, "font-family", attrs.get("face"))?;
    push_declaration(&mut style, "font-size", font_size(attrs))?;
    Ok(style)
}

// The size of the text of a `font`.
fn font_size(attrs: &AttrList) -> Option<&'static str>
    ensures { option_map (λ size. chars size.now) result ≡ size_of (value_of attrs.now (codes "size")) }
{
    match attrs.get("size") {
        Some(size) => size_named(trim(size)),
        None => None,
    }
}

// Puts a declaration behind a style, if there is a value.
fn push_declaration(
    style: &mut String,
    property: &str,
    value: Option<&str>,
) -> Result<(), AllocError>
    ensures { OnOk result (text_of style.new ≡ text_of style.old ++ declaration (chars property.now) (option_map (λ value. chars value.now) value.entry)) }
{
    match value {
        Some(value) => {
            style.push_str(property)?;
            style.push_str(":")?;
            style.push_str(value)?;
            style.push_str(";")?;
            Ok(())
        }
        None => Ok(()),
    }
}

// The size of text that a `size` of `font` names.
fn size_named(text: &str) -> Option<&'static str>
    ensures value { option_map (λ size. size.now) result ≡ size_named text.now }
    ensures plain { IfSome result (λ size. chars size.now ≡ size.now) }
{
    match text {
        "1" => Some("xx-small"),
        "2" => Some("small"),
        "3" => Some("medium"),
        "4" => Some("large"),
        "5" => Some("x-large"),
        "6" => Some("xx-large"),
        "7" => Some("300%"),
        "+1" => Some("larger"),
        "-1" => Some("smaller"),
        _ => None,
    }
}
