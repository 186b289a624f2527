//! What is put in where it is missing.

ghost use Rattle.std.specs.Prelude.{◌≡◌, [], OnOk, codes};
ghost use Rattle.std.specs.Option.{option_map_or};
ghost use Rattle.std.specs.Str.{chars};
ghost use Rattle.pur_attrlist.specs.Attributes.{with_new};
ghost use Rattle.pur_attrs.specs.Steps.{language_told, with_language, last_segment, with_required, completed_attributes};
ghost use Rattle.pur_attrs.specs.Private.Parts.{source_of};

use pur_attrlist::AttrList;
use pur_names::Element;
use pur_uri::{Uri, text_is_canonical, uri_is_canonical};
use std::alloc::{AllocError, Global};

/// Puts in what an element's attributes lack: the other of `lang` and `xml:lang`, the direction of a `bdo`, the text in the
/// place of an `img`, which is told by the URI that their `src` was read as, and what a `form`, an `optgroup` and a
/// `textarea` must have.
///
/// The error is want of memory; nothing is said of the attributes then.
pub(crate) fn complete(
    alloc: Global,
    element: Element,
    source: &Option<Uri>,
    attrs: &mut AttrList,
) -> Result<(), AllocError>
    requires { source.now ≡ source_of attrs.old }
    ensures { OnOk result (attrs.new ≡ completed_attributes element attrs.old) }
{
    put_language(alloc, attrs)?;
    put_required(alloc, element, source, attrs)?;
    Ok(())
}

// Where a language is told, by `xml:lang` or else by `lang`, both tell it.
fn put_language(alloc: Global, attrs: &mut AttrList) -> Result<(), AllocError>
    ensures { OnOk result (attrs.new ≡ with_language (language_told attrs.old) attrs.old) }
{
    let told = attrs.get("xml:lang").or(attrs.get("lang"));
    let language = match told {
        Some(language) => String::from_str(alloc, language)?,
        None => return Ok(()),
    };
    attrs.set("lang", language.as_str())?;
    attrs.set("xml:lang", language.as_str())?;
    Ok(())
}

// What an element must have.
fn put_required(
    alloc: Global,
    element: Element,
    source: &Option<Uri>,
    attrs: &mut AttrList,
) -> Result<(), AllocError>
    requires { source.now ≡ source_of attrs.old }
    ensures { OnOk result (attrs.new ≡ with_required element attrs.old) }
{
    match element {
        Element::Bdo => {
            put_new(alloc, attrs, "dir", "ltr")?;
            Ok(())
        }
        Element::Img => {
            put_new(alloc, attrs, "alt", source_name(source))?;
            Ok(())
        }
        Element::Form => {
            put_new(alloc, attrs, "action", "")?;
            Ok(())
        }
        Element::Optgroup => {
            put_new(alloc, attrs, "label", "")?;
            Ok(())
        }
        Element::Textarea => {
            put_size(alloc, attrs)?;
            Ok(())
        }
        _ => Ok(()),
    }
}

// The size of a field of text.
fn put_size(alloc: Global, attrs: &mut AttrList) -> Result<(), AllocError>
    ensures { OnOk result (attrs.new ≡ with_new (with_new attrs.old (codes "rows") (codes "4")) (codes "cols") (codes "40")) }
{
    put_new(alloc, attrs, "rows", "4")?;
    put_new(alloc, attrs, "cols", "40")?;
    Ok(())
}

// Appends an attribute, unless there is one of its name.
fn put_new(alloc: Global, attrs: &mut AttrList, name: &str, value: &str) -> Result<(), AllocError>
    ensures { OnOk result (attrs.new ≡ with_new attrs.old (chars name.now) (chars value.now)) }
{
    if attrs.get(name).is_some() {
        return Ok(());
    }
    let name = String::from_str(alloc, name)?;
    let value = String::from_str(alloc, value)?;
    attrs.push_if_new(name, value)?;
    Ok(())
}

// What a picture's source is called: the last segment of its path.
fn source_name(source: &Option<Uri>) -> &str
    ensures { chars result.now ≡ option_map_or (λ uri. last_segment uri.path) source.now [] }
{
    text_is_canonical();
    match source {
        Some(uri) => {
            uri_is_canonical(uri);
            last_segment(uri.path())
        }
        None => "",
    }
}

// What stands behind the last `/` of a path.
fn last_segment(path: &str) -> &str
    ensures { result.now ≡ last_segment path.now }
{
    match path.rsplit_once('/') {
        Some((_, behind)) => behind,
        None => path,
    }
}
