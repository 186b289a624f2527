//! The name of an anchor or a picture.

ghost use Rattle.std.specs.Prelude.{◌≡◌, IfOk};
ghost use Rattle.pur_attrlist.specs.Pairs.{attribute_of};
ghost use Rattle.pur_attrs.specs.Steps.{name_as_id, with_name_as_id};
ghost use Rattle.pur_attrs.specs.Private.Parts.{named_by_id};

use pur_attrlist::{AttrList, Pair};
use pur_names::Element;
use std::alloc::{AllocError, Global};

/// The attributes of an element, in which the `name` of an `a` or an `img` is its `id`; where there is an `id`, the name goes.
///
/// The error is want of memory.
pub(crate) fn with_name_as_id(
    alloc: Global,
    element: Element,
    attrs: AttrList,
) -> Result<AttrList, AllocError>
    ensures { IfOk result (λ changed. changed ≡ with_name_as_id element attrs) }
{
    match element {
        Element::A | Element::Img => named_by_id(alloc, attrs),
        _ => Ok(attrs),
    }
}

// The attributes, in which the name is the id, unless there is one.
fn named_by_id(alloc: Global, mut attrs: AttrList) -> Result<AttrList, AllocError>
    ensures { IfOk result (λ changed. changed ≡ named_by_id attrs) }
{
    if attrs.get("id").is_some() {
        attrs.remove("name");
        return Ok(attrs);
    }
    if attrs.get("name").is_none() {
        return Ok(attrs);
    }
    let mut changed = AttrList::new(alloc);
    for pair in attrs.into_pairs()? {
        let Pair { name, value } = as_id(alloc, pair)?;
        changed.push_if_new(name, value)?;
    }
    Ok(changed)
}

// A `name` as an `id`.
fn as_id(alloc: Global, pair: Pair) -> Result<Pair, AllocError>
    ensures { IfOk result (λ changed. attribute_of changed ≡ name_as_id (attribute_of pair)) }
{
    if pair.name.as_str() != "name" {
        return Ok(pair);
    }
    let Pair { value, .. } = pair;
    let name = String::from_str(alloc, "id")?;
    Ok(Pair { name, value })
}
