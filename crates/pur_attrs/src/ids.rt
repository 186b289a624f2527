//! Ids: each has the site's prefix, and of the same ids the first stays.
//!
//! The ids that were seen stand in an ordered set: strangers choose them, and the hash of std's tables has a fixed seed.

ghost use Rattle.std.specs.Prelude.{◌≡◌, ℕ, List, IfOk, OnOk};
ghost use Rattle.std.specs.Str.{chars};
ghost use Rattle.pur_attrlist.specs.Texts.{text_of};
ghost use Rattle.pur_attrs.specs.Ids.{with_prefix};
ghost use Rattle.pur_attrs.specs.Private.Along.{seen_in, seen_behind, prefixed_ids, with_id_behind};

use pur_attrlist::AttrList;
use std::alloc::{AllocError, Global};
use std::collections::BTreeSet;

/// Puts the prefix in front of the id among attributes, unless it begins with it, and takes the id out where it was seen
/// before. It is then among those that were seen.
///
/// The error is want of memory; nothing is said of the attributes then.
pub(crate) fn keep_first_id(
    alloc: Global,
    prefix: &str,
    seen: &mut BTreeSet<String>,
    attrs: &mut AttrList,
) -> Result<(), AllocError>
    ensures attrs { OnOk result (attrs.new ≡ with_id_behind (chars prefix.now) (seen_in seen.old) attrs.old) }
    ensures seen { OnOk result ((id : List ℕ) → seen_in seen.new id ≡ seen_behind (seen_in seen.old) (prefixed_ids (chars prefix.now) attrs.old) id) }
{
    let id = match attrs.get("id") {
        Some(id) => with_prefix(alloc, prefix, id)?,
        None => return Ok(()),
    };
    if seen.contains(id.as_str()) {
        attrs.remove("id");
        return Ok(());
    }
    attrs.set("id", id.as_str())?;
    seen.insert(id)?;
    Ok(())
}

// An id with the prefix in front, unless it begins with it.
fn with_prefix(alloc: Global, prefix: &str, id: &str) -> Result<String, AllocError>
    ensures { IfOk result (λ text. text_of text ≡ with_prefix (chars prefix.now) (chars id.now)) }
{
    if id.as_bytes().starts_with(prefix.as_bytes()) {
        return String::from_str(alloc, id);
    }
    let mut text = String::from_str(alloc, prefix)?;
    text.push_str(id)?;
    Ok(text)
}
