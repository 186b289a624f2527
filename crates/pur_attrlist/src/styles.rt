//! A style that is put in front of that which attributes have.

ghost use Rattle.std.specs.Prelude.{◌≡◌, ◌++◌, IfOk, OnOk};
ghost use Rattle.std.specs.Option.{option_map};
ghost use Rattle.std.specs.Str.{chars};
ghost use Rattle.pur_attrlist.specs.Styles.{text_or_none, with_style};
ghost use Rattle.pur_attrlist.specs.Texts.{text_of};

use crate::attribute_list::AttrList;
use std::alloc::AllocError;

/// Puts a style in front of that which the attributes have. The empty style changes nothing.
///
/// The error is want of memory; nothing is said of the attributes then.
pub fn put_style(attrs: &mut AttrList, style: String) -> Result<(), AllocError>
    ensures { OnOk result (attrs.new ≡ with_style (text_of style) attrs.old) }
{
    if style.is_empty() {
        return Ok(());
    }
    let style = style_before(style, attrs.get("style"))?;
    attrs.set("style", style.as_str())?;
    Ok(())
}

// A style with another behind it, if there is one.
fn style_before(mut style: String, other: Option<&str>) -> Result<String, AllocError>
    ensures { IfOk result (λ both. text_of both ≡ text_of style ++ text_or_none (option_map (λ other. chars other.now) other.entry)) }
{
    match other {
        Some(other) => {
            style.push_str(other)?;
            Ok(style)
        }
        None => Ok(style),
    }
}
