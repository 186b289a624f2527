//! The attributes of a tag, and their values with quotation marks written as references too.

ghost use Rattle.std.specs.Prelude.{◌≡◌, ◌++◌, ◌∷◌, IfSome, IfNone, IsTrue, OnOk, encode_utf8_all};
ghost use Rattle.std.specs.List.{list_all};
ghost use Rattle.std.specs.Str.{chars};
ghost use Rattle.pur_tree.specs.Spelling.{attribute_text, attributes_text, escaped_value};
ghost use Rattle.pur_writer.specs.Private.Bytes.{is_no_quote};

use crate::escaping::push_escaped;
use memchr::memchr;
use pur_attrlist::AttrList;
use std::alloc::AllocError;

/// Writes the attributes of a tag in order, each with a space in front.
///
/// The error is want of memory.
pub(crate) fn push_attributes(out: &mut Vec<u8>, attrs: &AttrList) -> Result<(), AllocError>
    ensures { OnOk result (out.new.items ≡ out.old.items ++ encode_utf8_all (attributes_text attrs.now)) }
{
    for at in 0..attrs.len() {
        push_attribute(out, attrs.name_at(at), attrs.value_at(at))?;
    }
    Ok(())
}

/// Writes one attribute: a space, its name, and its value between quotation marks.
fn push_attribute(out: &mut Vec<u8>, name: &str, value: &str) -> Result<(), AllocError>
    ensures { OnOk result (out.new.items ≡ out.old.items ++ encode_utf8_all (attribute_text (chars name.now, chars value.now))) }
{
    out.extend_from_slice(b" ")?;
    out.extend_from_slice(name.as_bytes())?;
    out.extend_from_slice(b"=\"")?;
    push_value(out, value.as_bytes())?;
    out.extend_from_slice(b"\"")?;
    Ok(())
}

/// Writes a value, with `&quot;` for its quotation marks and the references of a text.
fn push_value(out: &mut Vec<u8>, value: &[u8]) -> Result<(), AllocError>
    ensures { OnOk result (out.new.items ≡ out.old.items ++ escaped_value value.now) }
{
    let mut rest = value;
    'quoting: while let Some((run, behind)) = cut_at_quote(rest) {
        push_escaped(out, run)?;
        out.extend_from_slice(b"&quot;")?;
        rest = behind;
    }
    push_escaped(out, rest)?;
    Ok(())
}

/// The text before the first quotation mark, and the text behind it.
fn cut_at_quote(text: &[u8]) -> Option<(&[u8], &[u8])>
    ensures parts { IfSome result (λ parts. text.now ≡ parts.0.now ++ 0x22 ∷ parts.1.now) }
    ensures run { IfSome result (λ parts. IsTrue (list_all is_no_quote parts.0.now)) }
    ensures none { IfNone result (IsTrue (list_all is_no_quote text.now)) }
{
    let place = memchr(b'"', text)?;
    let (run, tail) = text.split_at(place);
    let (_quote, behind) = tail.split_first()?;
    Some((run, behind))
}
