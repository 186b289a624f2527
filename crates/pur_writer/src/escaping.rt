//! Texts with their special characters written as references.

ghost use Rattle.std.specs.Prelude.{◌≡◌, ◌++◌, ◌∷◌, IfSome, IfNone, IsTrue, OnOk};
ghost use Rattle.std.specs.List.{list_all};
ghost use Rattle.pur_text.specs.Escapes.{escape, escaped};
ghost use Rattle.pur_writer.specs.Private.Bytes.{is_special, is_plain};

use memchr::memchr3;
use std::alloc::AllocError;

/// Writes a text, with `&amp;`, `&lt;` and `&gt;` for its `&`, `<` and `>`.
///
/// The error is want of memory.
pub(crate) fn push_escaped(out: &mut Vec<u8>, text: &[u8]) -> Result<(), AllocError>
    ensures { OnOk result (out.new.items ≡ out.old.items ++ escaped text.now) }
{
    let mut rest = text;
    'escaping: while let Some((run, special, behind)) = cut_at_special(rest) {
        out.extend_from_slice(run)?;
        out.extend_from_slice(reference_of(special))?;
        rest = behind;
    }
    out.extend_from_slice(rest)?;
    Ok(())
}

/// The text before the first `&`, `<` or `>`, that byte, and the text behind it.
fn cut_at_special(text: &[u8]) -> Option<(&[u8], u8, &[u8])>
    ensures parts { IfSome result (λ parts. text.now ≡ parts.0.now ++ parts.1 ∷ parts.2.now) }
    ensures run { IfSome result (λ parts. IsTrue (list_all is_plain parts.0.now)) }
    ensures special { IfSome result (λ parts. IsTrue (is_special parts.1)) }
    ensures none { IfNone result (IsTrue (list_all is_plain text.now)) }
{
    let place = memchr3(b'&', b'<', b'>', text)?;
    let (run, tail) = text.split_at(place);
    let (special, behind) = tail.split_first()?;
    Some((run, *special, behind))
}

/// The reference that an `&`, a `<` or a `>` is written as.
fn reference_of(special: u8) -> &'static [u8]
    requires { IsTrue (is_special special) }
    ensures { result.now ≡ escape special }
{
    match special {
        b'&' => b"&amp;",
        b'<' => b"&lt;",
        _ => b"&gt;",
    }
}
