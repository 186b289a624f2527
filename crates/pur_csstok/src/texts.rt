//! Texts taken apart, lowered and put together.
ghost use Rattle.std.specs.Prelude.{◌≡◌, ◌<◌, ◌++◌, ◌∷◌, ◌==◌, [], not, length, map, IfOk, IfSome, IfNone, IsTrue, OnOk, string_bytes};
ghost use Rattle.std.specs.Char.{encode_utf8};
ghost use Rattle.std.specs.List.{join_with_byte, list_all};
ghost use Rattle.std.specs.Str.{IsUtf8, chars, str_to_ascii_lowercase};
ghost use Rattle.pur_text.specs.Texts.{text_of};

use pur_text::lower_ascii;
use std::alloc::{AllocError, Global};

/// The first character of the text, and what stands behind it.
pub(crate) fn cut_first(text: &str) -> Option<(char, &str)>
    ensures text { IfSome result (λ parts. IsUtf8 parts.1.now) }
    ensures bytes { IfSome result (λ parts. text.now ≡ encode_utf8 parts.0 ++ parts.1.now) }
    ensures cut { IfSome result (λ parts. chars text.now ≡ parts.0 ∷ chars parts.1.now) }
    ensures shorter { IfSome result (λ parts. length parts.1.now < length text.now) }
    ensures empty { IfNone result (chars text.now ≡ []) }
{
    let mut rest = text.chars();
    match rest.next() {
        Some(c) => Some((c, rest.as_str())),
        None => None,
    }
}

/// What stands before the first such character, and what stands behind it.
pub(crate) fn cut_at(text: &str, c: char) -> Option<(&str, &str)>
    ensures front_text { IfSome result (λ parts. IsUtf8 parts.0.now) }
    ensures behind_text { IfSome result (λ parts. IsUtf8 parts.1.now) }
    ensures cut { IfSome result (λ parts. chars text.now ≡ chars parts.0.now ++ c ∷ chars parts.1.now) }
    ensures first { IfSome result (λ parts. IsTrue (list_all (λ d. not (d == c)) (chars parts.0.now))) }
    ensures whole { IfNone result (IsTrue (list_all (λ d. not (d == c)) (chars text.now))) }
{
    match text.split_once(c) {
        Some((front, behind)) => Some((front, behind)),
        None => None,
    }
}

/// The text with each of the letters A to Z in lower case.
pub(crate) fn lower(alloc: Global, text: &str) -> Result<String, AllocError>
    ensures { IfOk result (λ lowered. text_of lowered ≡ str_to_ascii_lowercase (chars text.now)) }
{
    let lowered = lower_ascii(alloc, text)?;
    Ok(lowered)
}

/// Writes the bytes, which are text.
pub(crate) fn push_text(output: &mut String, bytes: &[u8]) -> Result<(), AllocError>
    requires { IsUtf8 bytes.now }
    ensures { OnOk result (string_bytes output.new ≡ string_bytes output.old ++ bytes.now) }
{
    if let Ok(text) = std::str::from_utf8(bytes) {
        output.push_str(text)?;
    }
    Ok(())
}

/// Writes one byte, which is ASCII.
pub(crate) fn push_byte(output: &mut String, byte: u8) -> Result<(), AllocError>
    requires { byte < 128 }
    ensures { OnOk result (string_bytes output.new ≡ string_bytes output.old ++ byte ∷ []) }
{
    output.push(char::from(byte))?;
    Ok(())
}

/// The texts with a space between each two.
pub(crate) fn join_with_space(alloc: Global, texts: &[String]) -> Result<String, AllocError>
    ensures { IfOk result (λ text. text_of text ≡ join_with_byte 0x20 (map text_of texts.now)) }
{
    let text = texts.join(alloc, " ")?;
    Ok(text)
}

/// The texts with a comma between each two.
pub(crate) fn join_with_comma(alloc: Global, texts: &[String]) -> Result<String, AllocError>
    ensures { IfOk result (λ text. text_of text ≡ join_with_byte 0x2C (map text_of texts.now)) }
{
    let text = texts.join(alloc, ",")?;
    Ok(text)
}
