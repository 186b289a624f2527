//! Letters and digits, and texts that are kept as they are or in lower case.
ghost use Rattle.std.specs.Prelude.{◌≡◌, IfOk, option_map, map};
ghost use Rattle.std.specs.Str.{chars, str_to_ascii_lowercase};
ghost use Rattle.pur_text.specs.Texts.{text_of};
ghost use Rattle.pur_values.specs.Words.{is_among, is_digit, is_letter, is_letter_or_digit, kept_where};

use pur_text::lower_ascii;
use std::alloc::{AllocError, Global};

pub(crate) fn is_digit(byte: u8) -> bool
    ensures { result ≡ is_digit byte }
{
    matches!(byte, b'0'..=b'9')
}

pub(crate) fn is_letter(byte: u8) -> bool
    ensures { result ≡ is_letter byte }
{
    matches!(byte, b'A'..=b'Z' | b'a'..=b'z')
}

pub(crate) fn is_letter_or_digit(byte: u8) -> bool
    ensures { result ≡ is_letter_or_digit byte }
{
    matches!(byte, b'A'..=b'Z' | b'a'..=b'z' | b'0'..=b'9')
}

/// Whether the word is one of these.
pub(crate) fn is_among(words: &[&str], word: &[u8]) -> bool
    ensures { result ≡ is_among (map (λ w. w.now) words.now) word.now }
{
    words.iter().any(|other| word == other.as_bytes())
}

/// The text, where it has a form.
pub(crate) fn kept_where(alloc: Global, has: bool, text: &str) -> Result<Option<String>, AllocError>
    ensures { IfOk result (λ value. option_map text_of value ≡ kept_where has (chars text.now)) }
{
    if !has {
        return Ok(None);
    }
    let kept = String::from_str(alloc, text)?;
    Ok(Some(kept))
}

/// The text in lower case, where it has a form.
pub(crate) fn lowered_where(
    alloc: Global,
    has: bool,
    text: &str,
) -> Result<Option<String>, AllocError>
    ensures { IfOk result (λ value. option_map text_of value ≡ kept_where has (str_to_ascii_lowercase (chars text.now))) }
{
    if !has {
        return Ok(None);
    }
    let lowered = lower(alloc, text)?;
    Ok(Some(lowered))
}

/// The text with each of the letters A to Z in lower case.
pub(crate) fn lower(alloc: Global, text: &str) -> Result<String, AllocError>
    ensures { IfOk result (λ lowered. text_of lowered ≡ str_to_ascii_lowercase (chars text.now)) }
{
    let lowered = lower_ascii(alloc, text)?;
    Ok(lowered)
}
