//! Texts in lower case, and words put together.
ghost use Rattle.std.specs.Prelude.{◌≡◌, IfOk, map};
ghost use Rattle.std.specs.Str.{chars, str_to_ascii_lowercase};
ghost use Rattle.pur_text.specs.Texts.{text_of};
ghost use Rattle.pur_cssprops.specs.Forms.{spaced};

use pur_text::lower_ascii;
use std::alloc::{AllocError, Global};

/// The text with each of the letters A to Z in lower case.
pub(crate) fn lower(alloc: Global, text: &str) -> Result<String, AllocError>
    ensures { IfOk result (λ lowered. text_of lowered ≡ str_to_ascii_lowercase (chars text.now)) }
{
    let lowered = lower_ascii(alloc, text)?;
    Ok(lowered)
}

/// The words with a space between each two.
pub(crate) fn spaced(alloc: Global, words: &[String]) -> Result<String, AllocError>
    ensures { IfOk result (λ text. text_of text ≡ spaced (map text_of words.now)) }
{
    let text = words.join(alloc, " ")?;
    Ok(text)
}
