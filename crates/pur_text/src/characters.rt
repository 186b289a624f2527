//! Sets of characters, and letters in lower case.
ghost use Rattle.std.specs.Prelude.{◌≡◌, IfOk, string_bytes};
ghost use Rattle.std.specs.Str.{str_to_ascii_lowercase};
ghost use Rattle.pur_text.specs.Characters.{is_allowed, is_space};

use std::alloc::{AllocError, Global};

/// Whether a filtered text may have the character: U+0009, U+000A, U+0020 to U+007E, U+00A0 to U+D7FF, U+E000 to
/// U+FFFD and U+10000 to U+10FFFF. These are the characters of XML 1.0, section 2.2, without CR and without the controls
/// U+007F to U+009F.
pub fn is_allowed(c: char) -> bool
    ensures { result ≡ is_allowed c }
{
    matches!(
        c,
        '\t' | '\n' | ' '..='~' | '\u{A0}'..='\u{D7FF}' | '\u{E000}'..='\u{FFFD}' | '\u{10000}'..='\u{10FFFF}'
    )
}

/// Whether the character is white space: a space, a tab or a line feed.
pub fn is_space(c: char) -> bool
    ensures { result ≡ is_space c }
{
    matches!(c, ' ' | '\t' | '\n')
}

/// The text with each of the letters A to Z in lower case, and all else as it is.
///
/// The error is want of memory.
pub fn lower_ascii(alloc: Global, text: &str) -> Result<String, AllocError>
    ensures { IfOk result (λ lowered. string_bytes lowered ≡ str_to_ascii_lowercase text.now) }
{
    text.to_ascii_lowercase(alloc)
}
