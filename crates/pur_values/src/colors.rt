//! Colours.
ghost use Rattle.std.specs.Prelude.{◌≡◌, ◌∷◌, IfOk, option_map};
ghost use Rattle.std.specs.List.{list_all};
ghost use Rattle.std.specs.Str.{chars};
ghost use Rattle.pur_values.specs.Colors.{color_of, is_bare, is_hex_digit};
ghost use Rattle.pur_text.specs.Texts.{text_of};

use std::alloc::{AllocError, Global};

/// A colour of a style, whose `#` may be missing.
pub(crate) fn read_color(alloc: Global, text: &str) -> Result<Option<String>, AllocError>
    ensures { IfOk result (λ value. option_map text_of value ≡ color_of (chars text.now)) }
{
    if !is_bare(text) {
        return pur_csstok::read_color(alloc, text, false);
    }
    let marked = marked(alloc, text)?;
    pur_csstok::read_color(alloc, marked.as_str(), false)
}

/// The text behind a `#`.
fn marked(alloc: Global, text: &str) -> Result<String, AllocError>
    ensures { IfOk result (λ marked. text_of marked ≡ 0x23 ∷ chars text.now) }
{
    let mut marked = String::new(alloc);
    marked.push('#')?;
    marked.push_str(text)?;
    Ok(marked)
}

/// Whether the text is three or six hexadecimal digits.
fn is_bare(text: &str) -> bool
    ensures { result ≡ is_bare (chars text.now) }
{
    are_bare(text.as_bytes())
}

fn are_bare(text: &[u8]) -> bool
    ensures { result ≡ is_bare text.now }
{
    matches!(text.len(), 3 | 6) && has_hex_digits(text)
}

fn has_hex_digits(text: &[u8]) -> bool
    ensures { result ≡ list_all is_hex_digit text.now }
{
    text.iter().all(is_hex_digit)
}

fn is_hex_digit(byte: &u8) -> bool
    ensures { result ≡ is_hex_digit byte.now }
{
    matches!(byte, b'0'..=b'9' | b'A'..=b'F' | b'a'..=b'f')
}
