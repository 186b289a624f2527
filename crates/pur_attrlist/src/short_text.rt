//! A short text that stands in the value itself.

ghost use Rattle.std.specs.Prelude.{◌≡◌, [], IfSome};
ghost use Rattle.std.specs.Str.{chars};

use std::marker::Model;
use std::str;

// The most bytes of a short text. With its length it takes fifteen, so that a text that may be a long one takes two words.
const ROOM: usize = 14;

/// A text of few bytes, which needs no memory of its own.
#[derive(Drop)]
pub(crate) struct ShortText {
    len: u8,
    bytes: [u8; ROOM],
}

impl Model for ShortText {
    ghost use Rattle.std.specs.Prelude.{◌≤◌, List, ℕ, take, IsUtf8};
    ghost use Rattle.std.specs.Str.{chars};

    ghost Value = { List ℕ };

    ghost view = { λ text. chars (take text.len text.bytes) };

    ghost invariant = { λ text. (text.len ≤ 14) × ∥ IsUtf8 (take text.len text.bytes) ∥₁ };
}

impl ShortText {
    /// The empty text.
    pub(crate) fn empty() -> ShortText
        ensures { result ≡ [] }
    {
        ShortText {
            len: 0,
            bytes: [0; ROOM],
        }
    }

    /// A text, if it is short.
    pub(crate) fn from_str(text: &str) -> Option<ShortText>
        ensures { IfSome result (λ short. short ≡ chars text.now) }
    {
        let len = text.len();
        if len > ROOM {
            return None;
        }
        let mut bytes = [0; ROOM];
        bytes[..len].copy_from_slice(text.as_bytes());
        Some(ShortText {
            len: len as u8,
            bytes,
        })
    }

    /// The text.
    pub(crate) fn as_str(&self) -> &str
        ensures { chars result.now ≡ self.now }
    {
        match str::from_utf8(&self.bytes[..self.len as usize]) {
            Ok(text) => text,
            // never, since by the invariant the bytes are those of a text
            Err(_) => "",
        }
    }
}
