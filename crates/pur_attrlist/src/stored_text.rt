//! A name or a value as it is kept.
//!
//! Nearly all names are short, and many values are. A short text needs no allocation, and a long one stands behind a pointer
//! to its `String`, so that either takes two words in its pair.

ghost use Rattle.std.specs.Prelude.{◌≡◌, [], IfOk};
ghost use Rattle.std.specs.Str.{chars};
ghost use Rattle.pur_attrlist.specs.Texts.{text_of};
ghost use Rattle.pur_attrlist.specs.Private.Stored.{text_in};

use crate::short_text::ShortText;
use std::alloc::{AllocError, Global};
use std::boxed::Box;

/// A text that stands inside, or behind a pointer where it is long.
#[derive(Drop)]
pub(crate) enum StoredText {
    Short(ShortText),
    Long(Box<String>),
}

impl StoredText {
    /// The empty text.
    pub(crate) fn empty() -> StoredText
        ensures { text_in result ≡ [] }
    {
        StoredText::Short(ShortText::empty())
    }

    /// A copy of a text. Takes memory only where it is long.
    pub(crate) fn from_str(alloc: Global, text: &str) -> Result<StoredText, AllocError>
        ensures { IfOk result (λ stored. text_in stored ≡ chars text.now) }
    {
        match ShortText::from_str(text) {
            Some(short) => Ok(StoredText::Short(short)),
            None => long(alloc, String::from_str(alloc, text)?),
        }
    }

    /// A text. Takes memory only where it is long.
    pub(crate) fn from_string(alloc: Global, text: String) -> Result<StoredText, AllocError>
        ensures { IfOk result (λ stored. text_in stored ≡ text_of text) }
    {
        match ShortText::from_str(text.as_str()) {
            Some(short) => Ok(StoredText::Short(short)),
            None => long(alloc, text),
        }
    }

    /// The text.
    pub(crate) fn as_str(&self) -> &str
        ensures { chars result.now ≡ text_in self.now }
    {
        match self {
            StoredText::Short(short) => short.as_str(),
            StoredText::Long(long) => long.as_str(),
        }
    }

    /// The text, taken out. Takes memory only where it is short.
    pub(crate) fn into_string(self, alloc: Global) -> Result<String, AllocError>
        ensures { IfOk result (λ text. text_of text ≡ text_in self) }
    {
        match self {
            StoredText::Short(short) => String::from_str(alloc, short.as_str()),
            StoredText::Long(long) => Ok(Box::into_inner(long)),
        }
    }
}

// A text behind a pointer.
fn long(alloc: Global, text: String) -> Result<StoredText, AllocError>
    ensures { IfOk result (λ stored. text_in stored ≡ text_of text) }
{
    let text = Box::new(alloc, text)?;
    Ok(StoredText::Long(text))
}
