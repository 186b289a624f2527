//! A name and its value as they are kept, and the search for a name along a few of them.

ghost use Rattle.std.specs.Prelude.{◌≡◌, position, IfOk};
ghost use Rattle.std.specs.Str.{chars};
ghost use Rattle.pur_attrlist.specs.Attributes.{is_same_text};
ghost use Rattle.pur_attrlist.specs.Pairs.{attribute_of};
ghost use Rattle.pur_attrlist.specs.Private.Stored.{text_in, attribute_in};

use crate::pair::Pair;
use crate::stored_text::StoredText;
use std::alloc::{AllocError, Global};
use std::default::MadeWith;

/// An attribute as it is kept.
#[derive(Drop)]
pub(crate) struct StoredPair {
    pub name: StoredText,
    pub value: StoredText,
}

// What an unused place of a `SmallVec` holds.
impl MadeWith<Global> for StoredPair {
    fn made_with(_alloc: Global) -> StoredPair {
        StoredPair {
            name: StoredText::empty(),
            value: StoredText::empty(),
        }
    }
}

impl StoredPair {
    /// Whether this is the attribute's name.
    pub(crate) fn is_named(&self, name: &str) -> bool
        ensures { result ≡ is_same_text (chars name.now) (text_in self.now.name) }
    {
        name == self.name.as_str()
    }

    /// The attribute, taken out. Takes memory where its texts are short.
    pub(crate) fn into_pair(self, alloc: Global) -> Result<Pair, AllocError>
        ensures { IfOk result (λ pair. attribute_of pair ≡ attribute_in self) }
    {
        let StoredPair { name, value } = self;
        let name = name.into_string(alloc)?;
        let value = value.into_string(alloc)?;
        Ok(Pair { name, value })
    }
}

/// The first place of a name, looked for along all pairs.
pub(crate) fn position_among(pairs: &[StoredPair], name: &str) -> Option<usize>
    ensures { result ≡ position (λ pair. is_same_text (chars name.now) (text_in pair.name)) pairs.now }
{
    pairs.iter().position(|pair| pair.is_named(name))
}
