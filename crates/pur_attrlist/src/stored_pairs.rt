//! Where an attribute list has its pairs: nowhere while it has none, and then behind a pointer.
//!
//! A tag is moved often on its way from the input to the output, and most tags have no attributes. So a list takes the room of
//! two words in its tag, which tell whether there are pairs, and where; and an empty one takes no memory.

ghost use Rattle.std.specs.Prelude.{◌≡◌, ◌<◌, ◌++◌, [], ◌∷◌, false, length, map, remove, slice_get, Some, OnOk, OnErr, IfOk, IfSome, IfNone, IsTrue};
ghost use Rattle.std.specs.Str.{chars};
ghost use Rattle.pur_attrlist.specs.Attributes.{names_of, values_of, has_name, is_distinct};
ghost use Rattle.pur_attrlist.specs.Private.Places.{with_value_at, IsPlaceOf};
ghost use Rattle.pur_attrlist.specs.Private.Storage.{attributes_of, stored_of};
ghost use Rattle.pur_attrlist.specs.Private.Stored.{text_in, attribute_in};

use crate::pairs_in_order::PairsInOrder;
use crate::stored_pair::StoredPair;
use crate::stored_text::StoredText;
use std::alloc::{AllocError, Global};
use std::boxed::Box;

/// Pairs in the order in which they were put, behind a pointer where there are any.
#[derive(Drop)]
pub(crate) struct StoredPairs {
    alloc: Global,
    held: Option<Box<PairsInOrder>>,
}

impl StoredPairs {
    /// No pairs. Takes no memory.
    pub(crate) fn none(alloc: Global) -> StoredPairs
        ensures { stored_of result ≡ [] }
    {
        StoredPairs { alloc, held: None }
    }

    /// The allocator of the pairs.
    pub(crate) fn allocator(&self) -> Global {
        self.alloc
    }

    /// How many pairs there are.
    pub(crate) fn len(&self) -> usize
        ensures { result ≡ length (stored_of self.now) }
    {
        match &self.held {
            Some(pairs) => pairs.len(),
            None => 0,
        }
    }

    /// The name at a place.
    pub(crate) fn name_at(&self, at: usize) -> &str
        requires { at < length (stored_of self.now) }
        ensures { slice_get (names_of (stored_of self.now)) at ≡ Some (chars result.now) }
    {
        match &self.held {
            Some(pairs) => pairs.name_at(at),
            None => "",
        }
    }

    /// The value at a place.
    pub(crate) fn value_at(&self, at: usize) -> &str
        requires { at < length (stored_of self.now) }
        ensures { slice_get (values_of (stored_of self.now)) at ≡ Some (chars result.now) }
    {
        match &self.held {
            Some(pairs) => pairs.value_at(at),
            None => "",
        }
    }

    /// A place of the name.
    pub(crate) fn position(&self, name: &str) -> Option<usize>
        ensures found { IfSome result (IsPlaceOf (stored_of self.now) (chars name.now)) }
        ensures absent { IfNone result (has_name (stored_of self.now) (chars name.now) ≡ false) }
    {
        match &self.held {
            Some(pairs) => pairs.position(name),
            None => None,
        }
    }

    /// Writes a value in the place of another.
    pub(crate) fn replace(&mut self, at: usize, value: StoredText)
        requires { at < length (stored_of self.old) }
        ensures { stored_of self.new ≡ with_value_at (stored_of self.old) at (text_in value) }
    {
        match &mut self.held {
            Some(pairs) => pairs.replace(at, value),
            None => {}
        }
    }

    /// Takes the pair at a place out, and closes up.
    pub(crate) fn take_out(&mut self, at: usize)
        requires within { at < length (stored_of self.old) }
        requires distinct { IsTrue (is_distinct (stored_of self.old)) }
        ensures { stored_of self.new ≡ remove (stored_of self.old) at }
    {
        match &mut self.held {
            Some(pairs) => pairs.take_out(at),
            None => {}
        }
    }

    /// Appends a pair whose name is new.
    pub(crate) fn push(&mut self, name: StoredText, value: StoredText) -> Result<(), AllocError>
        requires distinct { IsTrue (is_distinct (stored_of self.old)) }
        requires absent { has_name (stored_of self.old) (text_in name) ≡ false }
        ensures ok { OnOk result (stored_of self.new ≡ stored_of self.old ++ (text_in name, text_in value) ∷ []) }
        ensures err { OnErr result (stored_of self.new ≡ stored_of self.old) }
    {
        match &mut self.held {
            Some(pairs) => {
                pairs.push(name, value)?;
            }
            None => {
                self.held = Some(single(self.alloc, name, value)?);
            }
        }
        Ok(())
    }

    /// The pairs, in order. Takes no memory where there are none.
    pub(crate) fn into_pairs(self) -> Result<Vec<StoredPair>, AllocError>
        ensures { IfOk result (λ pairs. map attribute_in pairs.items ≡ stored_of self) }
    {
        let StoredPairs { alloc, held } = self;
        match held {
            Some(held) => {
                let pairs = Box::into_inner(held).into_pairs()?;
                Ok(pairs)
            }
            None => Ok(Vec::new(alloc)),
        }
    }

    /// Gives back all memory but that of the pairs. Takes none.
    pub(crate) fn drop_index(&mut self)
        ensures { stored_of self.new ≡ stored_of self.old }
    {
        match &mut self.held {
            Some(pairs) => pairs.drop_index(),
            None => {}
        }
    }

    /// A copy without an index. That of a list that never had a pair takes no memory.
    pub(crate) fn copy(&self) -> Result<StoredPairs, AllocError>
        requires { IsTrue (is_distinct (stored_of self.now)) }
        ensures { IfOk result (λ copy. stored_of copy ≡ stored_of self.now) }
    {
        match &self.held {
            Some(pairs) => {
                let copy = pairs.copy()?;
                let held = Box::new(self.alloc, copy)?;
                Ok(StoredPairs {
                    alloc: self.alloc,
                    held: Some(held),
                })
            }
            None => Ok(StoredPairs::none(self.alloc)),
        }
    }
}

// One pair behind a pointer.
fn single(
    alloc: Global,
    name: StoredText,
    value: StoredText,
) -> Result<Box<PairsInOrder>, AllocError>
    ensures { IfOk result (λ held. attributes_of held.value ≡ (text_in name, text_in value) ∷ []) }
{
    let mut pairs = PairsInOrder::plain(alloc);
    pairs.push(name, value)?;
    let held = Box::new(alloc, pairs)?;
    Ok(held)
}
