//! Where an attribute list keeps its pairs: in a plain vector, or in one that has an index of its names beside it.
//!
//! Most tags that have attributes have one, and a `SmallVec` with one place inside needs no allocation of its own for it. A
//! second place would spare a list of two an allocation, which is a fifth of the time that it takes to make, and a third of its
//! memory; but each list of one would take half as much again, and a tree of links is full of these. A search along a few names is faster than a look-up. But a stranger can write a tag with more
//! than a hundred thousand names, where a search along all of them for each of them would take quadratic time. So a plain
//! list that has come to sixteen pairs moves all of them into the indexed form when it is to grow by another.
//!
//! The index holds as much memory as the pairs, and only a list that grows long needs it. So a copy is plain, however long
//! it is, and a list that is finished gives its index back. A plain list of more than sixteen pairs is one of these two: it
//! stays plain where a pair is added, since few are.
ghost use Rattle.std.specs.Prelude.{◌≡◌, ◌<◌, ◌++◌, [], ◌∷◌, false, length, map, remove, slice_get, Some, OnOk, OnErr, IfOk, IfSome, IfNone, IsTrue};
ghost use Rattle.std.specs.Str.{chars};
ghost use Rattle.pur_attrlist.specs.Attributes.{names_of, values_of, has_name, is_distinct};
ghost use Rattle.pur_attrlist.specs.Private.Places.{with_value_at, IsPlaceOf};
ghost use Rattle.pur_attrlist.specs.Private.Storage.{attributes_of};
ghost use Rattle.pur_attrlist.specs.Private.Stored.{text_in, attribute_in};

use crate::indexed_pairs::IndexedPairs;
use crate::stored_pair::{StoredPair, position_among};
use crate::stored_text::StoredText;
use smallvec::SmallVec;
use std::alloc::{AllocError, Global};
use std::mem;

// The most pairs that a list without an index grows to.
const FEW: usize = 16;

/// Pairs in the order in which they were put, without an index of their names or with one.
#[derive(Drop)]
pub(crate) enum PairsInOrder {
    Plain(SmallVec<StoredPair, 1>),
    Indexed(IndexedPairs),
}

impl PairsInOrder {
    /// No pairs, and no index. Takes no memory.
    pub(crate) fn plain(alloc: Global) -> PairsInOrder
        ensures { attributes_of result ≡ [] }
    {
        PairsInOrder::Plain(SmallVec::new(alloc))
    }

    // No pairs, and an index. Takes no memory.
    fn indexed(alloc: Global) -> PairsInOrder
        ensures { attributes_of result ≡ [] }
    {
        PairsInOrder::Indexed(IndexedPairs::new(alloc))
    }

    /// The allocator of the pairs.
    pub(crate) fn allocator(&self) -> Global {
        match self {
            PairsInOrder::Plain(plain) => *plain.allocator(),
            PairsInOrder::Indexed(indexed) => indexed.allocator(),
        }
    }

    /// How many pairs there are.
    pub(crate) fn len(&self) -> usize
        ensures { result ≡ length (attributes_of self.now) }
    {
        match self {
            PairsInOrder::Plain(plain) => plain.len(),
            PairsInOrder::Indexed(indexed) => indexed.len(),
        }
    }

    /// The name at a place.
    pub(crate) fn name_at(&self, at: usize) -> &str
        requires { at < length (attributes_of self.now) }
        ensures { slice_get (names_of (attributes_of self.now)) at ≡ Some (chars result.now) }
    {
        match self {
            PairsInOrder::Plain(plain) => plain.as_slice()[at].name.as_str(),
            PairsInOrder::Indexed(indexed) => indexed.name_at(at),
        }
    }

    /// The value at a place.
    pub(crate) fn value_at(&self, at: usize) -> &str
        requires { at < length (attributes_of self.now) }
        ensures { slice_get (values_of (attributes_of self.now)) at ≡ Some (chars result.now) }
    {
        match self {
            PairsInOrder::Plain(plain) => plain.as_slice()[at].value.as_str(),
            PairsInOrder::Indexed(indexed) => indexed.value_at(at),
        }
    }

    /// A place of the name.
    pub(crate) fn position(&self, name: &str) -> Option<usize>
        ensures found { IfSome result (IsPlaceOf (attributes_of self.now) (chars name.now)) }
        ensures absent { IfNone result (has_name (attributes_of self.now) (chars name.now) ≡ false) }
    {
        match self {
            PairsInOrder::Plain(plain) => position_among(plain.as_slice(), name),
            PairsInOrder::Indexed(indexed) => indexed.position(name),
        }
    }

    /// Writes a value in the place of another.
    pub(crate) fn replace(&mut self, at: usize, value: StoredText)
        requires { at < length (attributes_of self.old) }
        ensures { attributes_of self.new ≡ with_value_at (attributes_of self.old) at (text_in value) }
    {
        match self {
            PairsInOrder::Plain(plain) => plain.as_mut_slice()[at].value = value,
            PairsInOrder::Indexed(indexed) => indexed.replace(at, value),
        }
    }

    /// Takes the pair at a place out, and closes up.
    pub(crate) fn take_out(&mut self, at: usize)
        requires within { at < length (attributes_of self.old) }
        requires distinct { IsTrue (is_distinct (attributes_of self.old)) }
        ensures { attributes_of self.new ≡ remove (attributes_of self.old) at }
    {
        match self {
            PairsInOrder::Plain(plain) => {
                plain.remove(at);
            }
            PairsInOrder::Indexed(indexed) => indexed.take_out(at),
        }
    }

    /// Appends a pair whose name is new, and goes over to the indexed form where the list grows long.
    pub(crate) fn push(&mut self, name: StoredText, value: StoredText) -> Result<(), AllocError>
        requires distinct { IsTrue (is_distinct (attributes_of self.old)) }
        requires absent { has_name (attributes_of self.old) (text_in name) ≡ false }
        ensures ok { OnOk result (attributes_of self.new ≡ attributes_of self.old ++ (text_in name, text_in value) ∷ []) }
        ensures err { OnErr result (attributes_of self.new ≡ attributes_of self.old) }
    {
        self.make_room()?;
        self.put(name, value)
    }

    // Goes over to the indexed form where a plain list has come to the length from which a list that grows is long.
    fn make_room(&mut self) -> Result<(), AllocError>
        requires { IsTrue (is_distinct (attributes_of self.old)) }
        ensures { attributes_of self.new ≡ attributes_of self.old }
    {
        let grows_long = match self {
            PairsInOrder::Plain(plain) => plain.len() == FEW,
            PairsInOrder::Indexed(_) => false,
        };
        if grows_long {
            let empty = PairsInOrder::indexed(self.allocator());
            *self = self.copied_into(empty)?;
        }
        Ok(())
    }

    // Appends a pair whose name is new.
    fn put(&mut self, name: StoredText, value: StoredText) -> Result<(), AllocError>
        requires { has_name (attributes_of self.old) (text_in name) ≡ false }
        ensures ok { OnOk result (attributes_of self.new ≡ attributes_of self.old ++ (text_in name, text_in value) ∷ []) }
        ensures err { OnErr result (attributes_of self.new ≡ attributes_of self.old) }
    {
        match self {
            PairsInOrder::Plain(plain) => {
                plain.push(StoredPair { name, value })?;
            }
            PairsInOrder::Indexed(indexed) => {
                indexed.put(name, value)?;
            }
        }
        Ok(())
    }

    /// The pairs, in order. Takes memory where they stand inside.
    pub(crate) fn into_pairs(self) -> Result<Vec<StoredPair>, AllocError>
        ensures { IfOk result (λ pairs. map attribute_in pairs.items ≡ attributes_of self) }
    {
        match self {
            PairsInOrder::Plain(plain) => {
                let pairs = plain.into_vec()?;
                Ok(pairs)
            }
            PairsInOrder::Indexed(indexed) => Ok(indexed.into_pairs()),
        }
    }

    /// A plain copy, with no more room than its pairs take.
    pub(crate) fn copy(&self) -> Result<PairsInOrder, AllocError>
        requires { IsTrue (is_distinct (attributes_of self.now)) }
        ensures { IfOk result (λ copy. attributes_of copy ≡ attributes_of self.now) }
    {
        let room = SmallVec::with_capacity(self.allocator(), self.len())?;
        self.copied_into(PairsInOrder::Plain(room))
    }

    /// Gives back the index and all room that no pair takes. Takes no memory.
    pub(crate) fn drop_index(&mut self)
        ensures { attributes_of self.new ≡ attributes_of self.old }
    {
        match self {
            PairsInOrder::Plain(plain) => plain.shrink_to_fit(),
            PairsInOrder::Indexed(indexed) => {
                let empty = IndexedPairs::new(indexed.allocator());
                let mut pairs = mem::replace(indexed, empty).into_pairs();
                pairs.shrink_to_fit();
                *self = PairsInOrder::Plain(SmallVec::from_vec(pairs));
            }
        }
    }

    // A copy of each pair, put into a form that holds none.
    fn copied_into(&self, mut copy: PairsInOrder) -> Result<PairsInOrder, AllocError>
        requires distinct { IsTrue (is_distinct (attributes_of self.now)) }
        requires empty { attributes_of copy ≡ [] }
        ensures { IfOk result (λ copied. attributes_of copied ≡ attributes_of self.now) }
    {
        let alloc = self.allocator();
        for at in 0..self.len() {
            let name = StoredText::from_str(alloc, self.name_at(at))?;
            let value = StoredText::from_str(alloc, self.value_at(at))?;
            copy.put(name, value)?;
        }
        Ok(copy)
    }
}
