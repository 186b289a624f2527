//! Many pairs, with an index that has the place of each name.
//!
//! The index is an ordered map and no hash table: the hash of std's tables has a fixed seed, so that a stranger could
//! choose names that all fall together, and each search would go along all of them.

ghost use Rattle.std.specs.Prelude.{◌≡◌, ◌<◌, ◌++◌, [], ◌∷◌, true, false, List, ℕ, length, map, remove, slice_get, Some, OnOk, OnErr, IfSome, IfNone, IsTrue};
ghost use Rattle.std.specs.Option.{option_map};
ghost use Rattle.std.specs.Str.{chars};
ghost use Rattle.std.specs.BTreeMap.{get_by_text};
ghost use Rattle.pur_attrlist.specs.Attributes.{names_of, values_of, has_name, is_distinct};
ghost use Rattle.pur_attrlist.specs.Private.Places.{with_value_at, IsPlaceOf, moved_down};
ghost use Rattle.pur_attrlist.specs.Private.Stored.{text_in, attribute_in};

use crate::stored_pair::StoredPair;
use crate::stored_text::StoredText;
use std::alloc::{AllocError, Global};
use std::collections::BTreeMap;
use std::marker::Model;

/// Pairs in the order in which they were put, and the place of each name.
#[derive(Drop)]
pub(crate) struct IndexedPairs {
    pairs: Vec<StoredPair>,
    places: BTreeMap<String, usize>,
}

impl Model for IndexedPairs {
    ghost use Rattle.std.specs.Prelude.{List, map};
    ghost use Rattle.pur_attrlist.specs.Attributes.{Attribute};
    ghost use Rattle.pur_attrlist.specs.Private.Index.{IsIndexOf};
    ghost use Rattle.pur_attrlist.specs.Private.Stored.{attribute_in};

    ghost Value = { List Attribute };

    ghost view = { λ list. map attribute_in list.pairs.items };

    ghost invariant = { λ list. IsIndexOf list.places (map attribute_in list.pairs.items) };
}

impl IndexedPairs {
    /// No pairs. Takes no memory.
    pub(crate) fn new(alloc: Global) -> IndexedPairs
        ensures { result ≡ [] }
    {
        IndexedPairs {
            pairs: Vec::new(alloc),
            places: BTreeMap::new(alloc),
        }
    }

    /// The allocator of the pairs.
    pub(crate) fn allocator(&self) -> Global {
        *self.pairs.allocator()
    }

    /// How many pairs there are.
    pub(crate) fn len(&self) -> usize
        ensures { result ≡ length self.now }
    {
        self.pairs.len()
    }

    /// The name at a place.
    pub(crate) fn name_at(&self, at: usize) -> &str
        requires { at < length self.now }
        ensures { slice_get (names_of self.now) at ≡ Some (chars result.now) }
    {
        self.pairs[at].name.as_str()
    }

    /// The value at a place.
    pub(crate) fn value_at(&self, at: usize) -> &str
        requires { at < length self.now }
        ensures { slice_get (values_of self.now) at ≡ Some (chars result.now) }
    {
        self.pairs[at].value.as_str()
    }

    /// The place of the name.
    pub(crate) fn position(&self, name: &str) -> Option<usize>
        ensures found { IfSome result (IsPlaceOf self.now (chars name.now)) }
        ensures absent { IfNone result (has_name self.now (chars name.now) ≡ false) }
    {
        self.places.get(name).copied()
    }

    /// Writes a value in the place of another.
    pub(crate) fn replace(&mut self, at: usize, value: StoredText)
        requires { at < length self.old }
        ensures { self.new ≡ with_value_at self.old at (text_in value) }
    {
        self.pairs[at].value = value;
    }

    /// Takes the pair at a place out, and closes up.
    pub(crate) fn take_out(&mut self, at: usize)
        requires within { at < length self.old }
        requires distinct { IsTrue (is_distinct self.old) }
        ensures { self.new ≡ remove self.old at }
    {
        let pair = self.pairs.remove(at);
        self.places.remove(pair.name.as_str());
        move_down(&mut self.places, at);
    }

    /// The pairs, without their index.
    pub(crate) fn into_pairs(self) -> Vec<StoredPair>
        ensures { map attribute_in result.items ≡ self }
    {
        let IndexedPairs { pairs, .. } = self;
        pairs
    }

    /// Appends a pair whose name is new.
    pub(crate) fn put(&mut self, name: StoredText, value: StoredText) -> Result<(), AllocError>
        requires { has_name self.old (text_in name) ≡ false }
        ensures ok { OnOk result (self.new ≡ self.old ++ (text_in name, text_in value) ∷ []) }
        ensures err { OnErr result (self.new ≡ self.old) }
    {
        let key = String::from_str(self.allocator(), name.as_str())?;
        self.pairs.reserve(1)?;
        let place = self.pairs.len();
        self.places.insert(key, place)?;
        self.pairs.push_reserved(StoredPair { name, value });
        Ok(())
    }
}

// The places behind one that is gone move down by one.
fn move_down(places: &mut BTreeMap<String, usize>, gone: usize)
    ensures { (name : List ℕ) → get_by_text places.new name ≡ option_map (moved_down gone) (get_by_text places.old name) }
{
    places.retain(
        |_name: &String, place: &mut usize| -> bool
            ensures { (result ≡ true) × (place.new ≡ moved_down gone place.old) }
        {
            if *place > gone {
                *place -= 1;
            }
            true
        },
    );
}
