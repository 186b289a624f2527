//! The attributes of a tag.

ghost use Rattle.std.specs.Prelude.{◌≡◌, ◌^◌, ◌-◌, ◌<◌, ◌↔◌, min, [], map, not, length, slice_get, Some, IsTrue, OnOk, OnErr, IfOk};
ghost use Rattle.std.specs.Option.{option_map};
ghost use Rattle.std.specs.Str.{chars};
ghost use Rattle.pur_attrlist.specs.Texts.{text_of};
ghost use Rattle.pur_attrlist.specs.Pairs.{attribute_of};
ghost use Rattle.pur_attrlist.specs.Private.Stored.{attribute_in};
ghost use Rattle.pur_attrlist.specs.Attributes.{names_of, values_of, has_name, is_distinct, value_of, with_value, with_new, without, weight_of};

use crate::pair::Pair;
use crate::stored_pair::StoredPair;
use crate::stored_pairs::StoredPairs;
use crate::stored_text::StoredText;
use std::alloc::{AllocError, Global};
use std::marker::Model;

/// The attributes of a tag: pairs of a name and a value in the order of their coming, no two with the same name.
///
/// Names are compared to the letter; callers lower them first. The list grows by allocations, and its calls that have
/// no `Result` take no memory. A list that grows long has an index of its names. Where it has none, each search goes along
/// all names; so a long copy and a long list that gave its index back are for a few searches and a few new pairs, and no
/// index is built for these.
///
/// Source: XML 1.0, section 3.1.
#[derive(Drop)]
pub struct AttrList {
    pairs: StoredPairs,
}

impl Model for AttrList {
    ghost use Rattle.std.specs.Prelude.{List, IsTrue};
    ghost use Rattle.pur_attrlist.specs.Attributes.{Attribute, is_distinct};
    ghost use Rattle.pur_attrlist.specs.Private.Storage.{stored_of};

    ghost Value = { List Attribute };

    ghost view = { λ list. stored_of list.pairs };

    ghost invariant = { λ list. IsTrue (is_distinct (stored_of list.pairs)) };
}

impl AttrList {
    /// An empty list. It takes no memory until a pair is added.
    pub fn new(alloc: Global) -> AttrList
        ensures { result ≡ [] }
    {
        AttrList {
            pairs: StoredPairs::none(alloc),
        }
    }

    /// How many attributes there are.
    pub fn len(&self) -> usize
        ensures len { result ≡ length self.now }
        ensures distinct { IsTrue (is_distinct self.now) }
    {
        self.pairs.len()
    }

    /// Whether there are no attributes.
    pub fn is_empty(&self) -> bool
        ensures { IsTrue result ↔ (length self.now ≡ 0) }
    {
        self.pairs.len() == 0
    }

    /// The name of the attribute at a place, counted from 0.
    pub fn name_at(&self, at: usize) -> &str
        requires { at < length self.now }
        ensures { slice_get (names_of self.now) at ≡ Some (chars result.now) }
    {
        self.pairs.name_at(at)
    }

    /// The value of the attribute at a place, counted from 0.
    pub fn value_at(&self, at: usize) -> &str
        requires { at < length self.now }
        ensures { slice_get (values_of self.now) at ≡ Some (chars result.now) }
    {
        self.pairs.value_at(at)
    }

    /// The value of the attribute of this name.
    pub fn get(&self, name: &str) -> Option<&str>
        ensures { option_map (λ value. chars value.now) result ≡ value_of self.now (chars name.now) }
    {
        match self.pairs.position(name) {
            Some(at) => Some(self.pairs.value_at(at)),
            None => None,
        }
    }

    /// Gives the attribute of this name a value, in its place, or appends a new pair.
    ///
    /// Fails only where memory is wanting, and the list is then as it was.
    pub fn set(&mut self, name: &str, value: &str) -> Result<(), AllocError>
        ensures ok { OnOk result (self.new ≡ with_value self.old (chars name.now) (chars value.now)) }
        ensures err { OnErr result (self.new ≡ self.old) }
    {
        let alloc = self.pairs.allocator();
        let value = StoredText::from_str(alloc, value)?;
        match self.pairs.position(name) {
            Some(at) => {
                self.pairs.replace(at, value);
                Ok(())
            }
            None => {
                let name = StoredText::from_str(alloc, name)?;
                self.pairs.push(name, value)?;
                Ok(())
            }
        }
    }

    /// Appends a pair and answers true, if its name is new. Otherwise the list stays, and the answer is false.
    ///
    /// Fails only where memory is wanting, and the list is then as it was.
    pub fn push_if_new(&mut self, name: String, value: String) -> Result<bool, AllocError>
        ensures new { IfOk result (λ is_new. is_new ≡ not (has_name self.old (text_of name))) }
        ensures ok { OnOk result (self.new ≡ with_new self.old (text_of name) (text_of value)) }
        ensures err { OnErr result (self.new ≡ self.old) }
    {
        match self.pairs.position(name.as_str()) {
            Some(_) => Ok(false),
            None => {
                let alloc = self.pairs.allocator();
                let name = StoredText::from_string(alloc, name)?;
                let value = StoredText::from_string(alloc, value)?;
                self.pairs.push(name, value)?;
                Ok(true)
            }
        }
    }

    /// Takes the attribute of this name out and closes up, and answers whether there was one.
    ///
    /// Takes time in proportion to the length of the list.
    pub fn remove(&mut self, name: &str) -> bool
        ensures had { result ≡ has_name self.old (chars name.now) }
        ensures rest { self.new ≡ without self.old (chars name.now) }
    {
        match self.pairs.position(name) {
            Some(at) => {
                self.pairs.take_out(at);
                true
            }
            None => false,
        }
    }

    /// All attributes in order, taken out at once, for a list that is made anew. Fails only where memory is wanting; an
    /// empty list takes none.
    pub fn into_pairs(self) -> Result<Vec<Pair>, AllocError>
        ensures pairs { IfOk result (λ pairs. map attribute_of pairs.items ≡ self) }
        ensures distinct { IsTrue (is_distinct self) }
    {
        let AttrList { pairs } = self;
        let alloc = pairs.allocator();
        let pairs = taken_out(alloc, pairs.into_pairs()?)?;
        Ok(pairs)
    }

    /// Gives back the index and all room that no pair takes, for a list that is finished.
    pub fn drop_index(&mut self)
        ensures { self.new ≡ self.old }
    {
        self.pairs.drop_index();
    }

    /// An equal list. Fails only where memory is wanting.
    pub fn copy(&self) -> Result<AttrList, AllocError>
        ensures { IfOk result (λ copy. copy ≡ self.now) }
    {
        let pairs = self.pairs.copy()?;
        Ok(AttrList { pairs })
    }

    /// The bytes of all names and values, or 2^64 - 1 where they are more.
    pub fn weight(&self) -> u64
        ensures { result ≡ min (weight_of self.now) (2 ^ 64 - 1) }
    {
        let mut weight = 0u64;
        for at in 0..self.pairs.len() {
            weight = weight
                .saturating_add(self.pairs.name_at(at).len() as u64)
                .saturating_add(self.pairs.value_at(at).len() as u64);
        }
        weight
    }
}

// The pairs as they are given out.
fn taken_out(alloc: Global, stored: Vec<StoredPair>) -> Result<Vec<Pair>, AllocError>
    ensures { IfOk result (λ pairs. map attribute_of pairs.items ≡ map attribute_in stored.items) }
{
    let mut pairs = Vec::with_capacity(alloc, stored.len())?;
    for pair in stored {
        pairs.push(pair.into_pair(alloc)?)?;
    }
    Ok(pairs)
}
