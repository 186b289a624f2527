//! A shelf in memory that never fails.

ghost use Rattle.std.specs.Prelude.{◌≡◌, ◌<◌, ◌≤◌, min, length, Some, None, option_map, string_bytes, IsOk, IfOk};
ghost use Rattle.pur_io.specs.Texts.{text_chosen, plain_name, plain_texts, ReadsAt, HasDistinctNames};
ghost use Rattle.pur_io.specs.Shelves.{SureShelfState, left_of};

use crate::text_list::TextList;
use crate::traits::{Failed, Shelf};
use std::marker::Model;

/// A shelf in memory that never fails, also not for a name that it lacks or a read before any choice:
/// the text is then the empty one.
#[derive(Drop)]
pub struct SureShelf {
    list: TextList,
}

impl Model for SureShelf {
    ghost Value = { SureShelfState };

    ghost view = { λ s. record {
      texts = plain_texts s.list.texts.items;
      chosen = option_map plain_name s.list.chosen;
      place = s.list.place;
    } };
}

impl SureShelf {
    /// A shelf of these texts, by name, or none for standard input, where nothing is chosen yet.
    pub fn new(texts: Vec<(Option<String>, Vec<u8>)>) -> SureShelf
        requires { HasDistinctNames (plain_texts texts.items) }
        ensures texts { result.texts ≡ plain_texts texts.items }
        ensures chosen { result.chosen ≡ None }
        ensures place { result.place ≡ 0 }
    {
        SureShelf {
            list: TextList::new(texts),
        }
    }
}

impl Shelf for SureShelf {
    ghost texts = { λ s. Some s.texts };

    ghost place = { λ s. s.place };

    ghost faults = { λ _. 0 };

    ghost chosen = { λ s. s.chosen };

    ghost mark = { λ _. 0 };

    /// Never fails.
    fn choose(&mut self, name: Option<String>) -> Result<(), Failed>
        ensures texts { self.new.texts ≡ self.old.texts }
        ensures chosen { self.new.chosen ≡ Some (option_map string_bytes name) }
        ensures place { self.new.place ≡ 0 }
        ensures sure { IsOk result }
    {
        let _ = self.list.choose(name);
        Ok(())
    }

    /// Gives what is left of the text, at most as many bytes as `into` holds. Never fails.
    fn read(&mut self, into: &mut [u8]) -> Result<usize, Failed>
        requires { 0 < length into.old }
        ensures bound { IfOk result (λ n. n ≤ length into.new) }
        ensures bytes { IfOk result (λ n.
            ReadsAt (text_chosen self.old.texts self.old.chosen) self.old.place self.new.place n into.new) }
        ensures texts { self.new.texts ≡ self.old.texts }
        ensures chosen { self.new.chosen ≡ self.old.chosen }
        ensures sure { IsOk result }
        ensures reads { IfOk result (λ n.
            n ≡ min (left_of (text_chosen self.old.texts self.old.chosen) self.old.place) (length into.old)) }
    {
        Ok(self.list.read(into.len(), into))
    }
}
