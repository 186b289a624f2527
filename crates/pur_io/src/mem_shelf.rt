//! A shelf in memory, whose calls fail on order.

ghost use Rattle.std.specs.Prelude.{◌≡◌, ◌<◌, ◌≤◌, length, Some, None, option_map, string_bytes, is_err, IfOk, OnErr};
ghost use Rattle.pur_io.specs.Faults.{one_more, HasCause};
ghost use Rattle.pur_io.specs.Texts.{text_chosen, plain_name, plain_texts, ReadsAt, HasDistinctNames};
ghost use Rattle.pur_io.specs.Shelves.{MemShelfState, choice_fails, read_fails, read_count};

use crate::fault_plan::FaultPlan;
use crate::text_list::TextList;
use crate::traits::{Failed, Shelf};
use std::marker::Model;

/// A shelf in memory that gives a limited number of bytes in each call, and fails in the calls that
/// its maker names, for a name that it lacks, and for a read where no text is chosen.
#[derive(Drop)]
pub struct MemShelf {
    list: TextList,
    piece_limit: usize,
    plan: FaultPlan,
    marked: u64,
}

impl Model for MemShelf {
    ghost Value = { MemShelfState };

    ghost view = { λ s. record {
      texts = plain_texts s.list.texts.items;
      failing = s.plan.failing.items;
      most = s.piece_limit;
      number = s.plan.number;
      faults = s.plan.faults;
      chosen = option_map plain_name s.list.chosen;
      mark = s.marked;
      place = s.list.place;
    } };

    ghost invariant = { λ s. 1 ≤ s.piece_limit };
}

impl MemShelf {
    /// A shelf of these texts, by name, or none for standard input, where nothing is chosen yet. The
    /// calls whose numbers are in `failing`, counted from 1, fail. A read gives at most `most` bytes.
    pub fn new(texts: Vec<(Option<String>, Vec<u8>)>, failing: Vec<u64>, most: usize) -> MemShelf
        requires distinct { HasDistinctNames (plain_texts texts.items) }
        requires moves { 1 ≤ most }
        ensures texts { result.texts ≡ plain_texts texts.items }
        ensures failing { result.failing ≡ failing.items }
        ensures most { result.most ≡ most }
        ensures number { result.number ≡ 0 }
        ensures faults { result.faults ≡ 0 }
        ensures chosen { result.chosen ≡ None }
        ensures mark { result.mark ≡ 0 }
        ensures place { result.place ≡ 0 }
    {
        MemShelf {
            list: TextList::new(texts),
            piece_limit: most,
            plan: FaultPlan::new(failing),
            marked: 0,
        }
    }
}

impl Shelf for MemShelf {
    ghost texts = { λ s. Some s.texts };

    ghost place = { λ s. s.place };

    ghost faults = { λ s. s.faults };

    ghost chosen = { λ s. s.chosen };

    ghost mark = { λ s. s.mark };

    /// Fails exactly where the call's number is among those that are to fail, or no text has the name.
    fn choose(&mut self, name: Option<String>) -> Result<(), Failed>
        ensures texts { self.new.texts ≡ self.old.texts }
        ensures chosen { self.new.chosen ≡ Some (option_map string_bytes name) }
        ensures mark { self.new.mark ≡ self.old.faults }
        ensures place { self.new.place ≡ 0 }
        ensures cause { HasCause self.old.faults self.new.faults result }

        ensures fails { is_err result ≡ choice_fails self.old (option_map string_bytes name) }
        ensures counted { OnErr result (self.new.faults ≡ one_more self.old.faults) }
        ensures number { self.new.number ≡ one_more self.old.number }

        // How the shelf was made never changes.
        ensures failing { self.new.failing ≡ self.old.failing }
        ensures most { self.new.most ≡ self.old.most }
    {
        self.marked = self.plan.faults;
        let named = self.list.choose(name);
        if self.plan.begin() {
            return Err(self.plan.fault());
        }
        if !named {
            return Err(self.plan.fault());
        }
        Ok(())
    }

    /// Gives what is left of the text, at most as many bytes as `into` holds and one call gives. Fails
    /// exactly where the call's number is among those that are to fail, the chosen text isn't there, or
    /// nothing was chosen.
    fn read(&mut self, into: &mut [u8]) -> Result<usize, Failed>
        requires { 0 < length into.old }
        ensures bound { IfOk result (λ n. n ≤ length into.new) }
        ensures bytes { IfOk result (λ n.
            ReadsAt (text_chosen self.old.texts self.old.chosen) self.old.place self.new.place n into.new) }
        ensures err { OnErr result (self.new.place ≡ self.old.place) }
        ensures texts { self.new.texts ≡ self.old.texts }
        ensures chosen { self.new.chosen ≡ self.old.chosen }
        ensures mark { self.new.mark ≡ self.old.mark }
        ensures cause { HasCause self.old.faults self.new.faults result }

        ensures fails { is_err result ≡ read_fails self.old }
        ensures reads { IfOk result (λ n. n ≡ read_count self.old (length into.old)) }
        ensures counted { OnErr result (self.new.faults ≡ one_more self.old.faults) }
        ensures number { self.new.number ≡ one_more self.old.number }

        // How the shelf was made never changes.
        ensures failing { self.new.failing ≡ self.old.failing }
        ensures most { self.new.most ≡ self.old.most }
    {
        if self.plan.begin() {
            return Err(self.plan.fault());
        }
        if !self.list.has_chosen() {
            return Err(self.plan.fault());
        }
        Ok(self.list.read(self.piece_limit, into))
    }
}
