//! Nesting repair: what closing can't do going forward is done looking at whole elements.
//!
//! Lists without items vanish, a table's parts come into order, and rows get bodies where bodies stand beside them.
//! `specs/` has the definition: the parts of a table, a table of its parts, and the rule by which each element is
//! repaired when its children are.
#![tactic(auto)]

mod bodies;
mod laws;
mod nesting;
mod parts;
mod permits;
mod pushing;
mod roles;
mod settled;
mod tables;

pub use laws::{
    gives_a_word, gives_all_words, gives_words, is_settling, joins_texts, keeps_allowed,
    keeps_counts, keeps_distinct, keeps_forests, keeps_free, keeps_letters, keeps_permitted,
    keeps_pictures, leaves_settled, never_more, repairs_once, valid_are_settled, words_are_letters,
    worked_examples,
};
pub use nesting::fix_nesting;
