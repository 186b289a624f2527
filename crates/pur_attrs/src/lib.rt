//! The attributes of elements: those that are declared, permitted and read are kept with what their values are read as,
//! ids get the site's prefix and stand once in a document, and what is missing is put in.
//!
//! `specs/` has the definition: what becomes of the attributes of one element, and of the ids of a document as one list.
#![tactic(auto)]

mod completing;
mod ids;
mod keeping;
mod laws;
mod names;
mod strict;
mod validating;

pub use laws::{
    gives_spellable, gives_valid_attributes, keeps_counts, keeps_distinct, keeps_forests,
    keeps_free, keeps_nodes, keeps_permitted, keeps_words, leaves_valid, worked_examples,
};
pub use validating::validate;
