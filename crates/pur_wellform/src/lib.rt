//! Closing: tokens become a well-formed forest.
#![tactic(auto)]

mod closing;
mod laws;
mod machine;
mod open_elements;
mod reading;
mod reopening;
mod search;
mod steps;

pub use closing::{Closing, make_wellformed};
pub use laws::{
    closed_as_itself, closed_has_tree, closed_is_allowed, closed_is_forest, closed_keeps_distinct,
    closed_keeps_pictures, closed_ledger, closed_stands, every_prefix_is_good, few_are_pending,
    is_closed_stands, pays_little, stands_closed, worked_examples,
};
