//! The engine: the passes of the filter in a row. `specs/` says what the purification of an input is, what becomes of its text,
//! and what is said of all purifications.
#![tactic(auto)]

mod fragments;
mod laws;
mod passes;
mod reading;

pub use laws::{
    attributes_leave_good, closing_leaves_good, good_is_kept, good_reaches_injectors, good_stays,
    nesting_leaves_good, purified_adds_no_text, purified_is_good, purified_keeps_ledger,
    purified_once, removal_leaves_good, spelled_is_cleaned, spelled_is_read,
};
pub use passes::{purify, purify_text};
pub use reading::tokens;
