//! The removal of foreign elements: what has no place in the output goes, and in Strict the elements that Transitional
//! alone has give way to others with a style. `specs/` says what stands for each token.
//! The rows are in pur_token_rows.
#![tactic(auto)]

mod laws;
mod removal;
mod strict;

pub use laws::{
    kept_is_joined, kept_is_permitted, kept_pictures_have_sources, permitted_stays,
    removal_keeps_allowed, removal_keeps_distinct, removal_keeps_texts,
};
pub use removal::{Removal, remove_foreign};
