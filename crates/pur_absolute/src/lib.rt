//! Fragments whose URIs are absolute, and allowed by a site's own rule.
//!
//! Each URI of a forest is replaced by what it means where the base is; what the site's rule doesn't allow goes, and an element
//! that must have it goes with it. The rows are in pur_absolute_rows.
#![tactic(auto)]

mod attributes;
mod forests;
mod laws;
mod styles;

pub use forests::absolute;
pub use laws::{absolute_stays, keeps_nodes, valid_stays, worked_examples};
