//! Which nodes bytes spell, and whether nodes are valid.
//!
//! `read_fragment` tells which nodes bytes spell, and `valid` whether nodes are valid (pur_validity says what that is), in walks that
//! no pass of the filter shares, and no pass stands on this crate; `specs/Private/` has what only serves their proofs.
#![tactic(auto)]

mod cuts;
mod escapes;
mod laws;
mod reading;
mod tags;
mod validity;
mod values;
mod words;

pub use laws::spelling_is_unique;
pub use reading::read_fragment;
pub use validity::valid;
