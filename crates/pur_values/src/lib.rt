//! The values of attributes: each is read by the kind of its attribute into one canonical text, or not at all. What a
//! reader gives is read as itself again, so a document whose values are canonical stays as it is.
#![tactic(auto)]

mod choices;
mod colors;
mod kinds;
mod laws;
mod numbers;
mod reading;
mod tokens;
mod words;

pub use kinds::{ValueKind, kind_of};
pub use laws::{canonical_is_read_as_itself, values_are_allowed};
pub use reading::read_value;
