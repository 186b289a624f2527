//! What is valid, and what is good: which nodes are valid under settings, which bytes are the spelling of valid nodes, and
//! what the value of an attribute is read as.
//!
//! The definitions stand on names, nodes, content models, values, URIs, styles and settings alone, and share nothing with the
//! passes of the filter. What is valid of attributes (`specs/Attributes.antt`) is part of validity. [`read_attribute`] is the one
//! reading of a value: the pass on attributes keeps what it gives, and the judge asks whether a value is its own reading.
//! The laws say that tests which compute decide what is valid, and what they find in worked examples.
#![tactic(auto)]

mod laws;
mod reading;

pub use laws::{
    attribute_examples, attributes_are_decided, form_examples, validity_is_decided, worked_examples,
};
pub use reading::{Reading, read_attribute};
