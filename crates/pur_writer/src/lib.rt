//! Writes a forest out: the one spelling of its nodes, as UTF-8. An element is its start tag, its children and its end
//! tag, an element declared EMPTY one tag that ends in ` />`. Attributes stand in their order, with their values between
//! quotation marks. In a text `&`, `<` and `>` are written as references, and in a value `"` too, so that no tag, no
//! value and no reference begins or ends there; every other character stands for itself.
#![tactic(auto)]

mod attributes;
mod escaping;
mod writing;

pub use writing::write;
