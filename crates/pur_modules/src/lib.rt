//! The vocabulary of the filter's rules: which content an element holds, which children and wrappers a content has,
//! which elements exclude which, and which attributes an element has, for XHTML 1.0 Strict and Transitional. Each call
//! answers from a fixed table and takes no memory; the tables are proved here once to be those of the definitions, so
//! that no later law goes over the elements one by one.

#![tactic(auto)]

mod attribute_lists;
mod exclusions;
mod groups;
mod kinds;
mod tables;
mod wrappers;

pub use attribute_lists::{attributes, is_outside_forms, required};
pub use exclusions::{Excluders, excludes};
pub use groups::{is_block, is_edit, is_inline, is_of_forms};
pub use kinds::{Child, Content, Doctype, content_of, declares, is_declared_empty};
pub use tables::{allows, children, text_allowed};
pub use wrappers::implied;
