//! The names of the standards as enums: elements and attributes of XHTML 1.0, properties of CSS 2.1, schemes of URIs.
//! Each enum has a look-up from a name and the name of a variant, proved inverse to each other here once, so that
//! no other crate compares names as texts.

#![tactic(auto)]

mod attributes;
mod elements;
mod properties;
mod schemes;

pub use attributes::Attr;
pub use elements::Element;
pub use properties::StyleProp;
pub use schemes::SchemeName;
