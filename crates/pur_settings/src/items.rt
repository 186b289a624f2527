//! What a list of attributes has.

use pur_names::{Attr, Element};

/// An item of a list of attributes: an attribute on each element that has it, or on one element alone.
#[derive(Clone, Copy)]
pub(crate) enum Item {
    Everywhere(Attr),
    On(Element, Attr),
}
