//! What chooses the keys and the names of a settings text.

use pur_modules::Doctype;

/// The version of the table of keys that a text is written for.
#[derive(Clone, Copy)]
pub(crate) enum Version {
    One,
    Two,
}

/// What of a text chooses the keys and the names that it may have: its version and its doctype.
#[derive(Clone, Copy)]
pub(crate) struct Edition {
    pub(crate) version: Version,
    pub(crate) doctype: Doctype,
}
