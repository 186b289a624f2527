//! An attribute that is given out.

/// An attribute: a name and its value.
#[derive(Drop)]
pub struct Pair {
    /// The name.
    pub name: String,
    /// The value.
    pub value: String,
}
