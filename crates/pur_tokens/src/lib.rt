//! Tokens of HTML: as they are read, by name, and as they are shown, by element; and the joining of texts that are neighbours.

#![tactic(auto)]

mod joiner;
mod laws;
mod shown;
mod tokens;

pub use joiner::{Joiner, Joins};
pub use laws::{joined_have_no_neighbours, joining_keeps_texts, joining_settles};
pub use shown::{Shown, ShownTag};
pub use tokens::{Tag, Token};
