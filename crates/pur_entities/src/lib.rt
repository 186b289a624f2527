//! Character references: the named characters of XHTML 1.0, and the text that a text with references such as `&copy;`,
//! `&#169;` and `&#xA9;` stands for.
#![tactic(auto)]

mod entities;
mod laws;
mod references;

pub use entities::lookup;
pub use laws::{
    decoded_is_allowed, escaped_is_decoded, named_is_allowed, plain_is_kept, reference_is_read,
};
pub use references::{decode, decode_onto};
