//! References made absolute: the base that a person names, and what a reference means there (RFC 3986, section 5).
//! The rows are in pur_resolve_rows.
#![tactic(auto)]

mod base;
mod dots;
mod laws;
mod resolving;

pub use base::{Base, base_is_absolute, read_base};
pub use laws::{resolved_is_canonical, resolving_settles};
pub use resolving::resolve;
