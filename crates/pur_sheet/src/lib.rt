//! Style sheets made safe (CSS 2.1): a sheet that touches what stands in one element of the page, and sets what a style may
//! set. Statements with `@`, rules with a selector that isn't known, and what a style may not set are left out.
#![tactic(auto)]

mod bodies;
mod comments;
mod compounds;
mod laws;
mod rules;
mod selectors;
mod sheets;
mod statements;
mod texts;

pub use bodies::{StyleSheets, styles};
pub use laws::{canonical_sheets_stay, sheets_are_canonical};
pub use sheets::{is_scope, read_sheet};
