//! Cuts a text into its tokens: texts with their references read, tags with their attributes, comments, and what `script`
//! and `style` hide. The rows are in pur_token_rows.
#![tactic(auto)]

mod attributes;
mod constructs;
mod laws;
mod lexing;
mod places;

pub use laws::{tokens_are_allowed, tokens_are_distinct, tokens_are_joined, written_is_read};
pub use lexing::{Lexer, lex};
