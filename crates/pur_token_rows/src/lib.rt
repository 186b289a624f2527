//! Rows of tokens: what the lexer reads and what removal leaves, in one notation. There is nothing here but tests; they stand
//! in a crate of their own so that one notation serves all of them, and the passes aren't proved twice for them.
#![tactic(auto)]

#[cfg(test)]
mod lexing;
#[cfg(test)]
mod notation;
#[cfg(test)]
mod removing;
