//! Rows on trees: how they are built, closed, repaired, written, and read back and judged. There is nothing here but tests;
//! they stand apart from the crates that they try, so that none of these is proved twice.
#![tactic(auto)]

#[cfg(test)]
mod endings;
#[cfg(test)]
mod nesting;
#[cfg(test)]
mod reader;
#[cfg(test)]
mod tree;
#[cfg(test)]
mod wellform;
#[cfg(test)]
mod writer;
