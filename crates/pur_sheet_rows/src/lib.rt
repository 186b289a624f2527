//! Rows on style sheets. There is nothing here but tests; they stand apart from the crate that they try, so that it isn't
//! proved twice.
#![tactic(auto)]

#[cfg(test)]
mod endings;
#[cfg(test)]
mod sheets;
