//! Rows of fragments whose URIs are absolute. There is nothing here but tests; they stand in a crate of their own, so that the
//! crate that they try isn't proved twice for them.
#![tactic(auto)]

#[cfg(test)]
mod fragments;
