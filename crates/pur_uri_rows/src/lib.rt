//! Rows of URIs: what pur_uri reads and writes, and what the policy of pur_uripolicy admits. There is nothing here but tests;
//! they stand in a crate of their own, so that the crates that they try aren't proved twice for them.
#![tactic(auto)]

#[cfg(test)]
mod gate;
#[cfg(test)]
mod site;
#[cfg(test)]
mod uri;
