//! Rows on what all else stands on: characters and hosts, names and tables of the standards, words of content kinds,
//! references, attribute lists, and the world outside in memory and over streams. There is nothing here but tests; they
//! stand apart from the crates that they try, so that none of these is proved twice.
#![tactic(auto)]

#[cfg(test)]
mod endings;
#[cfg(test)]
mod entities;
#[cfg(test)]
mod feeding;
#[cfg(test)]
mod forms;
#[cfg(test)]
mod io;
#[cfg(test)]
mod models;
#[cfg(test)]
mod modules;
#[cfg(test)]
mod text;
#[cfg(test)]
mod tokens;
