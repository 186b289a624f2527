//! Rows on values: the tokens of styles, the values of attributes by their kinds, and the properties of styles. There is
//! nothing here but tests; they stand apart from the crates that they try, so that none of these is proved twice.
#![tactic(auto)]

#[cfg(test)]
mod cssprops;
#[cfg(test)]
mod csstok;
#[cfg(test)]
mod endings;
#[cfg(test)]
mod values;
