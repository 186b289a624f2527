//! Rows on the passes in a row: inputs with their purifications, under the defaults and under settings. There is nothing here
//! but tests; they stand apart from pur_engine, so that it isn't proved twice for them.
#![tactic(auto)]

#[cfg(test)]
mod asking;
#[cfg(test)]
mod endings;
#[cfg(test)]
mod engine;
#[cfg(test)]
mod floods;
#[cfg(test)]
mod injectors;
#[cfg(test)]
mod losses;
