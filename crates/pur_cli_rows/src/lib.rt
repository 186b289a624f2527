//! Rows of the program as a call: the words of its command line, its statuses and lines, checks, samples, and faults of the
//! streams. There is nothing here but tests; they stand apart so that the program isn't proved a second time for them.
#![tactic(auto)]

#[cfg(test)]
mod checks;
#[cfg(test)]
mod faults;
#[cfg(test)]
mod noting;
#[cfg(test)]
mod pieces;
#[cfg(test)]
mod program;
#[cfg(test)]
mod running;
#[cfg(test)]
mod streams;
#[cfg(test)]
mod words;
