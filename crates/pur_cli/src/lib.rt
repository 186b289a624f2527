//! The program as one call over the world outside: it reads the words of its command line and what they name, and then filters the
//! input and writes the fragment, or checks whether it is one and writes that, or makes its style sheets safe and writes them, or
//! tells the numbers of a sample. `specs/` says which answer a command has: its status and its text.
#![tactic(auto)]

mod answer;
mod checking;
mod laws;
mod program;
mod purifying;
mod sampling;
mod sheeting;

pub use laws::verdicts_exclude;
pub use program::run;
pub use pur_commands::{Command, Status, read_words, sample};
