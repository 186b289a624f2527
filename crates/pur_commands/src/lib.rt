//! What the program does before and behind its work: it reads the words of its command line and the settings and the
//! input that they name, writes a text whole, and tells how a run ended. `specs/` says which command the words name, what a text's
//! settings are, and what each status is called. Nothing here filters or judges.
#![tactic(auto)]

mod command;
mod output;
mod samples;
mod source;
mod status;
mod texts;
mod words;

pub use command::Command;
pub use output::{complain, write_all};
pub use samples::sample;
pub use source::{Source, read_source};
pub use status::Status;
pub use texts::Intake;
pub use words::read_words;
