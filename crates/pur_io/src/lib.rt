//! What the program asks of the world outside, as two traits that contracts can speak of: a
//! [`Shelf`] gives the bytes of named texts and of standard input, and a [`Sink`] takes bytes. Each
//! counts its faults, so that every failure of a program over them has a cause that a contract can
//! name. They are served by memory with faults on order ([`MemShelf`], [`MemSink`]), by memory that
//! never fails ([`SureShelf`], [`SureSink`]), and by files and the standard streams ([`FileShelf`], [`StdSink`]).
#![tactic(auto)]

mod fault_plan;
mod file_shelf;
mod mem_shelf;
mod mem_sink;
mod std_sink;
mod sure_shelf;
mod sure_sink;
mod text_list;
mod traits;

pub use file_shelf::FileShelf;
pub use mem_shelf::MemShelf;
pub use mem_sink::MemSink;
pub use std_sink::StdSink;
pub use sure_shelf::SureShelf;
pub use sure_sink::SureSink;
pub use traits::{Failed, Shelf, Sink};
