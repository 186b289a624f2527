//! The program `purify`: it hands the words of its command line and the real streams to `run`.
#![tactic(auto)]

use pur_cli::{Status, run};
use pur_io::{FileShelf, StdSink};
use std::env;
use std::io::ErrorKind;
use std::process::ExitCode;

// The status where the words can't be taken for another cause than want of memory, as where one isn't UTF-8.
const NO_WORDS: u8 = 11;

fn main(rt: HostRuntime) -> ExitCode {
    let words = match words_of(&rt) {
        Ok(words) => words,
        Err(status) => return ExitCode::from(status),
    };
    let mut shelf = FileShelf::new(&rt, rt.stdin());
    let mut out = StdSink::new(rt.stdout());
    let mut err = StdSink::new(rt.stderr());
    ExitCode::from(run(rt.alloc(), words.as_slice(), &mut shelf, &mut out, &mut err))
}

// The words of the command line without the program's name, or the status that the program ends with.
fn words_of(rt: &HostRuntime) -> Result<Vec<String>, u8> {
    let all = match env::args(rt) {
        Ok(all) => all,
        Err(error) if error.kind() == ErrorKind::OutOfMemory => return Err(
            Status::OutOfMemory.code(),
        ),
        Err(_) => return Err(NO_WORDS),
    };
    let mut words: Vec<String> = match all.collect(rt.alloc()) {
        Ok(words) => words,
        Err(_) => return Err(Status::OutOfMemory.code()),
    };
    if !words.is_empty() {
        words.remove(0);
    }
    Ok(words)
}
