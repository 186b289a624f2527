//! Runs over streams in memory, and rows that tell how they end.

ghost use Rattle.std.specs.Prelude.{IfOk};
ghost use Rattle.pur_io.specs.Texts.{plain_texts, HasDistinctNames};

use crate::words::words_of;
use pur_cli::run;
use pur_io::{MemShelf, MemSink};
use std::alloc::{AllocError, Global};

// The room of a sink that takes all.
pub(crate) const ROOM: usize = 2_000_000;

// Standard input with these bytes, and a file `rules` with others.
pub(crate) fn texts_of(
    alloc: Global,
    rules: &[u8],
    input: &[u8],
) -> Result<Vec<(Option<String>, Vec<u8>)>, AllocError>
    ensures { IfOk result (λ texts. HasDistinctNames (plain_texts texts.items)) }
{
    let input = Vec::from_slice(alloc, input)?;
    let rules = Vec::from_slice(alloc, rules)?;
    let name = String::from_str(alloc, "rules")?;
    Ok(vec![in alloc; (None, input), (Some(name), rules)]?)
}

// How a run ended: its status, and what standard output and standard error took.
#[derive(Drop)]
pub(crate) struct Ending {
    pub(crate) status: u8,
    pub(crate) out: MemSink,
    pub(crate) err: MemSink,
}

// A run of these words over standard input and a file `rules`, where standard output has so much room.
pub(crate) fn run_over(
    alloc: Global,
    line: Option<&str>,
    rules: &[u8],
    input: &[u8],
    room: usize,
) -> Result<Ending, AllocError> {
    let words = words_of(alloc, line)?;
    run_words(alloc, words.as_slice(), rules, input, room)
}

fn run_words(
    alloc: Global,
    words: &[String],
    rules: &[u8],
    input: &[u8],
    room: usize,
) -> Result<Ending, AllocError> {
    let mut shelf = MemShelf::new(texts_of(alloc, rules, input)?, Vec::new(alloc), 65_536);
    run_from(alloc, words, &mut shelf, room)
}

pub(crate) fn run_from(
    alloc: Global,
    words: &[String],
    shelf: &mut MemShelf,
    room: usize,
) -> Result<Ending, AllocError> {
    let mut out = MemSink::new(alloc, room, Vec::new(alloc), ROOM)?;
    let mut err = MemSink::new(alloc, 100, Vec::new(alloc), 100)?;
    let status = run(alloc, words, shelf, &mut out, &mut err);
    Ok(Ending { status, out, err })
}

// A run: its name, its words, the file `rules` and standard input; and how it ends: its status, what it writes and what it says.
pub(crate) type Row = (
    &'static str,
    Option<&'static str>,
    &'static [u8],
    &'static [u8],
    u8,
    &'static [u8],
    &'static str,
);

// The name of the first row that ends in another way.
pub(crate) fn first_other(alloc: Global, rows: &[Row]) -> Result<Option<&'static str>, AllocError> {
    for row in rows {
        if !ends_as_told(alloc, row)? {
            return Ok(Some(row.0));
        }
    }
    Ok(None)
}

fn ends_as_told(alloc: Global, row: &Row) -> Result<bool, AllocError> {
    let (_, line, rules, input, status, out, err) = row;
    let ending = run_over(alloc, *line, rules, input, ROOM)?;
    Ok(is_ending(&ending, *status, out, err))
}

// Whether a run ended with this status, has written this and said this.
pub(crate) fn is_ending(ending: &Ending, status: u8, out: &[u8], err: &str) -> bool {
    ending.status == status && ending.out.taken() == out && ending.err.taken() == err.as_bytes()
}
