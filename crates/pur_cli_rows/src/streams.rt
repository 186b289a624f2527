//! Faults and rooms of the streams, sizes at their limits, and how often the streams are asked.

ghost use Rattle.std.specs.Prelude.{◌≢◌};
ghost use Rattle.pur_commands.specs.Statuses.{code_of};

use crate::noting::{NotingShelf, NotingSink};
use crate::running::{ROOM, run_from, run_over, texts_of};
use crate::words::words_of;
use pur_cli::run;
use pur_commands::Status;
use pur_io::{MemShelf, MemSink, Shelf, SureShelf, SureSink};
use std::alloc::{AllocError, Global};
use std::test::Fail;

// Whether a run of these words over this input, where the second write fails and each takes three bytes, has written this.
fn fails_behind(
    alloc: Global,
    line: Option<&str>,
    input: &[u8],
    taken: &[u8],
) -> Result<bool, AllocError> {
    let words = words_of(alloc, line)?;
    words_fail_behind(alloc, words.as_slice(), input, taken)
}

fn words_fail_behind(
    alloc: Global,
    words: &[String],
    input: &[u8],
    taken: &[u8],
) -> Result<bool, AllocError> {
    let mut shelf = MemShelf::new(texts_of(alloc, b"", input)?, Vec::new(alloc), 65_536);
    run_fails_behind(alloc, words, &mut shelf, taken)
}

fn run_fails_behind(
    alloc: Global,
    words: &[String],
    shelf: &mut MemShelf,
    taken: &[u8],
) -> Result<bool, AllocError> {
    let mut out = MemSink::new(alloc, 100, vec![in alloc; 2]?, 3)?;
    let mut err = MemSink::new(alloc, 100, Vec::new(alloc), 100)?;
    let status = run(alloc, words, shelf, &mut out, &mut err);
    let is_told = err.taken() == b"purify: cannot write\n".as_slice();
    Ok(status == 8 && out.taken() == taken && is_told)
}

#[test]
fn check_at_a_fault_of_writing(rt: HostRuntime) -> Result<(), Fail> {
    let fails = fails_behind(rt.alloc(), Some("--check"), b"<p>", b"spe")?;
    assert!(rt; fails);
    Ok(())
}

#[test]
fn fault_at_the_second_write(rt: HostRuntime) -> Result<(), Fail> {
    let fails = fails_behind(rt.alloc(), None, b"Hello", b"Hel")?;
    assert!(rt; fails);
    Ok(())
}

// Whether a run under settings that are missing answers so, and its shelf's second call is still to come.
fn asks_nothing_behind(alloc: Global) -> Result<bool, AllocError> {
    let words = words_of(alloc, Some("--settings none none"))?;
    words_ask_nothing_behind(alloc, words.as_slice())
}

fn words_ask_nothing_behind(alloc: Global, words: &[String]) -> Result<bool, AllocError> {
    let failing = vec![in alloc; 2]?;
    let mut shelf = MemShelf::new(texts_of(alloc, b"", b"")?, failing, 65_536);
    let ending = run_from(alloc, words, &mut shelf, 100)?;
    let is_second = shelf.choose(None).is_err() && shelf.choose(None).is_ok();
    Ok(ending.status == 7 && is_second)
}

// Where the settings can't be chosen, nothing is asked of the shelf afterwards.
#[test]
fn nothing_is_read_behind_missing_settings(rt: HostRuntime) -> Result<(), Fail> {
    let asks_nothing = asks_nothing_behind(rt.alloc())?;
    assert!(rt; asks_nothing);
    Ok(())
}

fn ends_without_room(alloc: Global, rules: &[u8], status: u8) -> Result<bool, AllocError> {
    let ending = run_over(alloc, Some("--settings rules"), rules, b"Hello", 0)?;
    Ok(ending.status == status)
}

#[test]
fn output_without_room(rt: HostRuntime) -> Result<(), Fail> {
    let is_accepted = ends_without_room(rt.alloc(), b"", 8)?;
    let is_refused = ends_without_room(rt.alloc(), b"=", 5)?;
    assert!(rt; is_accepted && is_refused);
    Ok(())
}

// A name, how many letters the input and how many spaces the settings have, and the status.
static SIZES: [(&str, usize, usize, u8); 5] = [
    ("an input at its limit", 1_048_576, 0, 0),
    ("an input past its limit", 1_048_577, 0, 6),
    ("settings at their limit", 1, 65_536, 0),
    ("settings past their limit", 1, 65_537, 5),
    ("both past their limits", 1_048_577, 65_537, 5),
];

fn size_ends_so(
    alloc: Global,
    letters: usize,
    spaces: usize,
    status: u8,
) -> Result<bool, AllocError> {
    let rules = vec![in alloc; b' '; spaces]?;
    let input = vec![in alloc; b'a'; letters]?;
    texts_end_so(alloc, rules.as_slice(), input.as_slice(), status)
}

fn texts_end_so(alloc: Global, rules: &[u8], input: &[u8], status: u8) -> Result<bool, AllocError> {
    let ending = run_over(alloc, Some("--settings rules"), rules, input, ROOM)?;
    let wanted = if status == 0 { input } else { b"" };
    Ok(ending.status == status && ending.out.taken() == wanted)
}

fn first_other_size(alloc: Global) -> Result<Option<&'static str>, AllocError> {
    for (name, letters, spaces, status) in &SIZES {
        if !size_ends_so(alloc, *letters, *spaces, *status)? {
            return Ok(Some(*name));
        }
    }
    Ok(None)
}

#[test]
fn sizes_at_the_limits(rt: HostRuntime) -> Result<(), Fail> {
    let other = first_other_size(rt.alloc())?;
    assert_eq!(rt; other, None);
    Ok(())
}

// Over streams that never fail the run never says that it could not read or write; this follows from contracts alone.
fn run_surely(
    alloc: Global,
    words: &[String],
    shelf: &mut SureShelf,
    out: &mut SureSink,
    err: &mut SureSink,
) -> u8
    ensures reads { result ≢ code_of Status.CannotRead }
    ensures writes { result ≢ code_of Status.CannotWrite }
{
    run(alloc, words, shelf, out, err)
}

fn ends_surely(alloc: Global) -> Result<bool, AllocError> {
    let mut shelf = SureShelf::new(texts_of(alloc, b"", b"Hello")?);
    let mut out = SureSink::new();
    let mut err = SureSink::new();
    let status = run_surely(alloc, &[], &mut shelf, &mut out, &mut err);
    Ok(status == 0 && out.given() == 5)
}

#[test]
fn sure_streams_never_fail(rt: HostRuntime) -> Result<(), Fail> {
    let ends = ends_surely(rt.alloc())?;
    assert!(rt; ends);
    Ok(())
}

// A name, the words, the settings, and how often a text is chosen.
static ASKED: [(&str, Option<&str>, &[u8], u64); 5] = [
    ("standard_input", None, b"", 1),
    ("a_named_input", Some("rules"), b"Hello", 1),
    ("settings_and_input", Some("--settings rules"), b"", 2),
    (
        "one_text_as_both",
        Some("--settings rules rules"),
        b"#Hey!",
        2,
    ),
    ("refused_settings", Some("--settings rules"), b"=", 1),
];

fn asks_so(
    alloc: Global,
    line: Option<&str>,
    rules: &[u8],
    choices: u64,
) -> Result<bool, AllocError> {
    let words = words_of(alloc, line)?;
    words_ask_so(alloc, words.as_slice(), rules, choices)
}

fn words_ask_so(
    alloc: Global,
    words: &[String],
    rules: &[u8],
    choices: u64,
) -> Result<bool, AllocError> {
    let texts = texts_of(alloc, rules, b"Hello")?;
    let mut shelf = NotingShelf::new(MemShelf::new(texts, Vec::new(alloc), 2));
    let mut out = NotingSink::new();
    let mut err = SureSink::new();
    let status = run(alloc, words, &mut shelf, &mut out, &mut err);
    let is_asked = shelf.choices == choices && shelf.reads_behind_the_end == 0;
    let is_offered = status != 0 || (out.calls == 2 && out.offered == 5 + 2);
    Ok(is_asked && is_offered)
}

fn first_other_asked(alloc: Global) -> Result<Option<&'static str>, AllocError> {
    for (name, line, rules, choices) in &ASKED {
        if !asks_so(alloc, *line, rules, *choices)? {
            return Ok(Some(*name));
        }
    }
    Ok(None)
}

// Over a pipe a text can be read once, and over a terminal an end must be typed once; a write of a piece at a time would be a
// call of the system for each.
#[test]
fn asks_no_more_than_it_must(rt: HostRuntime) -> Result<(), Fail> {
    let other = first_other_asked(rt.alloc())?;
    assert_eq!(rt; other, None);
    Ok(())
}
