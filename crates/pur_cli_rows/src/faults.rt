//! Each call of a stream failing in turn, over one short input.

ghost use Rattle.std.specs.Prelude.{◌≤◌};

use crate::running::texts_of;
use crate::words::words_of;
use pur_cli::run;
use pur_io::{MemShelf, MemSink};
use std::alloc::{AllocError, Global};
use std::test::Fail;

static INPUT: &[u8] = b"<b>1<p>2</p>3</b>";

// What comes out of it: 31 bytes.
static OUTPUT: &[u8] = b"<b>1</b><p><b>2</b></p><b>3</b>";

// Settings and the status of a run under them whose line can't be written.
static LINES: [(&[u8], u8); 3] = [(b"=", 5), (b"colour = 1", 5), (b"", 0)];

// Whether a run ends with this status and has written so many bytes of the output.
fn ends_so(
    alloc: Global,
    shelf: &mut MemShelf,
    out: &mut MemSink,
    status: u8,
    count: usize,
) -> Result<bool, AllocError> {
    let words = words_of(alloc, None)?;
    let mut err = MemSink::new(alloc, 100, Vec::new(alloc), 100)?;
    let ended = run(alloc, words.as_slice(), shelf, out, &mut err);
    let taken = out.taken();
    Ok(ended == status && taken.len() == count && OUTPUT.starts_with(taken))
}

fn writing_ends_so(
    alloc: Global,
    call: u64,
    most: usize,
    status: u8,
    count: usize,
) -> Result<bool, AllocError>
    requires { 1 ≤ most }
{
    let mut shelf = MemShelf::new(texts_of(alloc, b"", INPUT)?, Vec::new(alloc), 65_536);
    let mut out = MemSink::new(alloc, 100, vec![in alloc; call]?, most)?;
    ends_so(alloc, &mut shelf, &mut out, status, count)
}

// The first call of standard output, which takes so many bytes a call, that fails and doesn't end the run with what was taken before.
// No call is left where all was taken.
fn first_other_write(alloc: Global, most: usize) -> Result<Option<u64>, AllocError>
    requires { 1 ≤ most }
{
    let mut before: usize = 0;
    for call in 1..40 {
        let is_whole = before >= OUTPUT.len();
        let status = if is_whole { 0 } else { 8 };
        let count = if is_whole { OUTPUT.len() } else { before };
        if !writing_ends_so(alloc, call, most, status, count)? {
            return Ok(Some(call));
        }
        before = before.saturating_add(most);
    }
    Ok(None)
}

fn reading_ends_so(
    alloc: Global,
    call: u64,
    most: usize,
    status: u8,
    count: usize,
) -> Result<bool, AllocError>
    requires { 1 ≤ most }
{
    let mut shelf = MemShelf::new(texts_of(alloc, b"", INPUT)?, vec![in alloc; call]?, most);
    let mut out = MemSink::new(alloc, 100, Vec::new(alloc), 100)?;
    ends_so(alloc, &mut shelf, &mut out, status, count)
}

// The first call of the shelf, which gives so many bytes a call, that fails and doesn't end the run with nothing written. There are so
// many calls: one chooses the text, and one finds its end.
fn first_other_read(alloc: Global, most: usize, calls: u64) -> Result<Option<u64>, AllocError>
    requires { 1 ≤ most }
{
    for call in 1..40 {
        let fails = call <= calls;
        let status = if fails { 7 } else { 0 };
        let count = if fails { 0 } else { OUTPUT.len() };
        if !reading_ends_so(alloc, call, most, status, count)? {
            return Ok(Some(call));
        }
    }
    Ok(None)
}

fn line_ends_so(alloc: Global, rules: &[u8], status: u8) -> Result<bool, AllocError> {
    let words = words_of(alloc, Some("--settings rules"))?;
    let mut shelf = MemShelf::new(texts_of(alloc, rules, INPUT)?, Vec::new(alloc), 65_536);
    let mut out = MemSink::new(alloc, 100, Vec::new(alloc), 100)?;
    let mut err = MemSink::new(alloc, 100, vec![in alloc; 1]?, 100)?;
    let ended = run(alloc, words.as_slice(), &mut shelf, &mut out, &mut err);
    Ok(ended == status)
}

fn lines_change_no_status(alloc: Global) -> Result<bool, AllocError> {
    for (rules, status) in &LINES {
        if !line_ends_so(alloc, rules, *status)? {
            return Ok(false);
        }
    }
    Ok(true)
}

#[test]
fn each_write_fails_in_turn(rt: HostRuntime) -> Result<(), Fail> {
    let one = first_other_write(rt.alloc(), 1)?;
    let two = first_other_write(rt.alloc(), 2)?;
    let three = first_other_write(rt.alloc(), 3)?;
    let four = first_other_write(rt.alloc(), 4)?;
    assert!(rt; one == None && two == None && three == None && four == None);
    Ok(())
}

#[test]
fn each_read_fails_in_turn(rt: HostRuntime) -> Result<(), Fail> {
    let one = first_other_read(rt.alloc(), 1, 19)?;
    let two = first_other_read(rt.alloc(), 2, 11)?;
    let three = first_other_read(rt.alloc(), 3, 8)?;
    let four = first_other_read(rt.alloc(), 4, 7)?;
    assert!(rt; one == None && two == None && three == None && four == None);
    Ok(())
}

#[test]
fn a_line_that_fails_changes_no_status(rt: HostRuntime) -> Result<(), Fail> {
    let is_same = lines_change_no_status(rt.alloc())?;
    assert!(rt; is_same);
    Ok(())
}
