//! The output is the same however few bytes a call of the shelf gives, and the limit counts the bytes of the input, not those of its
//! cleaned text.

ghost use Rattle.std.specs.Prelude.{◌≤◌};

use crate::checks::forum_post;
use crate::running::{ROOM, is_ending, run_from, run_over, texts_of};
use crate::words::words_of;
use pur_io::MemShelf;
use std::alloc::{AllocError, Global};
use std::test::Fail;

// A name, an input and its output.
static ROWS: [(&str, &[u8], &[u8]); 4] = [
    (
        "a host and a path in another spelling",
        b"<a href=\"HTTP://Example.COM:80/%7euser?q=a b\">x</a>",
        b"<a href=\"http://example.com/~user?q=a%20b\">x</a>",
    ),
    (
        "a scheme that is no link's",
        b"<a href=\"JavaScript:x\">x</a>",
        b"<a>x</a>",
    ),
    (
        "a byte without its second, and a NUL",
        b"\x41\xC3\x28\x00\x42",
        b"A(B",
    ),
    ("CR LF", b"a\r\nb", b"a\nb"),
];

// Whether a run over this input, of which a call gives at most so many bytes, has written this.
fn is_piecewise(alloc: Global, input: &[u8], out: &[u8], most: usize) -> Result<bool, AllocError>
    requires { 1 ≤ most }
{
    let words = words_of(alloc, None)?;
    let mut shelf = MemShelf::new(texts_of(alloc, b"", input)?, Vec::new(alloc), most);
    let ending = run_from(alloc, words.as_slice(), &mut shelf, ROOM)?;
    Ok(is_ending(&ending, 0, out, ""))
}

fn is_same_in_each(alloc: Global, input: &[u8], out: &[u8]) -> Result<bool, AllocError> {
    let by_one = is_piecewise(alloc, input, out, 1)?;
    let by_two = is_piecewise(alloc, input, out, 2)?;
    let by_three = is_piecewise(alloc, input, out, 3)?;
    Ok(by_one && by_two && by_three)
}

fn first_other(alloc: Global) -> Result<Option<&'static str>, AllocError> {
    for (name, input, out) in &ROWS {
        if !is_same_in_each(alloc, input, out)? {
            return Ok(Some(*name));
        }
    }
    let post = forum_post(alloc, "<strong>all</strong>", "<br />")?;
    let is_same = is_same_in_each(alloc, post.as_bytes(), post.as_bytes())?;
    Ok(if is_same { None } else { Some("a post") })
}

#[test]
fn pieces_of_one_two_and_three_bytes(rt: HostRuntime) -> Result<(), Fail> {
    let other = first_other(rt.alloc())?;
    assert_eq!(rt; other, None);
    Ok(())
}

// Whether a run over so many bytes that are all dropped ends with this status, and writes nothing.
fn dropped_end_so(alloc: Global, byte: u8, count: usize, status: u8) -> Result<bool, AllocError> {
    let input = vec![in alloc; byte; count]?;
    let ending = run_over(alloc, None, b"", input.as_slice(), ROOM)?;
    Ok(ending.status == status && ending.out.taken().is_empty())
}

fn dropped_bytes_count(alloc: Global) -> Result<bool, AllocError> {
    let fits = dropped_end_so(alloc, 0xFF, 1_048_576, 0)?;
    let is_past = dropped_end_so(alloc, 0xFF, 1_048_577, 6)?;
    let controls_fit = dropped_end_so(alloc, 0x00, 1_048_576, 0)?;
    let controls_are_past = dropped_end_so(alloc, 0x00, 1_048_577, 6)?;
    Ok(fits && is_past && controls_fit && controls_are_past)
}

#[test]
fn bytes_that_are_dropped_count_too(rt: HostRuntime) -> Result<(), Fail> {
    let counted = dropped_bytes_count(rt.alloc())?;
    assert!(rt; counted);
    Ok(())
}
