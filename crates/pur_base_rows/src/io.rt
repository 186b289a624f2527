//! Tests of what lies outside the clauses: worked cases, each object through its trait, and streams
//! that fail.

ghost use Rattle.std.specs.Prelude.{IfOk};
ghost use Rattle.pur_io.specs.Texts.{plain_texts, HasDistinctNames};

use crate::endings::{Failing, assert_holds, assert_none_fails, first_false};
use pur_io::{FileShelf, MemShelf, MemSink, Shelf, Sink, StdSink, SureShelf, SureSink};
use std::alloc::{AllocError, Global};
use std::io;
use std::io::{Read, Write};

// How many bytes one call of a sink took; none where it failed or the piece is empty.
fn write_next<O: Sink>(out: &mut O, piece: &[u8]) -> Option<usize> {
    if piece.is_empty() {
        return None;
    }
    out.write(piece).ok()
}

// What one call of a shelf read, as text; none where it failed.
fn read_next<'b, H: Shelf>(shelf: &mut H, buffer: &'b mut [u8; 8]) -> Option<&'b [u8]> {
    match shelf.read(buffer) {
        Ok(count) => Some(&buffer[..count]),
        Err(_) => None,
    }
}

// Whether one call of a shelf reads this; none where it fails.
fn is_read<H: Shelf>(shelf: &mut H, want: Option<&[u8]>) -> bool {
    let mut buffer = [0; 8];
    read_next(shelf, &mut buffer) == want
}

// Whether a shelf has a text of this name, or standard input.
fn can_choose<H: Shelf>(
    alloc: Global,
    shelf: &mut H,
    name: Option<&str>,
) -> Result<bool, AllocError> {
    let name = match name {
        Some(name) => Some(String::from_str(alloc, name)?),
        None => None,
    };
    Ok(shelf.choose(name).is_ok())
}

// Standard input `abcdefg`, and `rules` with `xy`.
fn two_texts(alloc: Global) -> Result<Vec<(Option<String>, Vec<u8>)>, AllocError>
    ensures { IfOk result (λ texts. HasDistinctNames (plain_texts texts.items)) }
{
    let input = Vec::from_slice(alloc, b"abcdefg")?;
    let rules = Vec::from_slice(alloc, b"xy")?;
    let name = String::from_str(alloc, "rules")?;
    Ok(vec![in alloc; (None, input), (Some(name), rules)]?)
}

// Whether a sink takes so much of `Hello`, then fails, and has taken this.
fn takes_once(sink: &mut MemSink, count: usize, next: &[u8], taken: &[u8]) -> bool {
    let first = write_next(sink, b"Hello");
    let second = write_next(sink, next);
    first == Some(count) && second.is_none() && sink.taken() == taken
}

fn fails_at_second_call(alloc: Global) -> Result<bool, AllocError> {
    let mut sink = MemSink::new(alloc, 16, vec![in alloc; 2]?, 3)?;
    Ok(takes_once(&mut sink, 3, b"lo", b"Hel"))
}

#[test]
fn sink_fails_at_its_second_call(rt: HostRuntime) {
    assert_holds(&rt, fails_at_second_call(rt.alloc()));
}

fn takes_what_fits(alloc: Global) -> Result<bool, AllocError> {
    let mut sink = MemSink::new(alloc, 4, Vec::new(alloc), 100)?;
    Ok(takes_once(&mut sink, 4, b"o", b"Hell"))
}

#[test]
fn sink_takes_what_still_fits(rt: HostRuntime) {
    assert_holds(&rt, takes_what_fits(rt.alloc()));
}

// What the calls of a shelf read of `abcdefg`, one after another.
static PIECES: [Option<&[u8]>; 6] = [
    Some(b"abc"),
    Some(b"def"),
    None,
    Some(b"g"),
    Some(b""),
    Some(b""),
];

fn are_read(shelf: &mut MemShelf) -> bool {
    for want in &PIECES {
        if !is_read(shelf, *want) {
            return false;
        }
    }
    true
}

fn first_step_in_pieces(alloc: Global, shelf: &mut MemShelf) -> Failing {
    Ok(first_false(&[
        ("nothing is chosen", is_read(shelf, None)),
        ("standard input", can_choose(alloc, shelf, None)?),
        ("in pieces", are_read(shelf)),
        ("a name", can_choose(alloc, shelf, Some("rules"))?),
        ("its text", is_read(shelf, Some(b"xy"))),
        ("another name", !can_choose(alloc, shelf, Some("rule"))?),
        ("the text chosen isn't there", is_read(shelf, None)),
    ]))
}

fn first_in_pieces(alloc: Global) -> Failing {
    let texts = two_texts(alloc)?;
    let mut shelf = MemShelf::new(texts, vec![in alloc; 5]?, 3);
    first_step_in_pieces(alloc, &mut shelf)
}

#[test]
fn shelf_is_read_in_pieces(rt: HostRuntime) {
    assert_none_fails(&rt, first_in_pieces(rt.alloc()));
}

fn first_step_sure(alloc: Global, shelf: &mut SureShelf) -> Failing {
    Ok(first_false(&[
        ("nothing is chosen", is_read(shelf, Some(b""))),
        ("a name", can_choose(alloc, shelf, Some("rules"))?),
        ("its text", is_read(shelf, Some(b"xy"))),
        ("another name", can_choose(alloc, shelf, Some("rule"))?),
        ("the empty text", is_read(shelf, Some(b""))),
        ("standard input", can_choose(alloc, shelf, None)?),
        ("its text", is_read(shelf, Some(b"abcdefg"))),
    ]))
}

fn first_sure(alloc: Global) -> Failing {
    let mut shelf = SureShelf::new(two_texts(alloc)?);
    first_step_sure(alloc, &mut shelf)
}

fn takes_all(sink: &mut SureSink) -> bool {
    let first = write_next(sink, b"Hello");
    let second = write_next(sink, b"!");
    first == Some(5) && second == Some(1) && sink.given() == 6
}

#[test]
fn sure_objects_never_fail(rt: HostRuntime) {
    assert_none_fails(&rt, first_sure(rt.alloc()));
    assert_holds(&rt, Ok(takes_all(&mut SureSink::new())));
}

// A reader that the system can't read.
#[derive(Drop)]
struct BrokenInput;

impl Read for BrokenInput {
    fn read(&mut self, _into: &mut [u8]) -> io::Result<usize> {
        Err(io::ErrorKind::Other.into())
    }
}

// Whether standard input is read once it is chosen, to its end. A call on files returns no name of a row: the borrow
// checker doesn't cover one whose result is as lasting as that.
fn is_read_once_chosen<H: Shelf>(alloc: Global, shelf: &mut H) -> Result<bool, AllocError> {
    let is_closed = is_read(shelf, None);
    let can_read = can_choose(alloc, shelf, None)?;
    let is_text = is_read(shelf, Some(b"abc"));
    let is_end = is_read(shelf, Some(b""));
    Ok(is_closed && can_read && is_text && is_end)
}

// Whether standard input can be chosen, and isn't read.
fn is_broken<H: Shelf>(alloc: Global, shelf: &mut H) -> Result<bool, AllocError> {
    Ok(can_choose(alloc, shelf, None)? && is_read(shelf, None))
}

#[test]
fn standard_input_is_read_once_chosen(rt: HostRuntime) {
    let mut shelf = FileShelf::new(&rt, b"abc".as_slice());
    assert_holds(&rt, is_read_once_chosen(rt.alloc(), &mut shelf));
    let mut broken = FileShelf::new(&rt, BrokenInput);
    assert_holds(&rt, is_broken(rt.alloc(), &mut broken));
}

// A name, a path, whether it can be chosen, and what is read there first.
static PATHS: [(&str, &str, bool, Option<&[u8]>); 5] = [
    ("a file", "/dev/zero", true, Some(b"\0\0\0\0\0\0\0\0")),
    ("an empty file", "/dev/null", true, Some(b"")),
    ("no file", "/dev/null/none", false, None),
    ("an empty path", "", false, None),
    ("a directory", "/", true, None),
];

// Whether a path can be chosen as told, and then this is read.
fn is_opened<H: Shelf>(
    alloc: Global,
    shelf: &mut H,
    path: &str,
    opens: bool,
    want: Option<&[u8]>,
) -> Result<bool, AllocError> {
    Ok(can_choose(alloc, shelf, Some(path))? == opens && is_read(shelf, want))
}

// The place of the first path that isn't as its row tells.
fn first_path<H: Shelf>(alloc: Global, shelf: &mut H) -> Result<Option<usize>, AllocError> {
    for (at, row) in PATHS.iter().enumerate() {
        let (_, path, opens, want) = row;
        if !is_opened(alloc, shelf, path, *opens, *want)? {
            return Ok(Some(at));
        }
    }
    Ok(None)
}

// Whether standard input is read, after files.
fn is_input_read<H: Shelf>(alloc: Global, shelf: &mut H) -> Result<bool, AllocError> {
    Ok(can_choose(alloc, shelf, None)? && is_read(shelf, Some(b"abc")))
}

#[test]
fn files_are_read_by_their_paths(rt: HostRuntime) {
    let mut shelf = FileShelf::new(&rt, b"abc".as_slice());
    assert_eq!(rt; first_path(rt.alloc(), &mut shelf), Ok(None));
    assert_holds(&rt, is_input_read(rt.alloc(), &mut shelf));
}

// A stream that takes at most `most` bytes in a call, and fails to write or to flush where it is told.
#[derive(Drop)]
struct Stream {
    most: usize,
    can_write: bool,
    can_flush: bool,
}

impl Write for Stream {
    fn write(&mut self, piece: &[u8]) -> io::Result<usize> {
        if !self.can_write {
            return Err(io::ErrorKind::Other.into());
        }
        Ok(self.most.min(piece.len()))
    }

    fn flush(&mut self) -> io::Result<()> {
        if !self.can_flush {
            return Err(io::ErrorKind::Other.into());
        }
        Ok(())
    }
}

// A name, how many bytes a stream takes, whether it can be written and flushed, and what a sink takes of five.
static STREAMS: [(&str, usize, bool, bool, Option<usize>); 5] = [
    ("takes all", 9, true, true, Some(5)),
    ("takes a part", 2, true, true, Some(2)),
    ("takes nothing", 0, true, true, None),
    ("can't write", 9, false, true, None),
    ("can't flush", 9, true, false, None),
];

// Whether a sink over the stream takes so much of five bytes; none where it fails.
fn is_taken(stream: Stream, want: Option<usize>) -> bool {
    let mut sink = StdSink::new(stream);
    write_next(&mut sink, b"Hello") == want
}

fn first_stream() -> Option<&'static str> {
    for (name, most, can_write, can_flush, want) in &STREAMS {
        let stream = Stream {
            most: *most,
            can_write: *can_write,
            can_flush: *can_flush,
        };
        if !is_taken(stream, *want) {
            return Some(*name);
        }
    }
    None
}

#[test]
fn stream_is_written_and_flushed(rt: HostRuntime) {
    assert_none_fails(&rt, Ok(first_stream()));
}
