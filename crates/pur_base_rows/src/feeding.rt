//! A cleaner that is fed in pieces: wherever the bytes are cut, their text is that of all of them.

use crate::endings::{Failing, assert_holds, assert_none_fails};
use pur_text::{Cleaner, clean};
use std::alloc::{AllocError, Global};

// Two pieces, the text after the first, the text of both, and what is tried.
type Cut = (
    &'static [u8],
    &'static [u8],
    &'static str,
    &'static str,
    &'static str,
);

static CUTS: [Cut; 12] = [
    (b"\xC2", b"\xA9", "", "\u{A9}", "a character of two bytes"),
    (b"a\r", b"\nb", "a\n", "a\nb", "CR and LF are one line end"),
    (b"a\r", b"b", "a\n", "a\nb", "a CR alone is a line end"),
    (b"a\r", b"\rb", "a\n", "a\n\nb", "two CR are two line ends"),
    (
        b"a\r\n",
        b"\nb",
        "a\n",
        "a\n\nb",
        "an LF behind a pair is a line end of its own",
    ),
    (
        b"a\r",
        b"\xFF\nb",
        "a\n",
        "a\nb",
        "a dropped byte between CR and LF",
    ),
    (
        b"a\r",
        b"\x00\nb",
        "a\n",
        "a\n\nb",
        "a dropped character between CR and LF",
    ),
    (
        b"\xF0\x9F\x98",
        b"\x80x",
        "",
        "\u{1F600}x",
        "a character without its last byte",
    ),
    (
        b"a\xF0\x9F",
        b"bc",
        "a",
        "abc",
        "the next good character stays behind a bad lead",
    ),
    (b"\xE2\x82", b"\xE2\x82\xAC", "", "\u{20AC}", "a lead anew"),
    (
        b"\x80\x80\x80\x80",
        b"\x80x",
        "",
        "x",
        "bytes that only continue",
    ),
    (b"x\xE2\x82", b"", "x", "x", "a character that never ends"),
];

fn is_fed_so(alloc: Global, cut: &Cut) -> Result<bool, AllocError> {
    let (first, second, early, whole, _) = cut;
    let mut cleaner = Cleaner::new(alloc);
    cleaner.feed(first)?;
    let is_early = cleaner.text() == *early;
    cleaner.feed(second)?;
    let is_whole = cleaner.text() == *whole;
    Ok(is_early && is_whole && cleaner.finish().as_str() == *whole)
}

fn first_other_cut(alloc: Global) -> Failing {
    for cut in &CUTS {
        if !is_fed_so(alloc, cut)? {
            return Ok(Some(cut.4));
        }
    }
    Ok(None)
}

#[test]
fn feeds_in_two_pieces(rt: HostRuntime) {
    assert_none_fails(&rt, first_other_cut(rt.alloc()));
}

// The next of a row of numbers that look random (Numerical Recipes, section 7.1).
fn next(state: u32) -> u32 {
    state.wrapping_mul(1_664_525).wrapping_add(1_013_904_223)
}

// What random bytes are taken of: line ends, leads of each length, bytes that continue, letters, and what is dropped.
static BYTES: [u8; 16] = [
    b'a', b'\r', b'\n', b'\r', 0xC2, 0xA9, 0xE2, 0x82, 0xAC, 0xF0, 0x9F, 0x98, 0x80, 0x00, 0xED,
    0xFF,
];

// Whether so many random bytes, cut at random places, have the text of all of them.
fn random_is_cleaned(alloc: Global, seed: u32, count: usize) -> Result<bool, AllocError> {
    let mut state = next(seed);
    let mut bytes = Vec::new(alloc);
    let mut piece = Vec::new(alloc);
    let mut cleaner = Cleaner::new(alloc);
    for _ in 0..count {
        state = next(state);
        let byte = BYTES[(state >> 28) as usize];
        bytes.push(byte)?;
        piece.push(byte)?;
        if (state >> 20) & 3 == 0 {
            cleaner.feed(piece.as_slice())?;
            piece.clear();
        }
    }
    cleaner.feed(piece.as_slice())?;
    let whole = clean(alloc, bytes.as_slice())?;
    Ok(cleaner.finish().as_str() == whole.as_str())
}

fn all_random_are_cleaned(alloc: Global) -> Result<bool, AllocError> {
    for seed in 0..400u32 {
        if !random_is_cleaned(alloc, seed, 40)? {
            return Ok(false);
        }
    }
    Ok(true)
}

#[test]
fn feeds_random_bytes_cut_at_random_places(rt: HostRuntime) {
    assert_holds(&rt, all_random_are_cleaned(rt.alloc()));
}
