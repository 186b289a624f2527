//! Characters, cleaned bytes, trimmed texts and hosts, by the rules.

use crate::endings::{Failing, assert_holds, assert_none_fails};
use pur_text::{clean, is_allowed, is_host, is_space, lower_ascii, trim};
use std::alloc::{AllocError, Global};

static ALLOWED: [char; 11] = [
    '\t',
    '\n',
    ' ',
    '~',
    '\u{A0}',
    '\u{D7FF}',
    '\u{E000}',
    '\u{FFFD}',
    '\u{10000}',
    '\u{1FFFE}',
    '\u{10FFFF}',
];

static NOT_ALLOWED: [char; 11] = [
    '\0', '\u{8}', '\u{B}', '\u{C}', '\r', '\u{1F}', '\u{7F}', '\u{85}', '\u{9F}', '\u{FFFE}',
    '\u{FFFF}',
];

// The first character that is told otherwise.
fn first_other(chars: &[char], allowed: bool) -> Option<char> {
    for c in chars {
        if is_allowed(*c) != allowed {
            return Some(*c);
        }
    }
    None
}

#[test]
fn tells_allowed_characters(rt: HostRuntime) {
    let others = (
        first_other(&ALLOWED, true),
        first_other(&NOT_ALLOWED, false),
    );
    assert_eq!(rt; others, (None, None));
}

// A character, and whether it is white space.
static SPACES: [(char, bool); 6] = [
    (' ', true),
    ('\t', true),
    ('\n', true),
    ('\r', false),
    ('\u{C}', false),
    ('\u{A0}', false),
];

// The first character whose row tells otherwise.
fn first_space() -> Option<char> {
    for (c, want) in &SPACES {
        if is_space(*c) != *want {
            return Some(*c);
        }
    }
    None
}

#[test]
fn tells_white_space(rt: HostRuntime) {
    assert_eq!(rt; first_space(), None);
}

fn is_lowered(alloc: Global, text: &str, want: &str) -> Result<bool, AllocError> {
    Ok(lower_ascii(alloc, text)?.as_str() == want)
}

#[test]
fn lowers_ascii_letters_alone(rt: HostRuntime) {
    let lowered = "@amz[`az{ \u{C4}\u{212A}";
    let holds = is_lowered(rt.alloc(), "@AMZ[`az{ \u{C4}\u{212A}", lowered);
    assert_holds(&rt, holds);
}

// Bytes, the text that is left of them, and what the row shows.
static CLEANED: [(&[u8], &str, &str); 15] = [
    (b"", "", "nothing"),
    (
        b"plain text\n\tgoes on",
        "plain text\n\tgoes on",
        "allowed characters stay",
    ),
    (
        b"\x41\xC3\x28\x00\x42",
        "A(B",
        "a byte without its second, and a NUL",
    ),
    (b"a\r\nb", "a\nb", "CR LF is one line end"),
    (b"a\rb\r", "a\nb\n", "a CR alone is a line end"),
    (b"a\r\r\nb", "a\n\nb", "CR, then CR LF"),
    (
        b"a\r\xFF\nb",
        "a\nb",
        "CR, a dropped byte, LF are one line end",
    ),
    (
        b"a\r\x00\nb",
        "a\n\nb",
        "CR, a dropped character, LF are two",
    ),
    (
        b"\xC2\xA9\xC2\x85\xC2\xA0",
        "\u{A9}\u{A0}",
        "U+0085 is dropped, its neighbours stay",
    ),
    (b"\x7F~\x1F", "~", "U+007F and U+001F are dropped"),
    (
        b"\xEF\xBF\xBD\xEF\xBF\xBE\xEF\xBF\xBF",
        "\u{FFFD}",
        "U+FFFE and U+FFFF are dropped",
    ),
    (
        b"\xED\xA0\x80x\xC0\x80y",
        "xy",
        "a surrogate and an overlong NUL are no text",
    ),
    (
        b"\xF0\x9F\x98\x80\xF4\x8F\xBF\xBF",
        "\u{1F600}\u{10FFFF}",
        "the planes above stay",
    ),
    (b"\xE2\x82x\xF0\x9F\x98", "x", "sequences that are cut off"),
    (
        b"\xE2\x82\xE2\x82\xAC",
        "\u{20AC}",
        "a cut sequence before a whole one",
    ),
];

fn is_cleaned(alloc: Global, bytes: &[u8], want: &str) -> Result<bool, AllocError> {
    Ok(clean(alloc, bytes)?.as_str() == want)
}

fn first_unclean(alloc: Global) -> Failing {
    for (bytes, want, what) in &CLEANED {
        if !is_cleaned(alloc, bytes, want)? {
            return Ok(Some(*what));
        }
    }
    Ok(None)
}

#[test]
fn cleans_bytes(rt: HostRuntime) {
    assert_none_fails(&rt, first_unclean(rt.alloc()));
}

static HOSTS: [&str; 20] = [
    "a",
    "example.com",
    "xn--bcher-kva.example",
    "a-b.c_d.9",
    "127.0.0.1",
    "1.2",
    "[::]",
    "[::1]",
    "[1::]",
    "[1:2:3:4:5:6:7:8]",
    "[1:2:3:4:5:6:7::]",
    "[::2:3:4:5:6:7:8]",
    "[1:2:3::5:6:7:8]",
    "[2001:db8::8:800:200c:417a]",
    "[2001:0db8:0000:0000:0000:0000:1428:57ab]",
    "[::ffff:1.2.3.4]",
    "[::1.2.3.4]",
    "[1:2:3:4:5:6:1.2.3.4]",
    "[64:ff9b::192.0.2.255]",
    "[::0.0.0.0]",
];

// The first text that is a host, or isn't one, where it should be otherwise.
fn first_mistaken(texts: &[&'static str], want: bool) -> Option<&'static str> {
    for text in texts {
        if is_host(text) != want {
            return Some(*text);
        }
    }
    None
}

#[test]
fn knows_canonical_hosts(rt: HostRuntime) {
    assert_none_fails(&rt, Ok(first_mistaken(&HOSTS, true)));
}

static OTHER_TEXTS: [&str; 42] = [
    "",
    ".",
    "a.",
    ".a",
    "a..b",
    "A",
    "example.Com",
    "a_",
    "_a",
    "-a",
    "a-",
    "a b",
    "a.b-.c",
    "\u{E4}.de",
    "[",
    "[]",
    "::1",
    "[::1",
    "[:]",
    "[:::]",
    "[1]",
    "[1:2:3:4:5:6:7]",
    "[1:2:3:4:5:6:7:8:9]",
    "[1:2:3:4:5:6:7::8]",
    "[1:2:3:4::5:6:7:8]",
    "[1::2::3]",
    "[:1:2:3:4:5:6:7:8]",
    "[1:2:3:4:5:6:7:8:]",
    "[::12345]",
    "[::FF]",
    "[::g]",
    "[::1.2.3]",
    "[::1.2.3.4.5]",
    "[::1.2.3.256]",
    "[::01.2.3.4]",
    "[::1.2.3.]",
    "[1.2.3.4::]",
    "[1.2.3.4:1:2:3:4:5:6]",
    "[1:2:3:4:5:6:7:1.2.3.4]",
    "[::2:3:4:5:6:7:1.2.3.4]",
    "[v1.a]",
    "[fe80::1%25eth0]",
];

#[test]
fn refuses_other_hosts(rt: HostRuntime) {
    assert_none_fails(&rt, Ok(first_mistaken(&OTHER_TEXTS, false)));
}

fn push_letters(text: &mut String, count: usize) -> Result<(), AllocError> {
    for _ in 0..count {
        text.push('a')?;
    }
    Ok(())
}

// Whether so many letters are a host.
fn is_host_of(alloc: Global, count: usize) -> Result<bool, AllocError> {
    let mut host = String::new(alloc);
    push_letters(&mut host, count)?;
    Ok(is_host(host.as_str()))
}

// Whether 255 letters are a host, and one more aren't.
fn is_bounded(alloc: Global) -> Result<bool, AllocError> {
    Ok(is_host_of(alloc, 255)? && !is_host_of(alloc, 256)?)
}

#[test]
fn bounds_the_length(rt: HostRuntime) {
    assert_holds(&rt, is_bounded(rt.alloc()));
}

// A text, what is left of it, and what the row shows.
static TRIMMED: [(&str, &str, &str); 14] = [
    ("", "", "nothing"),
    ("plain", "plain", "no white space"),
    (" \t\n", "", "white space alone"),
    (
        "\n\t two words \t\n",
        "two words",
        "white space at both ends",
    ),
    (" front", "front", "at the front alone"),
    ("end\n", "end", "at the end alone"),
    ("a \t\n b", "a \t\n b", "white space between others stays"),
    (" x ", "x", "one character"),
    ("\u{A0}a\u{A0}", "\u{A0}a\u{A0}", "a no-break space stays"),
    (" \u{A0} a", "\u{A0} a", "and what is behind it"),
    ("\r\na\r", "\r\na\r", "a carriage return stays"),
    (
        "\u{3000}a\u{3000}",
        "\u{3000}a\u{3000}",
        "an ideographic space stays",
    ),
    (
        "\u{C}a\u{B}",
        "\u{C}a\u{B}",
        "a form feed and a vertical tab stay",
    ),
    (
        " \u{E9} \u{1F600}\u{20AC} ",
        "\u{E9} \u{1F600}\u{20AC}",
        "letters past ASCII between",
    ),
];

fn first_untrimmed() -> Option<&'static str> {
    for (text, want, what) in &TRIMMED {
        if trim(text) != *want {
            return Some(*what);
        }
    }
    None
}

#[test]
fn trims_white_space(rt: HostRuntime) {
    assert_none_fails(&rt, Ok(first_untrimmed()));
}
