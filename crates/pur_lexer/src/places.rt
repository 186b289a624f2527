// Texts cut at the first place where something ends them.
ghost use Rattle.std.specs.Prelude.{◌≡◌, ◌+◌, ◌-◌, ◌<◌, ◌≤◌, drop, length};
ghost use Rattle.std.specs.Str.{chars, IsUtf8};
ghost use Rattle.pur_lexer.specs.Places.{begins_with, begins_with_mark, is_character, run_to, rest_from};
ghost use Rattle.pur_lexer.specs.Tags.{ends_tag_name};
ghost use Rattle.pur_lexer.specs.Constructs.{begins_with_name, is_end_mark};
ghost use Rattle.pur_lexer.specs.Private.Cutting.{stops_at, IsFirstPlace, IsMark};

use memchr::{memchr, memmem};

// What the end mark of hidden content begins with.
const END_MARK: &[u8] = b"</";

/// What ends a run of characters.
#[derive(Clone, Copy)]
pub(crate) enum Stop {
    /// The end of a tag's name: white space, `/` or `>`.
    TagName,
    /// The end of an attribute's name: these, `=`, `"`, `'` or `<`.
    AttributeName,
    /// Anything but white space and `/`.
    Gap,
    /// Anything but white space.
    Space,
    /// The end of a value without quotes: white space or `>`.
    BareValue,
}

impl Stop {
    // Whether a run ends before this byte.
    fn is_at(self, byte: u8) -> bool
        ensures { result ≡ stops_at self byte }
    {
        match self {
            Stop::TagName => matches!(byte, b' ' | b'\t' | b'\n' | b'/' | b'>'),
            Stop::AttributeName => matches!(
                byte,
                b' ' | b'\t' | b'\n' | b'/' | b'>' | b'=' | b'"' | b'\'' | b'<'
            ),
            Stop::Gap => !matches!(byte, b' ' | b'\t' | b'\n' | b'/'),
            Stop::Space => !matches!(byte, b' ' | b'\t' | b'\n'),
            Stop::BareValue => matches!(byte, b' ' | b'\t' | b'\n' | b'>'),
        }
    }
}

/// The text up to the first place where a run ends, and the text from there on.
pub(crate) fn cut_at(text: &str, stop: Stop) -> (&str, &str)
    ensures text { IsUtf8 result.0.now × IsUtf8 result.1.now }
    ensures run { chars result.0.now ≡ run_to (begins_with (stops_at stop)) (chars text.now) }
    ensures rest { chars result.1.now ≡ rest_from (begins_with (stops_at stop)) (chars text.now) }
    ensures lengths { length result.0.now + length result.1.now ≡ length text.now }
{
    let place = place_of_stop(text.as_bytes(), stop);
    text.split_at(place)
}

// The first place where a run ends, or the end.
fn place_of_stop(bytes: &[u8], stop: Stop) -> usize
    ensures { IsFirstPlace (begins_with (stops_at stop)) bytes.now result }
{
    for (place, byte) in bytes.iter().enumerate() {
        if stop.is_at(*byte) {
            return place;
        }
    }
    bytes.len()
}

/// The text up to the first of this ASCII character, and the text from there on.
pub(crate) fn cut_at_character(text: &str, character: u8) -> (&str, &str)
    requires { character < 128 }
    ensures text { IsUtf8 result.0.now × IsUtf8 result.1.now }
    ensures run { chars result.0.now ≡ run_to (begins_with (is_character character)) (chars text.now) }
    ensures rest { chars result.1.now ≡ rest_from (begins_with (is_character character)) (chars text.now) }
    ensures lengths { length result.0.now + length result.1.now ≡ length text.now }
{
    let place = place_of_byte(text.as_bytes(), character);
    text.split_at(place)
}

// The first place of a byte, or the end.
fn place_of_byte(bytes: &[u8], byte: u8) -> usize
    ensures { IsFirstPlace (begins_with (is_character byte)) bytes.now result }
{
    match memchr(byte, bytes) {
        Some(place) => place,
        None => bytes.len(),
    }
}

/// The text up to the first of these marks, which are ASCII characters, and the text from there on.
pub(crate) fn cut_at_mark<'a>(text: &'a str, mark: &str) -> (&'a str, &'a str)
    requires { IsMark mark.now }
    ensures text { IsUtf8 result.0.now × IsUtf8 result.1.now }
    ensures run { chars result.0.now ≡ run_to (begins_with_mark mark.now) (chars text.now) }
    ensures rest { chars result.1.now ≡ rest_from (begins_with_mark mark.now) (chars text.now) }
    ensures lengths { length result.0.now + length result.1.now ≡ length text.now }
{
    let place = place_of_mark(text.as_bytes(), mark.as_bytes());
    text.split_at(place)
}

// The first place of a mark, or the end.
fn place_of_mark(bytes: &[u8], mark: &[u8]) -> usize
    requires { 0 < length mark.now }
    ensures { IsFirstPlace (begins_with_mark mark.now) bytes.now result }
{
    match memmem::find(bytes, mark) {
        Some(place) => place,
        None => bytes.len(),
    }
}

/// The text up to the end mark of hidden content with this lowered name of ASCII characters, and the text from there on.
pub(crate) fn cut_at_end_mark<'a>(text: &'a str, name: &str) -> (&'a str, &'a str)
    requires { IsMark name.now }
    ensures text { IsUtf8 result.0.now × IsUtf8 result.1.now }
    ensures run { chars result.0.now ≡ run_to (is_end_mark name.now) (chars text.now) }
    ensures rest { chars result.1.now ≡ rest_from (is_end_mark name.now) (chars text.now) }
    ensures lengths { length result.0.now + length result.1.now ≡ length text.now }
{
    let place = place_of_end_mark(text.as_bytes(), name.as_bytes());
    text.split_at(place)
}

// The first place of an end mark, or the end.
fn place_of_end_mark(bytes: &[u8], name: &[u8]) -> usize
    ensures { IsFirstPlace (is_end_mark name.now) bytes.now result }
{
    for place in 0..bytes.len() {
        if is_end_mark(&bytes[place..], name) {
            return place;
        }
    }
    bytes.len()
}

// Whether the end mark of hidden content with this name begins the text.
fn is_end_mark(bytes: &[u8], name: &[u8]) -> bool
    ensures { result ≡ is_end_mark name.now bytes.now }
{
    if !bytes.starts_with(END_MARK) {
        return false;
    }
    begins_with_name(&bytes[END_MARK.len()..], name)
}

// Whether the text begins with the name, in any ASCII case, and then white space, `/` or `>`.
fn begins_with_name(bytes: &[u8], name: &[u8]) -> bool
    ensures { result ≡ begins_with_name name.now bytes.now }
{
    if bytes.len() <= name.len() {
        return false;
    }
    for place in 0..name.len() {
        if bytes[place].to_ascii_lowercase() != name[place] {
            return false;
        }
    }
    Stop::TagName.is_at(bytes[name.len()])
}

/// The text behind its first character.
pub(crate) fn behind_first(text: &str) -> &str
    ensures text { IsUtf8 result.now }
    ensures rest { chars result.now ≡ drop 1 (chars text.now) }
    ensures shorter { length result.now ≤ length text.now - 1 }
{
    let mut characters = text.chars();
    characters.next();
    characters.as_str()
}
