//! From the bytes of an input to the text that the filter reads.
ghost use Rattle.std.specs.Prelude.{◌≡◌, [], ◌∷◌, ◌++◌, ◌<◌, length, IfOk, OnOk, IfSome, filter, string_bytes};
ghost use Rattle.std.specs.Cow.{cow_str_bytes};
ghost use Rattle.std.specs.Str.{chars, IsUtf8};
ghost use Rattle.pur_text.specs.Characters.{is_allowed};
ghost use Rattle.pur_text.specs.Private.Feeding.{BeginsWith};
ghost use Rattle.pur_text.specs.Cleaning.{character_list, line_feed_for, chars_of, with_line_feeds, cleaned};

use crate::characters::is_allowed;
use crate::runs::run_end;
use std::alloc::{AllocError, Global};
use std::borrow::CowStr;

/// The text of the bytes: their characters, read as UTF-8 (Unicode, Table 3-7), with LF for each line end CR LF or CR
/// (XML 1.0, section 2.11), and without the characters that `is_allowed` refuses.
///
/// A byte that begins no well-formed sequence is dropped, before line ends are read; a character that isn't allowed is
/// dropped after. So a CR, a byte that is no text and an LF are one line end, and a CR, a NUL and an LF are two.
///
/// The error is want of memory.
#[tactic(auto, unfolding(crate::specs::Cleaning::cleaned))]
pub fn clean(alloc: Global, bytes: &[u8]) -> Result<String, AllocError>
    ensures { IfOk result (λ text. chars (string_bytes text) ≡ cleaned bytes.now) }
{
    match simdutf8::basic::from_utf8(bytes) {
        Ok(text) => clean_text(alloc, text),
        Err(_) => {
            let text = read_text(alloc, bytes)?;
            clean_text(alloc, text.as_str())
        }
    }
}

/// The text of the bytes as `clean` gives it, lent where nothing changes, so that no memory is taken.
///
/// Where a byte may begin what cleaning drops or changes, the text is made anew even if nothing does.
/// The error is want of memory.
pub fn clean_if_needed<'a>(alloc: Global, bytes: &'a [u8]) -> Result<CowStr<'a, Global>, AllocError>
    ensures { IfOk result (λ text. chars (cow_str_bytes text) ≡ cleaned bytes.now) }
{
    match already_clean(bytes) {
        Some(text) => Ok(CowStr::Borrowed(text)),
        None => {
            let text = clean(alloc, bytes)?;
            Ok(CowStr::Owned(text))
        }
    }
}

/// The text of the bytes, where each of them stands for itself.
fn already_clean(bytes: &[u8]) -> Option<&str>
    ensures text { IfSome result (λ text. IsUtf8 text.now) }
    ensures clean { IfSome result (λ text. chars text.now ≡ cleaned bytes.now) }
{
    match simdutf8::basic::from_utf8(bytes) {
        Ok(text) => match run_end(text.as_bytes()) {
            Some(_) => None,
            None => Some(text),
        },
        Err(_) => None,
    }
}

/// The characters of the bytes. What begins no well-formed sequence is dropped, a byte at a time.
fn read_text(alloc: Global, bytes: &[u8]) -> Result<String, AllocError>
    ensures { IfOk result (λ text. chars (string_bytes text) ≡ chars_of bytes.now) }
{
    let mut text = String::new(alloc);
    for chunk in bytes.utf8_chunks() {
        text.push_str(chunk.valid())?;
    }
    Ok(text)
}

/// The allowed characters of the text, with its line ends as LF.
fn clean_text(alloc: Global, text: &str) -> Result<String, AllocError>
    ensures { IfOk result (λ clean. chars (string_bytes clean) ≡ filter is_allowed (with_line_feeds (chars text.now))) }
{
    let mut clean = String::new(alloc);
    clean_onto(&mut clean, text)?;
    Ok(clean)
}

/// Writes the allowed characters of the text behind what is there, with its line ends as LF. Where memory is wanting, a front
/// of them may be written.
pub(crate) fn clean_onto(clean: &mut String, text: &str) -> Result<(), AllocError>
    ensures text { OnOk result (chars (string_bytes clean.new) ≡ chars (string_bytes clean.old) ++ filter is_allowed (with_line_feeds (chars text.now))) }
    ensures begins { BeginsWith (string_bytes clean.old) (string_bytes clean.new) }
{
    let mut rest = text;
    'cleaning: while let Some(end) = run_end(rest.as_bytes()) {
        let (run, behind) = rest.split_at(end);
        clean.push_str(run)?;
        rest = push_first(clean, behind)?;
    }
    clean.push_str(rest)?;
    Ok(())
}

/// Writes what stands for the first character of the text, and gives the text behind it.
fn push_first<'a>(clean: &mut String, text: &'a str) -> Result<&'a str, AllocError>
    requires { 0 < length text.now }
    ensures begins { BeginsWith (string_bytes clean.old) (string_bytes clean.new) }
    ensures text { IfOk result (λ behind. IsUtf8 behind.now) }
    ensures shorter { IfOk result (λ behind. length behind.now < length text.now) }
    ensures step { IfOk result (λ behind. chars (string_bytes clean.new) ++ filter is_allowed (with_line_feeds (chars behind.now))
        ≡ chars (string_bytes clean.old) ++ filter is_allowed (with_line_feeds (chars text.now))) }
{
    let mut behind = text.chars();
    let Some(first) = behind.next() else {
        return Ok(text);
    };
    push_kept(clean, replacement(first, behind.as_str()))?;
    Ok(behind.as_str())
}

/// Writes the character, if there is one.
fn push_kept(clean: &mut String, kept: Option<char>) -> Result<(), AllocError>
    ensures text { OnOk result (chars (string_bytes clean.new) ≡ chars (string_bytes clean.old) ++ character_list kept) }
    ensures begins { BeginsWith (string_bytes clean.old) (string_bytes clean.new) }
{
    if let Some(c) = kept {
        push_character(clean, c)?;
    }
    Ok(())
}

fn push_character(clean: &mut String, c: char) -> Result<(), AllocError>
    ensures text { OnOk result (chars (string_bytes clean.new) ≡ chars (string_bytes clean.old) ++ c ∷ []) }
    ensures begins { BeginsWith (string_bytes clean.old) (string_bytes clean.new) }
{
    clean.push(c)?;
    Ok(())
}

/// What stands for the character where this text is behind it, if anything does.
fn replacement(c: char, behind: &str) -> Option<char>
    ensures { character_list result ≡ filter is_allowed (line_feed_for c (chars behind.now)) }
{
    match c {
        '\r' if behind.starts_with('\n') => None,
        '\r' => Some('\n'),
        c if is_allowed(c) => Some(c),
        _ => None,
    }
}
