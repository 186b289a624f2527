//! Identifiers, languages, and lists of tokens between white space.
ghost use Rattle.std.specs.Prelude.{◌≡◌, ◌∷◌, ◌<◌, ℕ, ◌==◌, true, [], List, length, drop, not, filter, if◌then◌else◌, Some, None, IfOk, IfSome, IfNone, OnOk, map, option_map};
ghost use Rattle.std.specs.List.{list_all, position, slice_split};
ghost use Rattle.std.specs.Str.{IsUtf8, bytes_eq, chars};
ghost use Rattle.pur_text.specs.Characters.{is_space};
ghost use Rattle.pur_values.specs.Numbers.{is_empty};
ghost use Rattle.pur_text.specs.Texts.{text_of};
ghost use Rattle.pur_values.specs.Words.{is_letter, is_letter_or_digit};
ghost use Rattle.pur_values.specs.Tokens.{classes_of, is_class, is_class_character, is_class_start, is_id, is_id_character, is_language, is_subtag, before_dash, pieces, relations, relations_of, tokens_of};
ghost use Rattle.pur_values.specs.Private.Seen.{fresh, has, passes, put, put_all};

use crate::numbers::is_nothing;
use crate::words::{is_among, is_letter, is_letter_or_digit, lower};
use std::alloc::{AllocError, Global};
use std::collections::BTreeSet;

const RELATIONS: [&str; 17] = [
    "alternate",
    "appendix",
    "bookmark",
    "chapter",
    "contents",
    "copyright",
    "glossary",
    "help",
    "index",
    "next",
    "nofollow",
    "noopener",
    "noreferrer",
    "prev",
    "section",
    "start",
    "subsection",
];

/// What the tokens of a list are.
#[derive(Clone, Copy, PartialEq, Eq, Debug)]
pub(crate) enum TokenKind {
    Class,
    Relation,
}

pub(crate) fn is_id(text: &str) -> bool
    ensures { result ≡ is_id (chars text.now) }
{
    is_id_text(text.as_bytes())
}

fn is_id_text(text: &[u8]) -> bool
    ensures { result ≡ is_id text.now }
{
    match text {
        [first, behind @ ..] => is_letter(*first) && has_id_characters(behind),
        [] => false,
    }
}

fn has_id_characters(text: &[u8]) -> bool
    ensures { result ≡ list_all is_id_character text.now }
{
    text.iter().all(is_id_character)
}

fn is_id_character(byte: &u8) -> bool
    ensures { result ≡ is_id_character byte.now }
{
    matches!(byte, b'A'..=b'Z' | b'a'..=b'z' | b'0'..=b'9' | b'-' | b'_' | b'.' | b':')
}

pub(crate) fn is_language(text: &str) -> bool
    ensures { result ≡ is_language (chars text.now) }
{
    is_language_text(text.as_bytes())
}

fn is_language_text(text: &[u8]) -> bool
    ensures { result ≡ is_language text.now }
{
    has_subtags(text) && begins_with_letters(text)
}

fn has_subtags(text: &[u8]) -> bool
    ensures { result ≡ list_all is_subtag (slice_split (λ c. c == 0x2D) text.now) }
{
    text.split(|byte| *byte == b'-').all(is_subtag)
}

/// Whether only letters stand before the first dash.
fn begins_with_letters(text: &[u8]) -> bool
    ensures { result ≡ list_all is_letter (before_dash text.now) }
{
    text.iter()
        .take_while(|byte| **byte != b'-')
        .all(|byte| is_letter(*byte))
}

fn is_subtag(piece: &[u8]) -> bool
    ensures { result ≡ is_subtag piece.now }
{
    matches!(piece.len(), 1..=8) && has_letters_or_digits(piece)
}

fn has_letters_or_digits(piece: &[u8]) -> bool
    ensures { result ≡ list_all is_letter_or_digit piece.now }
{
    piece.iter().all(|byte| is_letter_or_digit(*byte))
}

pub(crate) fn read_classes(alloc: Global, text: &str) -> Result<Option<String>, AllocError>
    ensures { IfOk result (λ value. option_map text_of value ≡ classes_of (chars text.now)) }
{
    read_tokens(alloc, TokenKind::Class, text)
}

pub(crate) fn read_relations(alloc: Global, text: &str) -> Result<Option<String>, AllocError>
    ensures { IfOk result (λ value. option_map text_of value ≡ relations_of (chars text.now)) }
{
    let lowered = lower(alloc, text)?;
    let tokens = read_tokens(alloc, TokenKind::Relation, lowered.as_str())?;
    Ok(tokens)
}

/// The tokens of the text, each once, with a space between each two.
fn read_tokens(alloc: Global, kind: TokenKind, text: &str) -> Result<Option<String>, AllocError>
    ensures { IfOk result (λ value. option_map text_of value ≡ tokens_of (passes kind) (chars text.now)) }
{
    let mut seen = BTreeSet::new(alloc);
    let mut written = String::new(alloc);
    let mut rest = text;
    'reading: while let Some((piece, behind)) = cut_at_space(rest) {
        push_token(&mut written, &mut seen, kind, piece)?;
        rest = behind;
    }
    push_token(&mut written, &mut seen, kind, rest)?;
    Ok(some_text(written))
}

/// What was written, if anything was.
fn some_text(written: String) -> Option<String>
    ensures { option_map text_of result ≡ (if is_empty (text_of written) then None else Some (text_of written)) }
{
    if is_nothing(written.as_str()) {
        None
    } else {
        Some(written)
    }
}

/// Writes the piece where it is a token that wasn't met before.
fn push_token<'a>(
    written: &mut String,
    seen: &mut BTreeSet<&'a [u8]>,
    kind: TokenKind,
    piece: &'a str,
) -> Result<(), AllocError>
    ensures { OnOk result ((more : List (List ℕ)) → put_all (text_of written.new) (fresh (has seen.new) (filter (passes kind) more))
        ≡ put_all (text_of written.old) (fresh (has seen.old) (filter (passes kind) (chars piece.now ∷ more)))) }
{
    if !is_token(kind, piece) {
        return Ok(());
    }
    if !is_new(seen, piece.as_bytes())? {
        return Ok(());
    }
    push_behind_space(written, piece)?;
    Ok(())
}

/// Writes a token behind a space, and the first one without it.
fn push_behind_space(written: &mut String, token: &str) -> Result<(), AllocError>
    ensures { OnOk result (text_of written.new ≡ put (text_of written.old) (chars token.now)) }
{
    if is_nothing(written.as_str()) {
        written.push_str(token)?;
        return Ok(());
    }
    written.push(' ')?;
    written.push_str(token)?;
    Ok(())
}

/// Whether the token wasn't met before; now it is.
fn is_new<'a>(seen: &mut BTreeSet<&'a [u8]>, token: &'a [u8]) -> Result<bool, AllocError>
    ensures new { IfOk result (λ new. new ≡ not (has seen.old token.now)) }
    ensures met { OnOk result ((other : List ℕ) → has seen.new other ≡ (if bytes_eq token.now other then true else has seen.old other)) }
{
    let new = seen.insert(token)?;
    Ok(new)
}

fn is_token(kind: TokenKind, piece: &str) -> bool
    ensures { result ≡ passes kind (chars piece.now) }
{
    passes(kind, piece.as_bytes())
}

fn passes(kind: TokenKind, token: &[u8]) -> bool
    ensures { result ≡ passes kind token.now }
{
    match kind {
        TokenKind::Class => is_class(token),
        TokenKind::Relation => is_among(&RELATIONS, token),
    }
}

fn is_class(token: &[u8]) -> bool
    ensures { result ≡ is_class token.now }
{
    match token {
        [first, behind @ ..] => is_class_start(*first) && has_class_characters(behind),
        [] => false,
    }
}

fn is_class_start(byte: u8) -> bool
    ensures { result ≡ is_class_start byte }
{
    matches!(byte, b'A'..=b'Z' | b'a'..=b'z' | b'_' | b'-')
}

fn has_class_characters(text: &[u8]) -> bool
    ensures { result ≡ list_all is_class_character text.now }
{
    text.iter().all(is_class_character)
}

fn is_class_character(byte: &u8) -> bool
    ensures { result ≡ is_class_character byte.now }
{
    matches!(byte, b'A'..=b'Z' | b'a'..=b'z' | b'0'..=b'9' | b'_' | b'-')
}

/// What stands before the first white space, and what stands behind it.
fn cut_at_space(text: &str) -> Option<(&str, &str)>
    ensures piece_text { IfSome result (λ parts. IsUtf8 parts.0.now) }
    ensures behind_text { IfSome result (λ parts. IsUtf8 parts.1.now) }
    ensures cut { IfSome result (λ parts. pieces (chars text.now) ≡ chars parts.0.now ∷ pieces (chars parts.1.now)) }
    ensures shorter { IfSome result (λ parts. length parts.1.now < length text.now) }
    ensures whole { IfNone result (pieces (chars text.now) ≡ chars text.now ∷ []) }
{
    match space_place(text.as_bytes()) {
        Some(place) => {
            let (piece, tail) = text.split_at(place);
            let (_, behind) = tail.split_at(1);
            Some((piece, behind))
        }
        None => None,
    }
}

/// Where the first white space stands.
fn space_place(text: &[u8]) -> Option<usize>
    ensures { result ≡ position is_space text.now }
{
    text.iter()
        .position(|byte| matches!(byte, b' ' | b'\t' | b'\n'))
}
