//! Texts as slices of characters, and the text that is written.
ghost use Rattle.std.specs.Prelude.{◌≡◌, ◌++◌, ◌∷◌, ◌<◌, ◌+◌, [], length, drop, is_some, IfOk, IfSome, IfNone, OnOk};
ghost use Rattle.std.specs.List.{position, slice_split};
ghost use Rattle.std.specs.Str.{chars, str_to_ascii_lowercase};
ghost use Rattle.pur_text.specs.Texts.{text_of};
ghost use Rattle.pur_sheet.specs.Comments.{begins};
ghost use Rattle.pur_sheet.specs.Private.Words.{is_character};

use std::alloc::{AllocError, Global};

/// The characters of a text.
pub(crate) fn characters(alloc: Global, text: &str) -> Result<Vec<char>, AllocError>
    ensures { IfOk result (λ all. all.items ≡ chars text.now) }
{
    text.chars().collect(alloc)
}

/// The text of these characters.
pub(crate) fn text_of(alloc: Global, characters: &[char]) -> Result<String, AllocError>
    ensures { IfOk result (λ text. text_of text ≡ characters.now) }
{
    let mut text = String::new(alloc);
    push_characters(&mut text, characters)?;
    Ok(text)
}

pub(crate) fn push_character(text: &mut String, c: char) -> Result<(), AllocError>
    ensures { OnOk result (text_of text.new ≡ text_of text.old ++ c ∷ []) }
{
    text.push(c)?;
    Ok(())
}

pub(crate) fn push_text(text: &mut String, more: &str) -> Result<(), AllocError>
    ensures { OnOk result (text_of text.new ≡ text_of text.old ++ chars more.now) }
{
    text.push_str(more)?;
    Ok(())
}

pub(crate) fn push_characters(text: &mut String, characters: &[char]) -> Result<(), AllocError>
    ensures { OnOk result (text_of text.new ≡ text_of text.old ++ characters.now) }
{
    for c in characters {
        push_character(text, *c)?;
    }
    Ok(())
}

/// Writes the characters with each of the letters A to Z in lower case.
pub(crate) fn push_lowered(text: &mut String, characters: &[char]) -> Result<(), AllocError>
    ensures { OnOk result (text_of text.new ≡ text_of text.old ++ str_to_ascii_lowercase characters.now) }
{
    for c in characters {
        push_character(text, c.to_ascii_lowercase())?;
    }
    Ok(())
}

/// What stands before the first such character, and what stands behind it.
pub(crate) fn cut_at(text: &[char], separator: char) -> Option<(&[char], &[char])>
    ensures cut { IfSome result (λ parts. slice_split (is_character separator) text.now ≡ parts.0.now ∷ slice_split (is_character separator) parts.1.now) }
    ensures shorter { IfSome result (λ parts. length parts.0.now + length parts.1.now < length text.now) }
    ensures whole { IfNone result (slice_split (is_character separator) text.now ≡ text.now ∷ []) }
{
    match place_of(text, separator) {
        Some(place) => {
            let (front, tail) = text.split_at(place);
            let (_, behind) = tail.split_at(1);
            Some((front, behind))
        }
        None => None,
    }
}

/// The first character, and what stands behind it.
pub(crate) fn cut_first(text: &[char]) -> Option<(char, &[char])>
    ensures cut { IfSome result (λ parts. text.now ≡ parts.0 ∷ parts.1.now) }
    ensures empty { IfNone result (text.now ≡ []) }
{
    match text {
        [first, behind @ ..] => Some((*first, behind)),
        [] => None,
    }
}

/// What stands behind this mark, where the text begins with it.
pub(crate) fn behind_mark<'a>(text: &'a [char], mark: &[char]) -> Option<&'a [char]>
    ensures begins { begins mark.now text.now ≡ is_some result }
    ensures behind { IfSome result (λ behind. behind.now ≡ drop (length mark.now) text.now) }
    ensures size { IfSome result (λ behind. length behind.now + length mark.now ≡ length text.now) }
{
    if !text.starts_with(mark) {
        return None;
    }
    let (_, behind) = text.split_at(mark.len());
    Some(behind)
}

/// Where the first such character stands.
fn place_of(text: &[char], wanted: char) -> Option<usize>
    ensures { result ≡ position (is_character wanted) text.now }
{
    text.iter().position(|c| *c == wanted)
}
