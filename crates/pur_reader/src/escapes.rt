// Texts and values in which references stand for some characters.
ghost use Rattle.std.specs.Prelude.{ℕ, ◌≡◌, ◌<◌, ◌∷◌, ◌++◌, List, length, true, IfOk, IfSome, IfNone, IsTrue};
ghost use Rattle.std.specs.List.{list_all};
ghost use Rattle.std.specs.Str.{chars, IsUtf8};
ghost use Rattle.pur_text.specs.Characters.{is_allowed};
ghost use Rattle.pur_text.specs.Texts.{text_of};
ghost use Rattle.pur_reader.specs.Private.Escaping.{escape_where, written_where, is_plain, IsWritten};

use crate::cuts::{behind, cut_at};
use pur_text::is_allowed;
use std::alloc::{AllocError, Global};

/// The characters that are written so in a value, or else in a text, where there are such.
pub(crate) fn read_escaped(
    alloc: Global,
    text: &str,
    in_value: bool,
) -> Result<Option<String>, AllocError>
    ensures some { IfOk result (λ found. IfSome found (λ read. written_where in_value (text_of read) ≡ chars text.now)) }
    ensures allowed { IfOk result (λ found. IfSome found (λ read. list_all is_allowed (text_of read) ≡ true)) }
    ensures none { IfOk result (λ found. IfNone found (IsWritten in_value (chars text.now) → ⊥)) }
{
    let mut read = String::new(alloc);
    let mut rest = text;
    'reading: while let Some((run, reference)) = cut_at(rest, '&') {
        if !is_plain_run(run, in_value) {
            return Ok(None);
        }
        match cut_reference(reference, in_value) {
            Some((c, behind)) => {
                read.push_str(run)?;
                read.push(c)?;
                rest = behind;
            }
            None => return Ok(None),
        }
    }
    if !is_plain_run(rest, in_value) {
        return Ok(None);
    }
    read.push_str(rest)?;
    Ok(Some(read))
}

// Whether each character stands for itself.
fn is_plain_run(run: &str, in_value: bool) -> bool
    ensures { result ≡ list_all (is_plain in_value) (chars run.now) }
{
    if in_value {
        run.chars().all(|c| is_allowed(c) && c != '&' && c != '<' && c != '>' && c != '"')
    } else {
        run.chars()
            .all(|c| is_allowed(c) && c != '&' && c != '<' && c != '>')
    }
}

// The character of a reference, from behind its `&` on, and the text behind it.
fn cut_reference(text: &str, in_value: bool) -> Option<(char, &str)>
    ensures text { IfSome result (λ cut. IsUtf8 cut.1.now) }
    ensures shorter { IfSome result (λ cut. length cut.1.now < length text.now) }
    ensures some { IfSome result (λ cut. 0x26 ∷ chars text.now ≡ escape_where in_value cut.0 ++ chars cut.1.now) }
    ensures allowed { IfSome result (λ cut. is_allowed cut.0 ≡ true) }
    ensures left { IfSome result (λ cut. IsWritten in_value (0x26 ∷ chars text.now) → IsWritten in_value (chars cut.1.now)) }
    ensures none { IfNone result (IsWritten in_value (0x26 ∷ chars text.now) → ⊥) }
{
    if let Some(rest) = behind(text, "amp;") {
        return Some(('&', rest));
    }
    if let Some(rest) = behind(text, "lt;") {
        return Some(('<', rest));
    }
    if let Some(rest) = behind(text, "gt;") {
        return Some(('>', rest));
    }
    if !in_value {
        return None;
    }
    match behind(text, "quot;") {
        Some(rest) => Some(('"', rest)),
        None => None,
    }
}
