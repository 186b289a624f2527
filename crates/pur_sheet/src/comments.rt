//! What a sheet loses before it is read.
ghost use Rattle.std.specs.Prelude.{ℕ, List, ◌≡◌, ◌∷◌, ◌<◌, [], length, IfOk, IfSome, IfNone, true};
ghost use Rattle.std.specs.Str.{chars};
ghost use Rattle.pur_sheet.specs.Comments.{unmarked, uncommented, uncommented_behind};

use crate::texts::{behind_mark, characters, cut_first};
use std::alloc::{AllocError, Global};

/// The text without the marks `<!--` and `-->`, and with a space for each comment. It is walked twice.
pub(crate) fn without_comments(alloc: Global, raw: &str) -> Result<Vec<char>, AllocError>
    ensures { IfOk result (λ text. text.items ≡ uncommented (unmarked (chars raw.now))) }
{
    let all = characters(alloc, raw)?;
    let text = unmarked(alloc, &all)?;
    uncommented(alloc, &text)
}

fn unmarked(alloc: Global, text: &[char]) -> Result<Vec<char>, AllocError>
    ensures { IfOk result (λ kept. kept.items ≡ unmarked text.now) }
{
    let mut kept = Vec::new(alloc);
    let mut rest = text;
    'walking: while let Some((c, behind)) = cut_first(rest) {
        match behind_html_mark(rest) {
            Some(after) => {
                rest = after;
            }
            None => {
                kept.push(c)?;
                rest = behind;
            }
        }
    }
    Ok(kept)
}

/// What stands behind the `<!--` or the `-->` that the text begins with.
fn behind_html_mark(text: &[char]) -> Option<&[char]>
    ensures mark { IfSome result (λ after. unmarked text.now ≡ unmarked after.now) }
    ensures shorter { IfSome result (λ after. length after.now < length text.now) }
    ensures none { IfNone result ((c : ℕ) (behind : List ℕ) → text.now ≡ c ∷ behind → unmarked text.now ≡ c ∷ unmarked behind) }
{
    match behind_mark(text, &['<', '!', '-', '-']) {
        Some(after) => Some(after),
        None => behind_mark(text, &['-', '-', '>']),
    }
}

fn uncommented(alloc: Global, text: &[char]) -> Result<Vec<char>, AllocError>
    ensures { IfOk result (λ kept. kept.items ≡ uncommented text.now) }
{
    let mut kept = Vec::new(alloc);
    let mut rest = text;
    'walking: while let Some((c, behind)) = cut_first(rest) {
        match behind_mark(rest, &['/', '*']) {
            Some(inside) => match behind_comment(inside) {
                Some(after) => {
                    kept.push(' ')?;
                    rest = after;
                }
                None => {
                    return Ok(kept);
                }
            },
            None => {
                kept.push(c)?;
                rest = behind;
            }
        }
    }
    Ok(kept)
}

/// What stands behind the next `*/`.
fn behind_comment(text: &[char]) -> Option<&[char]>
    ensures closed { IfSome result (λ behind. uncommented_behind true 0 text.now ≡ 0x20 ∷ uncommented behind.now) }
    ensures shorter { IfSome result (λ behind. length behind.now < length text.now) }
    ensures unclosed { IfNone result (uncommented_behind true 0 text.now ≡ []) }
{
    let mut rest = text;
    'searching: while let Some((_, behind)) = cut_first(rest) {
        if let Some(after) = behind_mark(rest, &['*', '/']) {
            return Some(after);
        }
        rest = behind;
    }
    None
}
