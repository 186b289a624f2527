//! The declarations of a style, and the words of a value.
ghost use Rattle.std.specs.Prelude.{◌≡◌, ◌++◌, ◌∷◌, [], map, filter, IfOk, OnOk, option_map, slice_index, ◌==◌, ◌&&◌, ◌||◌};
ghost use Rattle.std.specs.List.{cons_option};
ghost use Rattle.std.specs.Str.{chars};
ghost use Rattle.pur_csstok.specs.Declarations.{has_escape_or_comment, clean_pair, is_word, declaration_of, declarations_of, words_of};
ghost use Rattle.pur_text.specs.Texts.{text_of};
ghost use Rattle.pur_csstok.specs.Written.{pair_of, pairs_of};

use crate::cuts::{Separator, cut};
use crate::texts::{cut_at, cut_first, lower};
use pur_text::trim;
use std::alloc::{AllocError, Global};

/// A declaration of a style: a property, in lower case, and a value, both without white space at their ends.
#[derive(Drop)]
pub struct Declaration {
    /// What stands before the first colon.
    pub property: String,
    /// What stands behind it.
    pub value: String,
}

/// The declarations of a style (CSS 2.1, sections 4.1.8 and 4.2), in their order.
///
/// A `;` ends a declaration, but not within quotes or parentheses; so one that leaves a quote or a parenthesis open takes
/// all the text behind it along. Left out is what has no colon, and what has a backslash or `/*` anywhere in it. No
/// property and no value is judged. The error is want of memory.
pub fn split(alloc: Global, style: &str) -> Result<Vec<Declaration>, AllocError>
    ensures { IfOk result (λ declarations. pairs_of declarations.items ≡ declarations_of (chars style.now)) }
{
    let mut declarations = Vec::new(alloc);
    let mut rest = style;
    'splitting: while let Some((piece, behind)) = cut(rest, Separator::Semicolon) {
        push_declaration(alloc, &mut declarations, piece)?;
        rest = behind;
    }
    push_declaration(alloc, &mut declarations, rest)?;
    Ok(declarations)
}

/// Adds the declaration that the piece writes, if it writes one.
fn push_declaration(
    alloc: Global,
    declarations: &mut Vec<Declaration>,
    piece: &str,
) -> Result<(), AllocError>
    ensures { OnOk result (pairs_of declarations.new.items ≡ pairs_of declarations.old.items ++ cons_option (declaration_of (chars piece.now)) []) }
{
    if let Some(declaration) = declaration_of(alloc, piece)? {
        declarations.push(declaration)?;
    }
    Ok(())
}

#[tactic(auto, unfolding(crate::specs::Declarations::declaration_of))]
fn declaration_of(alloc: Global, piece: &str) -> Result<Option<Declaration>, AllocError>
    ensures { IfOk result (λ declaration. option_map pair_of declaration ≡ declaration_of (chars piece.now)) }
{
    if has_escape_or_comment(piece) {
        return Ok(None);
    }
    match cut_at(piece, ':') {
        Some((property, value)) => Ok(Some(declaration_with(alloc, property, value)?)),
        None => Ok(None),
    }
}

/// The declaration of a property and a value, white space and capital letters taken away.
fn declaration_with(alloc: Global, property: &str, value: &str) -> Result<Declaration, AllocError>
    ensures { IfOk result (λ declaration. pair_of declaration ≡ clean_pair (chars property.now) (chars value.now)) }
{
    let property = lower(alloc, trim(property))?;
    let value = trim(value).to_string(alloc)?;
    Ok(Declaration { property, value })
}

/// Whether the text has a backslash, or `/*`, somewhere.
fn has_escape_or_comment(text: &str) -> bool
    ensures { result ≡ has_escape_or_comment (chars text.now) }
{
    let mut rest = text;
    'looking: while let Some((c, behind)) = cut_first(rest) {
        if is_escape_or_comment(c, behind) {
            return true;
        }
        rest = behind;
    }
    false
}

/// Whether a backslash stands here, or `/*`.
fn is_escape_or_comment(c: char, behind: &str) -> bool
    ensures { result ≡ (c == 0x5C || (c == 0x2F && slice_index (chars behind.now) 0 == 0x2A)) }
{
    match c {
        '\\' => true,
        '/' => matches!(cut_first(behind), Some(('*', _))),
        _ => false,
    }
}

/// The words of a value, in their order. White space parts them, but not within quotes or parentheses.
///
/// No word is empty. The error is want of memory.
pub fn split_words(alloc: Global, value: &str) -> Result<Vec<String>, AllocError>
    ensures { IfOk result (λ words. map text_of words.items ≡ words_of (chars value.now)) }
{
    let mut words = Vec::new(alloc);
    let mut rest = value;
    'splitting: while let Some((piece, behind)) = cut(rest, Separator::Space) {
        push_word(alloc, &mut words, piece)?;
        rest = behind;
    }
    push_word(alloc, &mut words, rest)?;
    Ok(words)
}

fn push_word(alloc: Global, words: &mut Vec<String>, piece: &str) -> Result<(), AllocError>
    ensures { OnOk result (map text_of words.new.items ≡ map text_of words.old.items ++ filter is_word (chars piece.now ∷ [])) }
{
    if is_word(piece) {
        words.push(piece.to_string(alloc)?)?;
    }
    Ok(())
}

fn is_word(piece: &str) -> bool
    ensures { result ≡ is_word (chars piece.now) }
{
    !piece.is_empty()
}
