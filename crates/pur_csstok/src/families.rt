//! Font families.
ghost use Rattle.std.specs.Prelude.{◌≡◌, ◌++◌, ◌∷◌, [], length, map, IfOk, IfSome, OnOk, option_map};
ghost use Rattle.std.specs.List.{cons_option, list_all};
ghost use Rattle.std.specs.Str.{IsUtf8, chars};
ghost use Rattle.pur_csstok.specs.Names.{is_one_of};
ghost use Rattle.pur_csstok.specs.Families.{is_name_character, quoted, name_read, generics, bare_read, unquoted, family_read, families_kept, families_joined, families_read};
ghost use Rattle.pur_text.specs.Texts.{text_of};

use crate::cuts::{Separator, cut};
use crate::declarations::split_words;
use crate::ends::between;
use crate::texts::{join_with_comma, join_with_space, lower};
use pur_text::{is_space, trim};
use std::alloc::{AllocError, Global};

/// The font families that the text lists (CSS 2.1, section 15.3), in their one form: joined by `,`, the generic ones bare
/// and in lower case, each other one in `'`.
///
/// Commas part the list, but not within quotes. A family without quotes that is `serif`, `sans-serif`, `cursive`,
/// `fantasy` or `monospace`, in either case, is that generic one. All else is a name, written with one space between its
/// words. A name that is empty, or has anything but ASCII letters, digits, white space, `-` and `_`, is left out.
///
/// `None` comes where nothing is left. The error is want of memory.
pub fn read_families(alloc: Global, raw: &str) -> Result<Option<String>, AllocError>
    ensures { IfOk result (λ families. option_map text_of families ≡ families_read (chars raw.now)) }
{
    let families = families_kept(alloc, raw)?;
    if families.is_empty() {
        return Ok(None);
    }
    Ok(Some(join_with_comma(alloc, &families)?))
}

fn families_kept(alloc: Global, raw: &str) -> Result<Vec<String>, AllocError>
    ensures { IfOk result (λ families. map text_of families.items ≡ families_kept (chars raw.now)) }
{
    let mut families = Vec::new(alloc);
    let mut rest = raw;
    'reading: while let Some((part, behind)) = cut(rest, Separator::Comma) {
        push_family(alloc, &mut families, part)?;
        rest = behind;
    }
    push_family(alloc, &mut families, rest)?;
    Ok(families)
}

fn push_family(alloc: Global, families: &mut Vec<String>, part: &str) -> Result<(), AllocError>
    ensures { OnOk result (map text_of families.new.items ≡ map text_of families.old.items ++ cons_option (family_read (chars part.now)) []) }
{
    if let Some(family) = family_read(alloc, part)? {
        families.push(family)?;
    }
    Ok(())
}

/// The family of one part.
#[tactic(auto, unfolding(crate::specs::Families::family_read))]
fn family_read(alloc: Global, part: &str) -> Result<Option<String>, AllocError>
    ensures { IfOk result (λ family. option_map text_of family ≡ family_read (chars part.now)) }
{
    let text = trim(part);
    match unquoted(text) {
        Some(name) => name_read(alloc, name),
        None => bare_read(alloc, text),
    }
}

/// What stands in quotes of either kind, if the text is a text in quotes.
fn unquoted(text: &str) -> Option<&str>
    ensures text { IfSome result (λ inner. IsUtf8 inner.now) }
    ensures inner { option_map (λ inner. chars inner.now) result ≡ unquoted (chars text.now) }
{
    match between(text, '"') {
        Some(inner) => Some(inner),
        None => between(text, '\''),
    }
}

/// The family of a part without quotes.
#[tactic(auto, unfolding(crate::specs::Families::bare_read))]
fn bare_read(alloc: Global, text: &str) -> Result<Option<String>, AllocError>
    ensures { IfOk result (λ family. option_map text_of family ≡ bare_read (chars text.now)) }
{
    let lowered = lower(alloc, text)?;
    if is_generic(lowered.as_str()) {
        return Ok(Some(lowered));
    }
    name_read(alloc, text)
}

fn is_generic(name: &str) -> bool
    ensures { result ≡ is_one_of generics (chars name.now) }
{
    is_generic_name(name)
}

fn is_generic_name(name: &str) -> bool
    ensures { result ≡ is_one_of generics name.now }
{
    match name {
        "serif" | "sans-serif" | "cursive" | "fantasy" | "monospace" => true,
        _ => false,
    }
}

/// The family with this name, in quotes.
#[tactic(auto, unfolding(crate::specs::Families::name_read))]
fn name_read(alloc: Global, name: &str) -> Result<Option<String>, AllocError>
    ensures { IfOk result (λ family. option_map text_of family ≡ name_read (chars name.now)) }
{
    if !is_name(name) {
        return Ok(None);
    }
    let words = split_words(alloc, name)?;
    if words.is_empty() {
        return Ok(None);
    }
    Ok(Some(quoted(alloc, &words)?))
}

/// The words in quotes, with one space between each two.
fn quoted(alloc: Global, words: &[String]) -> Result<String, AllocError>
    ensures { IfOk result (λ family. text_of family ≡ quoted (map text_of words.now)) }
{
    let name = join_with_space(alloc, words)?;
    let mut family = String::new(alloc);
    family.push('\'')?;
    family.push_str(name.as_str())?;
    family.push('\'')?;
    Ok(family)
}

/// Whether the text has only what a name and the white space in it are made of.
fn is_name(text: &str) -> bool
    ensures { result ≡ list_all is_name_character (chars text.now) }
{
    text.chars().all(is_name_character)
}

fn is_name_character(c: char) -> bool
    ensures { result ≡ is_name_character c }
{
    is_space(c) || matches!(c, 'a'..='z' | 'A'..='Z' | '0'..='9' | '-' | '_')
}
