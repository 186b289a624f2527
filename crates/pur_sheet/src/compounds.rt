//! The compounds of selectors.
ghost use Rattle.std.specs.Prelude.{◌≡◌, ◌++◌, IfOk, OnOk, codes};
ghost use Rattle.std.specs.Str.{bytes_eq, chars};
ghost use Rattle.pur_settings.specs.Rules.{permits_name};
ghost use Rattle.std.specs.List.{list_all, prefix_len};
ghost use Rattle.pur_text.specs.Texts.{text_of};
ghost use Rattle.pur_sheet.specs.Selectors.{compound_of, compound_text, is_class, is_compound, is_head, is_identifier, is_letter, is_mark, is_name_character, is_part};
ghost use Rattle.pur_sheet.specs.Private.Words.{is_no_mark};

use crate::texts::{cut_first, push_characters, push_lowered};
use pur_names::Element;
use pur_settings::Settings;
use std::alloc::{AllocError, Global};

fn is_letter(c: char) -> bool
    ensures { result ≡ is_letter c }
{
    matches!(c, 'A'..='Z' | 'a'..='z')
}

fn is_name_character(c: &char) -> bool
    ensures { result ≡ is_name_character c.now }
{
    matches!(*c, 'A'..='Z' | 'a'..='z' | '0'..='9' | '-' | '_')
}

fn has_name_characters(text: &[char]) -> bool
    ensures { result ≡ list_all is_name_character text.now }
{
    text.iter().all(is_name_character)
}

pub(crate) fn is_identifier(text: &[char]) -> bool
    ensures { result ≡ is_identifier text.now }
{
    match text {
        [first, behind @ ..] => is_letter(*first) && has_name_characters(behind),
        [] => false,
    }
}

fn is_class(text: &[char]) -> bool
    ensures { result ≡ is_class text.now }
{
    match text {
        [first, behind @ ..] => (is_letter(*first) || matches!(*first, '_' | '-'))
            && has_name_characters(behind),
        [] => false,
    }
}

/// How many characters stand before the first `.` or `#`.
fn head_length(text: &[char]) -> usize
    ensures { result ≡ prefix_len is_no_mark text.now }
{
    text.iter()
        .take_while(|c| !matches!(**c, '.' | '#'))
        .count()
}

/// Whether the text, which isn't empty, is a compound.
pub(crate) fn is_compound(
    alloc: Global,
    settings: &Settings,
    text: &[char],
) -> Result<bool, AllocError>
    ensures { IfOk result (λ is. is ≡ is_compound settings.now text.now) }
{
    let (head, parts) = text.split_at(head_length(text));
    if !are_parts(parts) {
        return Ok(false);
    }
    let is = is_head(alloc, settings, head)?;
    Ok(is)
}

fn is_head(alloc: Global, settings: &Settings, head: &[char]) -> Result<bool, AllocError>
    ensures { IfOk result (λ is. is ≡ is_head settings.now head.now) }
{
    if head.is_empty() || is_star(head) {
        return Ok(true);
    }
    let mut name = String::new(alloc);
    push_lowered(&mut name, head)?;
    Ok(permits_name(settings, name.as_str()))
}

fn is_star(head: &[char]) -> bool
    ensures { result ≡ bytes_eq head.now (codes "*") }
{
    matches!(head, ['*'])
}

fn permits_name(settings: &Settings, name: &str) -> bool
    ensures { result ≡ permits_name settings.now (chars name.now) }
{
    match Element::from_name(name) {
        Some(element) => settings.permits(element),
        None => false,
    }
}

/// Whether these are parts, a text that is empty or begins with `.` or `#`.
fn are_parts(text: &[char]) -> bool
    requires { prefix_len is_no_mark text.now ≡ 0 }
    ensures { result ≡ list_all is_part (compound_of text.now).parts }
{
    let mut rest = text;
    'reading: while let Some((mark, behind)) = cut_first(rest) {
        let (name, next) = behind.split_at(head_length(behind));
        if !is_part(mark, name) {
            return false;
        }
        rest = next;
    }
    true
}

fn is_part(mark: char, name: &[char]) -> bool
    ensures { result ≡ is_part (mark, name.now) }
{
    if mark == '.' {
        is_class(name)
    } else {
        is_identifier(name)
    }
}

/// Writes the compound, its head in lower case.
pub(crate) fn push_compound(text: &mut String, compound: &[char]) -> Result<(), AllocError>
    ensures { OnOk result (text_of text.new ≡ text_of text.old ++ compound_text compound.now) }
{
    let (head, parts) = compound.split_at(head_length(compound));
    push_lowered(text, head)?;
    push_characters(text, parts)?;
    Ok(())
}
