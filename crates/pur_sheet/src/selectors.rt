//! Selectors, and the scope in front of them.
ghost use Rattle.std.specs.Prelude.{◌≡◌, ◌++◌, ◌∷◌, ◌<◌, ◌≤◌, ◌+◌, [], length, IfOk, IfSome, IfNone, OnOk};
ghost use Rattle.std.specs.List.{list_all, prefix_len};
ghost use Rattle.pur_text.specs.Characters.{is_space};
ghost use Rattle.pur_sheet.specs.Private.Words.{begins_with_word, is_no_space};
ghost use Rattle.pur_text.specs.Texts.{text_of};
ghost use Rattle.pur_sheet.specs.Selectors.{are_selectors, begins_with_compound, chain_text, chains_of, chains_text, compound_count, is_chain, is_compound, is_scoped, is_selector, is_short, scope_compound, selector_text, selectors_text, words_of};

use crate::compounds::{is_compound, push_compound};
use crate::texts::{cut_at, push_character, push_characters, push_text};
use pur_settings::Settings;
use pur_text::is_space;
use std::alloc::{AllocError, Global};

/// The first word of the text, and what stands behind it.
fn next_word(text: &[char]) -> Option<(&[char], &[char])>
    ensures word { IfSome result (λ parts. words_of text.now ≡ parts.0.now ∷ words_of parts.1.now) }
    ensures shorter { IfSome result (λ parts. length parts.1.now < length text.now) }
    ensures none { IfNone result (words_of text.now ≡ []) }
{
    let (_, word_on) = text.split_at(space_length(text));
    if word_on.is_empty() {
        return None;
    }
    Some(word_on.split_at(word_length(word_on)))
}

/// How many characters of white space the text begins with.
fn space_length(text: &[char]) -> usize
    ensures { result ≡ prefix_len is_space text.now }
{
    text.iter().take_while(|c| is_space(**c)).count()
}

/// How many characters stand before the first white space.
fn word_length(text: &[char]) -> usize
    ensures { result ≡ prefix_len is_no_space text.now }
{
    text.iter().take_while(|c| !is_space(**c)).count()
}

/// How many words the text has.
fn count_words(text: &[char]) -> usize
    ensures count { result ≡ length (words_of text.now) }
    ensures small { result ≤ length text.now }
{
    let mut count = 0;
    let mut rest = text;
    'counting: while let Some((_, behind)) = next_word(rest) {
        count += 1;
        rest = behind;
    }
    count
}

/// How many compounds the text's chains have.
fn count_compounds(text: &[char]) -> usize
    ensures count { result ≡ compound_count (chains_of text.now) }
    ensures small { result ≤ length text.now }
{
    let mut count = 0;
    let mut rest = text;
    'counting: while let Some((chain, behind)) = cut_at(rest, '>') {
        count += count_words(chain);
        rest = behind;
    }
    count + count_words(rest)
}

/// Whether the words of the text are a chain of compounds.
fn is_chain(alloc: Global, settings: &Settings, text: &[char]) -> Result<bool, AllocError>
    ensures { IfOk result (λ is. is ≡ is_chain settings.now (words_of text.now)) }
{
    let Some((first, behind)) = next_word(text) else {
        return Ok(false);
    };
    if !is_compound(alloc, settings, first)? {
        return Ok(false);
    }
    are_compounds(alloc, settings, behind)
}

fn are_compounds(alloc: Global, settings: &Settings, text: &[char]) -> Result<bool, AllocError>
    ensures { IfOk result (λ are. are ≡ list_all (is_compound settings.now) (words_of text.now)) }
{
    let mut rest = text;
    'reading: while let Some((word, behind)) = next_word(rest) {
        if !is_compound(alloc, settings, word)? {
            return Ok(false);
        }
        rest = behind;
    }
    Ok(true)
}

fn are_chains(alloc: Global, settings: &Settings, text: &[char]) -> Result<bool, AllocError>
    ensures { IfOk result (λ are. are ≡ list_all (is_chain settings.now) (chains_of text.now)) }
{
    let mut rest = text;
    'reading: while let Some((chain, behind)) = cut_at(rest, '>') {
        if !is_chain(alloc, settings, chain)? {
            return Ok(false);
        }
        rest = behind;
    }
    is_chain(alloc, settings, rest)
}

/// Whether the selector begins with the compound that a sheet is kept to, and has more of them.
fn is_scoped(scope: &[char], text: &[char]) -> bool
    ensures { result ≡ is_scoped scope.now (chains_of text.now) }
{
    begins_with_scope(scope, text) && count_compounds(text) > 1
}

fn begins_with_scope(scope: &[char], text: &[char]) -> bool
    ensures { result ≡ begins_with_compound (scope_compound scope.now) (chains_of text.now) }
{
    match cut_at(text, '>') {
        Some((chain, _)) => first_word_is_scope(scope, chain),
        None => first_word_is_scope(scope, text),
    }
}

fn first_word_is_scope(scope: &[char], chain: &[char]) -> bool
    ensures { result ≡ begins_with_word (scope_compound scope.now) (words_of chain.now) }
{
    match next_word(chain) {
        Some((['#', name @ ..], _)) => name == scope,
        _ => false,
    }
}

#[tactic(auto, unfolding(crate::specs::Selectors::is_selector))]
fn is_selector(
    alloc: Global,
    settings: &Settings,
    scope: &[char],
    text: &[char],
) -> Result<bool, AllocError>
    ensures { IfOk result (λ is. is ≡ is_selector settings.now scope.now text.now) }
{
    if !are_chains(alloc, settings, text)? {
        return Ok(false);
    }
    Ok(is_short(scope, text))
}

/// Whether the selector has at most 16 compounds, with the one in front of it.
fn is_short(scope: &[char], text: &[char]) -> bool
    ensures { result ≡ is_short scope.now (chains_of text.now) }
{
    let count = count_compounds(text);
    if is_scoped(scope, text) {
        count <= 16
    } else {
        count < 16
    }
}

/// Whether each of the texts between commas is a selector.
pub(crate) fn are_selectors(
    alloc: Global,
    settings: &Settings,
    scope: &[char],
    prelude: &[char],
) -> Result<bool, AllocError>
    ensures { IfOk result (λ are. are ≡ are_selectors settings.now scope.now prelude.now) }
{
    let mut rest = prelude;
    'reading: while let Some((selector, behind)) = cut_at(rest, ',') {
        if !is_selector(alloc, settings, scope, selector)? {
            return Ok(false);
        }
        rest = behind;
    }
    is_selector(alloc, settings, scope, rest)
}

/// Writes the selectors with a comma and a space between each two.
pub(crate) fn push_selectors(
    text: &mut String,
    scope: &[char],
    prelude: &[char],
) -> Result<(), AllocError>
    ensures { OnOk result (text_of text.new ≡ text_of text.old ++ selectors_text scope.now prelude.now) }
{
    let mut rest = prelude;
    'writing: while let Some((selector, behind)) = cut_at(rest, ',') {
        push_selector(text, scope, selector)?;
        push_text(text, ", ")?;
        rest = behind;
    }
    push_selector(text, scope, rest)
}

#[tactic(auto, unfolding(crate::specs::Selectors::selector_text))]
fn push_selector(text: &mut String, scope: &[char], selector: &[char]) -> Result<(), AllocError>
    ensures { OnOk result (text_of text.new ≡ text_of text.old ++ selector_text scope.now selector.now) }
{
    if is_scoped(scope, selector) {
        return push_chains(text, selector);
    }
    push_scope(text, scope)?;
    push_chains(text, selector)
}

/// Writes the compound that a sheet is kept to, and a space.
fn push_scope(text: &mut String, scope: &[char]) -> Result<(), AllocError>
    ensures { OnOk result (text_of text.new ≡ text_of text.old ++ (scope_compound scope.now ++ 0x20 ∷ [])) }
{
    push_character(text, '#')?;
    push_characters(text, scope)?;
    push_character(text, ' ')
}

fn push_chains(text: &mut String, selector: &[char]) -> Result<(), AllocError>
    ensures { OnOk result (text_of text.new ≡ text_of text.old ++ chains_text (chains_of selector.now)) }
{
    let mut rest = selector;
    'writing: while let Some((chain, behind)) = cut_at(rest, '>') {
        push_chain(text, chain)?;
        push_text(text, " > ")?;
        rest = behind;
    }
    push_chain(text, rest)
}

/// Writes the words of the text as compounds with a space between each two.
fn push_chain(text: &mut String, chain: &[char]) -> Result<(), AllocError>
    ensures { OnOk result (text_of text.new ≡ text_of text.old ++ chain_text (words_of chain.now)) }
{
    let Some((first, behind)) = next_word(chain) else {
        return Ok(());
    };
    push_compound(text, first)?;
    let mut rest = behind;
    'writing: while let Some((word, after)) = next_word(rest) {
        push_character(text, ' ')?;
        push_compound(text, word)?;
        rest = after;
    }
    Ok(())
}
