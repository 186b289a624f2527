//! URLs.
ghost use Rattle.std.specs.Prelude.{◌≡◌, IfOk, option_map, if◌then◌else◌, Some, None};
ghost use Rattle.std.specs.List.{list_any};
ghost use Rattle.std.specs.Str.{chars};
ghost use Rattle.pur_csstok.specs.Urls.{breaks_quotes, breaks_bare, without, argument_read, url_read};
ghost use Rattle.pur_text.specs.Texts.{text_of};

use crate::ends::{argument_of, between};
use pur_text::{is_space, trim};
use std::alloc::{AllocError, Global};

/// The text in the parentheses of `url()` (CSS 2.1, section 4.3.4), without the white space and the quotes round it. It
/// isn't looked at further, and may be empty.
///
/// `None` comes where the whole text isn't `url(`, in either case, a text and `)`; for a text in quotes with that quote, a
/// tab or a line feed in it; and for a text without quotes that has quotes, parentheses or white space. The error is want
/// of memory.
#[tactic(auto, unfolding(crate::specs::Urls::url_read))]
pub fn read_url(alloc: Global, raw: &str) -> Result<Option<String>, AllocError>
    ensures { IfOk result (λ url. option_map text_of url ≡ url_read (chars raw.now)) }
{
    match argument_of(raw, ['u', 'r', 'l']) {
        Some(argument) => argument_read(alloc, trim(argument)),
        None => Ok(None),
    }
}

#[tactic(auto, unfolding(crate::specs::Urls::argument_read))]
fn argument_read(alloc: Global, text: &str) -> Result<Option<String>, AllocError>
    ensures { IfOk result (λ url. option_map text_of url ≡ argument_read (chars text.now)) }
{
    if let Some(inner) = between(text, '"') {
        return text_unless(alloc, inner, breaks_quotes(inner, '"'));
    }
    if let Some(inner) = between(text, '\'') {
        return text_unless(alloc, inner, breaks_quotes(inner, '\''));
    }
    text_unless(alloc, text, breaks_bare(text))
}

fn text_unless(alloc: Global, text: &str, broken: bool) -> Result<Option<String>, AllocError>
    ensures { IfOk result (λ url. option_map text_of url ≡ (if broken then None else Some (chars text.now))) }
{
    if broken {
        return Ok(None);
    }
    Ok(Some(text.to_string(alloc)?))
}

/// Whether the text has this quote, a tab or a line feed.
fn breaks_quotes(text: &str, quote: char) -> bool
    ensures { result ≡ list_any (breaks_quotes quote) (chars text.now) }
{
    text.chars().any(|c| c == quote || matches!(c, '\t' | '\n'))
}

/// Whether the text has quotes, parentheses or white space.
fn breaks_bare(text: &str) -> bool
    ensures { result ≡ list_any breaks_bare (chars text.now) }
{
    text.chars()
        .any(|c| matches!(c, '"' | '\'' | '(' | ')') || is_space(c))
}
