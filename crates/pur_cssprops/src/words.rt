//! Forms of one word.
ghost use Rattle.std.specs.Prelude.{◌≡◌, IfOk, option_map, true, false};
ghost use Rattle.std.specs.Option.{option_or};
ghost use Rattle.std.specs.Str.{chars};
ghost use Rattle.pur_text.specs.Texts.{text_of};
ghost use Rattle.pur_csstok.specs.Lengths.{length_read};
ghost use Rattle.pur_csstok.specs.Numbers.{number_read};
ghost use Rattle.pur_cssprops.specs.Forms.{word_read};
ghost use Rattle.pur_cssprops.specs.Keywords.{keyword_read};

use crate::forms::WordForm;
use crate::keywords::{Keywords, read_keyword};
use pur_csstok::{read_color, read_length, read_number};
use std::alloc::{AllocError, Global};

/// What the word is read as by its form.
#[tactic(auto, unfolding(crate::specs::Forms::word_read))]
pub(crate) fn read_word(
    alloc: Global,
    form: WordForm,
    text: &str,
) -> Result<Option<String>, AllocError>
    ensures { IfOk result (λ value. option_map text_of value ≡ word_read form (chars text.now)) }
{
    match form {
        WordForm::Color { transparent } => read_color(alloc, text, transparent),
        WordForm::Keyword(keywords) => read_keyword(alloc, keywords, text),
        WordForm::Length {
            signed,
            percent,
            keywords,
        } => read_length_or(alloc, keywords, text, signed, percent),
        WordForm::LineHeight => read_line_height(alloc, text),
    }
}

/// One of the words, or a length.
fn read_length_or(
    alloc: Global,
    keywords: Keywords,
    text: &str,
    signed: bool,
    percent: bool,
) -> Result<Option<String>, AllocError>
    ensures { IfOk result (λ value. option_map text_of value ≡ option_or (keyword_read keywords (chars text.now)) (length_read signed percent (chars text.now))) }
{
    if let Some(word) = read_keyword(alloc, keywords, text)? {
        return Ok(Some(word));
    }
    read_length(alloc, text, signed, percent)
}

/// `normal`, a number or a length.
fn read_line_height(alloc: Global, text: &str) -> Result<Option<String>, AllocError>
    ensures { IfOk result (λ value. option_map text_of value ≡ option_or (keyword_read Keywords.Normal (chars text.now)) (option_or (number_read false (chars text.now)) (length_read false true (chars text.now)))) }
{
    if let Some(word) = read_keyword(alloc, Keywords::Normal, text)? {
        return Ok(Some(word));
    }
    if let Some(number) = read_number(alloc, text, false)? {
        return Ok(Some(number));
    }
    read_length(alloc, text, false, true)
}
