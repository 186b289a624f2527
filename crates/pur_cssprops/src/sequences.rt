//! Forms of several words.
ghost use Rattle.std.specs.Prelude.{◌≡◌, ◌++◌, IfOk, OnOk, option_map, map, []};
ghost use Rattle.std.specs.List.{cons_option};
ghost use Rattle.std.specs.Str.{chars};
ghost use Rattle.pur_text.specs.Texts.{text_of};
ghost use Rattle.pur_cssprops.specs.Forms.{border_read, decoration_read, ordered, ordered_read, readings, word_read, words_read};

use crate::forms::WordForm;
use crate::keywords::{Keywords, read_keyword};
use crate::texts::spaced;
use crate::words::read_word;
use pur_csstok::split_words;
use std::alloc::{AllocError, Global};

/// One to four words of the form.
#[tactic(auto, unfolding(crate::specs::Forms::words_read))]
pub(crate) fn read_words(
    alloc: Global,
    form: WordForm,
    text: &str,
) -> Result<Option<String>, AllocError>
    ensures { IfOk result (λ value. option_map text_of value ≡ words_read form (chars text.now)) }
{
    let words = split_words(alloc, text)?;
    if !matches!(words.len(), 1..=4) {
        return Ok(None);
    }
    let values = readings(alloc, form, words.as_slice())?;
    if values.len() != words.len() {
        return Ok(None);
    }
    Ok(Some(spaced(alloc, values.as_slice())?))
}

/// A width, a style and a colour.
pub(crate) fn read_border(alloc: Global, text: &str) -> Result<Option<String>, AllocError>
    ensures { IfOk result (λ value. option_map text_of value ≡ border_read (chars text.now)) }
{
    let width = WordForm::Length {
        signed: false,
        percent: false,
        keywords: Keywords::LineWidth,
    };
    let style = WordForm::Keyword(Keywords::LineStyle);
    let color = WordForm::Color { transparent: false };
    let border = read_ordered(alloc, width, style, color, text)?;
    Ok(border)
}

/// `none`, or lines under, over and through a text.
pub(crate) fn read_decoration(alloc: Global, text: &str) -> Result<Option<String>, AllocError>
    ensures { IfOk result (λ value. option_map text_of value ≡ decoration_read (chars text.now)) }
{
    if let Some(word) = read_keyword(alloc, Keywords::NoneAlone, text)? {
        return Ok(Some(word));
    }
    read_ordered(
        alloc,
        WordForm::Keyword(Keywords::Underline),
        WordForm::Keyword(Keywords::Overline),
        WordForm::Keyword(Keywords::LineThrough),
        text,
    )
}

/// Words of three forms, no two of the same, in the order of the forms.
#[tactic(auto, unfolding(crate::specs::Forms::ordered_read))]
fn read_ordered(
    alloc: Global,
    first: WordForm,
    second: WordForm,
    third: WordForm,
    text: &str,
) -> Result<Option<String>, AllocError>
    ensures { IfOk result (λ value. option_map text_of value ≡ ordered_read first second third (chars text.now)) }
{
    let words = split_words(alloc, text)?;
    if words.len() > 3 {
        return Ok(None);
    }
    let firsts = readings(alloc, first, words.as_slice())?;
    let seconds = readings(alloc, second, words.as_slice())?;
    let thirds = readings(alloc, third, words.as_slice())?;
    ordered(alloc, words.len(), firsts, seconds, thirds)
}

/// So many words, each read by one of three forms, no two by the same.
fn ordered(
    alloc: Global,
    count: usize,
    first: Vec<String>,
    second: Vec<String>,
    third: Vec<String>,
) -> Result<Option<String>, AllocError>
    ensures { IfOk result (λ value. option_map text_of value ≡ ordered count (map text_of first.items) (map text_of second.items) (map text_of third.items)) }
{
    if count == 0 || first.len() > 1 || second.len() > 1 || third.len() > 1 {
        return Ok(None);
    }
    let words = joined(first, second, third)?;
    if words.len() != count {
        return Ok(None);
    }
    Ok(Some(spaced(alloc, words.as_slice())?))
}

fn joined(
    mut first: Vec<String>,
    mut second: Vec<String>,
    mut third: Vec<String>,
) -> Result<Vec<String>, AllocError>
    ensures { IfOk result (λ words. words.items ≡ first.items ++ (second.items ++ third.items)) }
{
    second.append(&mut third)?;
    first.append(&mut second)?;
    Ok(first)
}

fn readings(alloc: Global, form: WordForm, words: &[String]) -> Result<Vec<String>, AllocError>
    ensures { IfOk result (λ values. map text_of values.items ≡ readings form (map text_of words.now)) }
{
    let mut values = Vec::new(alloc);
    for word in words {
        push_reading(alloc, &mut values, form, word.as_str())?;
    }
    Ok(values)
}

/// Adds what the form reads of the word, if it reads it.
fn push_reading(
    alloc: Global,
    values: &mut Vec<String>,
    form: WordForm,
    word: &str,
) -> Result<(), AllocError>
    ensures { OnOk result (map text_of values.new.items ≡ map text_of values.old.items ++ cons_option (word_read form (chars word.now)) []) }
{
    if let Some(value) = read_word(alloc, form, word)? {
        values.push(value)?;
    }
    Ok(())
}
