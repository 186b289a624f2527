//! Lengths and percentages.
ghost use Rattle.std.specs.Prelude.{◌≡◌, ◌++◌, length, take, drop, IsTrue, IfOk, IfSome, OnOk, option_map, string_bytes, codes, if◌then◌else◌, Some, None, ◌==◌, ◌||◌};
ghost use Rattle.std.specs.List.{list_all, prefix_len};
ghost use Rattle.std.specs.Str.{IsUtf8, chars};
ghost use Rattle.pur_csstok.specs.Numbers.{is_digit, is_nought};
ghost use Rattle.pur_csstok.specs.Lengths.{is_number_character, is_unit, units, length_with, number_len, length_lowered, length_read};
ghost use Rattle.pur_text.specs.Texts.{text_of};
ghost use Rattle.pur_csstok.specs.Written.{number_in};

use crate::digits::is_digit;
use crate::numbers::{Number, number_of, push_number};
use pur_text::lower_ascii;
use std::alloc::{AllocError, Global};

/// The length that the text writes (CSS 2.1, section 4.3.2), in its one form: a number as `read_number` gives it, and one
/// of the units `em`, `ex`, `px`, `in`, `cm`, `mm`, `pt` and `pc`, or `%` where `percent` is true, in lower case. Zero
/// stands without its unit.
///
/// `None` comes where the number has no reading, and for another unit; and for a number other than zero without a unit.
/// The error is want of memory.
pub fn read_length(
    alloc: Global,
    raw: &str,
    signed: bool,
    percent: bool,
) -> Result<Option<String>, AllocError>
    ensures { IfOk result (λ length. option_map text_of length ≡ length_read signed percent (chars raw.now)) }
{
    let lowered = lower_ascii(alloc, raw)?;
    let length = length_lowered(alloc, lowered.as_str(), signed, percent)?;
    Ok(length)
}

#[tactic(auto, unfolding(crate::specs::Lengths::length_lowered))]
fn length_lowered(
    alloc: Global,
    text: &str,
    signed: bool,
    percent: bool,
) -> Result<Option<String>, AllocError>
    ensures { IfOk result (λ length. option_map string_bytes length ≡ length_lowered signed percent text.now) }
{
    let (digits, unit) = cut_number(text);
    match number_of(digits.as_bytes(), signed) {
        Some(number) => length_with(alloc, &number, unit, percent),
        None => Ok(None),
    }
}

/// What a number is made of at the front of the text, and what stands behind that.
fn cut_number(text: &str) -> (&str, &str)
    ensures digits_text { IsUtf8 result.0.now }
    ensures unit_text { IsUtf8 result.1.now }
    ensures digits { result.0.now ≡ take (number_len text.now) text.now }
    ensures unit { result.1.now ≡ drop (number_len text.now) text.now }
{
    text.split_at(number_len(text.as_bytes()))
}

fn number_len(text: &[u8]) -> usize
    ensures { result ≡ number_len text.now }
{
    text.iter()
        .take_while(|&&byte| is_number_character(byte))
        .count()
}

fn is_number_character(byte: u8) -> bool
    ensures { result ≡ is_number_character byte }
{
    is_digit(byte) || matches!(byte, b'+' | b'-' | b'.')
}

#[tactic(auto, unfolding(crate::specs::Lengths::length_with))]
fn length_with(
    alloc: Global,
    number: &Number,
    unit: &str,
    percent: bool,
) -> Result<Option<String>, AllocError>
    requires whole { IsTrue (list_all is_digit number.now.whole.now) }
    requires fraction { IsTrue (list_all is_digit number.now.fraction.now) }
    ensures { IfOk result (λ length. option_map string_bytes length ≡ length_with percent (number_in number.now) unit.now) }
{
    if number.is_nought() {
        return nought_with(alloc, unit, percent);
    }
    if !is_unit(unit, percent) {
        return Ok(None);
    }
    let mut text = String::new(alloc);
    push_number(&mut text, number)?;
    text.push_str(unit)?;
    Ok(Some(text))
}

/// Zero, where its unit is none or a unit.
fn nought_with(alloc: Global, unit: &str, percent: bool) -> Result<Option<String>, AllocError>
    ensures { IfOk result (λ nought. option_map string_bytes nought ≡ (if length unit.now == 0 || is_unit percent unit.now then Some (codes "0") else None)) }
{
    if unit.is_empty() || is_unit(unit, percent) {
        Ok(Some("0".to_string(alloc)?))
    } else {
        Ok(None)
    }
}

fn is_unit(unit: &str, percent: bool) -> bool
    ensures { result ≡ is_unit percent unit.now }
{
    match unit {
        "em" | "ex" | "px" | "in" | "cm" | "mm" | "pt" | "pc" => true,
        "%" => percent,
        _ => false,
    }
}
