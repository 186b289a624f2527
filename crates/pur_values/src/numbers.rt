//! Numbers and lengths.
ghost use Rattle.std.specs.Prelude.{◌≡◌, ◌++◌, ◌<◌, ◌-◌, ◌^◌, ℕ, min, codes, IfOk, IsTrue, Option, option_map};
ghost use Rattle.std.specs.Char.{is_ascii};
ghost use Rattle.std.specs.Fmt.{decimal};
ghost use Rattle.std.specs.List.{list_all, prefix_len};
ghost use Rattle.std.specs.Str.{IsUtf8, bytes_eq, chars};
ghost use Rattle.pur_text.specs.Texts.{text_of};
ghost use Rattle.pur_values.specs.Words.{is_digit};
ghost use Rattle.pur_values.specs.Numbers.{digits_of, is_empty, is_pixel_unit, length_of, measure, multi_length_of, number_of, numeral, pixels, pixels_of, pixels_or_part, pixels_part_or_share, shares, unit_of};

use crate::words::is_digit;
use std::alloc::{AllocError, Global};

/// The greatest number of pixels or shares.
const MOST_PIXELS: u32 = 9999;

/// The greatest percentage.
const WHOLE: u32 = 100;

/// A number of at least `least`; a greater one than `most` is read as `most`.
pub(crate) fn read_number(
    alloc: Global,
    least: u32,
    most: u32,
    text: &str,
) -> Result<Option<String>, AllocError>
    ensures value { IfOk result (λ value. option_map text_of value ≡ number_of least most (chars text.now)) }
    ensures range { most < 2 ^ 32 }
{
    match numeral_of(text) {
        Some(number) if number >= least => {
            let value = with_unit(alloc, number.min(most), "")?;
            Ok(Some(value))
        }
        _ => Ok(None),
    }
}

pub(crate) fn read_pixels(alloc: Global, text: &str) -> Result<Option<String>, AllocError>
    ensures { IfOk result (λ value. option_map text_of value ≡ pixels_of (chars text.now)) }
{
    let (digits, unit) = cut_behind_digits(text);
    pixels(alloc, digits, unit)
}

pub(crate) fn read_length(alloc: Global, text: &str) -> Result<Option<String>, AllocError>
    ensures { IfOk result (λ value. option_map text_of value ≡ length_of (chars text.now)) }
{
    let (digits, unit) = cut_behind_digits(text);
    pixels_or_part(alloc, digits, unit)
}

pub(crate) fn read_multi_length(alloc: Global, text: &str) -> Result<Option<String>, AllocError>
    ensures { IfOk result (λ value. option_map text_of value ≡ multi_length_of (chars text.now)) }
{
    let (digits, unit) = cut_behind_digits(text);
    if is_star(unit) {
        measure(alloc, shares(digits), MOST_PIXELS, "*")
    } else {
        pixels_or_part(alloc, digits, unit)
    }
}

fn pixels_or_part(alloc: Global, digits: &str, unit: &str) -> Result<Option<String>, AllocError>
    ensures { IfOk result (λ value. option_map text_of value ≡ pixels_or_part (chars digits.now) (chars unit.now)) }
{
    if is_percent_sign(unit) {
        measure(alloc, numeral_of(digits), WHOLE, "%")
    } else {
        pixels(alloc, digits, unit)
    }
}

fn pixels(alloc: Global, digits: &str, unit: &str) -> Result<Option<String>, AllocError>
    ensures { IfOk result (λ value. option_map text_of value ≡ pixels (chars digits.now) (chars unit.now)) }
{
    if is_pixel_unit(unit) {
        measure(alloc, numeral_of(digits), MOST_PIXELS, "")
    } else {
        Ok(None)
    }
}

fn is_star(unit: &str) -> bool
    ensures { result ≡ bytes_eq (chars unit.now) (codes "*") }
{
    unit == "*"
}

fn is_percent_sign(unit: &str) -> bool
    ensures { result ≡ bytes_eq (chars unit.now) (codes "%") }
{
    unit == "%"
}

fn is_pixel_unit(unit: &str) -> bool
    ensures { result ≡ is_pixel_unit (chars unit.now) }
{
    are_pixels(unit.as_bytes())
}

fn are_pixels(unit: &[u8]) -> bool
    ensures { result ≡ is_pixel_unit unit.now }
{
    matches!(unit, [] | [b'p' | b'P', b'x' | b'X'])
}

/// How many shares the digits write; none at all are one share.
fn shares(digits: &str) -> Option<u32>
    ensures { result ≡ option_map (λ n. min n (2 ^ 32 - 1)) (shares (chars digits.now)) }
{
    if is_nothing(digits) {
        Some(1)
    } else {
        numeral_of(digits)
    }
}

pub(crate) fn is_nothing(text: &str) -> bool
    ensures { result ≡ is_empty (chars text.now) }
{
    text.is_empty()
}

/// The number, at most `most`, and the unit behind it.
fn measure(
    alloc: Global,
    number: Option<u32>,
    most: u32,
    unit: &'static str,
) -> Result<Option<String>, AllocError>
    requires { IsTrue (list_all is_ascii unit.now) }
    ensures { (n : Option ℕ) → number ≡ option_map (λ n. min n (2 ^ 32 - 1)) n → IfOk result (λ value. option_map text_of value ≡ measure most unit.now n) }
{
    let Some(number) = number else {
        return Ok(None);
    };
    let value = with_unit(alloc, number.min(most), unit)?;
    Ok(Some(value))
}

fn with_unit(alloc: Global, number: u32, unit: &str) -> Result<String, AllocError>
    requires { IsTrue (list_all is_ascii unit.now) }
    ensures { IfOk result (λ value. text_of value ≡ decimal number ++ unit.now) }
{
    let mut value = number.to_string(alloc)?;
    value.push_str(unit)?;
    Ok(value)
}

/// The number that one or more decimal digits write, at most `u32::MAX`.
fn numeral_of(text: &str) -> Option<u32>
    ensures { result ≡ option_map (λ n. min n (2 ^ 32 - 1)) (numeral (chars text.now)) }
{
    numeral(text.as_bytes())
}

/// The number that one or more decimal digits write, at most `u32::MAX`.
fn numeral(text: &[u8]) -> Option<u32>
    ensures { result ≡ option_map (λ n. min n (2 ^ 32 - 1)) (numeral text.now) }
{
    if text.is_empty() {
        return None;
    }
    let mut number: u32 = 0;
    for byte in text {
        let digit = char::from(*byte).to_digit(10)?;
        number = number.saturating_mul(10).saturating_add(digit);
    }
    Some(number)
}

/// The digits that the text begins with, and what stands behind them.
fn cut_behind_digits(text: &str) -> (&str, &str)
    ensures digits_text { IsUtf8 result.0.now }
    ensures unit_text { IsUtf8 result.1.now }
    ensures digits { chars result.0.now ≡ digits_of (chars text.now) }
    ensures unit { chars result.1.now ≡ unit_of (chars text.now) }
{
    text.split_at(digit_count(text.as_bytes()))
}

fn digit_count(text: &[u8]) -> usize
    ensures { result ≡ prefix_len is_digit text.now }
{
    text.iter().take_while(|&&byte| is_digit(byte)).count()
}
