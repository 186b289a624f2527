//! Numbers.
ghost use Rattle.std.specs.Prelude.{◌≡◌, ◌++◌, ◌==◌, ◌&&◌, ◌||◌, not, length, take, drop, slice_index, IsTrue, IfOk, IfSome, OnOk, option_map, string_bytes};
ghost use Rattle.std.specs.List.{list_all};
ghost use Rattle.std.specs.Str.{chars};
ghost use Rattle.pur_csstok.specs.Numbers.{Number, is_digit, behind_sign, front_digits, behind_digits, is_fraction, is_numeral, is_nought, whole_digits, fraction_digits, number_written, is_permitted, number_of, number_text, number_read, number_with, sign_text, whole_text, fraction_text};
ghost use Rattle.pur_text.specs.Texts.{text_of};
ghost use Rattle.pur_csstok.specs.Written.{number_in};

use crate::digits::{
    are_digits, behind_first, cut_digits, without_leading_zeros, without_trailing_zeros,
};
use crate::texts::push_text;
use std::alloc::{AllocError, Global};

/// A number: whether it is below zero, and its digits before and behind the point, without zeros at the outer ends.
#[derive(Clone, Copy)]
pub(crate) struct Number<'a> {
    negative: bool,
    whole: &'a [u8],
    fraction: &'a [u8],
}

impl Number<'_> {
    /// Whether the number is zero.
    pub(crate) fn is_nought(&self) -> bool
        ensures { result ≡ is_nought self.now.whole.now self.now.fraction.now }
    {
        self.whole.is_empty() && self.fraction.is_empty()
    }
}

/// The number that the text writes (CSS 2.1, section 4.3.1), in its one form: four digits behind the point at most, no
/// zero that says nothing, a minus only below zero.
///
/// `None` comes for a text that is no number, for one with more than six digits before the point (zeros at the front not
/// counted), and for one below zero where `signed` is false. Digits are cut off before that is asked, so `-0.00001` is
/// zero. The error is want of memory.
pub fn read_number(alloc: Global, raw: &str, signed: bool) -> Result<Option<String>, AllocError>
    ensures { IfOk result (λ number. option_map text_of number ≡ number_read signed (chars raw.now)) }
{
    let number = number_read(alloc, raw.as_bytes(), signed)?;
    Ok(number)
}

fn number_read(alloc: Global, text: &[u8], signed: bool) -> Result<Option<String>, AllocError>
    ensures { IfOk result (λ number. option_map string_bytes number ≡ number_read signed text.now) }
{
    match number_of(text, signed) {
        Some(number) => {
            let mut output = String::new(alloc);
            push_number(&mut output, &number)?;
            Ok(Some(output))
        }
        None => Ok(None),
    }
}

/// The number that the text writes, if it is permitted.
#[tactic(auto, unfolding(crate::specs::Numbers::number_of))]
pub(crate) fn number_of(text: &[u8], signed: bool) -> Option<Number<'_>>
    ensures number { option_map number_in result ≡ number_of signed text.now }
    ensures whole { IfSome result (λ number. IsTrue (list_all is_digit number.whole.now)) }
    ensures fraction { IfSome result (λ number. IsTrue (list_all is_digit number.fraction.now)) }
{
    let body = behind_sign(text);
    if !is_numeral(body) {
        return None;
    }
    let number = number_with(is_minus(text), whole_digits(body), fraction_digits(body));
    if is_permitted(signed, &number) {
        Some(number)
    } else {
        None
    }
}

/// Whether at most six digits stand before the point, and the number isn't below zero in an unsigned use.
fn is_permitted(signed: bool, number: &Number) -> bool
    ensures { result ≡ is_permitted signed (number_in number.now) }
{
    number.whole.len() <= 6 && (signed || !number.negative)
}

fn number_with<'a>(minus: bool, whole: &'a [u8], fraction: &'a [u8]) -> Number<'a>
    ensures { number_in result ≡ number_with minus whole.now fraction.now }
{
    let negative = minus && !(whole.is_empty() && fraction.is_empty());
    Number {
        negative,
        whole,
        fraction,
    }
}

fn is_minus(text: &[u8]) -> bool
    ensures { result ≡ slice_index text.now 0 == 0x2D }
{
    match text {
        [b'-', ..] => true,
        _ => false,
    }
}

/// The text without the sign at its front.
fn behind_sign(text: &[u8]) -> &[u8]
    ensures { result.now ≡ behind_sign text.now }
{
    match text {
        [b'+' | b'-', body @ ..] => body,
        _ => text,
    }
}

/// Whether the text is a numeral without a sign.
fn is_numeral(text: &[u8]) -> bool
    ensures { result ≡ is_numeral text.now }
{
    let (_, behind) = cut_digits(text);
    if behind.is_empty() {
        !text.is_empty()
    } else {
        is_fraction(behind)
    }
}

/// Whether the text is a point and one or more digits.
fn is_fraction(text: &[u8]) -> bool
    ensures { result ≡ is_fraction text.now }
{
    match text {
        [b'.', digits @ ..] => are_digits(digits),
        _ => false,
    }
}

fn whole_digits(text: &[u8]) -> &[u8]
    ensures value { result.now ≡ whole_digits text.now }
    ensures digits { IsTrue (list_all is_digit result.now) }
{
    let (digits, _) = cut_digits(text);
    without_leading_zeros(digits)
}

fn fraction_digits(text: &[u8]) -> &[u8]
    requires { IsTrue (is_numeral text.now) }
    ensures value { result.now ≡ fraction_digits text.now }
    ensures digits { IsTrue (list_all is_digit result.now) }
{
    let (_, behind) = cut_digits(text);
    without_trailing_zeros(at_most_four(behind_first(behind)))
}

fn at_most_four(digits: &[u8]) -> &[u8]
    ensures { result.now ≡ take 4 digits.now }
{
    if digits.len() <= 4 {
        return digits;
    }
    let (kept, _) = digits.split_at(4);
    kept
}

/// Writes the number's one text.
#[tactic(auto, unfolding(crate::specs::Numbers::number_text))]
pub(crate) fn push_number(output: &mut String, number: &Number) -> Result<(), AllocError>
    requires whole { IsTrue (list_all is_digit number.now.whole.now) }
    requires fraction { IsTrue (list_all is_digit number.now.fraction.now) }
    ensures { OnOk result (string_bytes output.new ≡ string_bytes output.old ++ number_text (number_in number.now)) }
{
    push_sign(output, number.negative)?;
    push_whole(output, number.whole)?;
    push_fraction(output, number.fraction)?;
    Ok(())
}

fn push_sign(output: &mut String, negative: bool) -> Result<(), AllocError>
    ensures { OnOk result (string_bytes output.new ≡ string_bytes output.old ++ sign_text negative) }
{
    if negative {
        output.push('-')?;
    }
    Ok(())
}

fn push_whole(output: &mut String, digits: &[u8]) -> Result<(), AllocError>
    requires { IsTrue (list_all is_digit digits.now) }
    ensures { OnOk result (string_bytes output.new ≡ string_bytes output.old ++ whole_text digits.now) }
{
    if digits.is_empty() {
        output.push('0')?;
    } else {
        push_text(output, digits)?;
    }
    Ok(())
}

fn push_fraction(output: &mut String, digits: &[u8]) -> Result<(), AllocError>
    requires { IsTrue (list_all is_digit digits.now) }
    ensures { OnOk result (string_bytes output.new ≡ string_bytes output.old ++ fraction_text digits.now) }
{
    if !digits.is_empty() {
        output.push('.')?;
        push_text(output, digits)?;
    }
    Ok(())
}
