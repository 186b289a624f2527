//! Reading the references of a text.
ghost use Rattle.std.specs.Prelude.{◌≡◌, ◌++◌, ◌∷◌, ◌≤◌, ◌-◌, ◌^◌, [], length, IsTrue, IfOk, IfSome, IfNone, OnOk, min, filter, option_map, string_bytes};
ghost use Rattle.std.specs.List.{list_all};
ghost use Rattle.std.specs.Str.{chars, IsUtf8};
ghost use Rattle.pur_text.specs.Characters.{is_allowed};
ghost use Rattle.pur_entities.specs.References.{numeral, number_written, number_meant, decoded};
ghost use Rattle.pur_entities.specs.Private.Cuts.{is_plain, is_inside, HasNoBody};

use crate::entities::lookup;
use memchr::{memchr, memchr2};
use pur_text::is_allowed;
use std::alloc::{AllocError, Global};

/// The text with its references read (XML 1.0, section 4.1): each gives the character that it means, or nothing where
/// that character isn't allowed in a text or the number is no character's.
///
/// A reference is `&`, one of the 253 names of XHTML 1.0 and `;`, or `&#`, one or more decimal digits and `;`, or `&#x`
/// or `&#X`, one or more hexadecimal digits and `;`. Any other `&` is text. What a reference gives isn't read again, and
/// there may be any number of digits.
///
/// The error is want of memory.
pub fn decode(alloc: Global, text: &str) -> Result<String, AllocError>
    ensures text { IfOk result (λ output. chars (string_bytes output) ≡ decoded (chars text.now)) }
{
    let mut output = String::new(alloc);
    decode_onto(&mut output, text)?;
    Ok(output)
}

/// Puts a text with its references read behind another, as `decode` reads them.
///
/// The error is want of memory; nothing is said of the other text then.
pub fn decode_onto(output: &mut String, text: &str) -> Result<(), AllocError>
    ensures { OnOk result (chars (string_bytes output.new) ≡ chars (string_bytes output.old) ++ decoded (chars text.now)) }
{
    let mut rest = text;
    'decoding: while let Some((run, behind)) = cut_at_ampersand(rest) {
        output.push_str(run)?;
        rest = push_piece(output, behind)?;
    }
    output.push_str(rest)?;
    Ok(())
}

/// The text before the first `&`, and the text behind it.
fn cut_at_ampersand(text: &str) -> Option<(&str, &str)>
    ensures text { IfSome result (λ parts. IsUtf8 parts.0.now × IsUtf8 parts.1.now) }
    ensures parts { IfSome result (λ parts. text.now ≡ parts.0.now ++ 0x26 ∷ parts.1.now) }
    ensures run { IfSome result (λ parts. IsTrue (list_all is_plain parts.0.now)) }
    ensures none { IfNone result (IsTrue (list_all is_plain text.now)) }
{
    let place = memchr(b'&', text.as_bytes())?;
    let (run, reference) = text.split_at(place);
    Some((run, reference.strip_prefix('&')?))
}

/// Writes what the piece gives that an `&` begins before this text, and gives the text behind that piece.
fn push_piece<'a>(output: &mut String, text: &'a str) -> Result<&'a str, AllocError>
    ensures text { IfOk result (λ behind. IsUtf8 behind.now) }
    ensures shorter { IfOk result (λ behind. length behind.now ≤ length text.now) }
    ensures step { IfOk result (λ behind. chars (string_bytes output.new) ++ decoded (chars behind.now)
        ≡ chars (string_bytes output.old) ++ decoded (0x26 ∷ chars text.now)) }
{
    match cut_reference(text) {
        Some((number, behind)) => {
            push_allowed(output, number)?;
            Ok(behind)
        }
        None => {
            output.push('&')?;
            Ok(text)
        }
    }
}

/// Writes the character with this number, if there is one and it is allowed.
fn push_allowed(output: &mut String, number: u32) -> Result<(), AllocError>
    ensures { OnOk result (chars (string_bytes output.new) ≡ chars (string_bytes output.old) ++ filter is_allowed (number ∷ [])) }
{
    if let Some(c) = char::from_u32(number) {
        if is_allowed(c) {
            output.push(c)?;
        }
    }
    Ok(())
}

/// The number of the reference that an `&` begins before this text, and the text behind that reference.
fn cut_reference(text: &str) -> Option<(u32, &str)>
    ensures text { IfSome result (λ reference. IsUtf8 reference.1.now) }
    ensures shorter { IfSome result (λ reference. length reference.1.now ≤ length text.now) }
    ensures some { IfSome result (λ reference. filter is_allowed (reference.0 ∷ []) ++ decoded (chars reference.1.now) ≡ decoded (0x26 ∷ chars text.now)) }
    ensures none { IfNone result (0x26 ∷ decoded (chars text.now) ≡ decoded (0x26 ∷ chars text.now)) }
{
    let (body, behind) = cut_body(text)?;
    Some((number_meant(body)?, behind))
}

/// The text before the first `;`, and the text behind it, where no `&` stands before that.
fn cut_body(text: &str) -> Option<(&str, &str)>
    ensures text { IfSome result (λ parts. IsUtf8 parts.0.now × IsUtf8 parts.1.now) }
    ensures some { IfSome result (λ parts. text.now ≡ parts.0.now ++ 0x3B ∷ parts.1.now) }
    ensures body { IfSome result (λ parts. IsTrue (list_all is_inside parts.0.now)) }
    ensures none { IfNone result (HasNoBody text.now) }
{
    let end = memchr2(b'&', b';', text.as_bytes())?;
    let (body, end) = text.split_at(end);
    Some((body, end.strip_prefix(';')?))
}

/// The number of the character that a reference with this body means, at most `u32::MAX`.
fn number_meant(body: &str) -> Option<u32>
    ensures { result ≡ option_map (λ n. min n (2 ^ 32 - 1)) (number_meant (chars body.now)) }
{
    match body.strip_prefix('#') {
        Some(number) => number_written(number.as_bytes()),
        None => Some(u32::from(lookup(body)?)),
    }
}

/// The number that stands behind a `#`, at most `u32::MAX`.
fn number_written(text: &[u8]) -> Option<u32>
    ensures { result ≡ option_map (λ n. min n (2 ^ 32 - 1)) (number_written text.now) }
{
    match text {
        [b'x' | b'X', digits @ ..] => numeral(16, digits),
        _ => numeral(10, text),
    }
}

/// The number that one or more digits write, at most `u32::MAX`.
fn numeral(radix: u32, text: &[u8]) -> Option<u32>
    requires at_least { 2 ≤ radix }
    requires at_most { radix ≤ 36 }
    ensures { result ≡ option_map (λ n. min n (2 ^ 32 - 1)) (numeral radix text.now) }
{
    if text.is_empty() {
        return None;
    }
    let mut number: u32 = 0;
    for byte in text {
        let digit = char::from(*byte).to_digit(radix)?;
        number = number.saturating_mul(radix).saturating_add(digit);
    }
    Some(number)
}
