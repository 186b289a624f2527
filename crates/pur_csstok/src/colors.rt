//! Colours.
ghost use Rattle.std.specs.Prelude.{◌≡◌, ◌++◌, ◌∷◌, ◌≤◌, ◌<◌, ◌*◌, ◌+◌, if◌then◌else◌, Some, None, IfNone, [], drop, min, map, codes, IsTrue, IfOk, IfSome, OnOk, option_map, string_bytes};
ghost use Rattle.std.specs.Char.{digit_char, digit_value};
ghost use Rattle.std.specs.List.{list_all, flat_map};
ghost use Rattle.std.specs.Str.{IsUtf8, bytes_eq, chars};
ghost use Rattle.std.specs.Str.Parse.{digits_value};
ghost use Rattle.pur_csstok.specs.Numbers.{is_digit};
ghost use Rattle.pur_csstok.specs.Colors.{is_hex_digit, is_hash, twice, six_digits, hash_read, color_named, color_in, is_part, part_value, two_digits, parts_read, between_commas, rgb_read, lowered_read, color_read};
ghost use Rattle.pur_text.specs.Texts.{text_of};

use crate::digits::are_digits;
use crate::ends::argument_of;
use crate::texts::{cut_at, lower, push_byte, push_text};
use pur_text::trim;
use std::alloc::{AllocError, Global};

/// The colour that the text writes (CSS 2.1, section 4.3.6), as `#rrggbb` in lower case. The text is `#rgb`, `#rrggbb`,
/// one of the 17 names or `rgb(r, g, b)` with whole numbers, in letters of either case; a number past 255 counts as 255.
/// Where `transparent` is true, that word is a colour too, and stays as it is.
///
/// `None` comes for any other text. The error is want of memory.
#[tactic(auto, unfolding(crate::specs::Colors::color_read))]
pub fn read_color(alloc: Global, raw: &str, transparent: bool) -> Result<Option<String>, AllocError>
    ensures { IfOk result (λ color. option_map text_of color ≡ color_read transparent (chars raw.now)) }
{
    let lowered = lower(alloc, raw)?;
    if transparent && is_transparent(lowered.as_str()) {
        return Ok(Some(lowered));
    }
    lowered_read(alloc, lowered.as_str())
}

fn is_transparent(text: &str) -> bool
    ensures { result ≡ bytes_eq (chars text.now) (codes "transparent") }
{
    text == "transparent"
}

/// The colour that a text in lower case writes.
fn lowered_read(alloc: Global, text: &str) -> Result<Option<String>, AllocError>
    ensures { IfOk result (λ color. option_map text_of color ≡ lowered_read (chars text.now)) }
{
    if let Some(color) = hash_read(alloc, text)? {
        return Ok(Some(color));
    }
    if let Some(color) = name_read(alloc, text)? {
        return Ok(Some(color));
    }
    rgb_read(alloc, text)
}

fn hash_read(alloc: Global, text: &str) -> Result<Option<String>, AllocError>
    ensures { IfOk result (λ color. option_map text_of color ≡ hash_read (chars text.now)) }
{
    let color = hash_bytes_read(alloc, text.as_bytes())?;
    Ok(color)
}

#[tactic(auto, unfolding(crate::specs::Colors::hash_read))]
fn hash_bytes_read(alloc: Global, text: &[u8]) -> Result<Option<String>, AllocError>
    ensures { IfOk result (λ color. option_map string_bytes color ≡ hash_read text.now) }
{
    match hash_digits(text) {
        Some(digits) => Ok(Some(color_of(alloc, digits)?)),
        None => Ok(None),
    }
}

fn color_of(alloc: Global, digits: &[u8]) -> Result<String, AllocError>
    requires { IsTrue (list_all is_hex_digit digits.now) }
    ensures { IfOk result (λ color. string_bytes color ≡ 0x23 ∷ six_digits digits.now) }
{
    let mut color = String::new(alloc);
    color.push('#')?;
    push_six_digits(&mut color, digits)?;
    Ok(color)
}

fn push_six_digits(output: &mut String, digits: &[u8]) -> Result<(), AllocError>
    requires { IsTrue (list_all is_hex_digit digits.now) }
    ensures { OnOk result (string_bytes output.new ≡ string_bytes output.old ++ six_digits digits.now) }
{
    match digits {
        [a, b, c] => push_twice(output, *a, *b, *c)?,
        _ => push_text(output, digits)?,
    }
    Ok(())
}

fn push_twice(output: &mut String, a: u8, b: u8, c: u8) -> Result<(), AllocError>
    requires { IsTrue (list_all is_hex_digit (a ∷ b ∷ c ∷ [])) }
    ensures { OnOk result (string_bytes output.new ≡ string_bytes output.old ++ flat_map twice (a ∷ b ∷ c ∷ [])) }
{
    push_pair(output, a, a)?;
    push_pair(output, b, b)?;
    push_pair(output, c, c)?;
    Ok(())
}

fn push_pair(output: &mut String, a: u8, b: u8) -> Result<(), AllocError>
    requires a { a < 128 }
    requires b { b < 128 }
    ensures { OnOk result (string_bytes output.new ≡ string_bytes output.old ++ a ∷ b ∷ []) }
{
    push_byte(output, a)?;
    push_byte(output, b)?;
    Ok(())
}

/// The digits behind the `#`, if the text is a colour so written.
fn hash_digits(text: &[u8]) -> Option<&[u8]>
    ensures digits { option_map (λ digits. digits.now) result ≡ (if is_hash text.now then Some (drop 1 text.now) else None) }
    ensures hexadecimal { IfSome result (λ digits. IsTrue (list_all is_hex_digit digits.now)) }
{
    match text {
        [b'#', digits @ ..] if matches!(text.len(), 4 | 7) && are_hex_digits(digits) => {
            Some(digits)
        }
        _ => None,
    }
}

fn are_hex_digits(digits: &[u8]) -> bool
    ensures { result ≡ list_all is_hex_digit digits.now }
{
    digits.iter().all(is_hex_digit)
}

fn is_hex_digit(byte: &u8) -> bool
    ensures { result ≡ is_hex_digit byte.now }
{
    matches!(byte, b'0'..=b'9' | b'a'..=b'f')
}

fn name_read(alloc: Global, name: &str) -> Result<Option<String>, AllocError>
    ensures { IfOk result (λ color. option_map text_of color ≡ color_named (chars name.now)) }
{
    match color_named(name) {
        Some(color) => Ok(Some(color.to_string(alloc)?)),
        None => Ok(None),
    }
}

/// The colours that have a name, in the order of CSS 2.1.
static NAMED: [(&str, &str); 17] = [
    ("maroon", "#800000"),
    ("red", "#ff0000"),
    ("orange", "#ffa500"),
    ("yellow", "#ffff00"),
    ("olive", "#808000"),
    ("purple", "#800080"),
    ("fuchsia", "#ff00ff"),
    ("white", "#ffffff"),
    ("lime", "#00ff00"),
    ("green", "#008000"),
    ("navy", "#000080"),
    ("blue", "#0000ff"),
    ("aqua", "#00ffff"),
    ("teal", "#008080"),
    ("black", "#000000"),
    ("silver", "#c0c0c0"),
    ("gray", "#808080"),
];

/// The colour with this name.
#[tactic(auto, unfolding(crate::specs::Colors::color_named))]
fn color_named(name: &str) -> Option<&'static str>
    ensures { option_map (λ color. color.now) result ≡ color_named name.now }
{
    color_in(&NAMED, name)
}

/// The colour of the first row that has the name.
fn color_in(table: &'static [(&'static str, &'static str)], name: &str) -> Option<&'static str>
    ensures { option_map (λ color. color.now) result ≡ color_in (map (λ row. (row.0.now, row.1.now)) table.now) name.now }
{
    for row in table {
        if name == row.0 {
            return Some(row.1);
        }
    }
    None
}

#[tactic(auto, unfolding(crate::specs::Colors::rgb_read))]
fn rgb_read(alloc: Global, text: &str) -> Result<Option<String>, AllocError>
    ensures { IfOk result (λ color. option_map text_of color ≡ rgb_read (chars text.now)) }
{
    match argument_of(text, ['r', 'g', 'b']) {
        Some(inside) => parts_read(alloc, inside),
        None => Ok(None),
    }
}

#[tactic(auto, unfolding(crate::specs::Colors::parts_read))]
fn parts_read(alloc: Global, text: &str) -> Result<Option<String>, AllocError>
    ensures { IfOk result (λ color. option_map text_of color ≡ parts_read (between_commas (chars text.now))) }
{
    let Some((red, behind)) = cut_at_comma(text) else {
        return Ok(None);
    };
    let Some((green, blue)) = cut_at_comma(behind) else {
        return Ok(None);
    };
    match cut_at_comma(blue) {
        Some((_blue, _more)) => Ok(None),
        None => three_read(alloc, red, green, blue),
    }
}

/// What stands before the first comma, and what stands behind it.
fn cut_at_comma(text: &str) -> Option<(&str, &str)>
    ensures piece_text { IfSome result (λ parts. IsUtf8 parts.0.now) }
    ensures behind_text { IfSome result (λ parts. IsUtf8 parts.1.now) }
    ensures cut { IfSome result (λ parts. between_commas (chars text.now) ≡ chars parts.0.now ∷ between_commas (chars parts.1.now)) }
    ensures whole { IfNone result (between_commas (chars text.now) ≡ chars text.now ∷ []) }
{
    match cut_at(text, ',') {
        Some((piece, behind)) => Some((piece, behind)),
        None => None,
    }
}

#[tactic(auto, unfolding(crate::specs::Colors::parts_read))]
fn three_read(
    alloc: Global,
    red: &str,
    green: &str,
    blue: &str,
) -> Result<Option<String>, AllocError>
    ensures { IfOk result (λ color. option_map text_of color ≡ parts_read (chars red.now ∷ chars green.now ∷ chars blue.now ∷ [])) }
{
    if !(is_part(red) && is_part(green) && is_part(blue)) {
        return Ok(None);
    }
    let color = color_with(alloc, part_value(red), part_value(green), part_value(blue))?;
    Ok(Some(color))
}

fn color_with(alloc: Global, red: u8, green: u8, blue: u8) -> Result<String, AllocError>
    ensures { IfOk result (λ color. text_of color ≡ 0x23 ∷ flat_map two_digits (red ∷ green ∷ blue ∷ [])) }
{
    let mut color = String::new(alloc);
    color.push('#')?;
    push_part(&mut color, red)?;
    push_part(&mut color, green)?;
    push_part(&mut color, blue)?;
    Ok(color)
}

fn is_part(text: &str) -> bool
    ensures { result ≡ is_part (chars text.now) }
{
    are_digits(trim(text).as_bytes())
}

/// The part's number, at most 255.
fn part_value(text: &str) -> u8
    requires { IsTrue (is_part (chars text.now)) }
    ensures { result ≡ part_value (chars text.now) }
{
    value_of(trim(text).as_bytes())
}

/// The number that the digits write, at most 255.
fn value_of(digits: &[u8]) -> u8
    requires { IsTrue (list_all is_digit digits.now) }
    ensures { result ≡ min (digits_value 10 digits.now) 255 }
{
    let mut value: u16 = 0;
    for byte in digits {
        value = with_digit(value, *byte);
    }
    value as u8
}

/// The number with one more digit, at most 255.
fn with_digit(value: u16, byte: u8) -> u16
    requires small { value ≤ 255 }
    requires digit { IsTrue (is_digit byte) }
    ensures { result ≡ min (value * 10 + digit_value byte) 255 }
{
    (value * 10 + u16::from(byte - b'0')).min(255)
}

fn push_part(output: &mut String, value: u8) -> Result<(), AllocError>
    ensures { OnOk result (string_bytes output.new ≡ string_bytes output.old ++ two_digits value) }
{
    push_pair(output, hex_digit(value / 16), hex_digit(value % 16))?;
    Ok(())
}

/// The hexadecimal digit of a number below 16.
fn hex_digit(value: u8) -> u8
    requires { value < 16 }
    ensures digit { result ≡ digit_char value }
    ensures ascii { result < 128 }
{
    if value < 10 {
        b'0' + value
    } else {
        b'a' - 10 + value
    }
}
