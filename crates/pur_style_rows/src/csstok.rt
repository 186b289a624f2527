//! What each reader gives, by rows: the text, what it is read as, and what the row shows.
use crate::endings::{Failing, assert_holds, assert_none_fails};
use pur_csstok::{
    Declaration, read_color, read_families, read_length, read_number, read_url, split, split_words,
};
use std::alloc::{AllocError, Global};

type Row = (&'static str, Option<&'static str>, &'static str);

static UNSIGNED_NUMBERS: [Row; 15] = [
    ("0", Some("0"), "zero"),
    ("000.000", Some("0"), "zeros alone"),
    ("+007", Some("7"), "a plus and leading zeros"),
    (".5", Some("0.5"), "no digit before the point"),
    ("10.50", Some("10.5"), "a zero at the end"),
    ("1.23456", Some("1.2345"), "digits past the fourth"),
    ("1.00004", Some("1"), "no digit left behind the point"),
    ("000999999.9", Some("999999.9"), "six digits"),
    ("1000000", None, "seven digits"),
    ("5.", None, "a point without digits"),
    ("", None, "nothing"),
    (".", None, "a point alone"),
    ("-1", None, "below zero"),
    ("-0.0001", None, "below zero in the fourth digit"),
    ("-0.00001", Some("0"), "zero once it is cut"),
];

static SIGNED_NUMBERS: [Row; 10] = [
    ("+010.50", Some("10.5"), "zeros at both ends and a plus"),
    ("-.5", Some("-0.5"), "below zero"),
    ("-00.0000", Some("0"), "zero with a minus"),
    ("-0.00009", Some("0"), "zero once it is cut"),
    ("+-1", None, "two signs"),
    ("-", None, "a sign alone"),
    ("1e3", None, "an exponent"),
    ("1.2.3", None, "two points"),
    (" 1", None, "white space"),
    ("\u{661}", None, "a digit past ASCII"),
];

static UNSIGNED_LENGTHS: [Row; 14] = [
    ("010.50PX", Some("10.5px"), "zeros, and capital letters"),
    ("1em", Some("1em"), "em"),
    ("1ex", Some("1ex"), "ex"),
    ("1iN", Some("1in"), "in"),
    ("1cm", Some("1cm"), "cm"),
    ("1mm", Some("1mm"), "mm"),
    ("1pt", Some("1pt"), "pt"),
    ("1pc", Some("1pc"), "pc"),
    ("0", Some("0"), "zero"),
    ("0Em", Some("0"), "zero with a unit"),
    ("-0.00001px", Some("0"), "zero once it is cut"),
    ("-1px", None, "below zero"),
    ("50%", None, "a percentage"),
    ("0%", None, "zero per cent"),
];

static SIGNED_LENGTHS: [Row; 9] = [
    ("-1ex", Some("-1ex"), "below zero"),
    ("50%", Some("50%"), "a percentage"),
    ("-0%", Some("0"), "zero per cent"),
    ("12", None, "no unit"),
    ("1 px", None, "white space"),
    ("1pxx", None, "another unit"),
    ("1.px", None, "a point without digits"),
    ("px", None, "a unit alone"),
    ("1\u{212A}m", None, "a letter past ASCII"),
];

static COLORS: [Row; 34] = [
    ("Maroon", Some("#800000"), "maroon"),
    ("red", Some("#ff0000"), "red"),
    ("ORANGE", Some("#ffa500"), "orange"),
    ("yellow", Some("#ffff00"), "yellow"),
    ("olive", Some("#808000"), "olive"),
    ("purple", Some("#800080"), "purple"),
    ("FuchSia", Some("#ff00ff"), "fuchsia"),
    ("white", Some("#ffffff"), "white"),
    ("lime", Some("#00ff00"), "lime"),
    ("green", Some("#008000"), "green"),
    ("navy", Some("#000080"), "navy"),
    ("blue", Some("#0000ff"), "blue"),
    ("aqua", Some("#00ffff"), "aqua"),
    ("teal", Some("#008080"), "teal"),
    ("black", Some("#000000"), "black"),
    ("silver", Some("#c0c0c0"), "silver"),
    ("gray", Some("#808080"), "gray"),
    ("grey", None, "no name"),
    ("#AbC", Some("#aabbcc"), "three digits are doubled"),
    ("#A1B2c3", Some("#a1b2c3"), "six digits"),
    ("#abcd", None, "four digits"),
    ("#abg", None, "no digit"),
    ("abc", None, "no mark"),
    (
        "rGb( 1 ,\t020,300\n)",
        Some("#0114ff"),
        "three numbers, one past 255",
    ),
    (
        "rgb(255,256,99999999999999999999)",
        Some("#ffffff"),
        "255 and more",
    ),
    ("rgb(1,2)", None, "two numbers"),
    ("rgb(1,2,3,4)", None, "four numbers"),
    ("rgb(1,,3)", None, "no number"),
    ("rgb(1,2,-3)", None, "a sign"),
    ("rgb(1%,2%,3%)", None, "percentages"),
    ("rgb (1,2,3)", None, "white space before the parenthesis"),
    ("rgb(1,2,3", None, "no parenthesis at the end"),
    ("transparent", None, "the word where it isn't taken"),
    ("", None, "nothing"),
];

static FAMILIES: [Row; 14] = [
    ("Serif", Some("serif"), "a generic family"),
    (
        "sans-serif, CURSIVE,fantasy , monospace",
        Some("sans-serif,cursive,fantasy,monospace"),
        "the other four",
    ),
    ("'Serif'", Some("'Serif'"), "its name in quotes"),
    ("Serif Pro", Some("'Serif Pro'"), "a name that begins so"),
    (
        " Times  New\tRoman , \"a_b\" ",
        Some("'Times New Roman','a_b'"),
        "white space",
    ),
    ("\" a-1 \"", Some("'a-1'"), "white space in quotes"),
    ("'a, b',c", Some("'c'"), "a comma in quotes"),
    ("(a,b)", None, "parentheses hold no comma"),
    ("a;b,,caf\u{E9},''", None, "nothing that is a name"),
    ("'a' 'b'", None, "a quote in quotes"),
    ("'open, mono", None, "a quote left open"),
    ("'a\"", None, "two kinds of quotes"),
    ("a,a", Some("'a','a'"), "a family twice"),
    ("", None, "nothing"),
];

static URLS: [Row; 17] = [
    ("url(a.png)", Some("a.png"), "without quotes"),
    ("URL( 'a b(c)' )", Some("a b(c)"), "in quotes"),
    ("url(\"a'b\")", Some("a'b"), "the other quote"),
    ("url(\n\"\"\t)", Some(""), "no text in quotes"),
    ("url()", Some(""), "no text"),
    ("url(\u{E9})", Some("\u{E9}"), "a letter past ASCII"),
    ("url(\"a\"b\")", None, "the same quote"),
    ("url('a\nb')", None, "a line feed"),
    ("url('a\tb')", None, "a tab"),
    ("url(a b)", None, "white space without quotes"),
    ("url(a(b)", None, "a parenthesis without quotes"),
    ("url(a'b)", None, "a quote without quotes"),
    ("url(')", None, "one quote"),
    ("url(a) x", None, "more behind it"),
    ("url (a)", None, "white space before the parenthesis"),
    ("url(a", None, "no parenthesis at the end"),
    ("urn(a)", None, "another word"),
];

static STYLES: [(&str, &str, &str); 11] = [
    (
        " Color : RED ;b:c:d",
        "color=RED|b=c:d|",
        "white space, capital letters, a second colon",
    ),
    ("a:url(x;y);b:c", "a=url(x;y)|b=c|", "parentheses"),
    ("a:';';b:\"';\";c:d", "a=';'|b=\"';\"|c=d|", "quotes"),
    ("a:);b:c", "a=)|b=c|", "a parenthesis that closes nothing"),
    (
        "a:((x);y);b:c",
        "a=((x);y)|b=c|",
        "parentheses in parentheses",
    ),
    ("a:(b;c:d", "a=(b;c:d|", "a parenthesis left open"),
    ("a:'(';b:c'd;e:f", "a='('|b=c'd;e:f|", "a quote left open"),
    ("a:b\\c;h:i", "h=i|", "a backslash"),
    ("a/*:b;c:d/*e*/;h:i", "h=i|", "a comment"),
    ("a;;h:i;", "h=i|", "no colon"),
    (
        ":;\u{C9}:/ *",
        "=|\u{C9}=/ *|",
        "nothing round the colon, a letter past ASCII, a slash and a star apart",
    ),
];

static VALUES: [(&str, &str, &str); 5] = [
    (" 1px\t solid\n#fff ", "1px|solid|#fff", "white space"),
    (
        "rgb(1, 2, 3) 'a b' \"c 'd\"",
        "rgb(1, 2, 3)|'a b'|\"c 'd\"",
        "parentheses and quotes",
    ),
    (
        ") a ( b c",
        ")|a|( b c",
        "parentheses that close nothing and stay open",
    ),
    ("\u{A0}a \u{E9}", "\u{A0}a|\u{E9}", "a no-break space"),
    (" \n", "", "white space alone"),
];

/// Whether what is read is what the row says.
fn is_as_told(got: Option<String>, want: Option<&str>) -> bool {
    match (got, want) {
        (Some(got), Some(want)) => got.as_str() == want,
        (None, None) => true,
        _ => false,
    }
}

/// The first number that isn't read as its row says.
fn other_number(alloc: Global, signed: bool, rows: &[Row]) -> Failing {
    for (raw, want, what) in rows {
        if !is_as_told(read_number(alloc, raw, signed)?, *want) {
            return Ok(Some(*what));
        }
    }
    Ok(None)
}

#[test]
fn reads_numbers(rt: HostRuntime) {
    assert_none_fails(&rt, other_number(rt.alloc(), false, &UNSIGNED_NUMBERS));
    assert_none_fails(&rt, other_number(rt.alloc(), true, &SIGNED_NUMBERS));
}

/// The first length that isn't read as its row says; those with signs may be percentages.
fn other_length(alloc: Global, signed: bool, rows: &[Row]) -> Failing {
    for (raw, want, what) in rows {
        if !is_as_told(read_length(alloc, raw, signed, signed)?, *want) {
            return Ok(Some(*what));
        }
    }
    Ok(None)
}

#[test]
fn reads_lengths(rt: HostRuntime) {
    assert_none_fails(&rt, other_length(rt.alloc(), false, &UNSIGNED_LENGTHS));
    assert_none_fails(&rt, other_length(rt.alloc(), true, &SIGNED_LENGTHS));
}

/// The first colour that isn't read as its row says.
fn other_color(alloc: Global) -> Failing {
    for (raw, want, what) in &COLORS {
        if !is_as_told(read_color(alloc, raw, false)?, *want) {
            return Ok(Some(*what));
        }
    }
    Ok(None)
}

fn is_word_read(alloc: Global) -> Result<bool, AllocError> {
    let word = read_color(alloc, "TransParent", true)?;
    Ok(is_as_told(word, Some("transparent")))
}

#[test]
fn reads_colors(rt: HostRuntime) {
    assert_none_fails(&rt, other_color(rt.alloc()));
    assert_holds(&rt, is_word_read(rt.alloc()));
}

/// The first list of families that isn't read as its row says.
fn other_families(alloc: Global) -> Failing {
    for (raw, want, what) in &FAMILIES {
        if !is_as_told(read_families(alloc, raw)?, *want) {
            return Ok(Some(*what));
        }
    }
    Ok(None)
}

#[test]
fn reads_families(rt: HostRuntime) {
    assert_none_fails(&rt, other_families(rt.alloc()));
}

/// The first URL that isn't read as its row says.
fn other_url(alloc: Global) -> Failing {
    for (raw, want, what) in &URLS {
        if !is_as_told(read_url(alloc, raw)?, *want) {
            return Ok(Some(*what));
        }
    }
    Ok(None)
}

#[test]
fn reads_urls(rt: HostRuntime) {
    assert_none_fails(&rt, other_url(rt.alloc()));
}

/// Writes declarations with a bar behind each.
fn show(text: &mut String, declarations: &[Declaration]) -> Result<(), AllocError> {
    for declaration in declarations {
        text.push_str(declaration.property.as_str())?;
        text.push('=')?;
        text.push_str(declaration.value.as_str())?;
        text.push('|')?;
    }
    Ok(())
}

/// The declarations of a style, written so.
fn shown(alloc: Global, style: &str) -> Result<String, AllocError> {
    let declarations = split(alloc, style)?;
    let mut text = String::new(alloc);
    show(&mut text, declarations.as_slice())?;
    Ok(text)
}

fn is_shown(alloc: Global, style: &str, want: &str) -> Result<bool, AllocError> {
    Ok(shown(alloc, style)?.as_str() == want)
}

/// The first style that isn't split as its row says.
fn other_style(alloc: Global) -> Failing {
    for (style, want, what) in &STYLES {
        if !is_shown(alloc, style, want)? {
            return Ok(Some(*what));
        }
    }
    Ok(None)
}

#[test]
fn splits_styles(rt: HostRuntime) {
    assert_none_fails(&rt, other_style(rt.alloc()));
}

fn is_joined(alloc: Global, value: &str, want: &str) -> Result<bool, AllocError> {
    let words = split_words(alloc, value)?;
    Ok(words.join(alloc, "|")?.as_str() == want)
}

/// The first value whose words aren't those of its row.
fn other_words(alloc: Global) -> Failing {
    for (value, want, what) in &VALUES {
        if !is_joined(alloc, value, want)? {
            return Ok(Some(*what));
        }
    }
    Ok(None)
}

#[test]
fn splits_words(rt: HostRuntime) {
    assert_none_fails(&rt, other_words(rt.alloc()));
}
