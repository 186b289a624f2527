//! Values typed by hand, each kind with its edges.
use crate::endings::{Failing, assert_holds, assert_none_fails, first_false};
use pur_names::{Attr, Element};
use pur_values::{ValueKind, kind_of, read_value};
use std::alloc::{AllocError, Global};

/// A value, what it is read as, and what the row shows.
type Row = (&'static str, Option<&'static str>, &'static str);

static TEXTS: [Row; 4] = [
    ("", Some(""), "an empty text"),
    (
        " a\t\nb ",
        Some(" a  b "),
        "a tab and a line feed are spaces, and the ends stay",
    ),
    (
        "\u{E9}\u{A0}\u{1F600}",
        Some("\u{E9}\u{A0}\u{1F600}"),
        "letters past ASCII",
    ),
    ("a\rb", Some("a\rb"), "a carriage return stays"),
];

static IDENTIFIERS: [Row; 8] = [
    ("", None, "nothing"),
    (" \n", None, "white space alone"),
    (" a ", Some("a"), "white space at the ends"),
    (
        "aB-_.:9",
        Some("aB-_.:9"),
        "all that may stand in one, and its case",
    ),
    ("9a", None, "a digit first"),
    ("-a", None, "a dash first"),
    ("a b", None, "white space inside"),
    ("\u{E9}", None, "a letter past ASCII"),
];

static CLASSES: [Row; 8] = [
    ("", None, "nothing"),
    (" \t\n ", None, "white space alone"),
    ("a", Some("a"), "one"),
    (
        "\n b\t a  b A ",
        Some("b a A"),
        "a repeat goes, and its case counts",
    ),
    (
        "1a a1 -a _a - _",
        Some("a1 -a _a - _"),
        "a digit first goes",
    ),
    (
        "a.b \u{E9} c\u{A0}d e",
        Some("e"),
        "other characters go with their token",
    ),
    ("1 2", None, "no token is left"),
    ("a a a", Some("a"), "the same again and again"),
];

static RELATIONS: [Row; 6] = [
    ("", None, "nothing"),
    ("NoFollow", Some("nofollow"), "lower case"),
    (
        "next stylesheet NEXT prev",
        Some("next prev"),
        "others and repeats go",
    ),
    ("stylesheet", None, "no relation is left"),
    ("nofollow,noopener", None, "a comma parts nothing"),
    (
        "subsection\tstart\nsection",
        Some("subsection start section"),
        "the order stays",
    ),
];

static LANGUAGES: [Row; 10] = [
    ("", None, "nothing"),
    (" EN-us ", Some("en-us"), "lower case"),
    ("de-1996", Some("de-1996"), "digits behind the first"),
    ("1a", None, "a digit in the first"),
    ("abcdefgh-12345678", Some("abcdefgh-12345678"), "eight"),
    ("abcdefghi", None, "nine"),
    ("en-abcdefghi", None, "nine behind the first"),
    ("en-", None, "an empty subtag"),
    ("-en", None, "an empty first"),
    ("en_us", None, "no dash"),
];

static PIXELS: [Row; 12] = [
    ("", None, "nothing"),
    ("0", Some("0"), "zero"),
    ("000", Some("0"), "zeros"),
    ("007", Some("7"), "leading zeros"),
    (" 12pX ", Some("12"), "the unit in either case"),
    ("9999", Some("9999"), "the most"),
    ("10000", Some("9999"), "one more"),
    (
        "99999999999999999999999999",
        Some("9999"),
        "more than any number of the machine",
    ),
    ("+3", None, "a sign"),
    ("3 px", None, "white space before the unit"),
    ("px", None, "no digit"),
    ("50%", None, "a percentage"),
];

static LENGTHS: [Row; 8] = [
    ("100%", Some("100%"), "all"),
    ("101%", Some("100%"), "more than all"),
    ("150%", Some("100%"), "half as much again"),
    ("007%", Some("7%"), "leading zeros"),
    ("%", None, "no digit"),
    ("5%%", None, "two signs"),
    ("10000", Some("9999"), "pixels"),
    ("3*", None, "a share"),
];

static SHARES: [Row; 6] = [
    ("*", Some("1*"), "one share"),
    ("0*", Some("0*"), "no share"),
    ("010000*", Some("9999*"), "the most"),
    ("**", None, "two signs"),
    ("5%", Some("5%"), "a percentage"),
    ("5px", Some("5"), "pixels"),
];

static NUMBERS: [Row; 8] = [
    ("", None, "nothing"),
    ("0", None, "below the least"),
    ("1", Some("1"), "the least"),
    ("1000", Some("1000"), "the most"),
    ("1001", Some("1000"), "one more"),
    ("0000000002", Some("2"), "leading zeros"),
    ("+3", None, "a sign"),
    ("3px", None, "a unit"),
];

static BULLETS: [Row; 3] = [
    (" Disc ", Some("disc"), "lower case"),
    ("1", None, "a numbering"),
    ("", None, "nothing"),
];

static NUMBERINGS: [Row; 4] = [
    ("A", Some("A"), "its case stays"),
    ("a", Some("a"), "the other case"),
    ("disc", None, "a bullet"),
    ("2", None, "another digit"),
];

static ITEMS: [Row; 4] = [
    ("I", Some("I"), "a numbering"),
    ("CIRCLE", Some("circle"), "a bullet"),
    ("II", None, "neither"),
    ("", None, "nothing"),
];

static SIZES: [Row; 8] = [
    ("1", Some("1"), "the least"),
    ("7", Some("7"), "the greatest"),
    (" +3 ", Some("+3"), "larger"),
    ("-7", Some("-7"), "smaller"),
    ("0", None, "below the least"),
    ("8", None, "above the greatest"),
    ("++1", None, "two signs"),
    ("", None, "nothing"),
];

static CELLS: [Row; 4] = [
    (" JUSTIFY ", Some("justify"), "lower case"),
    ("char", None, "a word that isn't taken"),
    ("middle", None, "a word of a picture"),
    ("", None, "nothing"),
];

static TABLES: [Row; 2] = [
    ("center", Some("center"), "a word of a table"),
    ("justify", None, "a word of a cell"),
];

static UNDECLARED: [Row; 1] = [("left", None, "an attribute that isn't declared there")];

static FLAGS: [Row; 2] = [
    ("", Some("nowrap"), "nothing"),
    ("no", Some("nowrap"), "any text"),
];

static COLOURS: [Row; 12] = [
    ("A1b2C3", Some("#a1b2c3"), "without its mark"),
    ("aBc", Some("#aabbcc"), "three digits without it"),
    ("#aBc", Some("#aabbcc"), "three digits with it"),
    ("a1b2", None, "four digits"),
    ("Navy", Some("#000080"), "a name"),
    (" rgb( 1, 020 ,300) ", Some("#0114ff"), "three numbers"),
    ("transparent", None, "a word that styles take"),
    ("\u{FF11}\u{FF12}\u{FF13}", None, "digits past ASCII"),
    (" #A1B2C3 ", Some("#a1b2c3"), "with it"),
    ("#a1b2c", None, "five digits"),
    ("##a1b2c3", None, "two marks"),
    ("", None, "nothing"),
];

/// Whether a value is read as its row says.
fn is_read(
    alloc: Global,
    kind: ValueKind,
    raw: &str,
    want: Option<&str>,
) -> Result<bool, AllocError> {
    match (read_value(alloc, kind, raw)?, want) {
        (Some(value), Some(want)) => Ok(value.as_str() == want),
        (None, None) => Ok(true),
        _ => Ok(false),
    }
}

/// The first row that isn't as it says, by what it shows.
fn first_other(alloc: Global, kind: ValueKind, rows: &[Row]) -> Failing {
    for (raw, want, what) in rows {
        if !is_read(alloc, kind, raw, *want)? {
            return Ok(Some(*what));
        }
    }
    Ok(None)
}

fn keyword(element: Element, attr: Attr) -> ValueKind {
    ValueKind::Keyword { element, attr }
}

#[test]
fn reads_texts_and_identifiers(rt: HostRuntime) {
    let alloc = rt.alloc();
    assert_none_fails(&rt, first_other(alloc, ValueKind::Text, &TEXTS));
    assert_none_fails(&rt, first_other(alloc, ValueKind::Id, &IDENTIFIERS));
}

#[test]
fn reads_tokens(rt: HostRuntime) {
    let alloc = rt.alloc();
    assert_none_fails(&rt, first_other(alloc, ValueKind::Class, &CLASSES));
    assert_none_fails(&rt, first_other(alloc, ValueKind::Rel, &RELATIONS));
    assert_none_fails(&rt, first_other(alloc, ValueKind::Lang, &LANGUAGES));
}

#[test]
fn reads_numbers_and_lengths(rt: HostRuntime) {
    let alloc = rt.alloc();
    let number = ValueKind::Number {
        least: 1,
        most: 1000,
    };
    assert_none_fails(&rt, first_other(alloc, ValueKind::Pixels, &PIXELS));
    assert_none_fails(&rt, first_other(alloc, ValueKind::Length, &LENGTHS));
    assert_none_fails(&rt, first_other(alloc, ValueKind::MultiLength, &SHARES));
    assert_none_fails(&rt, first_other(alloc, number, &NUMBERS));
}

#[test]
fn reads_choices(rt: HostRuntime) {
    let alloc = rt.alloc();
    assert_none_fails(&rt, first_other(alloc, ValueKind::BulletType, &BULLETS));
    assert_none_fails(&rt, first_other(alloc, ValueKind::NumberType, &NUMBERINGS));
    assert_none_fails(&rt, first_other(alloc, ValueKind::ItemType, &ITEMS));
    assert_none_fails(&rt, first_other(alloc, ValueKind::FontSize, &SIZES));
}

#[test]
fn reads_keywords_of_their_element(rt: HostRuntime) {
    let alloc = rt.alloc();
    let cell = keyword(Element::Td, Attr::Align);
    let table = keyword(Element::Table, Attr::Align);
    let undeclared = keyword(Element::B, Attr::Align);
    let flag = ValueKind::Flag { attr: Attr::Nowrap };
    assert_none_fails(&rt, first_other(alloc, cell, &CELLS));
    assert_none_fails(&rt, first_other(alloc, table, &TABLES));
    assert_none_fails(&rt, first_other(alloc, undeclared, &UNDECLARED));
    assert_none_fails(&rt, first_other(alloc, flag, &FLAGS));
}

#[test]
fn reads_colours_without_a_mark(rt: HostRuntime) {
    assert_none_fails(&rt, first_other(rt.alloc(), ValueKind::Color, &COLOURS));
}

/// An element, an attribute, and the kind of its value there, if it has one.
static KINDS: [(Element, Attr, Option<ValueKind>); 11] = [
    (Element::Td, Attr::Width, Some(ValueKind::Length)),
    (Element::Col, Attr::Width, Some(ValueKind::MultiLength)),
    (
        Element::Pre,
        Attr::Width,
        Some(ValueKind::Number {
            least: 1,
            most: 9999,
        }),
    ),
    (Element::P, Attr::Width, None),
    (Element::Font, Attr::Size, Some(ValueKind::FontSize)),
    (Element::Hr, Attr::Size, Some(ValueKind::Pixels)),
    (Element::Br, Attr::Lang, None),
    (Element::B, Attr::XmlLang, Some(ValueKind::Lang)),
    (Element::A, Attr::Href, None),
    (Element::A, Attr::Name, None),
    (Element::P, Attr::Style, None),
];

/// The first element and attribute whose kind is another.
fn first_other_kind() -> Option<(Element, Attr)> {
    for (element, attr, want) in &KINDS {
        if kind_of(*element, *attr) != *want {
            return Some((*element, *attr));
        }
    }
    None
}

#[test]
fn tells_kinds(rt: HostRuntime) {
    assert_eq!(rt; first_other_kind(), None);
}

fn number(least: u32, most: u32) -> ValueKind {
    ValueKind::Number { least, most }
}

fn is_of(element: Element, attr: Attr, kind: ValueKind) -> bool {
    kind_of(element, attr) == Some(kind)
}

fn is_flag(element: Element, attr: Attr) -> bool {
    is_of(element, attr, ValueKind::Flag { attr })
}

fn is_keyword(element: Element, attr: Attr) -> bool {
    is_of(element, attr, keyword(element, attr))
}

fn is_text(element: Element, attr: Attr) -> bool {
    is_of(element, attr, ValueKind::Text)
}

fn first_other_kind_of_forms() -> Option<&'static str> {
    let size = is_of(Element::Input, Attr::Size, number(1, 9999));
    let rows = is_of(Element::Select, Attr::Size, number(1, 1000));
    let length = is_of(Element::Input, Attr::Maxlength, number(0, 99999));
    let area = is_of(Element::Textarea, Attr::Rows, number(1, 1000))
        && is_of(Element::Textarea, Attr::Cols, number(1, 1000));
    let item = is_of(Element::Li, Attr::Value, number(0, 99999));
    first_false(&[
        (
            "`action` is a URI",
            kind_of(Element::Form, Attr::Action).is_none(),
        ),
        ("`method`", is_keyword(Element::Form, Attr::Method)),
        (
            "the type of a control",
            is_keyword(Element::Input, Attr::ListType)
                && is_keyword(Element::Button, Attr::ListType),
        ),
        (
            "the value of a control",
            is_text(Element::Input, Attr::Value) && is_text(Element::Button, Attr::Value),
        ),
        (
            "the value of an option",
            is_text(Element::OptionItem, Attr::Value),
        ),
        ("the number of an item", item),
        ("`alt` of a control", is_text(Element::Input, Attr::Alt)),
        (
            "labels of options",
            is_text(Element::Optgroup, Attr::Label) && is_text(Element::OptionItem, Attr::Label),
        ),
        ("the size of a field", size),
        ("the size of a list", rows),
        ("the length of a field", length),
        ("the size of an area", area),
        ("`checked`", is_flag(Element::Input, Attr::Checked)),
        ("`multiple`", is_flag(Element::Select, Attr::Multiple)),
        ("`selected`", is_flag(Element::OptionItem, Attr::Selected)),
        ("`readonly`", is_flag(Element::Textarea, Attr::Readonly)),
        ("`disabled`", is_flag(Element::Optgroup, Attr::Disabled)),
        (
            "no `readonly` on a list",
            kind_of(Element::Select, Attr::Readonly).is_none(),
        ),
        (
            "`align` of a legend",
            is_keyword(Element::Legend, Attr::Align),
        ),
    ])
}

static INPUTS: [Row; 4] = [
    ("CheckBox", Some("checkbox"), "lower case"),
    ("button", Some("button"), "a push button"),
    ("file", None, "a type that is left out"),
    ("image", None, "a picture"),
];

static BUTTONS: [Row; 3] = [
    ("submit", Some("submit"), "a word of a button"),
    ("text", None, "a word of a field"),
    ("", None, "nothing"),
];

static METHODS: [Row; 2] = [
    ("POST", Some("post"), "lower case"),
    ("put", None, "another method"),
];

static LEGENDS: [Row; 2] = [
    ("top", Some("top"), "a word of a legend"),
    ("center", None, "a word of a table"),
];

#[test]
fn tells_kinds_of_forms(rt: HostRuntime) {
    assert_none_fails(&rt, Ok(first_other_kind_of_forms()));
}

#[test]
fn reads_keywords_of_forms(rt: HostRuntime) {
    let alloc = rt.alloc();
    let input = keyword(Element::Input, Attr::ListType);
    let button = keyword(Element::Button, Attr::ListType);
    let method = keyword(Element::Form, Attr::Method);
    let legend = keyword(Element::Legend, Attr::Align);
    assert_none_fails(&rt, first_other(alloc, input, &INPUTS));
    assert_none_fails(&rt, first_other(alloc, button, &BUTTONS));
    assert_none_fails(&rt, first_other(alloc, method, &METHODS));
    assert_none_fails(&rt, first_other(alloc, legend, &LEGENDS));
}

fn sevens(alloc: Global, count: usize) -> Result<String, AllocError> {
    let mut digits = String::new(alloc);
    for _ in 0..count {
        digits.push('7')?;
    }
    Ok(digits)
}

/// Whether so many digits are read as the greatest number.
fn are_read(alloc: Global, count: usize) -> Result<bool, AllocError> {
    let digits = sevens(alloc, count)?;
    is_read(alloc, ValueKind::Pixels, digits.as_str(), Some("9999"))
}

#[test]
fn reads_a_million_digits(rt: HostRuntime) {
    assert_holds(&rt, are_read(rt.alloc(), 1_000_000));
}
