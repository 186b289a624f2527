//! What each form reads, by rows: the value, what it is read as, and what the row shows.
ghost use Rattle.std.specs.Prelude.{◌≡◌, ◌∷◌, ◌≤◌, ◌^◌, length, [], IfOk, IfSome, None, codes, true};
ghost use Rattle.pur_uripolicy.specs.Asking.{AnswersBy};
ghost use Rattle.pur_uripolicy.specs.HostRules.{admits, in_order};

use crate::endings::{Failing, assert_holds, assert_none_fails};
use pur_cssprops::{Keywords, ValueForm, WordForm, canon_style, read_value};
use pur_settings::Settings;
use pur_text::is_host;
use pur_uri::Uri;
use pur_uripolicy::{HostRule, UriGate, UriTest};
use std::alloc::{AllocError, Global};

type Row = (&'static str, Option<&'static str>, &'static str);

static COLORS: [Row; 7] = [
    ("Red", Some("#ff0000"), "a name"),
    ("#AbC", Some("#aabbcc"), "three digits"),
    ("rGb(1, 2,300)", Some("#0102ff"), "numbers"),
    ("transparent", None, "a word that isn't taken"),
    ("INHERIT", Some("inherit"), "what every property takes"),
    ("red red", None, "two colours"),
    ("grey", None, "no colour"),
];

static BACKGROUNDS: [Row; 3] = [
    ("Transparent", Some("transparent"), "the word"),
    ("blue", Some("#0000ff"), "a colour"),
    ("none", None, "another word"),
];

static FLOATS: [Row; 8] = [
    ("left", Some("left"), "the first word"),
    ("RiGht", Some("right"), "letters of either case"),
    ("none", Some("none"), "the last word"),
    ("both", None, "a word of another property"),
    ("inherit", Some("inherit"), "what every property takes"),
    ("inherit inherit", None, "that word twice"),
    ("left right", None, "two words"),
    ("", None, "nothing"),
];

static WEIGHTS: [Row; 4] = [
    ("Bold", Some("bold"), "a word"),
    ("400", Some("400"), "a word of digits"),
    ("450", None, "other digits"),
    ("0400", None, "a zero before them"),
];

static WIDTHS: [Row; 7] = [
    ("AUTO", Some("auto"), "the word"),
    ("010.50PX", Some("10.5px"), "a length"),
    ("50%", Some("50%"), "a percentage"),
    ("0em", Some("0"), "zero"),
    ("-1px", None, "below zero"),
    ("5", None, "no unit"),
    ("normal", None, "a word of another property"),
];

static INDENTS: [Row; 4] = [
    ("-2EM", Some("-2em"), "below zero"),
    ("5%", Some("5%"), "a percentage"),
    ("auto", None, "a word"),
    ("inherit", Some("inherit"), "what every property takes"),
];

static SPACINGS: [Row; 4] = [
    ("normal", Some("normal"), "the word"),
    ("-1px", Some("-1px"), "a length below zero"),
    ("5%", None, "a percentage"),
    ("0%", None, "zero per cent"),
];

static LINE_HEIGHTS: [Row; 9] = [
    ("Normal", Some("normal"), "the word"),
    ("1.50", Some("1.5"), "a number"),
    ("0", Some("0"), "zero"),
    ("0px", Some("0"), "a length of zero"),
    ("1.5em", Some("1.5em"), "a length"),
    ("120%", Some("120%"), "a percentage"),
    ("-1", None, "a number below zero"),
    ("-1em", None, "a length below zero"),
    ("auto", None, "another word"),
];

static FAMILIES: [Row; 4] = [
    (
        "Times  New Roman, SERIF",
        Some("'Times New Roman',serif"),
        "a name and a generic one",
    ),
    ("\"serif\"", Some("'serif'"), "a generic one in quotes"),
    ("a;b, c", Some("'c'"), "a part that is dropped"),
    ("a;b", None, "no part left"),
];

static MARGINS: [Row; 9] = [
    ("1px", Some("1px"), "one word"),
    ("0 Auto", Some("0 auto"), "two words"),
    ("1px  2px\t3px", Some("1px 2px 3px"), "three words"),
    ("1px 2px 3px -4%", Some("1px 2px 3px -4%"), "four words"),
    ("1px 2px 3px 4px 5px", None, "five words"),
    ("1px red", None, "a word of another form"),
    ("", None, "no word"),
    ("inherit", Some("inherit"), "what every property takes"),
    ("1px inherit", None, "that word beside another"),
];

static BORDER_COLORS: [Row; 2] = [
    (
        "Red rgb(0, 0, 255)",
        Some("#ff0000 #0000ff"),
        "white space in parentheses",
    ),
    ("transparent red", Some("transparent #ff0000"), "the word"),
];

static BORDERS: [Row; 14] = [
    (
        "1px solid red",
        Some("1px solid #ff0000"),
        "width, style, colour",
    ),
    (
        "red SOLID 1px",
        Some("1px solid #ff0000"),
        "the other way round",
    ),
    ("rgb(1, 2, 3) 0", Some("0 #010203"), "two of the three"),
    ("Thin", Some("thin"), "a width alone"),
    ("none", Some("none"), "a style alone"),
    ("blue", Some("#0000ff"), "a colour alone"),
    ("1px 2px", None, "two widths"),
    ("solid dotted", None, "two styles"),
    ("red blue", None, "two colours"),
    ("1px solid transparent", None, "a word that isn't taken"),
    ("1px solid red solid", None, "four words"),
    ("5% solid", None, "a percentage"),
    ("-1px", None, "below zero"),
    ("", None, "no word"),
];

static DECORATIONS: [Row; 9] = [
    ("None", Some("none"), "the word"),
    ("underline", Some("underline"), "one line"),
    (
        "line-through UNDERLINE",
        Some("underline line-through"),
        "two lines, in order",
    ),
    (
        "overline line-through underline",
        Some("underline overline line-through"),
        "three lines",
    ),
    ("none underline", None, "the word and a line"),
    ("underline underline", None, "a line twice"),
    ("blink", None, "another word"),
    ("", None, "nothing"),
    ("inherit", Some("inherit"), "what every property takes"),
];

static IMAGES: [Row; 11] = [
    ("NONE", Some("none"), "the word"),
    (
        "URL( 'HTTP://a.b/c d' )",
        Some("url(\"http://a.b/c%20d\")"),
        "a URL in its one form",
    ),
    ("url(a.png)", Some("url(\"a.png\")"), "a relative one"),
    ("url(\"\")", Some("url(\"\")"), "an empty one"),
    ("url(https://a.b/)", None, "a scheme that isn't permitted"),
    ("url(mailto:a)", None, "a scheme that isn't embedded"),
    ("url(http://bad.com/)", None, "a host that is denied"),
    ("url(x:y)", None, "no scheme"),
    ("a.png", None, "no URL"),
    ("url(a) url(b)", None, "two"),
    ("inherit", Some("inherit"), "what every property takes"),
];

/// The rule that denies `bad.com`.
fn rule(alloc: Global) -> Result<Option<HostRule>, AllocError>
    ensures { IfOk result (λ rule. IfSome rule (λ r. r ≡ record { denied = in_order (codes "bad.com" ∷ []); host = None; external = true })) }
{
    if !is_host("bad.com") {
        return Ok(None);
    }
    let mut denied = Vec::new(alloc);
    denied.push("bad.com".to_string(alloc)?)?;
    Ok(Some(HostRule::new(denied, None, true)))
}

/// Settings that permit `http` and `mailto` alone.
fn of_two_schemes(alloc: Global) -> Option<Settings> {
    Settings::read(alloc, b"schemes = ['http', 'mailto']").ok()
}

/// The first value that isn't read as its row says, or whose reading isn't read as itself.
fn first_other<F: UriTest + Drop>(
    alloc: Global,
    settings: &Settings,
    rule: &HostRule,
    filter: F,
    form: ValueForm,
    rows: &[Row],
) -> Failing
    requires { AnswersBy F.may_ask F.answers filter (admits rule.now) }
{
    let gate = UriGate::new(rule, filter);
    first_value(alloc, settings, form, &gate, rows)
}

/// The same under a gate.
fn first_value<F: UriTest>(
    alloc: Global,
    settings: &Settings,
    form: ValueForm,
    gate: &UriGate<F>,
    rows: &[Row],
) -> Failing {
    for (raw, want, what) in rows {
        if !is_read(alloc, settings, form, gate, raw, *want)? {
            return Ok(Some(*what));
        }
    }
    Ok(None)
}

fn is_read<F: UriTest>(
    alloc: Global,
    settings: &Settings,
    form: ValueForm,
    gate: &UriGate<F>,
    raw: &str,
    want: Option<&str>,
) -> Result<bool, AllocError> {
    match (read_value(alloc, settings, gate, form, raw)?, want) {
        (Some(got), Some(want)) => Ok(
            got.as_str() == want && is_fixed(alloc, settings, form, gate, want)?,
        ),
        (None, None) => Ok(true),
        _ => Ok(false),
    }
}

fn is_fixed<F: UriTest>(
    alloc: Global,
    settings: &Settings,
    form: ValueForm,
    gate: &UriGate<F>,
    value: &str,
) -> Result<bool, AllocError> {
    match read_value(alloc, settings, gate, form, value)? {
        Some(again) => Ok(again.as_str() == value),
        None => Ok(false),
    }
}

/// The first row that fails, by what it shows.
fn failing(alloc: Global, form: ValueForm, rows: &[Row]) -> Failing {
    match (rule(alloc)?, of_two_schemes(alloc)) {
        (Some(rule), Some(settings)) => first_other(
            alloc,
            &settings,
            &rule,
            |uri: &Uri| rule.admits(uri),
            form,
            rows,
        ),
        _ => Ok(Some("no rule")),
    }
}

const fn length(signed: bool, percent: bool, keywords: Keywords) -> WordForm {
    WordForm::Length {
        signed,
        percent,
        keywords,
    }
}

#[test]
fn reads_colors(rt: HostRuntime) {
    let alloc = rt.alloc();
    let color = ValueForm::Word(WordForm::Color { transparent: false });
    let background = ValueForm::Word(WordForm::Color { transparent: true });
    assert_none_fails(&rt, failing(alloc, color, &COLORS));
    assert_none_fails(&rt, failing(alloc, background, &BACKGROUNDS));
}

#[test]
fn reads_keywords(rt: HostRuntime) {
    let alloc = rt.alloc();
    let float = ValueForm::Word(WordForm::Keyword(Keywords::Float));
    let weight = ValueForm::Word(WordForm::Keyword(Keywords::FontWeight));
    assert_none_fails(&rt, failing(alloc, float, &FLOATS));
    assert_none_fails(&rt, failing(alloc, weight, &WEIGHTS));
}

#[test]
fn reads_lengths(rt: HostRuntime) {
    let alloc = rt.alloc();
    let width = ValueForm::Word(length(false, true, Keywords::Auto));
    let indent = ValueForm::Word(length(true, true, Keywords::Empty));
    let spacing = ValueForm::Word(length(true, false, Keywords::Normal));
    assert_none_fails(&rt, failing(alloc, width, &WIDTHS));
    assert_none_fails(&rt, failing(alloc, indent, &INDENTS));
    assert_none_fails(&rt, failing(alloc, spacing, &SPACINGS));
}

#[test]
fn reads_line_heights(rt: HostRuntime) {
    let alloc = rt.alloc();
    let form = ValueForm::Word(WordForm::LineHeight);
    assert_none_fails(&rt, failing(alloc, form, &LINE_HEIGHTS));
}

#[test]
fn reads_families(rt: HostRuntime) {
    let alloc = rt.alloc();
    assert_none_fails(&rt, failing(alloc, ValueForm::Families, &FAMILIES));
}

#[test]
fn reads_one_to_four_words(rt: HostRuntime) {
    let alloc = rt.alloc();
    let margin = ValueForm::Words(length(true, true, Keywords::Auto));
    let color = ValueForm::Words(WordForm::Color { transparent: true });
    assert_none_fails(&rt, failing(alloc, margin, &MARGINS));
    assert_none_fails(&rt, failing(alloc, color, &BORDER_COLORS));
}

#[test]
fn reads_borders(rt: HostRuntime) {
    let alloc = rt.alloc();
    assert_none_fails(&rt, failing(alloc, ValueForm::Border, &BORDERS));
}

#[test]
fn reads_decorations(rt: HostRuntime) {
    let alloc = rt.alloc();
    assert_none_fails(&rt, failing(alloc, ValueForm::Decoration, &DECORATIONS));
}

#[test]
fn reads_images(rt: HostRuntime) {
    let alloc = rt.alloc();
    assert_none_fails(&rt, failing(alloc, ValueForm::Image, &IMAGES));
}

/// A set and its words, with a space between each two.
type Set = (Keywords, &'static str);

static SETS: [Set; 27] = [
    (Keywords::Empty, ""),
    (Keywords::Inherit, "inherit"),
    (Keywords::NoneAlone, "none"),
    (Keywords::Auto, "auto"),
    (Keywords::Normal, "normal"),
    (Keywords::Attachment, "scroll fixed"),
    (Keywords::Repeat, "repeat repeat-x repeat-y no-repeat"),
    (Keywords::Collapse, "collapse separate"),
    (Keywords::LineWidth, "thin medium thick"),
    (
        Keywords::LineStyle,
        "none hidden dotted dashed solid double groove ridge inset outset",
    ),
    (Keywords::CaptionSide, "top bottom"),
    (Keywords::Clear, "none left right both"),
    (Keywords::Float, "left right none"),
    (
        Keywords::FontSize,
        "xx-small x-small small medium large x-large xx-large smaller larger",
    ),
    (Keywords::FontStyle, "normal italic oblique"),
    (Keywords::FontVariant, "normal small-caps"),
    (
        Keywords::FontWeight,
        "normal bold bolder lighter 100 200 300 400 500 600 700 800 900",
    ),
    (Keywords::ListPosition, "inside outside"),
    (
        Keywords::ListType,
        "disc circle square decimal decimal-leading-zero lower-roman upper-roman lower-greek lower-latin upper-latin armenian georgian lower-alpha upper-alpha none",
    ),
    (Keywords::TableLayout, "auto fixed"),
    (Keywords::TextAlign, "left right center justify"),
    (
        Keywords::TextTransform,
        "capitalize uppercase lowercase none",
    ),
    (
        Keywords::VerticalAlign,
        "baseline sub super top text-top middle bottom text-bottom",
    ),
    (Keywords::WhiteSpace, "normal pre nowrap pre-wrap pre-line"),
    (Keywords::Underline, "underline"),
    (Keywords::Overline, "overline"),
    (Keywords::LineThrough, "line-through"),
];

/// Whether a word is one of these.
fn has_word(words: &str, word: &str) -> bool {
    for other in words.split(' ') {
        if other == word {
            return true;
        }
    }
    false
}

/// Whether a set that has words of its own takes those among some words, and no other; each takes `inherit`.
fn takes_its_own<F: UriTest>(
    alloc: Global,
    settings: &Settings,
    gate: &UriGate<F>,
    keywords: Keywords,
    own: &str,
    words: &str,
) -> Result<bool, AllocError> {
    let form = ValueForm::Word(WordForm::Keyword(keywords));
    for word in words.split(' ') {
        let is_own = !word.is_empty() && (word == "inherit" || has_word(own, word));
        let want = if is_own { Some(word) } else { None };
        if !is_read(alloc, settings, form, gate, word, want)? {
            return Ok(false);
        }
    }
    Ok(true)
}

/// Whether a set has its words, and none that stands in another set alone.
fn has_its_words<F: UriTest>(
    alloc: Global,
    settings: &Settings,
    gate: &UriGate<F>,
    keywords: Keywords,
    own: &str,
) -> Result<bool, AllocError> {
    for (_, words) in &SETS {
        if !takes_its_own(alloc, settings, gate, keywords, own, words)? {
            return Ok(false);
        }
    }
    Ok(true)
}

/// The words of the first set that has others.
fn other_set<F: UriTest + Drop>(
    alloc: Global,
    settings: &Settings,
    rule: &HostRule,
    filter: F,
) -> Failing
    requires { AnswersBy F.may_ask F.answers filter (admits rule.now) }
{
    let gate = UriGate::new(rule, filter);
    other_set_under(alloc, settings, &gate)
}

/// The same under a gate.
fn other_set_under<F: UriTest>(alloc: Global, settings: &Settings, gate: &UriGate<F>) -> Failing {
    for (keywords, own) in &SETS {
        if !has_its_words(alloc, settings, gate, *keywords, own)? {
            return Ok(Some(*own));
        }
    }
    Ok(None)
}

fn failing_set(alloc: Global) -> Failing {
    match (rule(alloc)?, of_two_schemes(alloc)) {
        (Some(rule), Some(settings)) => other_set(
            alloc,
            &settings,
            &rule,
            |uri: &Uri| rule.admits(uri),
        ),
        _ => Ok(Some("no rule")),
    }
}

#[test]
fn knows_the_words(rt: HostRuntime) {
    assert_none_fails(&rt, failing_set(rt.alloc()));
}

/// A property, a value, what it is written as, and a value that isn't read.
type PropertyRow = (&'static str, &'static str, &'static str, &'static str);

static PROPERTIES: [PropertyRow; 55] = [
    ("background-attachment", "Fixed", "fixed", "local"),
    ("background-color", "Transparent", "transparent", "none"),
    (
        "background-image",
        "URL(a.png)",
        "url(\"a.png\")",
        "url(mailto:a)",
    ),
    (
        "background-repeat",
        "No-Repeat",
        "no-repeat",
        "repeat repeat",
    ),
    (
        "border",
        "red 1PX Solid",
        "1px solid #ff0000",
        "1px transparent",
    ),
    ("border-bottom-color", "#F00", "#ff0000", "#f0"),
    ("border-bottom-style", "DASHED", "dashed", "wavy"),
    ("border-bottom-width", "Thick", "thick", "1%"),
    ("border-collapse", "Separate", "separate", "none"),
    (
        "border-color",
        "red Transparent",
        "#ff0000 transparent",
        "red none",
    ),
    ("border-left-color", "transparent", "transparent", "thin"),
    ("border-left-style", "inset", "inset", "thin"),
    ("border-left-width", "0.50em", "0.5em", "-1px"),
    (
        "border-right-color",
        "rgb(0,128,255)",
        "#0080ff",
        "rgb(0,128)",
    ),
    ("border-right-style", "None", "none", "red"),
    ("border-right-width", "medium", "medium", "auto"),
    (
        "border-style",
        "solid none solid none",
        "solid none solid none",
        "solid none solid none solid",
    ),
    ("border-top-color", "Teal", "#008080", "grey"),
    ("border-top-style", "outset", "outset", "1px"),
    ("border-top-width", "2Pt", "2pt", "2"),
    ("border-width", "thin 0px", "thin 0", "thin 5%"),
    ("caption-side", "Bottom", "bottom", "left"),
    ("clear", "BOTH", "both", "all"),
    ("color", "lime", "#00ff00", "transparent"),
    ("float", "Right", "right", "both"),
    (
        "font-family",
        "Arial, SANS-SERIF",
        "'Arial',sans-serif",
        "a!",
    ),
    ("font-size", "X-Large", "x-large", "-1em"),
    ("font-style", "oblique", "oblique", "bold"),
    ("font-variant", "small-caps", "small-caps", "caps"),
    ("font-weight", "700", "700", "750"),
    ("height", "050%", "50%", "-1px"),
    ("letter-spacing", "-.5EM", "-0.5em", "5%"),
    ("line-height", "1.20", "1.2", "-1"),
    ("list-style-image", "None", "none", "disc"),
    ("list-style-position", "inside", "inside", "left"),
    ("list-style-type", "Lower-Greek", "lower-greek", "hebrew"),
    ("margin", "1px -2% Auto 0em", "1px -2% auto 0", "normal"),
    ("margin-bottom", "-1in", "-1in", "1 in"),
    ("margin-left", "auto", "auto", "1px 2px"),
    ("margin-right", "5%", "5%", "5"),
    ("margin-top", "+1px", "1px", "++1px"),
    ("padding", "1px 2%", "1px 2%", "auto"),
    ("padding-bottom", "1cm", "1cm", "-1cm"),
    ("padding-left", "1mm", "1mm", "auto"),
    ("padding-right", "3%", "3%", "-3%"),
    ("padding-top", "1pc", "1pc", "1q"),
    ("table-layout", "Fixed", "fixed", "none"),
    ("text-align", "justify", "justify", "start"),
    (
        "text-decoration",
        "line-through underline",
        "underline line-through",
        "none underline",
    ),
    ("text-indent", "-1ex", "-1ex", "auto"),
    ("text-transform", "Uppercase", "uppercase", "normal"),
    ("vertical-align", "Text-Top", "text-top", "left"),
    ("white-space", "Pre-Wrap", "pre-wrap", "wrap"),
    ("width", "+010.50PX", "10.5px", "normal"),
    ("word-spacing", "Normal", "normal", "auto"),
];

// The other branches of properties that have several.
static BRANCHES: [PropertyRow; 16] = [
    ("background-color", "#ABC", "#aabbcc", "#abcd"),
    ("background-image", "None", "none", "auto"),
    ("border-top-width", "THIN", "thin", "normal"),
    ("font-size", "120%", "120%", "5"),
    ("height", "Auto", "auto", "normal"),
    ("letter-spacing", "normal", "normal", "auto"),
    ("line-height", "Normal", "normal", "auto"),
    ("line-height", "1.5em", "1.5em", "-1em"),
    ("line-height", "120%", "120%", "-5%"),
    ("list-style-image", "url('b')", "url(\"b\")", "url(b c)"),
    ("margin-left", "-1px", "-1px", "thin"),
    ("text-decoration", "None", "none", "blink"),
    ("text-indent", "5%", "5%", "5"),
    ("vertical-align", "-5%", "-5%", "-5"),
    ("width", "auto", "auto", "-5%"),
    ("word-spacing", "2em", "2em", "2%"),
];

static STYLES: [Row; 22] = [
    (
        "COLOR: Red; position:fixed; color:#0F0",
        Some("color:#00ff00;"),
        "the last value of a property, and a property that isn't known",
    ),
    (
        "margin:0px AUTO; border: solid 1px #F00; font-family: \"Times New Roman\" , Serif; background-image:url('HTTP://E.com/a.png'); width:+010.50PX",
        Some(
            "margin:0 auto;border:1px solid #ff0000;font-family:'Times New Roman',serif;background-image:url(\"http://e.com/a.png\");width:10.5px;",
        ),
        "five forms",
    ),
    ("position:fixed", None, "no property that is known"),
    ("", None, "nothing"),
    (" ; ;", None, "declarations of white space"),
    (
        "color:red;width:1px;color:blue",
        Some("color:#0000ff;width:1px;"),
        "a property stays at its first place",
    ),
    (
        "color:red;color:none",
        Some("color:#ff0000;"),
        "a value that isn't read changes nothing",
    ),
    (
        "color:none;width:1px;color:red",
        Some("width:1px;color:#ff0000;"),
        "and takes no place",
    ),
    (
        "width:1px;height:2px;width:3px;height:4px",
        Some("width:3px;height:4px;"),
        "two properties, each twice",
    ),
    (
        "color:red;font-family:'a;width:1px",
        Some("color:#ff0000;"),
        "an open quote takes the rest along",
    ),
    (
        "color:red;background-image:url(a;width:1px",
        Some("color:#ff0000;"),
        "so does an open parenthesis",
    ),
    (
        "font-family:\"a;b\",c;width:1px",
        Some("font-family:'c';width:1px;"),
        "a semicolon in quotes",
    ),
    ("color:re\\64;width:1px", Some("width:1px;"), "a backslash"),
    ("color:red/**/;width:1px", Some("width:1px;"), "a comment"),
    ("color red;width:1px", Some("width:1px;"), "no colon"),
    ("color:red:;width:1px", Some("width:1px;"), "two colons"),
    (
        " Color :\tRED\n",
        Some("color:#ff0000;"),
        "white space round a property and a value",
    ),
    (
        "float:Inherit",
        Some("float:inherit;"),
        "what every property takes",
    ),
    (
        "background-image:url(http://bad.com/a)",
        None,
        "a host that is denied",
    ),
    (
        "background-image:url(https://a.b/)",
        Some("background-image:url(\"https://a.b/\");"),
        "a scheme that is permitted",
    ),
    (
        "background-image:url(tel:1)",
        None,
        "one that isn't embedded",
    ),
    (
        "\u{e9}:red;c\u{f6}lor:red;color:r\u{e9}d",
        None,
        "letters past ASCII",
    ),
];

static STYLES_OF_A_WIDTH: [Row; 4] = [
    (
        "width:1px",
        Some("width:1px;"),
        "the property that is listed",
    ),
    (
        "color:red;WIDTH:1px;height:1px",
        Some("width:1px;"),
        "beside others",
    ),
    ("color:red", None, "one that isn't listed"),
    ("position:fixed", None, "one that isn't known"),
];

static STYLES_WITHOUT_SCHEMES: [Row; 2] = [
    (
        "background-image:url(http://a.b/)",
        None,
        "a scheme that isn't listed",
    ),
    (
        "background-image:url(a.png)",
        Some("background-image:url(\"a.png\");"),
        "a relative reference",
    ),
];

static STYLES_OF_NOTHING: [Row; 2] = [
    ("width:1px", None, "an empty list permits none"),
    ("color:inherit", None, "and no other"),
];

fn is_styled<F: UriTest>(
    alloc: Global,
    settings: &Settings,
    gate: &UriGate<F>,
    raw: &str,
    want: Option<&str>,
) -> Result<bool, AllocError> {
    match (canon_style(alloc, settings, gate, raw)?, want) {
        (Some(got), Some(want)) => Ok(got.as_str() == want && stays(alloc, settings, gate, want)?),
        (None, None) => Ok(true),
        _ => Ok(false),
    }
}

/// Whether the style is read as itself.
fn stays<F: UriTest>(
    alloc: Global,
    settings: &Settings,
    gate: &UriGate<F>,
    style: &str,
) -> Result<bool, AllocError> {
    match canon_style(alloc, settings, gate, style)? {
        Some(again) => Ok(again.as_str() == style),
        None => Ok(false),
    }
}

/// The first style that isn't read as its row says.
fn first_style<F: UriTest + Drop>(
    alloc: Global,
    settings: &Settings,
    rule: &HostRule,
    filter: F,
    rows: &[Row],
) -> Failing
    requires { AnswersBy F.may_ask F.answers filter (admits rule.now) }
{
    let gate = UriGate::new(rule, filter);
    first_style_under(alloc, settings, &gate, rows)
}

/// The same under a gate.
fn first_style_under<F: UriTest>(
    alloc: Global,
    settings: &Settings,
    gate: &UriGate<F>,
    rows: &[Row],
) -> Failing {
    for (raw, want, what) in rows {
        if !is_styled(alloc, settings, gate, raw, *want)? {
            return Ok(Some(*what));
        }
    }
    Ok(None)
}

fn failing_style(alloc: Global, settings: &Settings, rows: &[Row]) -> Failing {
    match rule(alloc)? {
        Some(rule) => { first_style(alloc, settings, &rule, |uri: &Uri| rule.admits(uri), rows) }
        _ => Ok(Some("no rule")),
    }
}

/// The first style that isn't read as its row says under settings of this text.
fn failing_style_of(alloc: Global, text: &[u8], rows: &[Row]) -> Failing
    requires { length text.now ≤ 2 ^ 16 }
{
    match Settings::read(alloc, text) {
        Ok(settings) => failing_style(alloc, &settings, rows),
        Err(_) => Ok(Some("no settings")),
    }
}

#[test]
fn reads_styles(rt: HostRuntime) {
    let alloc = rt.alloc();
    assert_none_fails(&rt, failing_style(alloc, &Settings::defaults(), &STYLES));
    assert_none_fails(
        &rt,
        failing_style_of(alloc, b"properties = ['width']", &STYLES_OF_A_WIDTH),
    );
    assert_none_fails(
        &rt,
        failing_style_of(alloc, b"schemes = []", &STYLES_WITHOUT_SCHEMES),
    );
    assert_none_fails(
        &rt,
        failing_style_of(alloc, b"properties = []", &STYLES_OF_NOTHING),
    );
}

/// A declaration of the property and the value, with this end.
fn declared(alloc: Global, property: &str, value: &str, end: &str) -> Result<String, AllocError> {
    let mut style = String::from_str(alloc, property)?;
    style.push(':')?;
    style.push_str(value)?;
    style.push_str(end)?;
    Ok(style)
}

/// The first property whose value isn't read as its row says.
fn first_property<F: UriTest + Drop>(
    alloc: Global,
    rule: &HostRule,
    filter: F,
    rows: &[PropertyRow],
) -> Failing
    requires { AnswersBy F.may_ask F.answers filter (admits rule.now) }
{
    let gate = UriGate::new(rule, filter);
    first_property_under(alloc, &gate, rows)
}

/// The same under a gate. What is owned stands apart from what may fail, here and below: a check pays for each value that is
/// dropped at each place where a function may end.
fn first_property_under<F: UriTest>(
    alloc: Global,
    gate: &UriGate<F>,
    rows: &[PropertyRow],
) -> Failing {
    let settings = Settings::defaults();
    first_row(alloc, &settings, gate, rows)
}

fn first_row<F: UriTest>(
    alloc: Global,
    settings: &Settings,
    gate: &UriGate<F>,
    rows: &[PropertyRow],
) -> Failing {
    for row in rows {
        if !is_row_read(alloc, settings, gate, row)? {
            return Ok(Some(row.0));
        }
    }
    Ok(None)
}

fn is_row_read<F: UriTest>(
    alloc: Global,
    settings: &Settings,
    gate: &UriGate<F>,
    row: &PropertyRow,
) -> Result<bool, AllocError> {
    let (property, raw, want, refused) = row;
    let is_read = is_kept(alloc, settings, gate, property, raw, want)?;
    let is_refused = is_dropped(alloc, settings, gate, property, refused)?;
    Ok(is_read && is_refused)
}

/// Whether the value is read as the other one.
fn is_kept<F: UriTest>(
    alloc: Global,
    settings: &Settings,
    gate: &UriGate<F>,
    property: &str,
    raw: &str,
    want: &str,
) -> Result<bool, AllocError> {
    let style = declared(alloc, property, raw, "")?;
    let written = declared(alloc, property, want, ";")?;
    is_styled(
        alloc,
        settings,
        gate,
        style.as_str(),
        Some(written.as_str()),
    )
}

/// Whether the property is dropped with this value.
fn is_dropped<F: UriTest>(
    alloc: Global,
    settings: &Settings,
    gate: &UriGate<F>,
    property: &str,
    raw: &str,
) -> Result<bool, AllocError> {
    let style = declared(alloc, property, raw, "")?;
    is_styled(alloc, settings, gate, style.as_str(), None)
}

fn failing_property(alloc: Global, rows: &[PropertyRow]) -> Failing {
    match rule(alloc)? {
        Some(rule) => { first_property(alloc, &rule, |uri: &Uri| rule.admits(uri), rows) }
        None => Ok(Some("no rule")),
    }
}

#[test]
fn knows_the_properties(rt: HostRuntime) {
    let alloc = rt.alloc();
    assert_none_fails(&rt, failing_property(alloc, &PROPERTIES));
    assert_none_fails(&rt, failing_property(alloc, &BRANCHES));
}

/// The declaration, so many times.
fn repeated(alloc: Global, declaration: &str, times: usize) -> Result<String, AllocError> {
    let mut style = String::new(alloc);
    for _ in 0..times {
        style.push_str(declaration)?;
    }
    Ok(style)
}

/// Whether the style is read as this.
fn reads_as<F: UriTest + Drop>(
    alloc: Global,
    rule: &HostRule,
    filter: F,
    raw: &str,
    want: Option<&str>,
) -> Result<bool, AllocError>
    requires { AnswersBy F.may_ask F.answers filter (admits rule.now) }
{
    let gate = UriGate::new(rule, filter);
    is_styled(alloc, &Settings::defaults(), &gate, raw, want)
}

fn is_read_as(alloc: Global, raw: &str, want: Option<&str>) -> Result<bool, AllocError> {
    match rule(alloc)? {
        Some(rule) => reads_as(alloc, &rule, |uri: &Uri| rule.admits(uri), raw, want),
        _ => Ok(false),
    }
}

/// Whether the declaration, so many times, is read as this.
fn is_long_read_as(
    alloc: Global,
    declaration: &str,
    times: usize,
    want: Option<&str>,
) -> Result<bool, AllocError> {
    let style = repeated(alloc, declaration, times)?;
    is_read_as(alloc, style.as_str(), want)
}

#[test]
fn reads_long_styles(rt: HostRuntime) {
    let alloc = rt.alloc();
    let same = is_long_read_as(alloc, "width:1px;", 100_000, Some("width:1px;"));
    assert_holds(&rt, same);
    assert_holds(&rt, is_long_read_as(alloc, "a:b;", 250_000, None));
    assert_holds(&rt, is_long_read_as(alloc, " ", 1_000_000, None));
}
