//! Fragments that are spelled, each with neighbours that one rule of spelling alone refuses, and some that are valid or aren't.

ghost use Rattle.pur_uripolicy.specs.Asking.{AnswersBy};
ghost use Rattle.pur_uripolicy.specs.HostRules.{admits};

use crate::endings::{Failing, assert_holds, assert_none_fails};
use pur_names::Element;
use pur_reader::{read_fragment, valid};
use pur_settings::Settings;
use pur_tree::Node;
use pur_uri::Uri;
use pur_uripolicy::{HostRule, UriGate, UriTest, host_rule};
use std::alloc::{AllocError, Global};

// What is told, the text, and whether it is the spelling of nodes.
static ROWS: [(&str, &str, bool); 64] = [
    ("no nodes", "", true),
    ("a text", "a", true),
    ("white space", " \n\t", true),
    ("an EMPTY element", "<br />", true),
    ("an EMPTY element without its slash", "<br>", false),
    ("without its space", "<br/>", false),
    ("with two spaces", "<br  />", false),
    ("with a tab for its space", "<br\t/>", false),
    ("with an end tag", "<br></br>", false),
    ("an element without children", "<p></p>", true),
    ("as an empty tag", "<p />", false),
    ("as an empty tag without its space", "<p/>", false),
    ("in upper case", "<P></P>", false),
    ("of no standard", "<x></x>", false),
    ("unclosed", "<p>", false),
    ("with another end tag", "<p></b>", false),
    ("with a space in its end tag", "<p></p >", false),
    ("a surplus end tag", "a</p>", false),
    ("a tag without its end", "<p", false),
    ("a tag without a name", "<></>", false),
    ("children", "<p>a<b>c</b>d</p><p></p>e", true),
    ("elements that cross", "<p><b></p></b>", false),
    ("a comment", "<!-- a -->", false),
    ("references", "&amp;&lt;&gt;", true),
    ("quotation marks in a text", "\"'", true),
    ("a quotation mark as a reference in a text", "&quot;", false),
    ("an ampersand", "a & b", false),
    ("a greater sign", "a > b", false),
    ("a less sign", "a < b", false),
    ("a number's reference", "&#39;", false),
    ("an apostrophe's reference", "&apos;", false),
    ("a reference without its end", "&amp", false),
    ("a name of HTML", "&nbsp;", false),
    ("a no-break space", "\u{A0}", true),
    ("a character past the first plane", "\u{1F600}", true),
    ("a carriage return", "a\r\n", false),
    ("a NUL", "a\0", false),
    ("a control", "\u{85}", false),
    ("an attribute", "<p title=\"a\"></p>", true),
    ("an empty value", "<p title=\"\"></p>", true),
    ("two attributes", "<p title=\"a\" lang=\"b\"></p>", true),
    (
        "an attribute of an EMPTY element",
        "<img alt=\"\" src=\"a\" />",
        true,
    ),
    (
        "without the space before the slash",
        "<img alt=\"\"/>",
        false,
    ),
    ("a value in single quotes", "<p class='a'></p>", false),
    ("without quotes", "<p class=a></p>", false),
    ("without a value", "<p class></p>", false),
    (
        "no space between two attributes",
        "<p title=\"a\"lang=\"b\"></p>",
        false,
    ),
    (
        "two spaces between them",
        "<p title=\"a\"  lang=\"b\"></p>",
        false,
    ),
    ("two spaces before the first", "<p  title=\"a\"></p>", false),
    ("a space behind the last", "<p title=\"a\" ></p>", false),
    ("a space behind the name of a start tag", "<p ></p>", false),
    (
        "a space before the equals sign",
        "<p title =\"a\"></p>",
        false,
    ),
    ("a name twice", "<p title=\"a\" title=\"b\"></p>", false),
    ("a name in upper case", "<p Title=\"a\"></p>", false),
    ("a name of no standard", "<q x=\"1\"></q>", false),
    ("an attribute in an end tag", "<p></p title=\"a\">", false),
    (
        "references in a value",
        "<p title=\"&amp;&lt;&gt;&quot;\"></p>",
        true,
    ),
    ("an apostrophe in a value", "<p title=\"'\"></p>", true),
    ("an ampersand in a value", "<p title=\"&\"></p>", false),
    ("a less sign in a value", "<p title=\"<\"></p>", false),
    ("a greater sign in a value", "<p title=\">\"></p>", false),
    ("a quotation mark in a value", "<p title=\"\"\"></p>", false),
    (
        "an apostrophe's reference in a value",
        "<p title=\"&#39;\"></p>",
        false,
    ),
    ("a list without items", "<ul></ul>", true),
];

// Whether bytes spell nodes.
fn is_spelled(alloc: Global, text: &[u8]) -> Result<bool, AllocError> {
    let found = read_fragment(alloc, text)?;
    Ok(found.is_some())
}

fn first_other(alloc: Global) -> Failing {
    for (name, text, want) in &ROWS {
        if is_spelled(alloc, text.as_bytes())? != *want {
            return Ok(Some(*name));
        }
    }
    Ok(None)
}

#[test]
fn reads_what_is_spelled(rt: HostRuntime) {
    assert_none_fails(&rt, first_other(rt.alloc()));
}

// A name, a start and an end, how often they stand, what stands between, and whether that is spelled.
type LevelRow = (
    &'static str,
    &'static str,
    &'static str,
    usize,
    &'static str,
    bool,
);

// Puts so many times a tag.
fn put_tags(text: &mut String, tag: &str, count: usize) -> Result<(), AllocError> {
    for _ in 0..count {
        text.push_str(tag)?;
    }
    Ok(())
}

// Puts the start tags of a row, what stands between, and the end tags.
fn put_nested(text: &mut String, row: &LevelRow) -> Result<(), AllocError> {
    let (_, start, end, count, inner, _) = row;
    put_tags(text, start, *count)?;
    text.push_str(inner)?;
    put_tags(text, end, *count)
}

fn is_nested_spelled(alloc: Global, row: &LevelRow) -> Result<bool, AllocError> {
    let mut text = String::new(alloc);
    put_nested(&mut text, row)?;
    is_spelled(alloc, text.as_bytes())
}

static LEVELS: [LevelRow; 4] = [
    ("the most of bold", "<b>", "</b>", 128, "", true),
    ("one more", "<b>", "</b>", 129, "", false),
    (
        "the most of tables",
        "<table><tr><td>",
        "</td></tr></table>",
        32,
        "",
        true,
    ),
    (
        "a break in them",
        "<table><tr><td>",
        "</td></tr></table>",
        32,
        "<br />",
        false,
    ),
];

fn first_level(alloc: Global) -> Failing {
    for row in &LEVELS {
        if is_nested_spelled(alloc, row)? != row.5 {
            return Ok(Some(row.0));
        }
    }
    Ok(None)
}

#[test]
fn stops_at_the_level_limit(rt: HostRuntime) {
    assert_none_fails(&rt, first_level(rt.alloc()));
}

// A name, bytes, and whether they are spelled.
static BYTES: [(&str, &[u8], bool); 4] = [
    ("a character of two bytes", &[0xC2, 0xA9], true),
    ("its first byte", &[0xC2], false),
    ("its second byte", &[0xA9], false),
    ("a surrogate", &[0xED, 0xA0, 0x80], false),
];

fn first_bytes(alloc: Global) -> Failing {
    for (name, bytes, want) in &BYTES {
        if is_spelled(alloc, bytes)? != *want {
            return Ok(Some(*name));
        }
    }
    Ok(None)
}

#[test]
fn wants_utf8(rt: HostRuntime) {
    assert_none_fails(&rt, first_bytes(rt.alloc()));
}

// Whether nodes are a text, and a paragraph with a title and two children.
fn are_text_and_paragraph(nodes: &[Node]) -> bool {
    nodes.len() == 2 && is_text(nodes.first()) && is_paragraph(nodes.get(1))
}

fn is_text(node: Option<&Node>) -> bool {
    match node {
        Some(Node::Text(text)) => text.as_str() == "a&",
        _ => false,
    }
}

fn is_paragraph(node: Option<&Node>) -> bool {
    match node {
        Some(Node::Elem(elem)) => {
            elem.name == Element::P
                && elem.attrs.get("title") == Some("\"b")
                && elem.children.len() == 2
        }
        _ => false,
    }
}

// Whether bytes spell such nodes.
fn spells_them(alloc: Global, text: &[u8]) -> Result<bool, AllocError> {
    match read_fragment(alloc, text)? {
        Some(forest) => Ok(are_text_and_paragraph(forest.nodes())),
        None => Ok(false),
    }
}

#[test]
fn gives_the_nodes(rt: HostRuntime) {
    let text = b"a&amp;<p title=\"&quot;b\">c<br /></p>";
    assert_holds(&rt, spells_them(rt.alloc(), text));
}

// What is told, the settings, a fragment that is spelled, and whether its nodes are valid under the settings.
static JUDGED: [(&str, &str, &str, bool); 28] = [
    ("nothing", "", "", true),
    ("text", "", "a", true),
    ("a list with an item", "", "<ul> <li>a</li></ul>", true),
    ("a list without items", "", "<ul></ul>", false),
    ("text in a list", "", "<ul>a<li>b</li></ul>", false),
    ("a paragraph in a paragraph", "", "<p><p></p></p>", false),
    (
        "a block in a deep inline element",
        "",
        "<p><b><i><div></div></i></b></p>",
        false,
    ),
    ("a link in a link", "", "<a><b><a>x</a></b></a>", false),
    ("two links", "", "<a>x</a><a>y</a>", true),
    (
        "a picture in pre",
        "",
        "<pre><img src=\"a.png\" alt=\"\" /></pre>",
        false,
    ),
    (
        "a picture behind pre",
        "",
        "<pre>x</pre><img src=\"a.png\" alt=\"\" />",
        true,
    ),
    (
        "an element that isn't permitted",
        "elements = ['p']",
        "<p><b></b></p>",
        false,
    ),
    (
        "a picture without a text",
        "",
        "<img src=\"a.png\" />",
        false,
    ),
    (
        "an attribute that isn't declared",
        "",
        "<p href=\"a\"></p>",
        false,
    ),
    (
        "a value that is another's reading",
        "",
        "<td colspan=\"01\">x</td>",
        false,
    ),
    (
        "a value that is read as itself",
        "",
        "<p title=\" a \"></p>",
        true,
    ),
    (
        "one language",
        "",
        "<p lang=\"en\" xml:lang=\"en\"></p>",
        true,
    ),
    (
        "another for XML",
        "",
        "<p lang=\"en\" xml:lang=\"de\"></p>",
        false,
    ),
    ("none for XML", "", "<p lang=\"en\"></p>", false),
    (
        "a link to a host",
        "",
        "<a href=\"http://x.bad.com/\">y</a>",
        true,
    ),
    (
        "a link to a denied host",
        "denied_hosts = ['bad.com']",
        "<a href=\"http://x.bad.com/\">y</a>",
        false,
    ),
    (
        "a scheme in upper case",
        "",
        "<a href=\"HTTP://a.b/\">y</a>",
        false,
    ),
    ("a style", "", "<p style=\"color:#ff0000;\"></p>", true),
    (
        "a style that is another's reading",
        "",
        "<p style=\"color: red\"></p>",
        false,
    ),
    ("an id without leave", "", "<p id=\"a\"></p>", false),
    (
        "two ids",
        "ids = true",
        "<div id=\"a\"><p id=\"b\"></p></div>",
        true,
    ),
    (
        "one id twice",
        "ids = true",
        "<div id=\"a\"><p id=\"a\"></p></div>",
        false,
    ),
    (
        "an id without the prefix",
        "ids = true\nid_prefix = 'u-'",
        "<p id=\"a\"></p>",
        false,
    ),
];

// Whether a fragment is spelled and valid, where a closure answers by a rule of hosts.
fn gated<F: UriTest + Drop>(
    alloc: Global,
    settings: &Settings,
    rule: &HostRule,
    filter: F,
    text: &str,
) -> Result<Option<bool>, AllocError>
    requires { AnswersBy F.may_ask F.answers filter (admits rule.now) }
{
    let gate = UriGate::new(rule, filter);
    judged_by(alloc, settings, &gate, text)
}

// The same under a gate.
fn judged_by<F: UriTest>(
    alloc: Global,
    settings: &Settings,
    gate: &UriGate<F>,
    text: &str,
) -> Result<Option<bool>, AllocError> {
    match read_fragment(alloc, text.as_bytes())? {
        Some(forest) => Ok(Some(valid(alloc, settings, gate, &forest)?)),
        None => Ok(None),
    }
}

// The same under the rule of hosts of settings.
fn judged_under(
    alloc: Global,
    settings: &Settings,
    text: &str,
) -> Result<Option<bool>, AllocError> {
    let rule = host_rule(alloc, settings)?;
    gated(alloc, settings, &rule, |uri: &Uri| rule.admits(uri), text)
}

// The same under settings of this text.
fn judged(alloc: Global, document: &str, text: &str) -> Result<Option<bool>, AllocError> {
    if document.len() > 65_536 {
        return Ok(None);
    }
    match Settings::read(alloc, document.as_bytes()) {
        Ok(settings) => judged_under(alloc, &settings, text),
        Err(_) => Ok(None),
    }
}

fn first_misjudged(alloc: Global) -> Failing {
    for (name, document, text, want) in &JUDGED {
        if judged(alloc, document, text)? != Some(*want) {
            return Ok(Some(*name));
        }
    }
    Ok(None)
}

#[test]
fn judges_what_is_spelled(rt: HostRuntime) {
    assert_none_fails(&rt, first_misjudged(rt.alloc()));
}
