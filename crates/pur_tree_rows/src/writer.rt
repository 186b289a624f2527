//! Forests written with ample memory.

ghost use Rattle.std.specs.Prelude.{◌≡◌, []};
ghost use Rattle.pur_tree.specs.Building.{opened_of};

use crate::endings::{Failing, assert_holds, assert_none_fails};
use pur_attrlist::AttrList;
use pur_names::Element;
use pur_tree::{Builder, Forest};
use pur_writer::write;
use std::alloc::{AllocError, Global};

// Whether this is a forest's spelling.
fn is_written(alloc: Global, forest: &Forest, want: &str) -> Result<bool, AllocError> {
    let output = write(alloc, forest)?;
    Ok(output.as_slice() == want.as_bytes())
}

// A text, its spelling, and what the row shows.
static TEXTS: [(&str, &str, &str); 7] = [
    ("a & b", "a &amp; b", "an ampersand"),
    ("<", "&lt;", "a less-than sign"),
    (">", "&gt;", "a greater-than sign"),
    ("\u{E9}", "\u{E9}", "a letter past ASCII stands for itself"),
    ("it's", "it's", "an apostrophe stands for itself"),
    ("\"", "\"", "a quotation mark stands for itself"),
    (
        "&lt;a>\u{1F600}<",
        "&amp;lt;a&gt;\u{1F600}&lt;",
        "runs between special characters",
    ),
];

// A forest of one text; texts of rows have characters.
fn forest_of_text(alloc: Global, text: &str) -> Result<Forest, AllocError> {
    let mut builder = Builder::new(alloc);
    if !text.is_empty() {
        builder.text(text)?;
    }
    builder.finish()
}

fn is_text_written(alloc: Global, text: &str, want: &str) -> Result<bool, AllocError> {
    let forest = forest_of_text(alloc, text)?;
    is_written(alloc, &forest, want)
}

fn first_text(alloc: Global) -> Failing {
    for (text, want, what) in &TEXTS {
        if !is_text_written(alloc, text, want)? {
            return Ok(Some(*what));
        }
    }
    Ok(None)
}

#[test]
fn writes_texts(rt: HostRuntime) {
    assert_none_fails(&rt, first_text(rt.alloc()));
}

// Puts a paragraph with a break, and emphasis of nothing.
fn put_elements(alloc: Global, builder: &mut Builder) -> Result<(), AllocError>
    requires { opened_of builder.old ≡ [] }
{
    builder.enter(Element::P, AttrList::new(alloc))?;
    builder.text("x")?;
    builder.enter(Element::Br, AttrList::new(alloc))?;
    builder.leave()?;
    builder.leave()?;
    builder.enter(Element::Em, AttrList::new(alloc))?;
    Ok(())
}

fn are_elements_written(alloc: Global, want: &str) -> Result<bool, AllocError> {
    let mut builder = Builder::new(alloc);
    put_elements(alloc, &mut builder)?;
    let forest = builder.finish()?;
    is_written(alloc, &forest, want)
}

#[test]
fn writes_elements(rt: HostRuntime) {
    let holds = are_elements_written(rt.alloc(), "<p>x<br /></p><em></em>");
    assert_holds(&rt, holds);
}

// A name, an element, an attribute and its value, another without characters, and the spelling.
type ElementRow = (
    &'static str,
    Element,
    &'static str,
    &'static str,
    &'static str,
    &'static str,
);

static ATTRIBUTES: [ElementRow; 6] = [
    (
        "one attribute",
        Element::P,
        "title",
        "v",
        "",
        "<p title=\"v\"></p>",
    ),
    (
        "an EMPTY element",
        Element::Img,
        "src",
        "v",
        "alt",
        "<img src=\"v\" alt=\"\" />",
    ),
    (
        "in their order",
        Element::A,
        "title",
        "t",
        "href",
        "<a title=\"t\" href=\"\"></a>",
    ),
    (
        "a quotation mark",
        Element::P,
        "title",
        "a\"b\"",
        "",
        "<p title=\"a&quot;b&quot;\"></p>",
    ),
    (
        "markup in a value",
        Element::P,
        "title",
        "<&>",
        "",
        "<p title=\"&lt;&amp;&gt;\"></p>",
    ),
    (
        "an apostrophe stands for itself",
        Element::P,
        "title",
        "it's",
        "",
        "<p title=\"it's\"></p>",
    ),
];

// An attribute and its value, and, where its name has characters, another of no characters.
fn attrs_of(alloc: Global, attr: &str, value: &str, second: &str) -> Result<AttrList, AllocError> {
    let mut attrs = AttrList::new(alloc);
    attrs.set(attr, value)?;
    if !second.is_empty() {
        attrs.set(second, "")?;
    }
    Ok(attrs)
}

// A forest of one element.
fn forest_of_element(alloc: Global, name: Element, attrs: AttrList) -> Result<Forest, AllocError> {
    let mut builder = Builder::new(alloc);
    builder.enter(name, attrs)?;
    builder.finish()
}

fn is_element_written(alloc: Global, row: &ElementRow) -> Result<bool, AllocError> {
    let (_, name, attr, value, second, want) = row;
    let attrs = attrs_of(alloc, attr, value, second)?;
    let forest = forest_of_element(alloc, *name, attrs)?;
    is_written(alloc, &forest, want)
}

fn first_element(alloc: Global) -> Failing {
    for row in &ATTRIBUTES {
        if !is_element_written(alloc, row)? {
            return Ok(Some(row.0));
        }
    }
    Ok(None)
}

#[test]
fn writes_attributes(rt: HostRuntime) {
    assert_none_fails(&rt, first_element(rt.alloc()));
}
