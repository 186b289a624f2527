//! Texts with references and what they stand for.

use crate::endings::{Failing, assert_none_fails};
use pur_entities::decode;
use std::alloc::{AllocError, Global};

// A text, what it stands for, and what the row shows.
static DECODED: [(&str, &str, &str); 10] = [
    (
        "a &copy; &nope; > &#x41;",
        "a \u{A9} &nope; > A",
        "a name, no name, a number",
    ),
    (
        "&amp;lt;",
        "&lt;",
        "what a reference gives isn't read again",
    ),
    (
        "&#13;&#x41;&#65",
        "A&#65",
        "a CR gives nothing; without its semicolon it is text",
    ),
    ("&#x110000;x", "x", "past the last character"),
    ("&;&#;&#x;&#X;", "&;&#;&#x;&#X;", "no name and no digits"),
    (
        "&Eth;&ETH;&eth;",
        "&Eth;\u{D0}\u{F0}",
        "names are case-sensitive",
    ),
    (
        "&#x1f600;&#X1F600;&#00000000000000000065;",
        "\u{1F600}\u{1F600}A",
        "digits",
    ),
    (
        "&#99999999999999999999;&#xD800;&#0;x",
        "x",
        "no character's numbers",
    ),
    (
        "&&amp;&#x&lt;&#a;",
        "&&&#x<&#a;",
        "a reference behind an `&`",
    ),
    (
        "&thetasym;&thetasymb;\u{E9}&\u{E9};",
        "\u{3D1}&thetasymb;\u{E9}&\u{E9};",
        "the longest name, longer ones",
    ),
];

fn is_decoded(alloc: Global, text: &str, want: &str) -> Result<bool, AllocError> {
    Ok(decode(alloc, text)?.as_str() == want)
}

fn first_other(alloc: Global) -> Failing {
    for (text, want, what) in &DECODED {
        if !is_decoded(alloc, text, want)? {
            return Ok(Some(*what));
        }
    }
    Ok(None)
}

#[test]
fn reads_references(rt: HostRuntime) {
    assert_none_fails(&rt, first_other(rt.alloc()));
}
