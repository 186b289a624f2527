//! How often the gate's closure is asked in a purification.

use crate::endings::{Failing, assert_none_fails};
use crate::engine::gated;
use pur_settings::Settings;
use pur_uri::Uri;
use pur_uripolicy::HostRule;
use std::alloc::{AllocError, Global};
use std::cell::Cell;

// A name, an input, and how often the closure is asked: about each URI that is fit but for its host, and about no other. About the source of
// a picture it is asked twice: whether the picture stays, and when its attributes are read.
static ASKED: [(&str, &[u8], u32); 8] = [
    ("no_uri", b"<p>http://a.example/</p>", 0),
    ("a_link", b"<a href=\"http://a.example/\">x</a>", 1),
    ("a_link_to_the_page", b"<a href=\"#x\">x</a>", 1),
    ("two_links", b"<a href=a>x</a><a href=b>y</a>", 2),
    (
        "a_scheme_that_is_not_permitted",
        b"<a href=javascript:a>x</a>",
        0,
    ),
    ("a_scheme_that_fetches_nothing", b"<img src=mailto:a>", 0),
    ("a_picture", b"<img src=a alt=b>", 2),
    (
        "a_style",
        b"<p style=\"background-image:url(a);color:red\">x",
        1,
    ),
];

fn times_asked(alloc: Global, input: &[u8]) -> Result<u32, AllocError> {
    let rule = HostRule::new(Vec::new(alloc), None, true);
    let times = Cell::new(0u32);
    let filter = |uri: &Uri| {
        times.set(times.get().saturating_add(1));
        rule.admits(uri)
    };
    gated(alloc, &Settings::defaults(), &rule, filter, input)?;
    Ok(times.get())
}

fn first_other(alloc: Global) -> Failing {
    for (name, input, times) in &ASKED {
        if times_asked(alloc, input)? != *times {
            return Ok(Some(*name));
        }
    }
    Ok(None)
}

#[test]
fn the_closure_is_asked_about_fit_uris(rt: HostRuntime) {
    let failing = first_other(rt.alloc());
    assert_none_fails(&rt, failing);
}
