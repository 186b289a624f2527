//! What fragments become at a base: rows of a fragment and what is written of it.
ghost use Rattle.std.specs.Prelude.{IsTrue};
ghost use Rattle.pur_uripolicy.specs.Asking.{AnswersFor};
ghost use Rattle.pur_uripolicy.specs.SchemeRules.{allows_scheme};

use pur_absolute::absolute;
use pur_reader::read_fragment;
use pur_resolve::{Base, read_base};
use pur_uri::Uri;
use pur_uripolicy::{SchemeRule, SiteGate, UriTest};
use pur_writer::write;
use std::alloc::{AllocError, Global};

// What a row shows, the fragment, and what becomes of it.
type Row = (&'static str, &'static str, &'static str);

// At `http://a/`, where all is allowed.
static ANY: [Row; 18] = [
    (
        "a scheme is put in, a port and dots go",
        "<a href=\"//h:80/x/../y\">z</a>",
        "<a href=\"http://h/y\">z</a>",
    ),
    (
        "a path",
        "<a href=\"y\">z</a>",
        "<a href=\"http://a/y\">z</a>",
    ),
    (
        "no path",
        "<a href=\"\">z</a>",
        "<a href=\"http://a/\">z</a>",
    ),
    (
        "an absolute one stays",
        "<a href=\"https://h/?q#f\">z</a>",
        "<a href=\"https://h/?q#f\">z</a>",
    ),
    (
        "one without a host stays",
        "<a href=\"mailto:a@b.c\">z</a>",
        "<a href=\"mailto:a@b.c\">z</a>",
    ),
    (
        "a source",
        "<img src=\"x.png\" alt=\"x\" />",
        "<img src=\"http://a/x.png\" alt=\"x\" />",
    ),
    (
        "a description",
        "<img src=\"x\" alt=\"\" longdesc=\"d\" />",
        "<img src=\"http://a/x\" alt=\"\" longdesc=\"http://a/d\" />",
    ),
    (
        "where a quote is from",
        "<q cite=\"c\">z</q>",
        "<q cite=\"http://a/c\">z</q>",
    ),
    (
        "an action",
        "<form action=\"go\"><p>z</p></form>",
        "<form action=\"http://a/go\"><p>z</p></form>",
    ),
    (
        "other values stay",
        "<p title=\"href\" class=\"x\">y</p>",
        "<p title=\"href\" class=\"x\">y</p>",
    ),
    ("a text stays", "http://x/ or /y", "http://x/ or /y"),
    (
        "a URL of a style",
        "<p style=\"background-image:url(&quot;x&quot;);\">z</p>",
        "<p style=\"background-image:url(&quot;http://a/x&quot;);\">z</p>",
    ),
    (
        "a URL that would begin a comment",
        "<p style=\"background-image:url(&quot;*&quot;);\">z</p>",
        "<p>z</p>",
    ),
    (
        "the declarations beside it stay",
        "<p style=\"color:#ff0000;background-image:url(&quot;*&quot;);width:1px;\">z</p>",
        "<p style=\"color:#ff0000;width:1px;\">z</p>",
    ),
    (
        "an absolute one with a comment stays no comment",
        "<a href=\"*\">z</a>",
        "<a href=\"http://a/*\">z</a>",
    ),
    (
        "another declaration stays",
        "<p style=\"font-family:'url(x)';\">z</p>",
        "<p style=\"font-family:'url(x)';\">z</p>",
    ),
    (
        "at any depth",
        "<div><p><a href=\"y\"><b>z</b></a></p></div>",
        "<div><p><a href=\"http://a/y\"><b>z</b></a></p></div>",
    ),
    ("nothing", "", ""),
];

// At `https://s/`, where the secure schemes alone are allowed.
static SECURE: [Row; 9] = [
    (
        "a picture goes with its source",
        "<img src=\"http://h/x\" alt=\"\" /><img src=\"y\" alt=\"\" />",
        "<img src=\"https://s/y\" alt=\"\" />",
    ),
    (
        "a link loses its target",
        "<a href=\"http://h/\">z</a>",
        "<a>z</a>",
    ),
    (
        "what needs no page stays",
        "<a href=\"mailto:a@b.c\">z</a><a href=\"tel:1\">z</a><a href=\"news:n\">z</a>",
        "<a href=\"mailto:a@b.c\">z</a><a href=\"tel:1\">z</a><a href=\"news:n\">z</a>",
    ),
    (
        "texts are joined",
        "1<img src=\"http://h/x\" alt=\"\" />2",
        "12",
    ),
    (
        "texts are joined at any depth",
        "<p>1<img src=\"http://h/x\" alt=\"\" />2</p>",
        "<p>12</p>",
    ),
    (
        "a form goes with what is in it",
        "<form action=\"http://h/\"><p>z</p></form>x",
        "x",
    ),
    (
        "a description goes and the picture stays",
        "<img src=\"x\" alt=\"\" longdesc=\"ftp://h/\" />",
        "<img src=\"https://s/x\" alt=\"\" />",
    ),
    (
        "a declaration goes",
        "<p style=\"color:#ff0000;background-image:url(&quot;http://h/x&quot;);\">z</p>",
        "<p style=\"color:#ff0000;\">z</p>",
    ),
    (
        "a style goes of which nothing is left",
        "<p style=\"background-image:url(&quot;http://h/x&quot;);\" title=\"t\">z</p>",
        "<p title=\"t\">z</p>",
    ),
];

// What becomes of a fragment; none where the text is no fragment or no base.
fn made(
    alloc: Global,
    base: &str,
    secure: bool,
    text: &str,
) -> Result<Option<Vec<u8>>, AllocError> {
    let Some(base) = read_base(alloc, base)? else {
        return Ok(None);
    };
    let rule = SchemeRule::new(secure);
    made_under(alloc, &base, SchemeRule::new(secure), text, |uri: &Uri| {
        rule.allows(uri)
    })
}

fn made_under<F: UriTest + Drop>(
    alloc: Global,
    base: &Base,
    rule: SchemeRule,
    text: &str,
    filter: F,
) -> Result<Option<Vec<u8>>, AllocError>
    requires { AnswersFor F.may_ask F.answers filter (λ uri. IsTrue (allows_scheme rule uri)) }
{
    let site = SiteGate::new(rule, filter);
    let Some(mut forest) = read_fragment(alloc, text.as_bytes())? else {
        return Ok(None);
    };
    absolute(alloc, base, &site, &mut forest)?;
    let out = write(alloc, &forest)?;
    Ok(Some(out))
}

fn is_made(
    alloc: Global,
    base: &str,
    secure: bool,
    text: &str,
    wanted: &str,
) -> Result<bool, AllocError> {
    match made(alloc, base, secure, text)? {
        Some(out) => Ok(out.as_slice() == wanted.as_bytes()),
        None => Ok(false),
    }
}

// The first row that fails, or that isn't left as it is when it is made absolute again.
fn first_failing(
    alloc: Global,
    base: &str,
    secure: bool,
    rows: &[Row],
) -> Result<Option<&'static str>, AllocError> {
    for (name, text, wanted) in rows {
        if !is_made(alloc, base, secure, *text, *wanted)?
            || !is_made(alloc, base, secure, *wanted, *wanted)?
        {
            return Ok(Some(*name));
        }
    }
    Ok(None)
}

#[test]
fn fragments_become_absolute(rt: HostRuntime) {
    let failing = first_failing(rt.alloc(), "http://a/", false, &ANY);
    assert_eq!(rt; failing, Ok(None));
}

#[test]
fn what_is_not_secure_goes(rt: HostRuntime) {
    let failing = first_failing(rt.alloc(), "https://s/", true, &SECURE);
    assert_eq!(rt; failing, Ok(None));
}

#[test]
fn hosts_of_a_base_are_in_ascii(rt: HostRuntime) {
    let made = is_made(
        rt.alloc(),
        "http://b\u{fc}cher.example",
        false,
        "<a href=\"x\">y</a>",
        "<a href=\"http://xn--bcher-kva.example/x\">y</a>",
    );
    assert_eq!(rt; made, Ok(true));
}
