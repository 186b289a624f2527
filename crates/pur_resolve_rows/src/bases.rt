//! Which texts name a base, and which: rows of a text, the base's text or none, and what the row shows.
use idna::{AsciiDenyList, domain_to_ascii_cow};
use pur_resolve::read_base;
use std::alloc::{AllocError, Global};
use std::test::Fail;

type Row = (&'static str, Option<&'static str>, &'static str);

static BASES: [Row; 24] = [
    ("http://a/b", Some("http://a/b"), "http"),
    ("https://a/b", Some("https://a/b"), "https"),
    ("ftp://a/b", Some("ftp://a/b"), "ftp"),
    ("nntp://a/b", None, "another scheme with a host"),
    ("mailto:a", None, "a scheme without a host"),
    ("news:a", None, "another"),
    ("data:a", None, "a scheme that isn't known"),
    ("//a/b", None, "no scheme"),
    ("/b", None, "no scheme and no host"),
    ("", None, "nothing"),
    ("http:b", None, "http without a host"),
    ("http:///b", None, "an empty host"),
    ("HTTP://A/B", Some("http://a/B"), "lower case"),
    (" http://a/ ", Some("http://a/"), "spaces at both ends"),
    ("ht\ttp://a\n/", Some("http://a/"), "tabs and line feeds"),
    ("http://a:80/", Some("http://a/"), "the scheme's own port"),
    ("http://a:8080/", Some("http://a:8080/"), "another port"),
    ("http://a:65536/", None, "a port too large by one"),
    ("http://u:p@a/", Some("http://a/"), "user information"),
    ("http://a/b?q#s", Some("http://a/b?q"), "no fragment stays"),
    ("http://a/b/../c/./d", Some("http://a/c/d"), "dot segments"),
    ("http://a/..", Some("http://a/"), "above the root"),
    ("http://a", Some("http://a"), "an empty path stays"),
    ("http://[::1]/", Some("http://[::1]/"), "an address"),
];

// Hosts with letters past ASCII (UTS #46, ToASCII). What becomes an ASCII delimiter is one: the whole text is read after that.
static HOSTS: [Row; 19] = [
    (
        "http://bücher.example",
        Some("http://xn--bcher-kva.example"),
        "a letter past ASCII",
    ),
    (
        "http://BÜCHER.example/x",
        Some("http://xn--bcher-kva.example/x"),
        "a capital",
    ),
    (
        "http://xn--bcher-kva.example/",
        Some("http://xn--bcher-kva.example/"),
        "in ASCII already",
    ),
    ("http://xn--a/", None, "Punycode of nothing"),
    (
        "http://faß.de/",
        Some("http://xn--fa-hia.de/"),
        "a sharp s stays one",
    ),
    (
        "http://ＥＸＡＭＰＬＥ.com/",
        Some("http://example.com/"),
        "wide letters",
    ),
    (
        "http://日本語。jp/",
        Some("http://xn--wgv71a119e.jp/"),
        "an ideographic full stop",
    ),
    (
        "http://☕.example/",
        Some("http://xn--53h.example/"),
        "a symbol",
    ),
    (
        "http://u@bücher.example:81/ü",
        Some("http://xn--bcher-kva.example:81/%C3%BC"),
        "user information, a port and a path",
    ),
    (
        "http://good.com＠evil.com/",
        Some("http://evil.com/"),
        "a wide @ ends user information",
    ),
    (
        "http://a／b.com",
        Some("http://a/b.com"),
        "a wide slash ends the host",
    ),
    (
        "http://℀.com",
        Some("http://a/c.com"),
        "a sign that has a slash",
    ),
    ("http://a：80/", Some("http://a/"), "a wide colon and a port"),
    ("http://a？b", Some("http://a?b"), "a wide question mark"),
    ("http://a＃b", Some("http://a"), "a wide number sign"),
    (
        "http://［::1］/",
        None,
        "wide brackets, and a colon in front of them",
    ),
    ("http://a b/", None, "a space in a host"),
    ("http://_a/", None, "a label that begins with an underscore"),
    ("http://a..b/", None, "an empty label"),
];

// Labels of which hosts are made, three to a host.
static LABELS: [&str; 10] = [
    "a",
    "bücher",
    "faß",
    "日本語",
    "ＡＢＣ",
    "ÀÉ",
    "παράδειγμα",
    "xn--bcher-kva",
    "1-2",
    "点",
];

fn base_text(alloc: Global, raw: &str) -> Result<Option<String>, AllocError> {
    match read_base(alloc, raw)? {
        Some(base) => {
            let text = base.uri().write(alloc)?;
            Ok(Some(text))
        }
        None => Ok(None),
    }
}

#[test]
fn bases(rt: HostRuntime) -> Result<(), Fail> {
    for rows in [&BASES[..], &HOSTS[..]] {
        for (raw, want, what) in rows {
            let got = base_text(rt.alloc(), raw)?;
            assert_eq!(rt; got.as_deref(), *want, "{what}");
        }
    }
    Ok(())
}

#[test]
fn a_base_has_1024_bytes(rt: HostRuntime) -> Result<(), Fail> {
    let path = "x".repeat(rt.alloc(), 1015)?;
    let mut raw = String::from_str(rt.alloc(), "http://a/")?;
    raw.push_str(path.as_str())?;
    let got = base_text(rt.alloc(), raw.as_str())?;
    assert_eq!(rt; got.as_deref(), Some(raw.as_str()));
    raw.push_str("x")?;
    assert!(rt; base_text(rt.alloc(), raw.as_str())?.is_none());
    Ok(())
}

// Whether a host of these labels is put into ASCII as the library of names does.
fn is_as_named(alloc: Global, labels: [&str; 3]) -> Result<bool, Fail> {
    let host = labels[..].join(alloc, ".")?;
    let mut raw = String::from_str(alloc, "http://")?;
    raw.push_str(host.as_str())?;
    let Ok(named) = domain_to_ascii_cow(alloc, host.as_bytes(), AsciiDenyList::EMPTY) else {
        return Ok(false);
    };
    match read_base(alloc, raw.as_str())? {
        Some(base) => Ok(base.uri().host() == Some(named.as_str())),
        None => Ok(false),
    }
}

#[test]
fn a_thousand_hosts(rt: HostRuntime) -> Result<(), Fail> {
    for first in &LABELS {
        for second in &LABELS {
            for third in &LABELS {
                let same = is_as_named(rt.alloc(), [*first, *second, *third])?;
                assert!(rt; same, "{first}.{second}.{third}");
            }
        }
    }
    Ok(())
}
