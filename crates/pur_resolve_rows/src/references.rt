//! What references mean: rows of a reference and the text of what it is resolved to.
use pur_resolve::{read_base, resolve};
use pur_uri::canon;
use std::alloc::{AllocError, Global};
use std::test::Fail;

type Row = (&'static str, &'static str);

// The base of the tables of RFC 3986, section 5.4.
static BASE: &str = "http://a/b/c/d;p?q";

// The normal examples of section 5.4.1, but for `g:h`.
static NORMAL: [Row; 22] = [
    ("g", "http://a/b/c/g"),
    ("./g", "http://a/b/c/g"),
    ("g/", "http://a/b/c/g/"),
    ("/g", "http://a/g"),
    ("//g", "http://g"),
    ("?y", "http://a/b/c/d;p?y"),
    ("g?y", "http://a/b/c/g?y"),
    ("#s", "http://a/b/c/d;p?q#s"),
    ("g#s", "http://a/b/c/g#s"),
    ("g?y#s", "http://a/b/c/g?y#s"),
    (";x", "http://a/b/c/;x"),
    ("g;x", "http://a/b/c/g;x"),
    ("g;x?y#s", "http://a/b/c/g;x?y#s"),
    ("", "http://a/b/c/d;p?q"),
    (".", "http://a/b/c/"),
    ("./", "http://a/b/c/"),
    ("..", "http://a/b/"),
    ("../", "http://a/b/"),
    ("../g", "http://a/b/g"),
    ("../..", "http://a/"),
    ("../../", "http://a/"),
    ("../../g", "http://a/g"),
];

// The abnormal examples of section 5.4.2, but for `http:g`.
static ABNORMAL: [Row; 18] = [
    ("../../../g", "http://a/g"),
    ("../../../../g", "http://a/g"),
    ("/./g", "http://a/g"),
    ("/../g", "http://a/g"),
    ("g.", "http://a/b/c/g."),
    (".g", "http://a/b/c/.g"),
    ("g..", "http://a/b/c/g.."),
    ("..g", "http://a/b/c/..g"),
    ("./../g", "http://a/b/g"),
    ("./g/.", "http://a/b/c/g/"),
    ("g/./h", "http://a/b/c/g/h"),
    ("g/../h", "http://a/b/c/h"),
    ("g;x=1/./y", "http://a/b/c/g;x=1/y"),
    ("g;x=1/../y", "http://a/b/c/y"),
    ("g?y/./x", "http://a/b/c/g?y/./x"),
    ("g?y/../x", "http://a/b/c/g?y/../x"),
    ("g#s/./x", "http://a/b/c/g#s/./x"),
    ("g#s/../x", "http://a/b/c/g#s/../x"),
];

// The two examples where this filter departs: it reads no scheme that it doesn't know, and no `http` without a host. So there is
// no reference to resolve.
static DEPARTURES: [&str; 2] = ["g:h", "http:g"];

// Further references against that base: each step of the rule with a neighbour that doesn't take it.
static OTHERS: [Row; 24] = [
    ("mailto:x/../y", "mailto:x/../y"),
    ("https://h/x/../y", "https://h/y"),
    ("https://h:80/x", "https://h:80/x"),
    ("//h:80/x/../y", "http://h/y"),
    ("//h:443/x", "http://h:443/x"),
    ("//h:8080", "http://h:8080"),
    ("//h?y", "http://h?y"),
    ("//h/..", "http://h/"),
    ("//h/.", "http://h/"),
    ("/", "http://a/"),
    ("/..", "http://a/"),
    ("/../..", "http://a/"),
    ("/x//..", "http://a/x/"),
    ("/x//../y", "http://a/x/y"),
    ("/x/y/../../..", "http://a/"),
    ("/x/../../y/..", "http://a/"),
    ("//", "none"),
    ("?", "http://a/b/c/d;p?"),
    ("#", "http://a/b/c/d;p?q#"),
    ("?#", "http://a/b/c/d;p?#"),
    ("%2e%2E/g", "http://a/b/g"),
    ("%2e/g", "http://a/b/c/g"),
    ("%2f..", "http://a/b/c/%2F.."),
    ("...", "http://a/b/c/..."),
];

// Bases without a path, with a slash at the end, with a port: a base, a reference and what it means there.
static ELSEWHERE: [(&str, &str, &str); 14] = [
    ("http://a", "g", "http://a/g"),
    ("http://a", "", "http://a"),
    ("http://a", "?y", "http://a?y"),
    ("http://a", "../g", "http://a/g"),
    ("http://a?q", "#s", "http://a?q#s"),
    ("http://a/", "g", "http://a/g"),
    ("http://a/b/", "g", "http://a/b/g"),
    ("http://a/b/", "..", "http://a/"),
    ("http://a:8080/b", "g", "http://a:8080/g"),
    ("http://a:8080/b", "//h", "http://h"),
    ("https://a/b", "//h:443/", "https://h/"),
    ("https://a/b", "//h:80/", "https://h:80/"),
    ("ftp://a/b", "//h:21/", "ftp://h/"),
    ("http://a/b/../c/./d#s", "", "http://a/c/d"),
];

// The text of what a reference means where the base of a text is; `none` where either isn't read.
fn resolved(alloc: Global, base: &str, reference: &str) -> Result<String, AllocError> {
    match read_base(alloc, base)? {
        Some(base) => match canon(alloc, reference)? {
            Some(uri) => {
                let found = resolve(alloc, &base, &uri)?;
                found.write(alloc)
            }
            None => String::from_str(alloc, "none"),
        },
        None => String::from_str(alloc, "none"),
    }
}

#[test]
fn the_tables_of_the_standard(rt: HostRuntime) -> Result<(), Fail> {
    for rows in [&NORMAL[..], &ABNORMAL[..], &OTHERS[..]] {
        for (reference, want) in rows {
            let got = resolved(rt.alloc(), BASE, reference)?;
            assert_eq!(rt; got.as_str(), *want, "{reference}");
        }
    }
    Ok(())
}

#[test]
fn departures_are_not_read(rt: HostRuntime) -> Result<(), Fail> {
    for reference in &DEPARTURES {
        let got = resolved(rt.alloc(), BASE, reference)?;
        assert_eq!(rt; got.as_str(), "none", "{reference}");
    }
    Ok(())
}

#[test]
fn other_bases(rt: HostRuntime) -> Result<(), Fail> {
    for (base, reference, want) in &ELSEWHERE {
        let got = resolved(rt.alloc(), base, reference)?;
        assert_eq!(rt; got.as_str(), *want, "{base} {reference}");
    }
    Ok(())
}

#[test]
fn resolving_twice_is_resolving_once(rt: HostRuntime) -> Result<(), Fail> {
    for rows in [&NORMAL[..], &ABNORMAL[..]] {
        for (_, want) in rows {
            let got = resolved(rt.alloc(), BASE, want)?;
            assert_eq!(rt; got.as_str(), *want);
        }
    }
    Ok(())
}

#[test]
fn a_megabyte_of_dots(rt: HostRuntime) -> Result<(), Fail> {
    let reference = "../".repeat(rt.alloc(), 349_525)?;
    let got = resolved(rt.alloc(), BASE, reference.as_str())?;
    assert_eq!(rt; got.as_str(), "http://a/");
    Ok(())
}

#[test]
fn a_megabyte_of_segments(rt: HostRuntime) -> Result<(), Fail> {
    let reference = "a/".repeat(rt.alloc(), 524_288)?;
    let got = resolved(rt.alloc(), BASE, reference.as_str())?;
    assert_eq!(rt; got.len(), 1_048_589);
    Ok(())
}
