//! The rule of hosts that a text of settings gives, asked about references.

use pur_settings::Settings;
use pur_uri::canon;
use pur_uripolicy::host_rule;
use std::alloc::Global;
use std::test::Fail;

// A name, a text of settings, a reference, and whether the rule of the settings admits it.
static RULES: [(&str, &str, &str, bool); 8] = [
    ("nothing_is_denied", "", "http://bad.com/", true),
    (
        "a_denied_host",
        "denied_hosts = ['bad.com']",
        "http://bad.com/",
        false,
    ),
    (
        "a_host_below_a_denied_one",
        "denied_hosts = ['bad.com']",
        "http://x.bad.com/",
        false,
    ),
    (
        "a_host_that_ends_like_a_denied_one",
        "denied_hosts = ['bad.com']",
        "http://notbad.com/",
        true,
    ),
    (
        "another_host_inside",
        "external = false\nhost = 'own.org'",
        "http://bad.com/",
        false,
    ),
    (
        "the_own_host",
        "external = false\nhost = 'own.org'",
        "http://own.org/",
        true,
    ),
    (
        "no_host",
        "external = false\nhost = 'own.org'",
        "/path",
        true,
    ),
    (
        "the_own_host_counts_inside_alone",
        "host = 'own.org'",
        "http://bad.com/",
        true,
    ),
];

// What the rule of settings of this text says of a reference.
fn admits(alloc: Global, document: &str, reference: &str) -> Result<Option<bool>, Fail> {
    if document.len() > 65_536 {
        return Err(Fail::new("the settings are too long"));
    }
    let settings = Settings::read(alloc, document.as_bytes())?;
    let rule = host_rule(alloc, &settings)?;
    let found = canon(alloc, reference)?;
    match found {
        Some(uri) => Ok(Some(rule.admits(&uri))),
        None => Ok(None),
    }
}

#[test]
fn settings_give_their_rule(rt: HostRuntime) -> Result<(), Fail> {
    for (name, document, reference, want) in RULES {
        let answer = admits(rt.alloc(), document, reference)?;
        assert_eq!(rt; answer, Some(want), "at {name}");
    }
    Ok(())
}
