//! What a rule admits, and that the gate asks its closure.
ghost use Rattle.std.specs.Prelude.{◌≡◌, ◌∷◌, ◌||◌, [], map, is_some, option_map, string_bytes, IsTrue, IfOk, IfSome, None, true};
ghost use Rattle.std.specs.List.{list_all};
ghost use Rattle.std.specs.Option.{option_map_or};
ghost use Rattle.pur_text.specs.Hosts.{is_host};
ghost use Rattle.pur_uripolicy.specs.HostRules.{PlainHostRule, in_order, admits};
ghost use Rattle.pur_uripolicy.specs.Asking.{AnswersBy};

use pur_names::SchemeName;
use pur_settings::Settings;
use pur_text::is_host;
use pur_uri::{Uri, canon};
use pur_uripolicy::{HostRule, UriGate, UriTest, UriUse, host_rule, read_uri};
use std::alloc::{AllocError, Global};
use std::cell::Cell;
use std::test::Fail;

// A reference, whether the rule admits it, and what the row shows.
type Row = (&'static str, bool, &'static str);

// Denied: `bad.com`, `a.bad.com`, `[::1]`, `bad.com` again.
static DENIED: [Row; 14] = [
    ("http://bad.com/", false, "a denied host"),
    ("http://BAD.com:81/x", false, "a denied host in capitals"),
    ("//bad.com", false, "a denied host without a scheme"),
    ("http://www.bad.com/", false, "a subdomain"),
    ("http://x.a.bad.com/", false, "a subdomain of a subdomain"),
    ("http://notbad.com/", true, "an end without its dot"),
    ("http://bad.com.org/", true, "a denied front"),
    ("http://ad.com/", true, "an end of a denied host"),
    ("http://com/", true, "a domain above"),
    ("http://[::1]/", false, "a denied address"),
    ("http://[::2]/", true, "another address"),
    ("nntp://news.bad.com/g", false, "another scheme"),
    ("mailto:a@bad.com", true, "no host"),
    ("/bad.com", true, "a path alone"),
];

// Denied: `deny.own.org`; own: `own.org`; no other host.
static OWN: [Row; 10] = [
    ("http://own.org/", true, "the own host"),
    ("http://www.own.org/", true, "a subdomain of it"),
    ("http://a.b.own.org/", true, "a subdomain of a subdomain"),
    ("http://deny.own.org/", false, "an own host that is denied"),
    ("http://x.deny.own.org/", false, "a subdomain of one"),
    ("http://known.org/", false, "an end without its dot"),
    ("http://org/", false, "a domain above"),
    ("http://own.org.com/", false, "an own front"),
    ("tel:1", true, "no host"),
    ("?q", true, "a query alone"),
];

// No host is denied, none is the own one, others may be linked to.
static OPEN: [Row; 3] = [
    ("http://a.b/", true, "any host"),
    ("http://[::1]/", true, "any address"),
    ("#f", true, "no host"),
];

/// The texts as a list.
fn listed(alloc: Global, texts: &[&str]) -> Result<Vec<String>, AllocError> {
    let mut list = Vec::new(alloc);
    for text in texts {
        list.push(String::from_str(alloc, text)?)?;
    }
    Ok(list)
}

fn all_are_hosts(texts: &[String]) -> bool
    ensures { result ≡ list_all is_host (map string_bytes texts.now) }
{
    each_is_host(texts)
}

fn each_is_host(texts: &[String]) -> bool
    ensures { result ≡ list_all (λ text. is_host (string_bytes text)) texts.now }
{
    texts.iter().all(|text| is_host(text.as_str()))
}

/// The rule of these hosts, if they are canonical.
fn rule_of(denied: Vec<String>, host: Option<String>, external: bool) -> Option<HostRule>
    ensures { IfSome result (λ rule. rule ≡ record { denied = in_order (map string_bytes denied.items); host = option_map string_bytes host; external = external }) }
{
    if !all_are_hosts(denied.as_slice()) || !is_own(&host, external) {
        return None;
    }
    Some(HostRule::new(denied, host, external))
}

fn is_own(host: &Option<String>, external: bool) -> bool
    ensures { IsTrue result → IsTrue (option_map_or is_host (option_map string_bytes host.now) true) × IsTrue (external || is_some host.now) }
{
    match host {
        Some(host) => is_host(host.as_str()),
        None => external,
    }
}

/// Whether the rule admits the reference, if that has a reading.
fn admits(alloc: Global, rule: &HostRule, raw: &str) -> Result<Option<bool>, AllocError> {
    match canon(alloc, raw)? {
        Some(uri) => Ok(Some(rule.admits(&uri))),
        None => Ok(None),
    }
}

/// The rule that denies one host, if that is canonical.
fn denying(alloc: Global, host: &str) -> Result<Option<HostRule>, AllocError>
    ensures { IfOk result (λ rule. IfSome rule (λ r. r ≡ record { denied = in_order (host.now ∷ []); host = None; external = true })) }
{
    if !is_host(host) {
        return Ok(None);
    }
    let mut denied = Vec::new(alloc);
    denied.push(String::from_str(alloc, host)?)?;
    Ok(Some(HostRule::new(denied, None, true)))
}

/// What the cell holds before the gate of the filter is asked, what the gate answers, and what the cell holds then.
fn asked<F: UriTest + Drop>(
    rule: &HostRule,
    filter: F,
    called: &Cell<bool>,
    uri: &Uri,
) -> (bool, bool, bool)
    requires { AnswersBy F.may_ask F.answers filter (admits rule.now) }
    ensures { result.1 ≡ admits rule.now uri.now }
{
    let gate = UriGate::new(rule, filter);
    let before = called.get();
    let answer = gate.admit(uri);
    (before, answer, called.get())
}

/// The same of a closure that answers by the rule that denies the host, and notes in the cell that it was called.
fn noted(alloc: Global, host: &str, uri: &Uri) -> Result<Option<(bool, bool, bool)>, AllocError> {
    let Some(rule) = denying(alloc, host)? else {
        return Ok(None);
    };
    let called = Cell::new(false);
    let filter = |uri: &Uri| {
        called.set(true);
        rule.admits(uri)
    };
    Ok(Some(asked(&rule, filter, &called, uri)))
}

#[test]
fn asks_the_closure(rt: HostRuntime) -> Result<(), Fail> {
    let alloc = rt.alloc();
    for (raw, want) in [("http://bad.com/", false), ("http://good.com/", true)] {
        match canon(alloc, raw)? {
            Some(uri) => {
                let got = noted(alloc, "bad.com", &uri)?;
                assert_eq!(rt; got, Some((false, want, true)), "{raw}");
            }
            None => assert!(rt; false, "{raw}"),
        }
    }
    Ok(())
}

#[test]
fn knows_schemes_of_uses(rt: HostRuntime) {
    for (scheme, embedded) in [
        (SchemeName::Http, true),
        (SchemeName::Https, true),
        (SchemeName::Ftp, true),
        (SchemeName::Mailto, false),
        (SchemeName::Nntp, false),
        (SchemeName::News, false),
        (SchemeName::Tel, false),
    ] {
        assert!(rt; UriUse::Link.fits(Some(scheme)));
        assert_eq!(rt; UriUse::Embed.fits(Some(scheme)), embedded);
    }
    assert!(rt; UriUse::Link.fits(None));
    assert!(rt; UriUse::Embed.fits(None));
}

// A reference, whether it is fit as a link, whether it is fit to be embedded, and what the row shows.
static FIT: [(&str, bool, bool, &str); 6] = [
    ("http://a.b/", true, true, "a permitted scheme"),
    (
        "https://a.b/",
        false,
        false,
        "a scheme that isn't permitted",
    ),
    ("nntp://a.b/", true, false, "a scheme that doesn't fetch"),
    ("tel:1", true, false, "another, without a host"),
    ("a/b", true, true, "no scheme"),
    (
        "//www.bad.com/",
        false,
        false,
        "a denied host without a scheme",
    ),
];

// `bad.com` is denied, and three schemes are permitted.
const FEW_SCHEMES: &str = "denied_hosts = ['bad.com']\nschemes = ['http', 'nntp', 'tel']";

// Whether a reference is admissible as a link and to be embedded, under settings of this text.
fn admissible(alloc: Global, document: &str, reference: &str) -> Result<(bool, bool), Fail> {
    if document.len() > 65_536 {
        return Err(Fail::new("the settings are too long"));
    }
    let settings = Settings::read(alloc, document.as_bytes())?;
    let rule = host_rule(alloc, &settings)?;
    admissible_by(
        alloc,
        &settings,
        &rule,
        |uri: &Uri| rule.admits(uri),
        reference,
    )
}

// Whether a reference is so, where a closure answers by the rule.
fn admissible_by<F: UriTest + Drop>(
    alloc: Global,
    settings: &Settings,
    rule: &HostRule,
    filter: F,
    reference: &str,
) -> Result<(bool, bool), Fail>
    requires { AnswersBy F.may_ask F.answers filter (admits rule.now) }
{
    let gate = UriGate::new(rule, filter);
    let link = read_uri(alloc, settings, &gate, UriUse::Link, reference)?;
    let embed = read_uri(alloc, settings, &gate, UriUse::Embed, reference)?;
    Ok((link.is_some(), embed.is_some()))
}

#[test]
fn tells_what_is_fit(rt: HostRuntime) -> Result<(), Fail> {
    for (raw, link, embed, what) in FIT {
        let got = admissible(rt.alloc(), FEW_SCHEMES, raw)?;
        assert_eq!(rt; got, (link, embed), "{what}");
    }
    Ok(())
}

#[test]
fn denies_hosts_and_their_subdomains(rt: HostRuntime) -> Result<(), Fail> {
    let alloc = rt.alloc();
    let denied = listed(alloc, &["bad.com", "a.bad.com", "[::1]", "bad.com"])?;
    match rule_of(denied, None, true) {
        Some(rule) => {
            for (raw, want, what) in &DENIED {
                assert_eq!(rt; admits(alloc, &rule, raw)?, Some(*want), "{what}");
            }
        }
        None => assert!(rt; false),
    }
    Ok(())
}

#[test]
fn keeps_to_its_own_hosts(rt: HostRuntime) -> Result<(), Fail> {
    let alloc = rt.alloc();
    let denied = listed(alloc, &["deny.own.org"])?;
    let own = String::from_str(alloc, "own.org")?;
    match rule_of(denied, Some(own), false) {
        Some(rule) => {
            for (raw, want, what) in &OWN {
                assert_eq!(rt; admits(alloc, &rule, raw)?, Some(*want), "{what}");
            }
        }
        None => assert!(rt; false),
    }
    Ok(())
}

#[test]
fn admits_any_host_without_denied_ones(rt: HostRuntime) -> Result<(), Fail> {
    let alloc = rt.alloc();
    match rule_of(Vec::new(alloc), None, true) {
        Some(rule) => {
            for (raw, want, what) in &OPEN {
                assert_eq!(rt; admits(alloc, &rule, raw)?, Some(*want), "{what}");
            }
        }
        None => assert!(rt; false),
    }
    Ok(())
}
