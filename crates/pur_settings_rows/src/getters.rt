//! Settings texts that are taken, with what settings answer, typed from the table of keys by people.

use crate::reading::settings_of;
use pur_modules::{Content, Doctype};
use pur_names::{Attr, Element, SchemeName, StyleProp};
use pur_settings::{Settings, SettingsFault};
use std::alloc::{AllocError, Global};
use std::test::Fail;

// What settings say of the doctype, and whether `p`, `font` and `br` are permitted.
type Outcome = (Doctype, bool, bool, bool);

fn answers(settings: &Settings) -> Outcome {
    (
        settings.doctype(),
        settings.permits(Element::P),
        settings.permits(Element::Font),
        settings.permits(Element::Br),
    )
}

fn outcome_of(alloc: Global, text: &str) -> Result<Outcome, SettingsFault> {
    match settings_of(alloc, text) {
        Ok(settings) => Ok(answers(&settings)),
        Err(fault) => Err(fault),
    }
}

static TAKEN: [(&str, Outcome); 14] = [
    ("", (Doctype::Transitional, true, true, true)),
    ("# no key\n", (Doctype::Transitional, true, true, true)),
    ("version = 1", (Doctype::Transitional, true, true, true)),
    (
        "doctype = 'transitional'",
        (Doctype::Transitional, true, true, true),
    ),
    ("doctype = \"strict\"", (Doctype::Strict, true, false, true)),
    (
        "elements = []",
        (Doctype::Transitional, false, false, false),
    ),
    (
        "elements = ['p', 'p']",
        (Doctype::Transitional, true, false, false),
    ),
    (
        "elements = ['font', 'br']",
        (Doctype::Transitional, false, true, true),
    ),
    (
        "elements = ['br']\ndoctype = 'strict'",
        (Doctype::Strict, false, false, true),
    ),
    ("version = 2", (Doctype::Transitional, true, true, true)),
    (
        "version = 2\ndenied_elements = []",
        (Doctype::Transitional, true, true, true),
    ),
    (
        "version = 2\ndenied_elements = ['p', 'p']",
        (Doctype::Transitional, false, true, true),
    ),
    (
        "version = 2\nelements = ['p', 'br']\ndenied_elements = ['br', 'font']",
        (Doctype::Transitional, true, false, false),
    ),
    (
        "version = 2\ndoctype = 'strict'\ndenied_elements = ['font', 'br']",
        (Doctype::Strict, true, false, false),
    ),
];

#[test]
fn texts_that_are_taken(rt: HostRuntime) -> Result<(), Fail> {
    for (text, want) in TAKEN {
        assert_eq!(rt; outcome_of(rt.alloc(), text)?, want, "{text}");
    }
    Ok(())
}

// So many spaces.
fn spaces(alloc: Global, count: usize) -> Result<String, AllocError> {
    let mut text = String::new(alloc);
    for _ in 0..count {
        text.push(' ')?;
    }
    Ok(text)
}

#[test]
fn spaces_of_the_greatest_length(rt: HostRuntime) -> Result<(), Fail> {
    let text = spaces(rt.alloc(), 65_536)?;
    assert_eq!(rt; text.len(), 65_536);
    assert_eq!(rt;
        outcome_of(rt.alloc(), text.as_str())?,
        (Doctype::Transitional, true, true, true)
    );
    Ok(())
}

// A text, an element, an attribute, and whether it may stand there.
type AttrRow = (&'static str, Element, Attr, bool);

// The first text under which an attribute may stand where the row says otherwise.
fn first_attr(alloc: Global, rows: &[AttrRow]) -> Result<Option<&'static str>, SettingsFault> {
    for (text, element, attr, want) in rows {
        if permits_attr(alloc, text, *element, *attr)? != *want {
            return Ok(Some(*text));
        }
    }
    Ok(None)
}

fn permits_attr(
    alloc: Global,
    text: &str,
    element: Element,
    attr: Attr,
) -> Result<bool, SettingsFault> {
    match settings_of(alloc, text) {
        Ok(settings) => Ok(settings.permits_attr(element, attr)),
        Err(fault) => Err(fault),
    }
}

const CLASS_LANG_ID: &str = "attributes = ['class', 'xml:lang', 'class', 'id']";

const IDS_AND_LANG: &str = "ids = true\nattributes = ['id', 'lang']";

static LISTED_ATTRS: [AttrRow; 9] = [
    (CLASS_LANG_ID, Element::P, Attr::Class, true),
    (CLASS_LANG_ID, Element::P, Attr::Lang, true),
    (CLASS_LANG_ID, Element::P, Attr::XmlLang, true),
    (CLASS_LANG_ID, Element::Br, Attr::XmlLang, false),
    (CLASS_LANG_ID, Element::P, Attr::Title, false),
    (CLASS_LANG_ID, Element::P, Attr::Id, false),
    (IDS_AND_LANG, Element::P, Attr::Id, true),
    (IDS_AND_LANG, Element::P, Attr::XmlLang, true),
    (IDS_AND_LANG, Element::P, Attr::Class, false),
];

#[test]
fn listed_attributes_are_permitted(rt: HostRuntime) -> Result<(), Fail> {
    assert_eq!(rt; first_attr(rt.alloc(), &LISTED_ATTRS)?, None);
    assert!(rt; has_ids(rt.alloc(), IDS_AND_LANG)?);
    Ok(())
}

const LINKS_AND_TITLES: &str = "version = 2\nattributes = ['a.href', 'title', 'q.lang', 'a.id']";

static ITEMS: [AttrRow; 9] = [
    (LINKS_AND_TITLES, Element::A, Attr::Href, true),
    (LINKS_AND_TITLES, Element::A, Attr::Title, true),
    (LINKS_AND_TITLES, Element::P, Attr::Title, true),
    (LINKS_AND_TITLES, Element::A, Attr::Rel, false),
    (LINKS_AND_TITLES, Element::P, Attr::Class, false),
    (LINKS_AND_TITLES, Element::Q, Attr::XmlLang, true),
    (LINKS_AND_TITLES, Element::P, Attr::Lang, false),
    (LINKS_AND_TITLES, Element::A, Attr::Id, false),
    (LINKS_AND_TITLES, Element::Img, Attr::Src, true),
];

#[test]
fn items_permit_on_one_element(rt: HostRuntime) -> Result<(), Fail> {
    assert_eq!(rt; first_attr(rt.alloc(), &ITEMS)?, None);
    Ok(())
}

const SOME_DENIED: &str =
    "version = 2\ndenied_attributes = ['img.alt', 'xml:lang', 'a.title', 'q.lang']";

const LISTED_AND_DENIED: &str =
    "version = 2\nids = true\nattributes = ['title', 'id']\ndenied_attributes = ['p.title', 'class']";

static DENIED_ATTRS: [AttrRow; 11] = [
    (SOME_DENIED, Element::Img, Attr::Alt, true),
    (SOME_DENIED, Element::P, Attr::Lang, false),
    (SOME_DENIED, Element::P, Attr::XmlLang, false),
    (SOME_DENIED, Element::A, Attr::Title, false),
    (SOME_DENIED, Element::P, Attr::Title, true),
    (SOME_DENIED, Element::A, Attr::Href, true),
    (LISTED_AND_DENIED, Element::P, Attr::Title, false),
    (LISTED_AND_DENIED, Element::Q, Attr::Title, true),
    (LISTED_AND_DENIED, Element::Q, Attr::Class, false),
    (LISTED_AND_DENIED, Element::P, Attr::Id, true),
    (LISTED_AND_DENIED, Element::P, Attr::Dir, false),
];

#[test]
fn denied_attributes_are_not_permitted(rt: HostRuntime) -> Result<(), Fail> {
    assert_eq!(rt; first_attr(rt.alloc(), &DENIED_ATTRS)?, None);
    Ok(())
}

static REQUIRED_ATTRS: [AttrRow; 5] = [
    ("attributes = []", Element::Img, Attr::Src, true),
    ("attributes = []", Element::Img, Attr::Alt, true),
    ("attributes = []", Element::Bdo, Attr::Dir, true),
    ("attributes = []", Element::P, Attr::Dir, false),
    ("attributes = []", Element::Img, Attr::Width, false),
];

#[test]
fn required_attributes_are_permitted_unlisted(rt: HostRuntime) -> Result<(), Fail> {
    assert_eq!(rt; first_attr(rt.alloc(), &REQUIRED_ATTRS)?, None);
    Ok(())
}

fn has_ids(alloc: Global, text: &str) -> Result<bool, SettingsFault> {
    match settings_of(alloc, text) {
        Ok(settings) => Ok(settings.ids()),
        Err(fault) => Err(fault),
    }
}

#[test]
fn ids_are_on_or_off(rt: HostRuntime) -> Result<(), Fail> {
    for (text, want) in [("ids = true", true), ("ids = false", false)] {
        assert_eq!(rt; has_ids(rt.alloc(), text)?, want, "{text}");
        assert_eq!(rt;
            permits_attr(rt.alloc(), text, Element::Br, Attr::Id)?,
            want,
            "{text}"
        );
    }
    Ok(())
}

// Whether links, and whether paragraphs, are made.
fn injects(alloc: Global, text: &str) -> Result<(bool, bool), SettingsFault> {
    match settings_of(alloc, text) {
        Ok(settings) => Ok((settings.linkify(), settings.auto_paragraph())),
        Err(fault) => Err(fault),
    }
}

#[test]
fn links_and_paragraphs_are_on_or_off(rt: HostRuntime) -> Result<(), Fail> {
    for (text, links, paragraphs) in [
        ("linkify = true", true, false),
        ("auto_paragraph = true\nlinkify = false", false, true),
        ("auto_paragraph = true\nlinkify = true", true, true),
    ] {
        assert_eq!(rt; injects(rt.alloc(), text)?, (links, paragraphs), "{text}");
    }
    Ok(())
}

fn permits_scheme(alloc: Global, text: &str, scheme: SchemeName) -> Result<bool, SettingsFault> {
    match settings_of(alloc, text) {
        Ok(settings) => Ok(settings.permits_scheme(scheme)),
        Err(fault) => Err(fault),
    }
}

const ALL_BUT_FTP: &str = "version = 2\ndenied_schemes = ['ftp']";

const NO_HTTP: &str = "version = 2\nschemes = ['http', 'https']\ndenied_schemes = ['http']";

static SCHEMES: [(&str, SchemeName, bool); 8] = [
    ("schemes = ['tel', 'http', 'tel']", SchemeName::Http, true),
    ("schemes = ['tel', 'http', 'tel']", SchemeName::Tel, true),
    ("schemes = ['tel', 'http', 'tel']", SchemeName::Https, false),
    ("schemes = []", SchemeName::Http, false),
    (ALL_BUT_FTP, SchemeName::Ftp, false),
    (ALL_BUT_FTP, SchemeName::Tel, true),
    (NO_HTTP, SchemeName::Http, false),
    (NO_HTTP, SchemeName::Https, true),
];

#[test]
fn listed_schemes_are_permitted(rt: HostRuntime) -> Result<(), Fail> {
    for (text, scheme, want) in SCHEMES {
        assert_eq!(rt; permits_scheme(rt.alloc(), text, scheme)?, want, "{text}");
    }
    Ok(())
}

fn permits_prop(alloc: Global, text: &str, property: StyleProp) -> Result<bool, SettingsFault> {
    match settings_of(alloc, text) {
        Ok(settings) => Ok(settings.permits_prop(property)),
        Err(fault) => Err(fault),
    }
}

const THREE_PROPERTIES: &str =
    "properties = ['width', 'background-attachment', 'width', 'word-spacing']";

const ALL_BUT_COLOR: &str = "version = 2\ndenied_properties = ['color']";

const NO_WIDTH: &str =
    "version = 2\nproperties = ['width', 'height']\ndenied_properties = ['width', 'color']";

static PROPERTIES: [(&str, StyleProp, bool); 9] = [
    (THREE_PROPERTIES, StyleProp::BackgroundAttachment, true),
    (THREE_PROPERTIES, StyleProp::Width, true),
    (THREE_PROPERTIES, StyleProp::WordSpacing, true),
    (THREE_PROPERTIES, StyleProp::Height, false),
    ("properties = []", StyleProp::Width, false),
    (ALL_BUT_COLOR, StyleProp::Color, false),
    (ALL_BUT_COLOR, StyleProp::BackgroundColor, true),
    (NO_WIDTH, StyleProp::Width, false),
    (NO_WIDTH, StyleProp::Height, true),
];

#[test]
fn listed_properties_are_permitted(rt: HostRuntime) -> Result<(), Fail> {
    for (text, property, want) in PROPERTIES {
        assert_eq!(rt; permits_prop(rt.alloc(), text, property)?, want, "{text}");
    }
    Ok(())
}

// Whether what no key tells is the default.
fn are_defaults(settings: &Settings) -> bool {
    settings.permits_attr(Element::Font, Attr::Color)
        && !settings.permits_attr(Element::P, Attr::Color)
        && !settings.permits_attr(Element::P, Attr::Id)
        && settings.permits_prop(StyleProp::Width)
        && settings.permits_scheme(SchemeName::News)
        && settings.parent() == Content::Flow
        && settings.id_prefix() == ""
        && !settings.linkify()
        && !settings.auto_paragraph()
        && !settings.escapes_foreign()
        && !settings.forms()
        && settings.denied_hosts().is_empty()
        && settings.host().is_none()
        && settings.external()
}

#[test]
fn what_no_key_tells_is_the_default(rt: HostRuntime) {
    assert!(rt; are_defaults(&Settings::defaults()));
}

fn has_prefix(alloc: Global, text: &str, prefix: &str) -> Result<bool, SettingsFault> {
    match settings_of(alloc, text) {
        Ok(settings) => Ok(settings.id_prefix() == prefix),
        Err(fault) => Err(fault),
    }
}

static PREFIXES: [(&str, &str); 3] = [
    ("id_prefix = 'u-'", "u-"),
    ("id_prefix = 'Zz09-_.:'", "Zz09-_.:"),
    ("id_prefix = ''", ""),
];

#[test]
fn prefixes_are_kept(rt: HostRuntime) -> Result<(), Fail> {
    for (text, want) in PREFIXES {
        assert!(rt; has_prefix(rt.alloc(), text, want)?, "{text}");
    }
    Ok(())
}

// Whether these are the hosts that may not be reached, in their order.
fn denies(settings: &Settings, hosts: &[&str]) -> bool {
    let denied = settings.denied_hosts();
    denied.len() == hosts.len()
        && denied
            .iter()
            .zip(hosts)
            .all(|(denied, host)| denied.as_str() == *host)
}

fn has_denied(alloc: Global, text: &str, hosts: &[&str]) -> Result<bool, SettingsFault> {
    match settings_of(alloc, text) {
        Ok(settings) => Ok(denies(&settings, hosts)),
        Err(fault) => Err(fault),
    }
}

#[test]
fn denied_hosts_are_kept(rt: HostRuntime) -> Result<(), Fail> {
    let text = "denied_hosts = ['bad.com', '[::1]', 'bad.com']";
    assert!(rt; has_denied(rt.alloc(), text, &["bad.com", "[::1]", "bad.com"])?);
    assert!(rt; has_denied(rt.alloc(), "denied_hosts = []", &[])?);
    Ok(())
}

// Whether this is the own host, and whether others may be reached as told.
fn has_host(
    alloc: Global,
    text: &str,
    host: Option<&str>,
    external: bool,
) -> Result<bool, SettingsFault> {
    match settings_of(alloc, text) {
        Ok(settings) => Ok(settings.host() == host && settings.external() == external),
        Err(fault) => Err(fault),
    }
}

static HOSTS: [(&str, Option<&str>, bool); 3] = [
    ("host = 'a.com'\nexternal = false", Some("a.com"), false),
    ("host = 'a.com'", Some("a.com"), true),
    ("external = true", None, true),
];

#[test]
fn the_own_host_is_kept(rt: HostRuntime) -> Result<(), Fail> {
    for (text, host, external) in HOSTS {
        assert!(rt; has_host(rt.alloc(), text, host, external)?, "{text}");
    }
    Ok(())
}
