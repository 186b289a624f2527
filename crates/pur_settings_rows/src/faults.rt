//! Settings texts that are refused, each with its fault, typed from the table of keys by people.

use crate::reading::fault_of;
use pur_settings::{Settings, SettingsFault};
use std::alloc::{AllocError, Global};
use std::test::Fail;

// A text and its fault.
type Row = (&'static str, SettingsFault);

static REFUSED: [Row; 18] = [
    ("=", SettingsFault::NotToml),
    ("doctype = \"strict", SettingsFault::NotToml),
    ("version = 1\nversion = 1", SettingsFault::NotToml),
    ("version = 1\n[version]", SettingsFault::NotToml),
    ("colour = 1", SettingsFault::UnknownKey),
    ("Doctype = 'strict'", SettingsFault::UnknownKey),
    ("[site]", SettingsFault::UnknownKey),
    ("site.version = 1", SettingsFault::UnknownKey),
    ("doctype = \"html5\"", SettingsFault::UnknownName),
    ("doctype = 'Strict'", SettingsFault::UnknownName),
    ("elements = ['blink', 1]", SettingsFault::UnknownName),
    ("elements = ['P']", SettingsFault::UnknownName),
    (
        "elements = ['font']\ndoctype = 'strict'",
        SettingsFault::UnknownName,
    ),
    ("version = 3", SettingsFault::UnknownName),
    ("version = -1", SettingsFault::UnknownName),
    (
        "version = '1'\ndoctype = 'html5'",
        SettingsFault::UnknownName,
    ),
    ("size = 1\nelements = [1]", SettingsFault::WrongKind),
    ("doctype = 3\ncolour = 1", SettingsFault::UnknownKey),
];

// The first text whose fault isn't the one told.
fn first_other(alloc: Global, rows: &[Row]) -> Option<&'static str> {
    for (text, fault) in rows {
        if fault_of(alloc, text) != Some(*fault) {
            return Some(*text);
        }
    }
    None
}

#[test]
fn texts_that_are_refused(rt: HostRuntime) {
    assert_eq!(rt; first_other(rt.alloc(), &REFUSED), None);
    let invalid = Settings::read(rt.alloc(), b"doctype = '\xff'");
    assert_eq!(rt; invalid.err(), Some(SettingsFault::NotToml));
}

// The first text whose fault isn't this one.
fn first_without(
    alloc: Global,
    texts: &[&'static str],
    fault: SettingsFault,
) -> Option<&'static str> {
    for text in texts {
        if fault_of(alloc, text) != Some(fault) {
            return Some(*text);
        }
    }
    None
}

static WRONG_KINDS: [&str; 21] = [
    "doctype = 3",
    "doctype = 1.5",
    "doctype = true",
    "doctype = 2024-02-29",
    "doctype = ['strict']",
    "[doctype]",
    "elements = 'p'",
    "elements = 3",
    "elements = 1.5",
    "elements = false",
    "elements = 2024-02-29",
    "elements = [['p']]",
    "elements = ['p', 1, 'blink']",
    "elements.p = true",
    "[elements]",
    "version = '1'",
    "version = 1.0",
    "version = true",
    "version = 2024-02-29",
    "version = [1]",
    "[version]\nmajor = 1",
];

#[test]
fn values_of_the_wrong_kind(rt: HostRuntime) {
    let other = first_without(rt.alloc(), &WRONG_KINDS, SettingsFault::WrongKind);
    assert_eq!(rt; other, None);
}

// Lists and truth values of another kind.
static OTHER_KINDS: [&str; 34] = [
    "attributes = 'class'",
    "attributes = true",
    "attributes = [1]",
    "attributes = ['class', ['lang'], 'onclick']",
    "[attributes]",
    "auto_paragraph = 1",
    "auto_paragraph = [true]",
    "denied_hosts = 'bad.com'",
    "denied_hosts = ['bad.com', 1, 'Bad.com']",
    "denied_hosts = [['bad.com']]",
    "[denied_hosts]",
    "external = 'false'",
    "external = 0",
    "external = 'false'\nhost = 'A.com'",
    "host = 1",
    "host = true",
    "host = ['a.com']",
    "[host]",
    "id_prefix = 1",
    "id_prefix = ['u-']",
    "id_prefix = true",
    "ids = 'true'",
    "ids = 1",
    "ids = [true]",
    "linkify = 'true'",
    "[linkify]",
    "properties = 'color'",
    "properties = true",
    "properties = [['color']]",
    "properties = ['color', 1, 'position']",
    "properties.color = true",
    "schemes = 'http'",
    "schemes = ['http', 80]",
    "schemes.http = true",
];

#[test]
fn values_of_another_kind(rt: HostRuntime) {
    let other = first_without(rt.alloc(), &OTHER_KINDS, SettingsFault::WrongKind);
    assert_eq!(rt; other, None);
}

// Texts that aren't members.
static OTHER_NAMES: [&str; 35] = [
    "elements = ['form']",
    "elements = ['b', 'input']\ndoctype = 'strict'",
    "version = 2\nelements = ['form']",
    "version = 2\ndenied_elements = ['option']",
    "attributes = ['action']",
    "attributes = ['rows']",
    "version = 2\nattributes = ['form.title']",
    "version = 2\ndenied_attributes = ['maxlength']",
    "attributes = ['onclick']",
    "attributes = ['name']",
    "attributes = ['CLASS']",
    "attributes = ['']",
    "attributes = ['class', 'onclick', 1]",
    "colour = 1\nattributes = ['onclick']",
    "denied_hosts = ['Bad.com']",
    "denied_hosts = ['bad.com', '']",
    "denied_hosts = ['bad.com.']",
    "denied_hosts = ['http://bad.com']",
    "denied_hosts = ['bad.com', '*.bad.com', 1]",
    "external = false\nhost = 'A.com'",
    "host = ''",
    "host = 'a.com:80'",
    "host = '_a.com'",
    "id_prefix = '1a'",
    "id_prefix = '-a'",
    "id_prefix = 'a b'",
    "id_prefix = 'é'",
    "properties = ['position']",
    "properties = ['Color']",
    "properties = [' color']",
    "properties = ['']",
    "properties = ['color', 'background', 1]",
    "schemes = ['javascript']",
    "schemes = ['HTTP']",
    "schemes = ['http:']",
];

#[test]
fn names_that_are_no_members(rt: HostRuntime) {
    let other = first_without(rt.alloc(), &OTHER_NAMES, SettingsFault::UnknownName);
    assert_eq!(rt; other, None);
}

// Keys that no part reads so far, one that none reads, and keys of version 2 in texts of version 1.
static OTHER_KEYS: [&str; 11] = [
    "auto_paragraphs = true",
    "Linkify = true",
    "property = ['color']",
    "version = 2\nforeign = 'escape'",
    "version = 2\nforms = true",
    "denied_elements = ['b']",
    "denied_attributes = [1]\nversion = 1",
    "denied_properties = ['color']\nversion = '2'",
    "denied_schemes = ['ftp']\nversion = 2.0",
    "denied_elements = ['b']\nversion = 3",
    "denied_element = ['b']\nversion = 2",
];

#[test]
fn keys_that_are_not_known(rt: HostRuntime) {
    let other = first_without(rt.alloc(), &OTHER_KEYS, SettingsFault::UnknownKey);
    assert_eq!(rt; other, None);
}

// Lists of version 2, each behind its first line, of another kind.
static OTHER_LISTS: [&str; 5] = [
    "version = 2\ndenied_attributes = 'title'",
    "version = 2\ndenied_elements = ['b', 1]",
    "version = 2\ndenied_properties = true",
    "version = 2\n[denied_schemes]",
    "version = 2\ndenied_elements = ['blink']\ndenied_attributes = [1]",
];

#[test]
fn lists_of_version_two_of_another_kind(rt: HostRuntime) {
    let other = first_without(rt.alloc(), &OTHER_LISTS, SettingsFault::WrongKind);
    assert_eq!(rt; other, None);
}

// Names that aren't members of lists in version 2, and an item in version 1.
static OTHER_ITEMS: [&str; 16] = [
    "attributes = ['a.href']",
    "version = 2\nattributes = ['br.lang']",
    "version = 2\nattributes = ['a.name']",
    "version = 2\nattributes = ['name']",
    "version = 2\nattributes = ['p.href']",
    "version = 2\nattributes = ['blink.title']",
    "version = 2\nattributes = ['a.']",
    "version = 2\nattributes = ['.href']",
    "version = 2\nattributes = ['a.href.x']",
    "version = 2\nattributes = ['A.href']",
    "version = 2\nattributes = ['*.title']",
    "version = 2\ndenied_attributes = ['onclick']",
    "version = 2\ndenied_attributes = ['br.dir']",
    "version = 2\ndenied_elements = ['blink']",
    "version = 2\ndenied_properties = ['position']",
    "version = 2\ndenied_schemes = ['javascript']",
];

#[test]
fn items_that_are_no_members(rt: HostRuntime) {
    let other = first_without(rt.alloc(), &OTHER_ITEMS, SettingsFault::UnknownName);
    assert_eq!(rt; other, None);
}

// Texts that are in conflict, or would be if they had no offence, with the fault of each.
static CONFLICTS: [Row; 7] = [
    ("external = false", SettingsFault::Conflict),
    (
        "denied_hosts = ['a.com']\nexternal = false\nids = true",
        SettingsFault::Conflict,
    ),
    (
        "version = 2\ndenied_elements = ['b']\nexternal = false",
        SettingsFault::Conflict,
    ),
    ("external = false\nversion = 3", SettingsFault::UnknownName),
    ("external = false\nversion = '1'", SettingsFault::WrongKind),
    ("external = false\nzone = 1", SettingsFault::UnknownKey),
    ("external = false\ncolour = 1", SettingsFault::UnknownKey),
];

#[test]
fn conflicts_come_after_all_keys(rt: HostRuntime) {
    assert_eq!(rt; first_other(rt.alloc(), &CONFLICTS), None);
}

// The fault of a text whose key, opened by this front, has a text of so many letters.
fn fault_of_letters(
    alloc: Global,
    front: &str,
    letters: usize,
) -> Result<Option<SettingsFault>, AllocError> {
    let mut text = String::from_str(alloc, front)?;
    for _ in 0..letters {
        text.push('a')?;
    }
    text.push('\'')?;
    Ok(fault_of(alloc, text.as_str()))
}

#[test]
fn prefixes_have_at_most_64_bytes(rt: HostRuntime) -> Result<(), Fail> {
    assert_eq!(rt; fault_of_letters(rt.alloc(), "id_prefix = '", 64)?, None);
    assert_eq!(rt;
        fault_of_letters(rt.alloc(), "id_prefix = '", 65)?,
        Some(SettingsFault::UnknownName)
    );
    Ok(())
}

#[test]
fn hosts_have_at_most_255_bytes(rt: HostRuntime) -> Result<(), Fail> {
    assert_eq!(rt; fault_of_letters(rt.alloc(), "host = '", 255)?, None);
    assert_eq!(rt;
        fault_of_letters(rt.alloc(), "host = '", 256)?,
        Some(SettingsFault::UnknownName)
    );
    Ok(())
}
