// The open elements, and what is known inside of them.
ghost use Rattle.std.specs.Prelude.{◌≡◌, ◌≤◌, ◌∷◌, [], false};
ghost use Rattle.pur_modules.specs.Contents.{is_empty_element, is_excluded_in};
ghost use Rattle.pur_modules.specs.Excluders.{excluders_of};
ghost use Rattle.pur_tree.specs.Places.{level_limit};
ghost use Rattle.pur_wellform.specs.Search.{content_in, level_in};
ghost use Rattle.pur_wellform.specs.Private.Opens.{names_of, AreOpen, IsOpen};

use pur_attrlist::AttrList;
use pur_modules::{Content, Excluders, content_of};
use pur_names::Element;
use pur_settings::Settings;
use pur_tree::{is_table, level_rise};

// An open element, and what is known inside of it: what it holds, its level, and which of the elements that exclude others
// stand round it or are it. Its attributes are kept if it is formatting, which may
// be opened again; otherwise there are none here.
#[derive(Drop)]
pub(crate) struct Open {
    pub(crate) name: Element,
    pub(crate) attrs: AttrList,
    pub(crate) content: Content,
    pub(crate) level: usize,
    pub(crate) excluders: Excluders,
}

// What may stand inside of the open elements.
pub(crate) fn content_at(settings: &Settings, opened: &[Open]) -> Content
    requires { AreOpen settings.now opened.now }
    ensures { result ≡ content_in settings.now (names_of opened.now) }
{
    match opened.split_last() {
        Some((last, _)) => last.content,
        None => settings.parent(),
    }
}

// The level that an element would have inside of the open ones.
pub(crate) fn level_inside(_settings: &Settings, opened: &[Open], element: Element) -> usize
    requires { AreOpen _settings.now opened.now }
    ensures value { result ≡ level_in (element ∷ names_of opened.now) }
    ensures low { result ≤ 130 }
{
    match opened.split_last() {
        Some((last, _)) => last.level + level_rise(is_table(last.name), element),
        None => level_rise(false, element),
    }
}

// Whether an open element excludes another.
pub(crate) fn is_excluded_at(_settings: &Settings, opened: &[Open], element: Element) -> bool
    requires { AreOpen _settings.now opened.now }
    ensures { result ≡ is_excluded_in (names_of opened.now) element }
{
    match opened.split_last() {
        Some((last, _)) => last.excluders.exclude(element),
        None => false,
    }
}

// What is known of an element that is opened inside of the open ones.
pub(crate) fn opening(settings: &Settings, opened: &[Open], name: Element, attrs: AttrList) -> Open
    requires known { AreOpen settings.now opened.now }
    requires full { is_empty_element name ≡ false }
    requires low { level_in (name ∷ names_of opened.now) ≤ level_limit }
    ensures name { result.name ≡ name }
    ensures attrs { result.attrs ≡ attrs }
    ensures known { IsOpen settings.now (name ∷ names_of opened.now) result }
{
    let content = content_of(settings.doctype(), name, content_at(settings, opened));
    let level = level_inside(settings, opened, name);
    let excluders = excluders_inside(settings, opened, name);
    Open {
        name,
        attrs,
        content,
        level,
        excluders,
    }
}

// Which elements that exclude others are open, where an element is opened inside of the open ones.
fn excluders_inside(_settings: &Settings, opened: &[Open], name: Element) -> Excluders
    requires { AreOpen _settings.now opened.now }
    ensures { result ≡ excluders_of (name ∷ names_of opened.now) }
{
    match opened.split_last() {
        Some((last, _)) => last.excluders.inside(name),
        None => Excluders::none().inside(name),
    }
}
