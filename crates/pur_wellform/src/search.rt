// The search for the place of an element, from the innermost open element outwards.
ghost use Rattle.std.specs.Prelude.{◌≡◌, ◌≤◌, ◌<◌, length, IfSome, IsTrue};
ghost use Rattle.pur_wellform.specs.Search.{entry, ends_search, is_shut, is_table_part, place_of, open_place};
ghost use Rattle.pur_wellform.specs.Private.Opens.{names_of, AreOpen, entry_of, found_place, is_open_way};

use crate::open_elements::{Open, content_at};
use pur_modules::{Child, allows, implied};
use pur_names::Element;
use pur_settings::Settings;

// How a thing comes into a place: not at all, as it is, or inside of a wrapper.
#[derive(Clone, Copy)]
pub(crate) enum Way {
    Barred,
    Direct,
    Inside(Element),
}

// A place that a search found: how many open elements stand inside of it, and the way into it.
#[derive(Clone, Copy)]
pub(crate) struct Found {
    pub(crate) inner: usize,
    pub(crate) way: Way,
}

// The way into the place inside of the open elements.
pub(crate) fn way_at(settings: &Settings, opened: &[Open], child: Child) -> Way
    requires { AreOpen settings.now opened.now }
    ensures { entry_of result ≡ entry settings.now (names_of opened.now) child }
{
    let content = content_at(settings, opened);
    if allows(settings.doctype(), content, child) {
        return Way::Direct;
    }
    match implied(settings.doctype(), content, child) {
        Some(wrapper) => {
            if settings.permits(wrapper) {
                Way::Inside(wrapper)
            } else {
                Way::Barred
            }
        }
        None => Way::Barred,
    }
}

// The place of an element: the first one, from the innermost outwards, that has a way in for it.
pub(crate) fn find_place(settings: &Settings, opened: &[Open], sought: Element) -> Option<Found>
    requires { AreOpen settings.now opened.now }
    ensures place { found_place result ≡ place_of settings.now sought (names_of opened.now) }
    ensures within { IfSome result (λ found. found.inner ≤ length opened.now) }
    ensures entered { IfSome result (λ found. IsTrue (is_open_way (entry_of found.way))) }
{
    let way = way_at(settings, opened, Child::Elem(sought));
    if is_open_way(way) {
        return Some(Found { inner: 0, way });
    }
    match opened.split_last() {
        Some((last, outer)) => {
            if ends_search(sought, last.name) {
                return None;
            }
            match find_place(settings, outer, sought) {
                Some(found) => Some(Found {
                    inner: found.inner + 1,
                    way: found.way,
                }),
                None => None,
            }
        }
        None => None,
    }
}

// How many elements are open inside of the open one of this name that a search finds.
pub(crate) fn find_open(opened: &[Open], sought: Element) -> Option<usize>
    ensures place { result ≡ open_place sought (names_of opened.now) }
    ensures within { IfSome result (λ inner. inner < length opened.now) }
{
    match opened.split_last() {
        Some((last, outer)) => {
            if sought.is_same(last.name) {
                return Some(0);
            }
            if ends_search(sought, last.name) {
                return None;
            }
            match find_open(outer, sought) {
                Some(inner) => Some(inner + 1),
                None => None,
            }
        }
        None => None,
    }
}

// Whether a thing can come in by a way.
fn is_open_way(way: Way) -> bool
    ensures { result ≡ is_open_way (entry_of way) }
{
    !matches!(way, Way::Barred)
}

// Whether a search for an element ends after an open one.
fn ends_search(sought: Element, element: Element) -> bool
    ensures { result ≡ ends_search sought element }
{
    if is_shut(element) {
        !is_table_part(sought)
    } else {
        false
    }
}

// Whether the element is a cell or a caption.
pub(crate) fn is_shut(element: Element) -> bool
    ensures { result ≡ is_shut element }
{
    matches!(element, Element::Td | Element::Th | Element::Caption)
}

// Whether the element is a part of a table.
fn is_table_part(element: Element) -> bool
    ensures { result ≡ is_table_part element }
{
    matches!(
        element,
        Element::Table
            | Element::Thead
            | Element::Tbody
            | Element::Tfoot
            | Element::Tr
            | Element::Td
            | Element::Th
            | Element::Caption
            | Element::Colgroup
            | Element::Col
    )
}
