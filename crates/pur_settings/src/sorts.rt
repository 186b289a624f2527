//! The sorts of names that settings list, with the count of each.

ghost use Rattle.std.specs.Prelude.{◌≡◌, ◌<◌, ◌&&◌, not, length};
ghost use Rattle.std.specs.List.{list_any};
ghost use Rattle.std.specs.Option.{option_map};
ghost use Rattle.pur_names.specs.Attributes.{all_attrs, attr_rank, same_attr};
ghost use Rattle.pur_names.specs.Elements.{all_elements, element_rank};
ghost use Rattle.pur_names.specs.Properties.{all_props, prop_named, prop_rank};
ghost use Rattle.pur_names.specs.Schemes.{all_schemes, scheme_named, scheme_rank};
ghost use Rattle.pur_modules.specs.AttributeLists.{attributes_of};
ghost use Rattle.pur_modules.specs.Groups.{is_among, elements_of, of_forms};
ghost use Rattle.pur_modules.specs.declared.kinds.Doctype.TheVariants.{Transitional};
ghost use Rattle.pur_settings.specs.Items.{all_items, attribute_of, attribute_on, item_of, item_rank};
ghost use Rattle.pur_settings.specs.declared.items.Item.TheVariants.{Everywhere};
ghost use Rattle.pur_settings.specs.Table.{element_of};

use crate::editions::{Edition, Version};
use crate::items::Item;
use crate::name_set::{NameSet, Sort};
use pur_modules::{Doctype, attributes, declares, is_of_forms, is_outside_forms};
use pur_names::{Attr, Element, SchemeName, StyleProp};

pub(crate) type Elements = NameSet<Element, 70>;

pub(crate) type Items = NameSet<Item, 3834>;

pub(crate) type Properties = NameSet<StyleProp, 55>;

pub(crate) type Schemes = NameSet<SchemeName, 7>;

impl Sort for Element {
    ghost all = { all_elements };

    ghost rank = { element_rank };

    ghost named = { λ edition. element_of edition.doctype };

    fn place(self) -> usize {
        self.rank()
    }

    fn find(edition: Edition, text: &str) -> Option<Element> {
        match Element::from_name(text) {
            Some(element) if is_listable(edition.doctype, element) => Some(element),
            _ => None,
        }
    }
}

impl Sort for Item {
    ghost all = { all_items };

    ghost rank = { item_rank };

    ghost named = { λ edition. item_of edition.version };

    fn place(self) -> usize {
        match self {
            Item::Everywhere(attr) => place_of(attr),
            Item::On(element, attr) => 54 * (1 + element.rank()) + place_of(attr),
        }
    }

    fn find(edition: Edition, text: &str) -> Option<Item> {
        match edition.version {
            Version::One => everywhere(text),
            Version::Two => match text.split_once('.') {
                Some((element, attr)) => on_element(Element::from_name(element)?, attr),
                None => everywhere(text),
            },
        }
    }
}

impl Sort for StyleProp {
    ghost all = { all_props };

    ghost rank = { prop_rank };

    ghost named = { λ edition. prop_named };

    fn place(self) -> usize {
        self as usize
    }

    fn find(_: Edition, text: &str) -> Option<StyleProp> {
        StyleProp::from_name(text)
    }
}

impl Sort for SchemeName {
    ghost all = { all_schemes };

    ghost rank = { scheme_rank };

    ghost named = { λ edition. scheme_named };

    fn place(self) -> usize {
        self as usize
    }

    fn find(_: Edition, text: &str) -> Option<SchemeName> {
        SchemeName::from_name(text)
    }
}

// Whether a list may name the element: the doctype has it, and it is none of forms.
fn is_listable(doctype: Doctype, element: Element) -> bool
    ensures { result ≡ (is_among (elements_of doctype) element && not (is_among of_forms element)) }
{
    declares(doctype, element) && !is_of_forms(element)
}

// Whether a list may name the attribute on the element: Transitional declares it there, and the element is none of forms.
fn is_on(element: Element, attr: Attr) -> bool
    ensures { result ≡ (not (is_among of_forms element) && list_any (same_attr attr) (attributes_of Transitional element)) }
{
    !is_of_forms(element) && has_attr(attributes(Doctype::Transitional, element), attr)
}

// The attribute's place in the list of all.
fn place_of(attr: Attr) -> usize
    ensures number { result ≡ attr_rank attr }
    ensures within { result < length all_attrs }
{
    attr as usize
}

// The attribute that a text names, wherever it stands, if it stands outside of forms. `name` doesn't: the filter never
// writes that one.
fn everywhere(text: &str) -> Option<Item>
    ensures { result ≡ option_map Everywhere (attribute_of text.now) }
{
    match Attr::from_name(text) {
        Some(attr) if is_outside_forms(attr) => Some(Item::Everywhere(attr)),
        _ => None,
    }
}

// The attribute that a text names on an element, if Transitional declares it there and the element is none of forms.
fn on_element(element: Element, text: &str) -> Option<Item>
    ensures { result ≡ attribute_on element text.now }
{
    match Attr::from_name(text) {
        Some(attr) if is_on(element, attr) => Some(Item::On(element, attr)),
        _ => None,
    }
}

// Whether the attribute is in the list.
pub(crate) fn has_attr(attrs: &[Attr], attr: Attr) -> bool
    ensures { result ≡ list_any (same_attr attr) attrs.now }
{
    attrs.iter().any(|listed| *listed == attr)
}
