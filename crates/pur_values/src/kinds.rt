//! The kinds of values, and which attribute has which.
ghost use Rattle.std.specs.Prelude.{◌≡◌, ◌&&◌, ◌||◌, not, is_some, IfSome};
ghost use Rattle.std.specs.List.{list_any};
ghost use Rattle.pur_names.specs.Attributes.{same_attr};
ghost use Rattle.pur_values.specs.Laws.{IsSound};
ghost use Rattle.pur_values.specs.Private.ByName.{declared_kind, kind_by_name, size_kind, type_kind, value_kind, width_kind};
ghost use Rattle.pur_values.specs.Kinds.{is_declared, is_elsewhere, kind_of};

use pur_modules::{Doctype, attributes};
use pur_names::{Attr, Element};

/// What the values of an attribute are.
///
/// URIs and style texts aren't among these: they have readers of their own.
///
/// Source: HTML 4.01, section 6, and the attribute lists of XHTML 1.0.
#[derive(Clone, Copy, PartialEq, Eq, Debug)]
pub enum ValueKind {
    /// Any text on one line: each tab and line feed is a space.
    Text,
    /// An identifier. A prefix is no matter of this kind.
    Id,
    /// Names of classes between white space.
    Class,
    /// A language, in lower case.
    Lang,
    /// Pixels, 9999 at most.
    Pixels,
    /// Pixels, or a percentage, 100 at most.
    Length,
    /// Pixels, a percentage, or a share of what is left, 9999 at most.
    MultiLength,
    /// A number; `least` is at most `most`.
    Number { least: u32, most: u32 },
    /// A colour.
    Color,
    /// One of the words that the attribute takes on the element, in lower case.
    Keyword { element: Element, attr: Attr },
    /// The attribute's own name, whatever is written.
    Flag { attr: Attr },
    /// A bullet, in lower case.
    BulletType,
    /// A way to number; its case counts.
    NumberType,
    /// A way to number, or a bullet.
    ItemType,
    /// A size of a font, absolute or with a sign.
    FontSize,
    /// Relations of a link between white space.
    Rel,
}

/// The kind of the attribute's values on the element, under either doctype.
///
/// There is none for `href`, `src`, `longdesc`, `cite`, `action`, `style` and `name`, and for an attribute that neither
/// doctype declares on the element.
///
/// Source: HTML 4.01, the index of attributes.
pub fn kind_of(element: Element, attr: Attr) -> Option<ValueKind>
    ensures value { result ≡ kind_of element attr }
    ensures sound { IfSome result IsSound }
    ensures told { is_some result ≡ (is_declared element attr && not (is_elsewhere attr)) }
{
    declared_kind(element, attr)
}

fn declared_kind(element: Element, attr: Attr) -> Option<ValueKind>
    ensures value { result ≡ declared_kind element attr }
    ensures sound { IfSome result IsSound }
    ensures told { is_some result ≡ (is_declared element attr && not (is_elsewhere attr)) }
{
    if is_declared(element, attr) {
        kind_by_name(element, attr)
    } else {
        None
    }
}

/// Whether one of the two doctypes declares the attribute on the element.
#[tactic(auto, unfolding(crate::specs::Kinds::is_declared))]
pub(crate) fn is_declared(element: Element, attr: Attr) -> bool
    ensures { result ≡ is_declared element attr }
{
    has(attributes(Doctype::Strict, element), attr)
        || has(attributes(Doctype::Transitional, element), attr)
}

fn has(attrs: &[Attr], attr: Attr) -> bool
    ensures { result ≡ list_any (same_attr attr) attrs.now }
{
    attrs.contains(&attr)
}

fn kind_by_name(element: Element, attr: Attr) -> Option<ValueKind>
    ensures { result ≡ kind_by_name element attr }
{
    let kind = match attr {
        Attr::Abbr | Attr::Alt | Attr::Face | Attr::Label | Attr::Summary | Attr::Title =>
            ValueKind::Text,
        Attr::Align
        | Attr::Clear
        | Attr::Dir
        | Attr::Frame
        | Attr::Method
        | Attr::Rules
        | Attr::Scope
        | Attr::Target
        | Attr::Valign => ValueKind::Keyword { element, attr },
        Attr::Bgcolor | Attr::Color => ValueKind::Color,
        Attr::Border | Attr::Hspace | Attr::Vspace => ValueKind::Pixels,
        Attr::Cellpadding | Attr::Cellspacing | Attr::Height => ValueKind::Length,
        Attr::Action
        | Attr::Cite
        | Attr::Href
        | Attr::Longdesc
        | Attr::Name
        | Attr::Src
        | Attr::Style => return None,
        Attr::Class => ValueKind::Class,
        Attr::Cols | Attr::Colspan | Attr::Rows | Attr::Rowspan | Attr::Span => number(1, 1000),
        Attr::Checked
        | Attr::Compact
        | Attr::Disabled
        | Attr::Multiple
        | Attr::Noshade
        | Attr::Nowrap
        | Attr::Readonly
        | Attr::Selected => ValueKind::Flag { attr },
        Attr::Id => ValueKind::Id,
        Attr::Lang | Attr::XmlLang => ValueKind::Lang,
        Attr::ListType => type_kind(element),
        Attr::Rel => ValueKind::Rel,
        Attr::Size => size_kind(element),
        Attr::Maxlength | Attr::Start => number(0, 99999),
        Attr::Value => value_kind(element),
        Attr::Width => width_kind(element),
    };
    Some(kind)
}

fn number(least: u32, most: u32) -> ValueKind
    ensures { result ≡ ValueKind.Number least most }
{
    ValueKind::Number { least, most }
}

fn width_kind(element: Element) -> ValueKind
    ensures { result ≡ width_kind element }
{
    match element {
        Element::Col | Element::Colgroup => ValueKind::MultiLength,
        Element::Pre => number(1, 9999),
        _ => ValueKind::Length,
    }
}

fn size_kind(element: Element) -> ValueKind
    ensures { result ≡ size_kind element }
{
    match element {
        Element::Font => ValueKind::FontSize,
        Element::Input => number(1, 9999),
        Element::Select => number(1, 1000),
        _ => ValueKind::Pixels,
    }
}

fn type_kind(element: Element) -> ValueKind
    ensures { result ≡ type_kind element }
{
    match element {
        Element::Ul => ValueKind::BulletType,
        Element::Ol => ValueKind::NumberType,
        Element::Input | Element::Button => ValueKind::Keyword {
            element,
            attr: Attr::ListType,
        },
        _ => ValueKind::ItemType,
    }
}

fn value_kind(element: Element) -> ValueKind
    ensures { result ≡ value_kind element }
{
    match element {
        Element::Li => number(0, 99999),
        _ => ValueKind::Text,
    }
}
