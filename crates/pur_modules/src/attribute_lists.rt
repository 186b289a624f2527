//! The attributes of each element.

ghost use Rattle.std.specs.Prelude.{◌≡◌, ◌≤◌, IsTrue, length, take};
ghost use Rattle.pur_modules.specs.AttributeLists.{attributes_of, is_of_none_else, is_outside_forms, required_of, is_without_repeats};
ghost use Rattle.pur_modules.specs.declared.kinds.Doctype.TheVariants.{Strict, Transitional};

use crate::kinds::Doctype;
use pur_names::Attr::{
    self, Abbr, Action, Align, Alt, Bgcolor, Border, Cellpadding, Cellspacing, Checked, Cite,
    Class, Clear, Color, Cols, Colspan, Compact, Dir, Disabled, Face, Frame, Height, Href, Hspace,
    Id, Label, Lang, ListType, Longdesc, Maxlength, Method, Multiple, Name, Noshade, Nowrap,
    Readonly, Rel, Rows, Rowspan, Rules, Scope, Selected, Size, Span, Src, Start, Style, Summary,
    Target, Title, Valign, Value, Vspace, Width, XmlLang,
};
use pur_names::Element;

static BREAK: [Attr; 5] = [Id, Class, Style, Title, Clear];

static PLAIN: [Attr; 7] = [Id, Class, Style, Title, Lang, XmlLang, Dir];

static ALIGNED: [Attr; 8] = [Id, Class, Style, Title, Lang, XmlLang, Dir, Align];

static COMPACT: [Attr; 8] = [Id, Class, Style, Title, Lang, XmlLang, Dir, Compact];

static PREFORMATTED: [Attr; 8] = [Id, Class, Style, Title, Lang, XmlLang, Dir, Width];

static CITING: [Attr; 8] = [Id, Class, Style, Title, Lang, XmlLang, Dir, Cite];

static BULLETS: [Attr; 9] = [
    Id, Class, Style, Title, Lang, XmlLang, Dir, ListType, Compact,
];

static ITEM: [Attr; 9] = [Id, Class, Style, Title, Lang, XmlLang, Dir, ListType, Value];

static NUMBERS: [Attr; 10] = [
    Id, Class, Style, Title, Lang, XmlLang, Dir, ListType, Start, Compact,
];

static ANCHOR: [Attr; 10] = [
    Id, Class, Style, Title, Lang, XmlLang, Dir, Href, Rel, Target,
];

static FONT: [Attr; 10] = [
    Id, Class, Style, Title, Lang, XmlLang, Dir, Size, Color, Face,
];

static ROW: [Attr; 10] = [
    Id, Class, Style, Title, Lang, XmlLang, Dir, Align, Valign, Bgcolor,
];

static COLUMNS: [Attr; 11] = [
    Id, Class, Style, Title, Lang, XmlLang, Dir, Align, Valign, Span, Width,
];

static RULE: [Attr; 11] = [
    Id, Class, Style, Title, Lang, XmlLang, Dir, Align, Noshade, Size, Width,
];

static IMAGE: [Attr; 16] = [
    Id, Class, Style, Title, Lang, XmlLang, Dir, Src, Alt, Longdesc, Width, Height, Align, Border,
    Hspace, Vspace,
];

static TABLE: [Attr; 16] = [
    Id,
    Class,
    Style,
    Title,
    Lang,
    XmlLang,
    Dir,
    Summary,
    Width,
    Border,
    Frame,
    Rules,
    Cellspacing,
    Cellpadding,
    Align,
    Bgcolor,
];

static CELL: [Attr; 17] = [
    Id, Class, Style, Title, Lang, XmlLang, Dir, Align, Valign, Abbr, Scope, Rowspan, Colspan,
    Nowrap, Width, Height, Bgcolor,
];

static FORM: [Attr; 9] = [Id, Class, Style, Title, Lang, XmlLang, Dir, Action, Method];

static INPUT: [Attr; 15] = [
    Id, Class, Style, Title, Lang, XmlLang, Dir, ListType, Value, Alt, Checked, Disabled, Readonly,
    Size, Maxlength,
];

static SELECT: [Attr; 10] = [
    Id, Class, Style, Title, Lang, XmlLang, Dir, Size, Multiple, Disabled,
];

static OPTION_GROUP: [Attr; 9] = [Id, Class, Style, Title, Lang, XmlLang, Dir, Label, Disabled];

static OPTION: [Attr; 11] = [
    Id, Class, Style, Title, Lang, XmlLang, Dir, Label, Value, Selected, Disabled,
];

static TEXT_AREA: [Attr; 11] = [
    Id, Class, Style, Title, Lang, XmlLang, Dir, Rows, Cols, Disabled, Readonly,
];

static BUTTON: [Attr; 10] = [
    Id, Class, Style, Title, Lang, XmlLang, Dir, ListType, Value, Disabled,
];

/// The attributes that a doctype declares on an element, each once: those of all elements first.
///
/// The list is empty where the doctype hasn't the element.
///
/// Source: XHTML 1.0, the attribute lists of the two DTDs, without events and the attributes that this filter leaves out.
#[tactic(auto, using(crate::proofs::AttributeLaws::declared_once))]
pub fn attributes(doctype: Doctype, element: Element) -> &'static [Attr]
    ensures value { result.now ≡ attributes_of doctype element }
    ensures once { IsTrue (is_without_repeats result.now) }
{
    let (list, in_strict) = row_of(element);
    match doctype {
        Doctype::Strict => &list[..in_strict],
        Doctype::Transitional => list,
    }
}

/// The attributes that an element must have, each once.
///
/// Source: XHTML 1.0, the attributes declared `#REQUIRED`.
pub fn required(element: Element) -> &'static [Attr]
    ensures { result.now ≡ required_of element }
{
    match element {
        Element::Img => &[Src, Alt],
        Element::Bdo => &[Dir],
        Element::Form => &[Action],
        Element::Textarea => &[Rows, Cols],
        Element::Optgroup => &[Label],
        _ => &[],
    }
}

/// Whether the attribute may stand on an element that is none of forms, under one of the doctypes. `name` stands on none.
///
/// Source: XHTML 1.0, the attribute lists of the two DTDs.
pub fn is_outside_forms(attr: Attr) -> bool
    ensures { result ≡ is_outside_forms attr }
{
    !is_of_none_else(attr)
}

// Whether forms alone have the attribute, or no element has.
fn is_of_none_else(attr: Attr) -> bool
    ensures { result ≡ is_of_none_else attr }
{
    matches!(
        attr,
        Action
            | Checked
            | Cols
            | Disabled
            | Label
            | Maxlength
            | Method
            | Multiple
            | Name
            | Readonly
            | Rows
            | Selected
    )
}

// An element's attributes under Transitional, and how many of them, from the front, Strict declares on it too.
#[tactic(auto, unfolding(crate::specs::AttributeLists::attributes_of))]
fn row_of(element: Element) -> (&'static [Attr], usize)
    ensures transitional { result.0.now ≡ attributes_of Transitional element }
    ensures strict { take result.1 result.0.now ≡ attributes_of Strict element }
    ensures within { result.1 ≤ length result.0.now }
{
    match element {
        Element::Br => (&BREAK, 4),
        Element::A => (&ANCHOR, 9),
        Element::Img => (&IMAGE, 12),
        Element::Q | Element::Ins | Element::Del | Element::Blockquote => (&CITING, 8),
        Element::Table => (&TABLE, 14),
        Element::Thead | Element::Tfoot | Element::Tbody => (&ROW[..9], 9),
        Element::Tr => (&ROW, 9),
        Element::Colgroup | Element::Col => (&COLUMNS, 11),
        Element::Th | Element::Td => (&CELL, 13),
        Element::P
        | Element::H1
        | Element::H2
        | Element::H3
        | Element::H4
        | Element::H5
        | Element::H6
        | Element::Div
        | Element::Caption
        | Element::Legend => (&ALIGNED, 7),
        Element::Hr => (&RULE, 7),
        Element::Ul => (&BULLETS, 7),
        Element::Ol => (&NUMBERS, 7),
        Element::Li => (&ITEM, 7),
        Element::Dl => (&COMPACT, 7),
        Element::Pre => (&PREFORMATTED, 7),
        Element::Form => (&FORM, 9),
        Element::Input => (&INPUT, 15),
        Element::Select => (&SELECT, 10),
        Element::Optgroup => (&OPTION_GROUP, 9),
        Element::OptionItem => (&OPTION, 11),
        Element::Textarea => (&TEXT_AREA, 11),
        Element::Button => (&BUTTON, 10),
        Element::Dir | Element::Menu => (&COMPACT, 0),
        Element::Font => (&FONT, 0),
        Element::U | Element::S | Element::Strike | Element::Center => (&PLAIN, 0),
        _ => (&PLAIN, 7),
    }
}
