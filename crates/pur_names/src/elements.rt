//! The elements of XHTML 1.0 that the filter knows.

ghost use Rattle.std.specs.Prelude.{◌≡◌, ◌<◌, length, Some, IfSome, IfNone};
ghost use Rattle.pur_names.specs.Elements.{all_elements, element_name, element_named, element_place, element_rank, same_element};
ghost use Rattle.pur_names.specs.declared.elements.Element.{Element};

use std::fmt;

/// An element of XHTML 1.0: the 63 of the Strict profile and the 7 that Transitional adds.
///
/// A variant is the element's name with its first letter in upper case; `OptionItem` is `option`.
///
/// Source: XHTML 1.0, the Strict and Transitional DTDs, without frames, image maps, objects, applets, scripts and
/// the elements of the document's head.
#[derive(Clone, Copy, PartialEq, Eq)]
pub enum Element {
    A,
    Abbr,
    Acronym,
    Address,
    B,
    Bdo,
    Big,
    Blockquote,
    Br,
    Button,
    Caption,
    Center,
    Cite,
    Code,
    Col,
    Colgroup,
    Dd,
    Del,
    Dfn,
    Dir,
    Div,
    Dl,
    Dt,
    Em,
    Fieldset,
    Font,
    Form,
    H1,
    H2,
    H3,
    H4,
    H5,
    H6,
    Hr,
    I,
    Img,
    Input,
    Ins,
    Kbd,
    Label,
    Legend,
    Li,
    Menu,
    Ol,
    Optgroup,
    OptionItem,
    P,
    Pre,
    Q,
    S,
    Samp,
    Select,
    Small,
    Span,
    Strike,
    Strong,
    Sub,
    Sup,
    Table,
    Tbody,
    Td,
    Textarea,
    Tfoot,
    Th,
    Thead,
    Tr,
    Tt,
    U,
    Ul,
    Var,
}

impl Element {
    /// Looks a name up. Names are in lower case, and are compared to the letter.
    pub fn from_name(name: &str) -> Option<Self>
        ensures value { result ≡ element_named name.now }
        ensures some { IfSome result (λ found. element_name found ≡ name.now) }
        ensures none { IfNone result ((e : Element) → element_name e ≡ name.now → ⊥) }
        ensures inverse { (e : Element) → element_name e ≡ name.now → result ≡ Some e }
    {
        spelled(name.as_bytes())
    }

    /// Whether two are the same one.
    pub fn is_same(self, other: Element) -> bool
        ensures { result ≡ same_element self other }
    {
        self == other
    }

    /// The element's number, counted from 0 in the order of their names: its place in a table with one for each.
    pub fn rank(self) -> usize
        ensures number { result ≡ element_rank self }
        ensures within { result < length all_elements }
    {
        self as usize
    }

    /// The element's name in lower case, as a tag spells it.
    pub fn name(self) -> &'static str
        ensures { result.now ≡ element_name self }
    {
        NAMES[self as usize]
    }
}

impl fmt::Debug for Element {
    fn fmt<W: fmt::Write>(&self, f: &mut fmt::Formatter<W>) -> fmt::Result {
        f.write_str(self.name())
    }
}

// The names, in the order of the variants.
static NAMES: [&str; 70] = [
    "a",
    "abbr",
    "acronym",
    "address",
    "b",
    "bdo",
    "big",
    "blockquote",
    "br",
    "button",
    "caption",
    "center",
    "cite",
    "code",
    "col",
    "colgroup",
    "dd",
    "del",
    "dfn",
    "dir",
    "div",
    "dl",
    "dt",
    "em",
    "fieldset",
    "font",
    "form",
    "h1",
    "h2",
    "h3",
    "h4",
    "h5",
    "h6",
    "hr",
    "i",
    "img",
    "input",
    "ins",
    "kbd",
    "label",
    "legend",
    "li",
    "menu",
    "ol",
    "optgroup",
    "option",
    "p",
    "pre",
    "q",
    "s",
    "samp",
    "select",
    "small",
    "span",
    "strike",
    "strong",
    "sub",
    "sup",
    "table",
    "tbody",
    "td",
    "textarea",
    "tfoot",
    "th",
    "thead",
    "tr",
    "tt",
    "u",
    "ul",
    "var",
];

// The element at each place of a table of 176; where no name has the place, some other one.
static AT: [Element; 176] = [
    Element::A,
    Element::A,
    Element::Fieldset,
    Element::Del,
    Element::A,
    Element::Cite,
    Element::Acronym,
    Element::B,
    Element::A,
    Element::A,
    Element::A,
    Element::Div,
    Element::A,
    Element::A,
    Element::Small,
    Element::A,
    Element::I,
    Element::A,
    Element::A,
    Element::Strong,
    Element::A,
    Element::A,
    Element::A,
    Element::A,
    Element::A,
    Element::P,
    Element::Img,
    Element::Abbr,
    Element::A,
    Element::A,
    Element::Th,
    Element::A,
    Element::A,
    Element::A,
    Element::H1,
    Element::Center,
    Element::A,
    Element::Thead,
    Element::Legend,
    Element::A,
    Element::A,
    Element::A,
    Element::H4,
    Element::A,
    Element::A,
    Element::A,
    Element::Dl,
    Element::A,
    Element::Br,
    Element::A,
    Element::A,
    Element::A,
    Element::A,
    Element::Code,
    Element::S,
    Element::A,
    Element::A,
    Element::A,
    Element::A,
    Element::A,
    Element::Textarea,
    Element::Tfoot,
    Element::Tt,
    Element::A,
    Element::A,
    Element::A,
    Element::A,
    Element::OptionItem,
    Element::A,
    Element::A,
    Element::A,
    Element::A,
    Element::A,
    Element::A,
    Element::A,
    Element::A,
    Element::A,
    Element::A,
    Element::Td,
    Element::A,
    Element::A,
    Element::A,
    Element::A,
    Element::A,
    Element::Sub,
    Element::Colgroup,
    Element::A,
    Element::A,
    Element::A,
    Element::A,
    Element::Hr,
    Element::Dir,
    Element::A,
    Element::Span,
    Element::Li,
    Element::A,
    Element::Blockquote,
    Element::A,
    Element::H3,
    Element::Strike,
    Element::A,
    Element::A,
    Element::Ins,
    Element::Dfn,
    Element::A,
    Element::Label,
    Element::H6,
    Element::A,
    Element::Button,
    Element::A,
    Element::A,
    Element::Pre,
    Element::A,
    Element::A,
    Element::Form,
    Element::A,
    Element::A,
    Element::A,
    Element::Font,
    Element::Select,
    Element::A,
    Element::Big,
    Element::A,
    Element::Ol,
    Element::Input,
    Element::Table,
    Element::Dt,
    Element::A,
    Element::A,
    Element::A,
    Element::Address,
    Element::A,
    Element::U,
    Element::A,
    Element::A,
    Element::A,
    Element::A,
    Element::Tbody,
    Element::A,
    Element::A,
    Element::A,
    Element::Bdo,
    Element::Dd,
    Element::A,
    Element::Kbd,
    Element::A,
    Element::A,
    Element::Menu,
    Element::A,
    Element::Samp,
    Element::A,
    Element::A,
    Element::Q,
    Element::Var,
    Element::H2,
    Element::A,
    Element::Sup,
    Element::A,
    Element::A,
    Element::A,
    Element::A,
    Element::A,
    Element::H5,
    Element::A,
    Element::Col,
    Element::Ul,
    Element::A,
    Element::A,
    Element::A,
    Element::Optgroup,
    Element::A,
    Element::A,
    Element::Caption,
    Element::Em,
    Element::Tr,
    Element::A,
];

// The place of a name in the table: by these numbers no two names have the same.
fn place(name: &[u8]) -> usize
    requires { 0 < length name.now }
    ensures value { result ≡ element_place name.now }
    ensures within { result < 176 }
{
    let length = name.len();
    let first = usize::from(name[0]);
    let middle = usize::from(name[length / 2]);
    let last = usize::from(name[length - 1]);
    (57 * (length % 256) + 7 * first + 140 * middle + 156 * last) % 176
}

// The one whose name has these bytes: only the one at the name's place can have it.
fn spelled(name: &[u8]) -> Option<Element>
    ensures some { IfSome result (λ found. element_name found ≡ name.now) }
    ensures none { IfNone result ((e : Element) → element_name e ≡ name.now → ⊥) }
{
    if name.is_empty() {
        return None;
    }
    let found = AT[place(name)];
    if found.name().as_bytes() == name {
        Some(found)
    } else {
        None
    }
}
