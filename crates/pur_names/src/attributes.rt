//! The attributes of XHTML 1.0 that the filter knows.

ghost use Rattle.std.specs.Prelude.{◌≡◌, length, ◌<◌, Some, IfSome, IfNone};
ghost use Rattle.pur_names.specs.Attributes.{attr_name, attr_named, attr_place};
ghost use Rattle.pur_names.specs.declared.attributes.Attr.{Attr};

use std::fmt;

/// An attribute of XHTML 1.0 that the filter reads or writes; `name` is known on input alone.
///
/// A variant is the attribute's name with its first letter in upper case, as `Bgcolor`. Two have a name of their own:
/// `ListType` is `type`, and `XmlLang` is `xml:lang`.
///
/// Source: XHTML 1.0, the attribute lists of the Strict and Transitional DTDs.
#[derive(Clone, Copy, PartialEq, Eq)]
pub enum Attr {
    Abbr,
    Action,
    Align,
    Alt,
    Bgcolor,
    Border,
    Cellpadding,
    Cellspacing,
    Checked,
    Cite,
    Class,
    Clear,
    Color,
    Cols,
    Colspan,
    Compact,
    Dir,
    Disabled,
    Face,
    Frame,
    Height,
    Href,
    Hspace,
    Id,
    Label,
    Lang,
    Longdesc,
    Maxlength,
    Method,
    Multiple,
    Name,
    Noshade,
    Nowrap,
    Readonly,
    Rel,
    Rows,
    Rowspan,
    Rules,
    Scope,
    Selected,
    Size,
    Span,
    Src,
    Start,
    Style,
    Summary,
    Target,
    Title,
    ListType,
    Valign,
    Value,
    Vspace,
    Width,
    XmlLang,
}

impl Attr {
    /// Looks a name up. Names are in lower case, and are compared to the letter.
    pub fn from_name(name: &str) -> Option<Self>
        ensures value { result ≡ attr_named name.now }
        ensures some { IfSome result (λ found. attr_name found ≡ name.now) }
        ensures none { IfNone result ((a : Attr) → attr_name a ≡ name.now → ⊥) }
        ensures inverse { (a : Attr) → attr_name a ≡ name.now → result ≡ Some a }
    {
        spelled(name.as_bytes())
    }

    /// The attribute's name in lower case, as a tag spells it.
    pub fn name(self) -> &'static str
        ensures { result.now ≡ attr_name self }
    {
        NAMES[self as usize]
    }
}

impl fmt::Debug for Attr {
    fn fmt<W: fmt::Write>(&self, f: &mut fmt::Formatter<W>) -> fmt::Result {
        f.write_str(self.name())
    }
}

// The names, in the order of the variants.
static NAMES: [&str; 54] = [
    "abbr",
    "action",
    "align",
    "alt",
    "bgcolor",
    "border",
    "cellpadding",
    "cellspacing",
    "checked",
    "cite",
    "class",
    "clear",
    "color",
    "cols",
    "colspan",
    "compact",
    "dir",
    "disabled",
    "face",
    "frame",
    "height",
    "href",
    "hspace",
    "id",
    "label",
    "lang",
    "longdesc",
    "maxlength",
    "method",
    "multiple",
    "name",
    "noshade",
    "nowrap",
    "readonly",
    "rel",
    "rows",
    "rowspan",
    "rules",
    "scope",
    "selected",
    "size",
    "span",
    "src",
    "start",
    "style",
    "summary",
    "target",
    "title",
    "type",
    "valign",
    "value",
    "vspace",
    "width",
    "xml:lang",
];

// The attribute at each place of a table of 128; where no name has the place, some other one.
static AT: [Attr; 128] = [
    Attr::Abbr,
    Attr::Valign,
    Attr::Class,
    Attr::Abbr,
    Attr::Checked,
    Attr::Abbr,
    Attr::Abbr,
    Attr::Cols,
    Attr::Title,
    Attr::Target,
    Attr::Abbr,
    Attr::Abbr,
    Attr::Abbr,
    Attr::Abbr,
    Attr::Abbr,
    Attr::Hspace,
    Attr::Abbr,
    Attr::Abbr,
    Attr::Abbr,
    Attr::Abbr,
    Attr::Maxlength,
    Attr::Abbr,
    Attr::Start,
    Attr::Abbr,
    Attr::ListType,
    Attr::Name,
    Attr::Abbr,
    Attr::Dir,
    Attr::Abbr,
    Attr::Abbr,
    Attr::Abbr,
    Attr::Rowspan,
    Attr::Abbr,
    Attr::Abbr,
    Attr::Style,
    Attr::Readonly,
    Attr::Abbr,
    Attr::Abbr,
    Attr::Abbr,
    Attr::Cite,
    Attr::Abbr,
    Attr::Method,
    Attr::Clear,
    Attr::Abbr,
    Attr::Abbr,
    Attr::Alt,
    Attr::Abbr,
    Attr::Abbr,
    Attr::Multiple,
    Attr::Abbr,
    Attr::Abbr,
    Attr::Abbr,
    Attr::Nowrap,
    Attr::Abbr,
    Attr::Summary,
    Attr::Href,
    Attr::Abbr,
    Attr::Abbr,
    Attr::Abbr,
    Attr::Abbr,
    Attr::Abbr,
    Attr::Abbr,
    Attr::Abbr,
    Attr::Abbr,
    Attr::Abbr,
    Attr::Abbr,
    Attr::Lang,
    Attr::Compact,
    Attr::Abbr,
    Attr::Vspace,
    Attr::Abbr,
    Attr::Color,
    Attr::Abbr,
    Attr::Abbr,
    Attr::Value,
    Attr::Width,
    Attr::Abbr,
    Attr::Rel,
    Attr::Rules,
    Attr::Abbr,
    Attr::Abbr,
    Attr::Abbr,
    Attr::Abbr,
    Attr::Rows,
    Attr::Scope,
    Attr::Abbr,
    Attr::Label,
    Attr::Abbr,
    Attr::Selected,
    Attr::Size,
    Attr::Disabled,
    Attr::Abbr,
    Attr::Colspan,
    Attr::Abbr,
    Attr::Abbr,
    Attr::Cellspacing,
    Attr::Abbr,
    Attr::Abbr,
    Attr::Abbr,
    Attr::Face,
    Attr::Abbr,
    Attr::Abbr,
    Attr::Border,
    Attr::Abbr,
    Attr::Abbr,
    Attr::Abbr,
    Attr::Cellpadding,
    Attr::Abbr,
    Attr::Align,
    Attr::Height,
    Attr::Abbr,
    Attr::Abbr,
    Attr::Action,
    Attr::Frame,
    Attr::Abbr,
    Attr::Bgcolor,
    Attr::Longdesc,
    Attr::Src,
    Attr::Abbr,
    Attr::Abbr,
    Attr::XmlLang,
    Attr::Id,
    Attr::Span,
    Attr::Abbr,
    Attr::Abbr,
    Attr::Abbr,
    Attr::Noshade,
    Attr::Abbr,
];

// The place of a name in the table: by these numbers no two names have the same.
fn place(name: &[u8]) -> usize
    requires { 0 < length name.now }
    ensures value { result ≡ attr_place name.now }
    ensures within { result < 128 }
{
    let length = name.len();
    let first = usize::from(name[0]);
    let middle = usize::from(name[length / 2]);
    let last = usize::from(name[length - 1]);
    (4 * (length % 256) + 13 * first + 59 * middle + 68 * last) % 128
}

// The one whose name has these bytes: only the one at the name's place can have it.
fn spelled(name: &[u8]) -> Option<Attr>
    ensures some { IfSome result (λ found. attr_name found ≡ name.now) }
    ensures none { IfNone result ((a : Attr) → attr_name a ≡ name.now → ⊥) }
{
    if name.is_empty() {
        return None;
    }
    let found = AT[place(name)];
    if found.name().as_bytes() == name {
        Some(found)
    } else {
        None
    }
}
