//! The properties of CSS 2.1 that the filter knows.

ghost use Rattle.std.specs.Prelude.{◌≡◌, length, ◌<◌, Some, IfSome, IfNone};
ghost use Rattle.pur_names.specs.Properties.{prop_name, prop_named, prop_place};
ghost use Rattle.pur_names.specs.declared.properties.StyleProp.{StyleProp};

use std::fmt;

/// A property of CSS 2.1 that a `style` attribute may set.
///
/// A variant is the property's name in upper camel case, as `BackgroundColor` for `background-color`.
///
/// Source: CSS 2.1, the property index, without positioning, generated content, aural and paged media, and the
/// shorthands `background`, `font` and `list-style`.
#[derive(Clone, Copy, PartialEq, Eq)]
pub enum StyleProp {
    BackgroundAttachment,
    BackgroundColor,
    BackgroundImage,
    BackgroundRepeat,
    Border,
    BorderBottomColor,
    BorderBottomStyle,
    BorderBottomWidth,
    BorderCollapse,
    BorderColor,
    BorderLeftColor,
    BorderLeftStyle,
    BorderLeftWidth,
    BorderRightColor,
    BorderRightStyle,
    BorderRightWidth,
    BorderStyle,
    BorderTopColor,
    BorderTopStyle,
    BorderTopWidth,
    BorderWidth,
    CaptionSide,
    Clear,
    Color,
    Float,
    FontFamily,
    FontSize,
    FontStyle,
    FontVariant,
    FontWeight,
    Height,
    LetterSpacing,
    LineHeight,
    ListStyleImage,
    ListStylePosition,
    ListStyleType,
    Margin,
    MarginBottom,
    MarginLeft,
    MarginRight,
    MarginTop,
    Padding,
    PaddingBottom,
    PaddingLeft,
    PaddingRight,
    PaddingTop,
    TableLayout,
    TextAlign,
    TextDecoration,
    TextIndent,
    TextTransform,
    VerticalAlign,
    WhiteSpace,
    Width,
    WordSpacing,
}

impl StyleProp {
    /// Looks a name up. Names are in lower case, and are compared to the letter.
    pub fn from_name(name: &str) -> Option<Self>
        ensures value { result ≡ prop_named name.now }
        ensures some { IfSome result (λ found. prop_name found ≡ name.now) }
        ensures none { IfNone result ((p : StyleProp) → prop_name p ≡ name.now → ⊥) }
        ensures inverse { (p : StyleProp) → prop_name p ≡ name.now → result ≡ Some p }
    {
        spelled(name.as_bytes())
    }

    /// The property's name in lower case, as a declaration spells it.
    pub fn name(self) -> &'static str
        ensures { result.now ≡ prop_name self }
    {
        NAMES[self as usize]
    }
}

impl fmt::Debug for StyleProp {
    fn fmt<W: fmt::Write>(&self, f: &mut fmt::Formatter<W>) -> fmt::Result {
        f.write_str(self.name())
    }
}

// The names, in the order of the variants.
static NAMES: [&str; 55] = [
    "background-attachment",
    "background-color",
    "background-image",
    "background-repeat",
    "border",
    "border-bottom-color",
    "border-bottom-style",
    "border-bottom-width",
    "border-collapse",
    "border-color",
    "border-left-color",
    "border-left-style",
    "border-left-width",
    "border-right-color",
    "border-right-style",
    "border-right-width",
    "border-style",
    "border-top-color",
    "border-top-style",
    "border-top-width",
    "border-width",
    "caption-side",
    "clear",
    "color",
    "float",
    "font-family",
    "font-size",
    "font-style",
    "font-variant",
    "font-weight",
    "height",
    "letter-spacing",
    "line-height",
    "list-style-image",
    "list-style-position",
    "list-style-type",
    "margin",
    "margin-bottom",
    "margin-left",
    "margin-right",
    "margin-top",
    "padding",
    "padding-bottom",
    "padding-left",
    "padding-right",
    "padding-top",
    "table-layout",
    "text-align",
    "text-decoration",
    "text-indent",
    "text-transform",
    "vertical-align",
    "white-space",
    "width",
    "word-spacing",
];

// The property at each place of a table of 128; where no name has the place, some other one.
static AT: [StyleProp; 128] = [
    StyleProp::BackgroundAttachment,
    StyleProp::MarginBottom,
    StyleProp::TextTransform,
    StyleProp::BorderRightColor,
    StyleProp::BackgroundAttachment,
    StyleProp::LineHeight,
    StyleProp::BackgroundAttachment,
    StyleProp::MarginRight,
    StyleProp::BackgroundAttachment,
    StyleProp::BackgroundAttachment,
    StyleProp::BackgroundAttachment,
    StyleProp::BackgroundAttachment,
    StyleProp::BackgroundAttachment,
    StyleProp::BackgroundAttachment,
    StyleProp::BackgroundAttachment,
    StyleProp::BorderTopWidth,
    StyleProp::BackgroundAttachment,
    StyleProp::BackgroundAttachment,
    StyleProp::Padding,
    StyleProp::BackgroundAttachment,
    StyleProp::BorderStyle,
    StyleProp::BackgroundAttachment,
    StyleProp::BackgroundAttachment,
    StyleProp::BackgroundAttachment,
    StyleProp::BackgroundAttachment,
    StyleProp::BackgroundAttachment,
    StyleProp::FontFamily,
    StyleProp::BackgroundAttachment,
    StyleProp::BackgroundAttachment,
    StyleProp::BorderRightWidth,
    StyleProp::BackgroundAttachment,
    StyleProp::WhiteSpace,
    StyleProp::BackgroundAttachment,
    StyleProp::BackgroundAttachment,
    StyleProp::BackgroundAttachment,
    StyleProp::BackgroundAttachment,
    StyleProp::TableLayout,
    StyleProp::BackgroundAttachment,
    StyleProp::BackgroundAttachment,
    StyleProp::BackgroundAttachment,
    StyleProp::Clear,
    StyleProp::FontVariant,
    StyleProp::BackgroundAttachment,
    StyleProp::BackgroundAttachment,
    StyleProp::BackgroundAttachment,
    StyleProp::TextAlign,
    StyleProp::BackgroundAttachment,
    StyleProp::BackgroundAttachment,
    StyleProp::Border,
    StyleProp::MarginLeft,
    StyleProp::Float,
    StyleProp::BorderLeftStyle,
    StyleProp::BorderBottomStyle,
    StyleProp::BackgroundAttachment,
    StyleProp::BackgroundAttachment,
    StyleProp::WordSpacing,
    StyleProp::BackgroundAttachment,
    StyleProp::BackgroundRepeat,
    StyleProp::MarginTop,
    StyleProp::BackgroundAttachment,
    StyleProp::BackgroundAttachment,
    StyleProp::BackgroundAttachment,
    StyleProp::TextDecoration,
    StyleProp::BorderColor,
    StyleProp::BackgroundAttachment,
    StyleProp::Height,
    StyleProp::BackgroundAttachment,
    StyleProp::BackgroundAttachment,
    StyleProp::ListStylePosition,
    StyleProp::BackgroundImage,
    StyleProp::PaddingBottom,
    StyleProp::ListStyleImage,
    StyleProp::BackgroundAttachment,
    StyleProp::BackgroundAttachment,
    StyleProp::BorderTopStyle,
    StyleProp::Color,
    StyleProp::BackgroundAttachment,
    StyleProp::BackgroundAttachment,
    StyleProp::BackgroundAttachment,
    StyleProp::BackgroundAttachment,
    StyleProp::BackgroundAttachment,
    StyleProp::BackgroundAttachment,
    StyleProp::BackgroundAttachment,
    StyleProp::PaddingLeft,
    StyleProp::BackgroundAttachment,
    StyleProp::Width,
    StyleProp::BackgroundAttachment,
    StyleProp::BackgroundAttachment,
    StyleProp::BorderRightStyle,
    StyleProp::BorderWidth,
    StyleProp::BackgroundAttachment,
    StyleProp::BackgroundAttachment,
    StyleProp::BackgroundAttachment,
    StyleProp::BackgroundAttachment,
    StyleProp::BorderLeftColor,
    StyleProp::BorderBottomColor,
    StyleProp::BackgroundAttachment,
    StyleProp::BackgroundAttachment,
    StyleProp::LetterSpacing,
    StyleProp::BackgroundAttachment,
    StyleProp::BackgroundAttachment,
    StyleProp::BackgroundAttachment,
    StyleProp::BackgroundAttachment,
    StyleProp::CaptionSide,
    StyleProp::BackgroundAttachment,
    StyleProp::BackgroundAttachment,
    StyleProp::BackgroundAttachment,
    StyleProp::BackgroundAttachment,
    StyleProp::VerticalAlign,
    StyleProp::ListStyleType,
    StyleProp::PaddingRight,
    StyleProp::BackgroundAttachment,
    StyleProp::BackgroundColor,
    StyleProp::BackgroundAttachment,
    StyleProp::BackgroundAttachment,
    StyleProp::BorderCollapse,
    StyleProp::FontStyle,
    StyleProp::BorderTopColor,
    StyleProp::BackgroundAttachment,
    StyleProp::BackgroundAttachment,
    StyleProp::BorderLeftWidth,
    StyleProp::BorderBottomWidth,
    StyleProp::TextIndent,
    StyleProp::FontSize,
    StyleProp::FontWeight,
    StyleProp::Margin,
    StyleProp::BackgroundAttachment,
    StyleProp::PaddingTop,
];

// The place of a name in the table: by these numbers no two names have the same.
fn place(name: &[u8]) -> usize
    requires { 0 < length name.now }
    ensures value { result ≡ prop_place name.now }
    ensures within { result < 128 }
{
    let length = name.len();
    let first = usize::from(name[0]);
    let middle = usize::from(name[length / 2]);
    let last = usize::from(name[length - 1]);
    (27 * (length % 256) + 14 * first + 5 * middle + 23 * last) % 128
}

// The one whose name has these bytes: only the one at the name's place can have it.
fn spelled(name: &[u8]) -> Option<StyleProp>
    ensures some { IfSome result (λ found. prop_name found ≡ name.now) }
    ensures none { IfNone result ((p : StyleProp) → prop_name p ≡ name.now → ⊥) }
{
    if name.is_empty() {
        return None;
    }
    let found = AT[place(name)];
    if found.name().as_bytes() == name {
        Some(found)
    } else {
        None
    }
}
