//! The form of each property's values.
ghost use Rattle.std.specs.Prelude.{◌≡◌};
ghost use Rattle.pur_cssprops.specs.Forms.{width};
ghost use Rattle.pur_cssprops.specs.Properties.{form_of, one_of, shift, size, spacing};

use crate::forms::{ValueForm, WordForm};
use crate::keywords::Keywords;
use pur_names::StyleProp;

/// The form of the property's values (CSS 2.1, the property index). Each property also takes `inherit`.
pub fn form_of(property: StyleProp) -> ValueForm
    ensures { result ≡ form_of property }
{
    match property {
        StyleProp::BackgroundAttachment => one_of(Keywords::Attachment),
        StyleProp::BackgroundColor
        | StyleProp::BorderBottomColor
        | StyleProp::BorderLeftColor
        | StyleProp::BorderRightColor
        | StyleProp::BorderTopColor => ValueForm::Word(WordForm::Color { transparent: true }),
        StyleProp::BackgroundImage | StyleProp::ListStyleImage => ValueForm::Image,
        StyleProp::BackgroundRepeat => one_of(Keywords::Repeat),
        StyleProp::Border => ValueForm::Border,
        StyleProp::BorderBottomStyle
        | StyleProp::BorderLeftStyle
        | StyleProp::BorderRightStyle
        | StyleProp::BorderTopStyle => one_of(Keywords::LineStyle),
        StyleProp::BorderBottomWidth
        | StyleProp::BorderLeftWidth
        | StyleProp::BorderRightWidth
        | StyleProp::BorderTopWidth => ValueForm::Word(line_width()),
        StyleProp::BorderCollapse => one_of(Keywords::Collapse),
        StyleProp::BorderColor => ValueForm::Words(WordForm::Color { transparent: true }),
        StyleProp::BorderStyle => ValueForm::Words(WordForm::Keyword(Keywords::LineStyle)),
        StyleProp::BorderWidth => ValueForm::Words(line_width()),
        StyleProp::CaptionSide => one_of(Keywords::CaptionSide),
        StyleProp::Clear => one_of(Keywords::Clear),
        StyleProp::Color => ValueForm::Word(WordForm::Color { transparent: false }),
        StyleProp::Float => one_of(Keywords::Float),
        StyleProp::FontFamily => ValueForm::Families,
        StyleProp::FontSize => ValueForm::Word(size(Keywords::FontSize)),
        StyleProp::FontStyle => one_of(Keywords::FontStyle),
        StyleProp::FontVariant => one_of(Keywords::FontVariant),
        StyleProp::FontWeight => one_of(Keywords::FontWeight),
        StyleProp::Height | StyleProp::Width => ValueForm::Word(size(Keywords::Auto)),
        StyleProp::LetterSpacing | StyleProp::WordSpacing => ValueForm::Word(spacing()),
        StyleProp::LineHeight => ValueForm::Word(WordForm::LineHeight),
        StyleProp::ListStylePosition => one_of(Keywords::ListPosition),
        StyleProp::ListStyleType => one_of(Keywords::ListType),
        StyleProp::Margin => ValueForm::Words(shift(Keywords::Auto)),
        StyleProp::MarginBottom
        | StyleProp::MarginLeft
        | StyleProp::MarginRight
        | StyleProp::MarginTop => ValueForm::Word(shift(Keywords::Auto)),
        StyleProp::Padding => ValueForm::Words(size(Keywords::Empty)),
        StyleProp::PaddingBottom
        | StyleProp::PaddingLeft
        | StyleProp::PaddingRight
        | StyleProp::PaddingTop => ValueForm::Word(size(Keywords::Empty)),
        StyleProp::TableLayout => one_of(Keywords::TableLayout),
        StyleProp::TextAlign => one_of(Keywords::TextAlign),
        StyleProp::TextDecoration => ValueForm::Decoration,
        StyleProp::TextIndent => ValueForm::Word(shift(Keywords::Empty)),
        StyleProp::TextTransform => one_of(Keywords::TextTransform),
        StyleProp::VerticalAlign => ValueForm::Word(shift(Keywords::VerticalAlign)),
        StyleProp::WhiteSpace => one_of(Keywords::WhiteSpace),
    }
}

/// One of the set of words.
fn one_of(keywords: Keywords) -> ValueForm
    ensures { result ≡ one_of keywords }
{
    ValueForm::Word(WordForm::Keyword(keywords))
}

/// The width of a border.
fn line_width() -> WordForm
    ensures { result ≡ width }
{
    WordForm::Length {
        signed: false,
        percent: false,
        keywords: Keywords::LineWidth,
    }
}

/// A length or a percentage that isn't below zero, or one of the words.
fn size(keywords: Keywords) -> WordForm
    ensures { result ≡ size keywords }
{
    WordForm::Length {
        signed: false,
        percent: true,
        keywords,
    }
}

/// A length or a percentage, or one of the words.
fn shift(keywords: Keywords) -> WordForm
    ensures { result ≡ shift keywords }
{
    WordForm::Length {
        signed: true,
        percent: true,
        keywords,
    }
}

/// A length, or `normal`.
fn spacing() -> WordForm
    ensures { result ≡ spacing }
{
    WordForm::Length {
        signed: true,
        percent: false,
        keywords: Keywords::Normal,
    }
}
