//! The sets of words that values may be.
ghost use Rattle.std.specs.Prelude.{◌≡◌, IfOk, option_map, map};
ghost use Rattle.std.specs.Str.{chars};
ghost use Rattle.pur_text.specs.Texts.{text_of};
ghost use Rattle.pur_csstok.specs.Names.{is_one_of};
ghost use Rattle.pur_cssprops.specs.Keywords.{words_in, keyword_read};

use crate::texts::lower;
use std::alloc::{AllocError, Global};

/// A set of words, one of which a value may be (CSS 2.1, the property index). Sets named after a property have its words.
#[derive(Clone, Copy, PartialEq, Eq, Debug)]
pub enum Keywords {
    /// No word.
    Empty,
    /// `inherit`, which every property takes.
    Inherit,
    /// `none` alone.
    NoneAlone,
    /// `auto` alone.
    Auto,
    /// `normal` alone.
    Normal,
    /// `background-attachment`.
    Attachment,
    /// `background-repeat`.
    Repeat,
    /// `border-collapse`.
    Collapse,
    /// The widths of a border.
    LineWidth,
    /// The styles of a border.
    LineStyle,
    /// `caption-side`.
    CaptionSide,
    /// `clear`.
    Clear,
    /// `float`.
    Float,
    /// `font-size`.
    FontSize,
    /// `font-style`.
    FontStyle,
    /// `font-variant`.
    FontVariant,
    /// `font-weight`.
    FontWeight,
    /// `list-style-position`.
    ListPosition,
    /// `list-style-type`.
    ListType,
    /// `table-layout`.
    TableLayout,
    /// `text-align`.
    TextAlign,
    /// `text-transform`.
    TextTransform,
    /// `vertical-align`.
    VerticalAlign,
    /// `white-space`.
    WhiteSpace,
    /// `underline` alone.
    Underline,
    /// `overline` alone.
    Overline,
    /// `line-through` alone.
    LineThrough,
}

const INHERIT: [&str; 1] = ["inherit"];

const NONE_ALONE: [&str; 1] = ["none"];

const AUTO: [&str; 1] = ["auto"];

const NORMAL: [&str; 1] = ["normal"];

const ATTACHMENT: [&str; 2] = ["scroll", "fixed"];

const REPEAT: [&str; 4] = ["repeat", "repeat-x", "repeat-y", "no-repeat"];

const COLLAPSE: [&str; 2] = ["collapse", "separate"];

const LINE_WIDTH: [&str; 3] = ["thin", "medium", "thick"];

const LINE_STYLE: [&str; 10] = [
    "none", "hidden", "dotted", "dashed", "solid", "double", "groove", "ridge", "inset", "outset",
];

const CAPTION_SIDE: [&str; 2] = ["top", "bottom"];

const CLEAR: [&str; 4] = ["none", "left", "right", "both"];

const FLOAT: [&str; 3] = ["left", "right", "none"];

const FONT_SIZE: [&str; 9] = [
    "xx-small", "x-small", "small", "medium", "large", "x-large", "xx-large", "smaller", "larger",
];

const FONT_STYLE: [&str; 3] = ["normal", "italic", "oblique"];

const FONT_VARIANT: [&str; 2] = ["normal", "small-caps"];

const FONT_WEIGHT: [&str; 13] = [
    "normal", "bold", "bolder", "lighter", "100", "200", "300", "400", "500", "600", "700", "800",
    "900",
];

const LIST_POSITION: [&str; 2] = ["inside", "outside"];

const LIST_TYPE: [&str; 15] = [
    "disc",
    "circle",
    "square",
    "decimal",
    "decimal-leading-zero",
    "lower-roman",
    "upper-roman",
    "lower-greek",
    "lower-latin",
    "upper-latin",
    "armenian",
    "georgian",
    "lower-alpha",
    "upper-alpha",
    "none",
];

const TABLE_LAYOUT: [&str; 2] = ["auto", "fixed"];

const TEXT_ALIGN: [&str; 4] = ["left", "right", "center", "justify"];

const TEXT_TRANSFORM: [&str; 4] = ["capitalize", "uppercase", "lowercase", "none"];

const VERTICAL_ALIGN: [&str; 8] = [
    "baseline",
    "sub",
    "super",
    "top",
    "text-top",
    "middle",
    "bottom",
    "text-bottom",
];

const WHITE_SPACE: [&str; 5] = ["normal", "pre", "nowrap", "pre-wrap", "pre-line"];

const UNDERLINE: [&str; 1] = ["underline"];

const OVERLINE: [&str; 1] = ["overline"];

const LINE_THROUGH: [&str; 1] = ["line-through"];

/// The word in lower case, where it is one of the set.
#[tactic(auto, unfolding(crate::specs::Keywords::keyword_read))]
pub(crate) fn read_keyword(
    alloc: Global,
    keywords: Keywords,
    text: &str,
) -> Result<Option<String>, AllocError>
    ensures { IfOk result (λ value. option_map text_of value ≡ keyword_read keywords (chars text.now)) }
{
    let lowered = lower(alloc, text)?;
    if has(keywords, lowered.as_str()) {
        Ok(Some(lowered))
    } else {
        Ok(None)
    }
}

/// Whether the word is one of the set.
fn has(keywords: Keywords, word: &str) -> bool
    ensures { result ≡ is_one_of (words_in keywords) (chars word.now) }
{
    is_one_of(words_in(keywords), word.as_bytes())
}

fn is_one_of(words: &[&str], word: &[u8]) -> bool
    ensures { result ≡ is_one_of (map (λ w. w.now) words.now) word.now }
{
    words.iter().any(|other| word == other.as_bytes())
}

pub(crate) fn words_in(keywords: Keywords) -> &'static [&'static str]
    ensures { map (λ w. w.now) result.now ≡ words_in keywords }
{
    match keywords {
        Keywords::Empty => &[],
        Keywords::Inherit => &INHERIT,
        Keywords::NoneAlone => &NONE_ALONE,
        Keywords::Auto => &AUTO,
        Keywords::Normal => &NORMAL,
        Keywords::Attachment => &ATTACHMENT,
        Keywords::Repeat => &REPEAT,
        Keywords::Collapse => &COLLAPSE,
        Keywords::LineWidth => &LINE_WIDTH,
        Keywords::LineStyle => &LINE_STYLE,
        Keywords::CaptionSide => &CAPTION_SIDE,
        Keywords::Clear => &CLEAR,
        Keywords::Float => &FLOAT,
        Keywords::FontSize => &FONT_SIZE,
        Keywords::FontStyle => &FONT_STYLE,
        Keywords::FontVariant => &FONT_VARIANT,
        Keywords::FontWeight => &FONT_WEIGHT,
        Keywords::ListPosition => &LIST_POSITION,
        Keywords::ListType => &LIST_TYPE,
        Keywords::TableLayout => &TABLE_LAYOUT,
        Keywords::TextAlign => &TEXT_ALIGN,
        Keywords::TextTransform => &TEXT_TRANSFORM,
        Keywords::VerticalAlign => &VERTICAL_ALIGN,
        Keywords::WhiteSpace => &WHITE_SPACE,
        Keywords::Underline => &UNDERLINE,
        Keywords::Overline => &OVERLINE,
        Keywords::LineThrough => &LINE_THROUGH,
    }
}
