//! The forms of values.

use crate::keywords::Keywords;

/// A form of a value that is one word.
#[derive(Clone, Copy, PartialEq, Eq, Debug)]
pub enum WordForm {
    /// A colour, written `#rrggbb`.
    Color {
        /// Whether `transparent` is one too.
        transparent: bool,
    },
    /// One of a set of words, written in lower case.
    Keyword(Keywords),
    /// A length, or one of a set of words.
    Length {
        /// Whether it may be below zero.
        signed: bool,
        /// Whether percentages are taken.
        percent: bool,
        /// The words beside it.
        keywords: Keywords,
    },
    /// `normal`, a number, or a length or percentage; none of them below zero (CSS 2.1, section 10.8.1).
    LineHeight,
}

/// A form of a value.
#[derive(Clone, Copy, PartialEq, Eq, Debug)]
pub enum ValueForm {
    /// One word.
    Word(WordForm),
    /// A URL that may be embedded, written `url("..")`, or `none`.
    Image,
    /// A list of font families.
    Families,
    /// One to four words, each of this form, with one space between each two.
    Words(WordForm),
    /// A width, a style and a colour, each at most once and one at least, written in this order.
    Border,
    /// `none`, or one or more of `underline`, `overline` and `line-through`, none twice, written in this order.
    Decoration,
}
