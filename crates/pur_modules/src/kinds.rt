//! The two doctypes, the kinds of content, and which element holds which.

ghost use Rattle.std.specs.Prelude.{◌≡◌, IsSome};
ghost use Rattle.pur_modules.specs.Groups.{is_among, elements_of};
ghost use Rattle.pur_modules.specs.Contents.{all_holdings, content_in, content_held, is_empty_element, is_nothing};
ghost use Rattle.pur_modules.specs.declared.kinds.Content.{Content};
ghost use Rattle.pur_modules.specs.declared.kinds.Doctype.{Doctype};

use pur_names::Element::{
    self, A, Abbr, Acronym, Address, B, Bdo, Big, Blockquote, Br, Button, Caption, Center, Cite,
    Code, Col, Colgroup, Dd, Del, Dfn, Dir, Div, Dl, Dt, Em, Fieldset, Font, Form, H1, H2, H3, H4,
    H5, H6, Hr, I, Img, Input, Ins, Kbd, Label, Legend, Li, Menu, Ol, Optgroup, OptionItem, P, Pre,
    Q, S, Samp, Select, Small, Span, Strike, Strong, Sub, Sup, Table, Tbody, Td, Textarea, Tfoot,
    Th, Thead, Tr, Tt, U, Ul, Var,
};

/// A document type of XHTML 1.0.
///
/// Strict has 63 elements; Transitional has 7 more: `u`, `s`, `strike`, `font`, `center`, `dir` and `menu`.
#[derive(Clone, Copy, PartialEq, Eq, Debug)]
pub enum Doctype {
    Strict,
    Transitional,
}

/// What may stand in an element: the content expressions of the two document types, by name.
///
/// Source: XHTML 1.0, the element declarations of the two DTDs.
#[derive(Clone, Copy, PartialEq, Eq, Debug)]
pub enum Content {
    /// Text and inline elements.
    Inline,
    /// Text, inline elements and blocks.
    Flow,
    /// Blocks, `ins` and `del`: what a Strict `blockquote` or `form` holds.
    Block,
    /// Text, inline elements and `p`: what a Transitional `address` holds.
    AddressMix,
    /// One or more `li`.
    Items,
    /// One or more `dt` and `dd`.
    Pairs,
    /// A caption, columns of one kind, a head, a foot, and bodies or rows, in this order.
    TableParts,
    /// One or more `tr`.
    Rows,
    /// One or more `th` and `td`.
    Cells,
    /// Any number of `col`.
    Cols,
    /// One or more `optgroup` and `option`: what a `select` holds.
    Options,
    /// One or more `option`: what an `optgroup` holds.
    OptionItems,
    /// Text alone: what an `option` or a `textarea` holds.
    TextOnly,
    /// A `legend`, and behind it text, inline elements and blocks: what a `fieldset` holds.
    FieldsetMix,
    /// No children: the elements declared EMPTY.
    Nothing,
}

/// A letter of a content expression: text, or an element with whatever it holds.
#[derive(Clone, Copy, PartialEq, Eq, Debug)]
pub enum Child {
    Text,
    Elem(Element),
}

/// The content that an element holds, below a parent that holds `parent`.
///
/// The parent counts for `ins` and `del` alone: in inline content they hold inline content, and elsewhere flow. In Strict
/// an element that only Transitional has holds what it holds there.
///
/// Source: XHTML 1.0, the element declarations of the two DTDs; for `ins` and `del` HTML Purifier's rule;
/// that a `legend` stands first is this filter's own.
#[tactic(auto, unfolding(crate::specs::Contents::content_held))]
pub fn content_of(doctype: Doctype, element: Element, parent: Content) -> Content
    ensures value { result ≡ content_held doctype element parent }
    ensures told { IsSome (content_in (all_holdings doctype parent) element) }
{
    match element {
        Tt
        | I
        | B
        | Big
        | Small
        | U
        | S
        | Strike
        | Font
        | Em
        | Strong
        | Dfn
        | Code
        | Q
        | Samp
        | Kbd
        | Var
        | Cite
        | Abbr
        | Acronym
        | Sub
        | Sup
        | Span
        | Bdo
        | A
        | P
        | H1
        | H2
        | H3
        | H4
        | H5
        | H6
        | Pre
        | Dt
        | Caption
        | Label
        | Legend => Content::Inline,
        Div | Li | Dd | Th | Td | Center | Button => Content::Flow,
        Ul | Ol | Dir | Menu => Content::Items,
        Dl => Content::Pairs,
        Table => Content::TableParts,
        Thead | Tfoot | Tbody => Content::Rows,
        Tr => Content::Cells,
        Colgroup => Content::Cols,
        Select => Content::Options,
        Optgroup => Content::OptionItems,
        OptionItem | Textarea => Content::TextOnly,
        Fieldset => Content::FieldsetMix,
        Br | Hr | Img | Col | Input => Content::Nothing,
        Address => match doctype {
            Doctype::Strict => Content::Inline,
            Doctype::Transitional => Content::AddressMix,
        },
        Blockquote | Form => match doctype {
            Doctype::Strict => Content::Block,
            Doctype::Transitional => Content::Flow,
        },
        Ins | Del => match parent {
            Content::Inline | Content::AddressMix => Content::Inline,
            _ => Content::Flow,
        },
    }
}

/// Whether the element is declared EMPTY: it holds nothing, under either doctype and below any parent.
///
/// Source: XHTML 1.0, the element declarations with EMPTY, the same in both DTDs.
pub fn is_declared_empty(element: Element) -> bool
    ensures value { result ≡ is_empty_element element }
    ensures nothing { (doctype : Doctype) (parent : Content) → is_nothing (content_held doctype element parent) ≡ result }
{
    matches!(element, Br | Hr | Img | Col | Input)
}

/// Whether the doctype has the element: Transitional has all, and Strict all but seven.
///
/// Source: XHTML 1.0, the two DTDs.
pub fn declares(doctype: Doctype, element: Element) -> bool
    ensures { result ≡ is_among (elements_of doctype) element }
{
    match element {
        U | S | Strike | Font | Center | Dir | Menu => matches!(doctype, Doctype::Transitional),
        _ => true,
    }
}
