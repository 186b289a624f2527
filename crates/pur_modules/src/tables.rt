//! The children that a content allows.

ghost use Rattle.std.specs.Prelude.{◌≡◌};
ghost use Rattle.pur_modules.specs.Groups.{is_among};
ghost use Rattle.pur_modules.specs.Expressions.{child_letters, has_text_letter, is_letter};
ghost use Rattle.pur_modules.specs.declared.kinds.Doctype.TheVariants.{Strict, Transitional};

use crate::groups::{is_block, is_edit, is_inline};
use crate::kinds::{Child, Content, Doctype};
use pur_names::Element::{
    self, A, Abbr, Acronym, Address, B, Bdo, Big, Blockquote, Br, Button, Caption, Center, Cite,
    Code, Col, Colgroup, Dd, Del, Dfn, Dir, Div, Dl, Dt, Em, Fieldset, Font, Form, H1, H2, H3, H4,
    H5, H6, Hr, I, Img, Input, Ins, Kbd, Label, Legend, Li, Menu, Ol, Optgroup, OptionItem, P, Pre,
    Q, S, Samp, Select, Small, Span, Strike, Strong, Sub, Sup, Table, Tbody, Td, Textarea, Tfoot,
    Th, Thead, Tr, Tt, U, Ul, Var,
};

// The elements of a Transitional `fieldset`, laid out so that each content without an order of its own is a run of them:
// `legend`, the inline elements that Transitional alone has, the others, `ins` and `del`, `p`, the other blocks, and the
// blocks that Transitional alone has.
static FIELDSET: [Element; 56] = [
    Legend, U, S, Strike, Font, Tt, I, B, Big, Small, Em, Strong, Dfn, Code, Q, Samp, Kbd, Var,
    Cite, Abbr, Acronym, Sub, Sup, Br, Span, Bdo, Img, A, Input, Select, Textarea, Label, Button,
    Ins, Del, P, H1, H2, H3, H4, H5, H6, Div, Ul, Ol, Dl, Pre, Hr, Blockquote, Address, Table,
    Fieldset, Form, Center, Dir, Menu,
];

// Where the runs begin and end in FIELDSET.
const INLINE: usize = 1;

const STRICT_INLINE: usize = 5;

const EDITS: usize = 33;

const PARAGRAPH: usize = 35;

const OTHER_BLOCKS: usize = 36;

const TRANSITIONAL_BLOCKS: usize = 53;

// The elements of a Strict `fieldset`.
static STRICT_FIELDSET: [Element; 49] = [
    Legend, Tt, I, B, Big, Small, Em, Strong, Dfn, Code, Q, Samp, Kbd, Var, Cite, Abbr, Acronym,
    Sub, Sup, Br, Span, Bdo, Img, A, Input, Select, Textarea, Label, Button, Ins, Del, P, H1, H2,
    H3, H4, H5, H6, Div, Ul, Ol, Dl, Pre, Hr, Blockquote, Address, Table, Fieldset, Form,
];

// The parts of a table.
static TABLE_PARTS: [Element; 7] = [Caption, Col, Thead, Tfoot, Tbody, Tr, Colgroup];

/// The elements that may stand in a content, each once, in the order of its expression.
///
/// Source: XHTML 1.0, the element declarations of the two DTDs.
#[tactic(auto, unfolding(crate::specs::Expressions::child_letters))]
pub fn children(doctype: Doctype, content: Content) -> &'static [Element]
    ensures { result.now ≡ child_letters doctype content }
{
    let (first, end) = match doctype {
        Doctype::Strict => (STRICT_INLINE, TRANSITIONAL_BLOCKS),
        Doctype::Transitional => (INLINE, FIELDSET.len()),
    };
    match content {
        Content::Inline => &FIELDSET[first..PARAGRAPH],
        Content::AddressMix => &FIELDSET[first..OTHER_BLOCKS],
        Content::Flow => &FIELDSET[first..end],
        Content::Block => &FIELDSET[EDITS..end],
        Content::Items => &[Li],
        Content::Pairs => &[Dt, Dd],
        Content::TableParts => &TABLE_PARTS,
        Content::Rows => &[Tr],
        Content::Cells => &[Th, Td],
        Content::Cols => &[Col],
        Content::Options => &[Optgroup, OptionItem],
        Content::OptionItems => &[OptionItem],
        Content::TextOnly | Content::Nothing => &[],
        Content::FieldsetMix => match doctype {
            Doctype::Strict => &STRICT_FIELDSET,
            Doctype::Transitional => &FIELDSET,
        },
    }
}

/// Whether text may stand in a content. Where it may not, white space may still stand there and is ignored.
///
/// Source: XHTML 1.0, the element declarations with `#PCDATA`, the same in both DTDs.
#[tactic(auto, unfolding(crate::specs::Expressions::has_text_letter))]
pub fn text_allowed(content: Content) -> bool
    ensures strict { result ≡ has_text_letter Strict content }
    ensures transitional { result ≡ has_text_letter Transitional content }
{
    matches!(
        content,
        Content::Inline
            | Content::Flow
            | Content::AddressMix
            | Content::TextOnly
            | Content::FieldsetMix
    )
}

/// Whether a child may stand in a content: the test for a letter of its expression, without a search in a list.
///
/// Source: XHTML 1.0, the element declarations of the two DTDs.
pub fn allows(doctype: Doctype, content: Content, child: Child) -> bool
    ensures { result ≡ is_letter doctype content child }
{
    match child {
        Child::Text => text_allowed(content),
        Child::Elem(element) => allows_element(doctype, content, element),
    }
}

// Whether the element may stand in a content.
#[tactic(auto, unfolding(crate::specs::Expressions::child_letters))]
fn allows_element(doctype: Doctype, content: Content, element: Element) -> bool
    ensures { result ≡ is_among (child_letters doctype content) element }
{
    match content {
        Content::Inline => is_inline(doctype, element),
        Content::Flow => is_inline(doctype, element) || is_block(doctype, element),
        Content::Block => is_block(doctype, element) || is_edit(element),
        Content::AddressMix => is_inline(doctype, element) || matches!(element, P),
        Content::Items => matches!(element, Li),
        Content::Pairs => matches!(element, Dt | Dd),
        Content::TableParts => matches!(
            element,
            Caption | Col | Colgroup | Thead | Tfoot | Tbody | Tr
        ),
        Content::Rows => matches!(element, Tr),
        Content::Cells => matches!(element, Th | Td),
        Content::Cols => matches!(element, Col),
        Content::Options => matches!(element, Optgroup | OptionItem),
        Content::OptionItems => matches!(element, OptionItem),
        Content::FieldsetMix => {
            matches!(element, Legend) || is_inline(doctype, element) || is_block(doctype, element)
        }
        Content::TextOnly | Content::Nothing => false,
    }
}
