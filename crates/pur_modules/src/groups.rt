//! The groups of elements, as tests.

ghost use Rattle.std.specs.Prelude.{◌≡◌};
ghost use Rattle.pur_modules.specs.Groups.{is_among, inline, block, controls, misc, of_forms};

use crate::kinds::Doctype;
use pur_names::Element::{
    self, A, Abbr, Acronym, Address, B, Bdo, Big, Blockquote, Br, Button, Center, Cite, Code, Del,
    Dfn, Dir, Div, Dl, Em, Fieldset, Font, Form, H1, H2, H3, H4, H5, H6, Hr, I, Img, Input, Ins,
    Kbd, Label, Legend, Menu, Ol, Optgroup, OptionItem, P, Pre, Q, S, Samp, Select, Small, Span,
    Strike, Strong, Sub, Sup, Table, Textarea, Tt, U, Ul, Var,
};

/// Whether the doctype has the element among its inline ones.
pub fn is_inline(doctype: Doctype, element: Element) -> bool
    ensures { result ≡ is_among (inline doctype) element }
{
    match element {
        U | S | Strike | Font => matches!(doctype, Doctype::Transitional),
        Tt
        | I
        | B
        | Big
        | Small
        | Em
        | Strong
        | Dfn
        | Code
        | Q
        | Samp
        | Kbd
        | Var
        | Cite
        | Abbr
        | Acronym
        | Sub
        | Sup
        | Br
        | Span
        | Bdo
        | Img
        | Ins
        | Del
        | A => true,
        _ => is_control(element),
    }
}

// Whether the element is a control of a form.
fn is_control(element: Element) -> bool
    ensures { result ≡ is_among controls element }
{
    matches!(element, Input | Select | Textarea | Label | Button)
}

/// Whether the doctype has the element among its blocks.
pub fn is_block(doctype: Doctype, element: Element) -> bool
    ensures { result ≡ is_among (block doctype) element }
{
    match element {
        Center | Dir | Menu => matches!(doctype, Doctype::Transitional),
        P
        | H1
        | H2
        | H3
        | H4
        | H5
        | H6
        | Div
        | Ul
        | Ol
        | Dl
        | Pre
        | Hr
        | Blockquote
        | Address
        | Table
        | Fieldset
        | Form => true,
        _ => false,
    }
}

/// Whether the element marks an edit.
pub fn is_edit(element: Element) -> bool
    ensures { result ≡ is_among misc element }
{
    matches!(element, Ins | Del)
}

/// Whether the element is one of forms: the elements that stand in them, and `form` itself.
///
/// Source: HTML 4.01, section 17.
pub fn is_of_forms(element: Element) -> bool
    ensures { result ≡ is_among of_forms element }
{
    match element {
        Form | Fieldset | Legend | Optgroup | OptionItem => true,
        _ => is_control(element),
    }
}
