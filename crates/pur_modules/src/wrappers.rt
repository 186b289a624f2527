//! The elements that a content implies.

ghost use Rattle.std.specs.Prelude.{◌≡◌, Some, None, if◌then◌else◌};
ghost use Rattle.pur_modules.specs.Wrappers.{wrapper_of};
ghost use Rattle.pur_modules.specs.Expressions.{is_letter};
ghost use Rattle.pur_modules.specs.declared.kinds.Doctype.TheVariants.{Strict};
ghost use Rattle.pur_modules.specs.declared.kinds.Content.TheVariants.{Block};

use crate::groups::{is_edit, is_inline};
use crate::kinds::{Child, Content, Doctype};
use crate::tables::allows;
use pur_names::Element::{self, Dd, Li, OptionItem, P, Td, Th, Tr};

/// The element that a content implies round a child that it doesn't allow, whether or not the settings permit that
/// element; `Child::Text` is text that isn't white space.
///
/// Lists imply an item, definition lists a description, tables and their row groups a row round cells, lists of options
/// an option round text, and what a Strict `blockquote` or `form` holds implies a paragraph round text and inline
/// elements other than `ins` and `del`. None comes where the
/// wrapper's own content doesn't allow the child, and everywhere else.
///
/// Source: this filter's own, after HTML Purifier.
#[tactic(auto, unfolding(crate::specs::Wrappers::wrapper_of, crate::specs::Contents::content_held, crate::specs::Expressions::child_letters, crate::specs::Expressions::has_text_letter))]
pub fn implied(doctype: Doctype, content: Content, child: Child) -> Option<Element>
    ensures { result ≡ wrapper_of doctype content child }
{
    match content {
        Content::Items => holding(doctype, Content::Flow, child, Li),
        Content::Pairs => holding(doctype, Content::Flow, child, Dd),
        Content::TableParts | Content::Rows => match child {
            Child::Elem(Td | Th) => Some(Tr),
            _ => None,
        },
        Content::Options | Content::OptionItems => match child {
            Child::Text => Some(OptionItem),
            Child::Elem(_) => None,
        },
        Content::Block => match doctype {
            Doctype::Strict => paragraph(child),
            Doctype::Transitional => None,
        },
        _ => None,
    }
}

// The wrapper, if what it holds allows the child.
fn holding(doctype: Doctype, content: Content, child: Child, wrapper: Element) -> Option<Element>
    ensures { result ≡ (if is_letter doctype content child then Some wrapper else None) }
{
    if allows(doctype, content, child) {
        Some(wrapper)
    } else {
        None
    }
}

// The paragraph that a Strict `blockquote` or `form` implies.
#[tactic(auto, unfolding(crate::specs::Wrappers::wrapper_of, crate::specs::Contents::content_held, crate::specs::Expressions::child_letters, crate::specs::Expressions::has_text_letter))]
fn paragraph(child: Child) -> Option<Element>
    ensures { result ≡ wrapper_of Strict Block child }
{
    match child {
        Child::Text => Some(P),
        Child::Elem(element) => {
            if is_inline(Doctype::Strict, element) && !is_edit(element) {
                Some(P)
            } else {
                None
            }
        }
    }
}
