//! The letters of the content models: text, and the elements that a content allows.

ghost use Rattle.std.specs.Prelude.{◌≡◌, ◌∷◌, ◌++◌, [], IfOk, OnOk};
ghost use Rattle.pur_modules.specs.Expressions.{elems};
ghost use Rattle.pur_models.specs.Private.KindLetters.{kind_letters};

use pur_modules::{Child, Content, Doctype, children, text_allowed};
use pur_names::Element;
use std::alloc::{AllocError, Global};

// The letters of a kind: text, where it may stand there, and the elements that may.
#[tactic(auto, unfolding(crate::specs::Private::KindLetters::kind_letters))]
pub(crate) fn letters_of(
    alloc: Global,
    doctype: Doctype,
    content: Content,
) -> Result<Vec<Child>, AllocError>
    ensures { IfOk result (λ letters. letters.items ≡ kind_letters doctype content) }
{
    let mut letters = Vec::new(alloc);
    if text_allowed(content) {
        letters.push(Child::Text)?;
    }
    push_elements(&mut letters, children(doctype, content))?;
    Ok(letters)
}

// The letters of the elements.
pub(crate) fn elements(alloc: Global, elements: &[Element]) -> Result<Vec<Child>, AllocError>
    ensures { IfOk result (λ letters. letters.items ≡ elems elements.now) }
{
    let mut letters = Vec::new(alloc);
    push_elements(&mut letters, elements)?;
    Ok(letters)
}

// The letters of the elements, behind other letters.
fn push_elements(letters: &mut Vec<Child>, elements: &[Element]) -> Result<(), AllocError>
    ensures { OnOk result (letters.new.items ≡ letters.old.items ++ elems elements.now) }
{
    for element in elements {
        letters.push(Child::Elem(*element))?;
    }
    Ok(())
}
