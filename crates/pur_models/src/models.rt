//! The content models of the two document types.

ghost use Rattle.std.specs.Prelude.{◌≡◌, ◌∷◌, [], IfOk};
ghost use Rattle.pur_modules.specs.Expressions.{any_of, expression_of, fieldset_way, one_step, optional, some_of, table_way};
ghost use Rattle.pur_models.specs.Images.{step_of, way_of, ways_of};
ghost use Rattle.pur_models.specs.Languages.{AreDisjoint};

use crate::expressions::{Expr, Step};
use crate::letters::{elements, letters_of};
use pur_modules::{Child, Content, Doctype};
use pur_names::Element;
use std::alloc::{AllocError, Global};

/// The content model of a kind of content.
///
/// The commas within parentheses stand for a choice, and a mark behind them for repetition, as in the DTDs.
///
/// Errors: want of memory.
///
/// Source: XHTML 1.0, the element declarations of the two DTDs.
#[tactic(auto, using(crate::proofs::KindLemmas::any_kind, crate::proofs::KindLemmas::some_kind))]
pub fn model(alloc: Global, doctype: Doctype, content: Content) -> Result<Expr, AllocError>
    ensures value { IfOk result (λ model. ways_of model ≡ expression_of doctype content) }
    ensures disjoint { IfOk result (λ model. AreDisjoint (ways_of model)) }
{
    match content {
        // (letters)*
        Content::Inline
        | Content::Flow
        | Content::Block
        | Content::AddressMix
        | Content::Cols
        | Content::TextOnly => one_step(alloc, any_of(letters_of(alloc, doctype, content)?)),
        // (letters)+
        Content::Items
        | Content::Pairs
        | Content::Rows
        | Content::Cells
        | Content::Options
        | Content::OptionItems => one_step(alloc, some_of(letters_of(alloc, doctype, content)?)),
        // caption?, (col* or colgroup*), thead?, tfoot?, (tbody+ or tr+)
        Content::TableParts => table(alloc),
        // legend?, (letters of flow)*
        Content::FieldsetMix => fieldset(alloc, doctype),
        // EMPTY
        Content::Nothing => no_step(alloc),
    }
}

// The expression of one way without a step: the empty word alone.
fn no_step(alloc: Global) -> Result<Expr, AllocError>
    ensures { IfOk result (λ model. ways_of model ≡ [] ∷ []) }
{
    let mut ways = Vec::new(alloc);
    ways.push(Vec::new(alloc))?;
    Ok(Expr { ways })
}

// The expression of one way with one step.
fn one_step(alloc: Global, step: Step) -> Result<Expr, AllocError>
    ensures value { IfOk result (λ model. ways_of model ≡ one_step (step_of step)) }
    ensures disjoint { IfOk result (λ model. AreDisjoint (ways_of model)) }
{
    let mut steps = Vec::new(alloc);
    steps.push(step)?;
    let mut ways = Vec::new(alloc);
    ways.push(steps)?;
    Ok(Expr { ways })
}

// (x)*: any number of the letters.
fn any_of(letters: Vec<Child>) -> Step
    ensures { step_of result ≡ any_of letters.items }
{
    Step {
        letters,
        least: 0,
        many: true,
    }
}

// (x)+: one or more of the letters.
fn some_of(letters: Vec<Child>) -> Step
    ensures { step_of result ≡ some_of letters.items }
{
    Step {
        letters,
        least: 1,
        many: true,
    }
}

// x?: one of the element or none.
fn optional(alloc: Global, element: Element) -> Result<Step, AllocError>
    ensures { IfOk result (λ step. step_of step ≡ optional element) }
{
    let letters = elements(alloc, &[element])?;
    Ok(Step {
        letters,
        least: 0,
        many: false,
    })
}

// A table, the same in both doctypes: a way for each kind of columns with each kind of bodies.
fn table(alloc: Global) -> Result<Expr, AllocError>
    ensures { IfOk result (λ model. ways_of model ≡ expression_of Doctype.Strict Content.TableParts) }
{
    let mut ways = Vec::new(alloc);
    ways.push(table_way(alloc, Element::Col, Element::Tbody)?)?;
    ways.push(table_way(alloc, Element::Col, Element::Tr)?)?;
    ways.push(table_way(alloc, Element::Colgroup, Element::Tbody)?)?;
    ways.push(table_way(alloc, Element::Colgroup, Element::Tr)?)?;
    Ok(Expr { ways })
}

// A way of a table, with one kind of columns and one kind of bodies.
fn table_way(alloc: Global, column: Element, body: Element) -> Result<Vec<Step>, AllocError>
    ensures { IfOk result (λ way. way_of way ≡ table_way column body) }
{
    let mut steps = Vec::new(alloc);
    steps.push(optional(alloc, Element::Caption)?)?;
    steps.push(any_of(elements(alloc, &[column])?))?;
    steps.push(optional(alloc, Element::Thead)?)?;
    steps.push(optional(alloc, Element::Tfoot)?)?;
    steps.push(some_of(elements(alloc, &[body])?))?;
    Ok(steps)
}

// A fieldset: a legend or none, and behind it flow content.
#[tactic(auto, using(crate::proofs::KindLemmas::fieldset_steps, crate::proofs::ExpressionLemmas::expression_is_disjoint))]
fn fieldset(alloc: Global, doctype: Doctype) -> Result<Expr, AllocError>
    ensures value { IfOk result (λ model. ways_of model ≡ expression_of doctype Content.FieldsetMix) }
    ensures disjoint { IfOk result (λ model. AreDisjoint (ways_of model)) }
{
    let letters = letters_of(alloc, doctype, Content::Flow)?;
    let mut ways = Vec::new(alloc);
    ways.push(fieldset_way(alloc, letters)?)?;
    Ok(Expr { ways })
}

// The way of a fieldset, with these letters behind the legend.
fn fieldset_way(alloc: Global, letters: Vec<Child>) -> Result<Vec<Step>, AllocError>
    ensures { IfOk result (λ way. way_of way ≡ fieldset_way letters.items) }
{
    let mut steps = Vec::new(alloc);
    steps.push(optional(alloc, Element::Legend)?)?;
    steps.push(any_of(letters))?;
    Ok(steps)
}
