// Whether the children of an element are a word of what it holds.
ghost use Rattle.std.specs.Prelude.{◌≡◌, ◌++◌, IfOk};
ghost use Rattle.std.specs.Option.{option_to_list};
ghost use Rattle.std.specs.Str.{chars};
ghost use Rattle.pur_text.specs.Characters.{is_blank};
ghost use Rattle.pur_modules.specs.Expressions.{has_text_letter};
ghost use Rattle.pur_tree.specs.Image.{nodes_of, node_before};
ghost use Rattle.pur_tree.specs.Nodes.{Nodes};
ghost use Rattle.pur_tree.specs.Words.{word_of};
ghost use Rattle.pur_validity.specs.Deciding.{are_word};

use pur_models::{matches, model, words_are_decided};
use pur_modules::{Child, Content, Doctype, text_allowed};
use pur_text::is_space;
use pur_tree::Node;
use std::alloc::{AllocError, Global};

/// Whether nodes are a word of a content kind.
pub(crate) fn are_word(
    alloc: Global,
    doctype: Doctype,
    content: Content,
    nodes: &[Node],
) -> Result<bool, AllocError>
    ensures { IfOk result (λ is. is ≡ are_word doctype content (nodes_of nodes.now)) }
{
    words_are_decided();
    let model = model(alloc, doctype, content)?;
    let word = word_of(alloc, doctype, content, nodes)?;
    Ok(matches(&model, word.as_slice()))
}

// The letters of nodes; where text is no letter, white space is left out.
fn word_of(
    alloc: Global,
    doctype: Doctype,
    content: Content,
    nodes: &[Node],
) -> Result<Vec<Child>, AllocError>
    ensures { IfOk result (λ word. word.items ≡ word_of (has_text_letter doctype content) (nodes_of nodes.now)) }
{
    let has_text = has_text_letter(doctype, content);
    let mut word = Vec::with_capacity(alloc, nodes.len())?;
    for node in nodes {
        if let Some(letter) = letter_of(has_text, node) {
            word.push(letter)?;
        }
    }
    Ok(word)
}

// Whether text is a letter of the content.
fn has_text_letter(doctype: Doctype, content: Content) -> bool
    ensures { result ≡ has_text_letter doctype content }
{
    match doctype {
        Doctype::Strict => text_allowed(content),
        Doctype::Transitional => text_allowed(content),
    }
}

// The letter of a node, if it has one.
fn letter_of(has_text: bool, node: &Node) -> Option<Child>
    ensures { (rest : Nodes) → word_of has_text (node_before node.now rest) ≡ option_to_list result ++ word_of has_text rest }
{
    match node {
        Node::Text(text) => {
            if has_text {
                return Some(Child::Text);
            }
            if is_blank(text.as_str()) {
                return None;
            }
            Some(Child::Text)
        }
        Node::Elem(elem) => Some(Child::Elem(elem.name)),
    }
}

// Whether a text is white space alone.
fn is_blank(text: &str) -> bool
    ensures { result ≡ is_blank (chars text.now) }
{
    text.chars().all(|c| is_space(c))
}
