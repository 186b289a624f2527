//! The content models of XHTML 1.0 as expressions, and the test whether a list of children is a word of one. The judge
//! asks these; the tables by which children are repaired are another text, and both are proved to mean the same.

#![tactic(auto)]

mod expressions;
mod laws;
mod letters;
mod matching;
mod models;

pub use expressions::{Expr, Step};
pub use laws::{
    allowed_letters_stand_in_words, any_letters_are_a_word, empty_word_is_of_few_kinds,
    fieldset_words_are_its_parts, nothing_is_empty, some_letters_are_a_word,
    table_words_are_its_parts, words_are_decided, words_are_of_allowed_letters,
};
pub use matching::matches;
pub use models::model;
