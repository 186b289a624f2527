//! Whether a word is one of an expression.

ghost use Rattle.std.specs.Prelude.{◌≡◌, ◌≤◌, ◌↔◌, IsTrue, length, map};
ghost use Rattle.std.specs.List.{prefix_len};
ghost use Rattle.pur_models.specs.Images.{step_of, ways_of};
ghost use Rattle.pur_models.specs.Languages.{AreDisjoint, IsInLanguage, IsInWay, has_disjoint_steps, has_letter};
ghost use Rattle.pur_models.specs.Deciding.{longest_run};

use crate::expressions::{Expr, Step};
use pur_modules::Child;

/// Whether the word is one of the expression.
///
/// Each way is tried once, and goes over the word once. It takes no memory. Where a letter stands in two steps of one
/// way, the answer would depend on where the first run ends: such an expression is not accepted.
///
/// Source: XML 1.0, section 3.2.1, and its appendix E on models that need no looking ahead.
pub fn matches(model: &Expr, word: &[Child]) -> bool
    requires { AreDisjoint (ways_of model.now) }
    ensures { IsTrue result ↔ IsInLanguage (ways_of model.now) word.now }
{
    for way in &model.ways {
        if is_in_way(way, word) {
            return true;
        }
    }
    false
}

// Whether the word is one of the way: for each step the longest run is taken.
fn is_in_way(way: &[Step], word: &[Child]) -> bool
    requires { IsTrue (has_disjoint_steps (map step_of way.now)) }
    ensures { IsTrue result ↔ IsInWay (map step_of way.now) word.now }
{
    let mut at = 0;
    for step in way {
        let run = run_length(step, &word[at..]);
        if run < usize::from(step.least) {
            return false;
        }
        at += run;
    }
    at == word.len()
}

// The length of the longest run for the step at the front of the word.
fn run_length(step: &Step, word: &[Child]) -> usize
    ensures value { result ≡ longest_run (step_of step.now) word.now }
    ensures within { result ≤ length word.now }
{
    if step.many {
        letters_in_front(&step.letters, word)
    } else {
        letters_in_front(&step.letters, &word[..word.len().min(1)])
    }
}

// How many of the letters stand at the front of the word, before the first that is none of them.
fn letters_in_front(letters: &[Child], word: &[Child]) -> usize
    ensures value { result ≡ prefix_len (has_letter letters.now) word.now }
    ensures within { result ≤ length word.now }
{
    for (at, letter) in word.iter().enumerate() {
        if !is_letter(letters, *letter) {
            return at;
        }
    }
    word.len()
}

// Whether the letter is one of the list.
fn is_letter(letters: &[Child], letter: Child) -> bool
    ensures { result ≡ has_letter letters.now letter }
{
    letters.contains(&letter)
}
