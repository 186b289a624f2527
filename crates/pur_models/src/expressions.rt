//! Content expressions as values.

use pur_modules::Child;

/// A run of letters out of a set.
#[derive(Drop)]
pub struct Step {
    /// The letters of which the run may consist.
    pub letters: Vec<Child>,
    /// The least number of letters in the run: 0 or 1.
    pub least: u8,
    /// Whether there may be more than one letter.
    pub many: bool,
}

/// A content expression: a choice of ways, each a row of steps.
///
/// A word of the expression is, for one of its ways, a run for each step, one behind the other.
#[derive(Drop)]
pub struct Expr {
    /// The ways. In each the letters of the steps are disjoint, so that a run ends where no letter of its step follows.
    pub ways: Vec<Vec<Step>>,
}
