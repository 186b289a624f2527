//! Closing, token by token and for a list of tokens.
ghost use Rattle.std.specs.Prelude.{◌≡◌, ◌≤◌, ◌+◌, ◌∷◌, ℕ, List, [], true, length, map, IfOk, IsTrue, OnOk, OnErr};
ghost use Rattle.std.specs.List.{list_all};
ghost use Rattle.pur_tokens.specs.Shown.{plain_shown};
ghost use Rattle.pur_tokens.specs.Tokens.{PlainToken, plain_token};
ghost use Rattle.pur_settings.specs.Rules.{Rules, permits_element};
ghost use Rattle.pur_tree.specs.Forests.{IsForest};
ghost use Rattle.pur_tree.specs.Image.{nodes_of};
ghost use Rattle.pur_tree.specs.Nodes.{is_joined, level_of};
ghost use Rattle.pur_tree.specs.Places.{level_limit};
ghost use Rattle.pur_tree.specs.Properties.{Holds, permitted, letters, free};
ghost use Rattle.pur_tree.specs.Tokens.{IsTreeOf};
ghost use Rattle.pur_tokens.specs.Joining as reading;
ghost use Rattle.pur_attrlist.specs.Texts.{times};
ghost use Rattle.pur_tree.specs.Walks.{count_in_text};
ghost use Rattle.pur_wellform.specs.Closing.{closed, lost_in_closing, paid, steps, first_state, pending_limit, allowance};
ghost use Rattle.pur_wellform.specs.Standing.{can_be_closed, may_be_closed};
ghost use Rattle.pur_wellform.specs.Progress.{closed_behind, before_all};
ghost use Rattle.pur_wellform.specs.Private.Machines.{IsFirst};

use crate::machine::Machine;
use crate::reading::shown;
use crate::steps::put_shown;
use pur_settings::Settings;
use pur_tokens::{Shown, Token};
use pur_tree::{Builder, Forest};
use std::alloc::{AllocError, Global};
use std::collections::VecDeque;
use std::marker::Model;
use std::mem;

// The units that may be paid in all for formatting that is opened again.
const ALLOWANCE: u64 = 1_048_576;

/// The forest of tokens: each element ends and stands where it may, and formatting that a block cuts off goes on in it.
///
/// Each tag must name a permitted element, no text may be empty, and there must be no hidden content and no comment. A tag
/// without a place is dropped, and text without a place is lost; all elements, texts and attributes that stay keep their
/// order. Takes one pass over the list; the work for a token is bounded by the level limit and by the formatting that waits.
/// The error is want of memory.
///
/// Source: the second strategy of HTML Purifier.
pub fn make_wellformed(
    alloc: Global,
    settings: &Settings,
    tokens: Vec<Token>,
) -> Result<Forest, AllocError>
    requires { list_all (can_be_closed settings.now) (map plain_token tokens.items) ≡ true }
    ensures tree { IfOk result (λ forest. IsTreeOf (nodes_of forest) (closed settings.now (map plain_token tokens.items))) }
    ensures permitted { IfOk result (λ forest. Holds (permitted (permits_element settings.now)) tt (nodes_of forest)) }
    ensures letters { IfOk result (λ forest. Holds (letters settings.now.doctype) (settings.now.parent) (nodes_of forest)) }
    ensures free { IfOk result (λ forest. Holds free [] (nodes_of forest)) }
    ensures low { IfOk result (λ forest. level_of (nodes_of forest) ≤ level_limit) }
    ensures text { IfOk result (λ forest. (c : ℕ) →
        count_in_text c (nodes_of forest) + times c (lost_in_closing settings.now (map plain_token tokens.items)) ≡ reading.count_in_text c (map plain_token tokens.items)) }
    ensures few { length (steps settings.now (map plain_token tokens.items) first_state).state.pending ≤ pending_limit }
    ensures paid { paid settings.now (map plain_token tokens.items) ≤ allowance }
{
    let forest = close_all(alloc, settings, tokens)?;
    Ok(forest)
}

// All tokens, one after the other.
fn close_all(alloc: Global, settings: &Settings, tokens: Vec<Token>) -> Result<Forest, AllocError>
    requires { list_all (can_be_closed settings.now) (map plain_token tokens.items) ≡ true }
    ensures tree { IfOk result (λ forest. IsTreeOf (nodes_of forest) (closed settings.now (map plain_token tokens.items))) }
    ensures forest { IfOk result (λ forest. IsForest (nodes_of forest)) }
{
    let mut closing = Closing::new(alloc, settings);
    for token in tokens {
        put_token(&mut closing, token)?;
    }
    let forest = closing.finish()?;
    Ok(forest)
}

// Takes the next token, by name.
fn put_token(closing: &mut Closing<'_>, token: Token) -> Result<(), AllocError>
    requires { can_be_closed closing.old.rules (plain_token token) ≡ true }
    ensures ok { OnOk result ((more : List PlainToken) → closed_behind closing.new more ≡ closed_behind closing.old (plain_token token ∷ more)) }
    ensures rules { closing.new.rules ≡ closing.old.rules }
{
    match shown(token) {
        Some(shown) => {
            closing.put(shown)?;
            Ok(())
        }
        None => Ok(()),
    }
}

/// Closes pieces that come one at a time, by element, as `make_wellformed` does the tokens of a list, by name.
///
/// Holds the forest that is built, the open elements and the formatting that waits to be opened again. Contracts see the
/// settings, that state, and what was written.
#[derive(Drop)]
pub struct Closing<'a> {
    settings: &'a Settings,
    machine: Machine,
}

impl<'a> Model for Closing<'a> {
    ghost use Rattle.pur_wellform.specs.Progress.{Progress};
    ghost use Rattle.pur_wellform.specs.Private.Machines.{progress_of, IsClosing};

    ghost Value = { Progress };

    ghost view = { λ closing. progress_of closing.settings.now closing.machine };

    ghost invariant = { λ closing. IsClosing closing.settings.now closing.machine };
}

impl<'a> Closing<'a> {
    /// Before all tokens. It takes no memory.
    pub fn new(alloc: Global, settings: &'a Settings) -> Closing<'a>
        ensures { result ≡ before_all settings.now }
    {
        Closing {
            settings,
            machine: first_machine(alloc),
        }
    }

    /// Takes the next piece, whose element must be permitted and whose text must not be empty.
    ///
    /// The error is want of memory, and it is then as before all tokens.
    pub fn put(&mut self, shown: Shown) -> Result<(), AllocError>
        requires { may_be_closed self.old.rules shown ≡ true }
        ensures ok { OnOk result ((more : List PlainToken) → closed_behind self.new more ≡ closed_behind self.old (plain_shown shown ∷ more)) }
        ensures err { OnErr result (self.new ≡ before_all self.old.rules) }
        ensures rules { self.new.rules ≡ self.old.rules }
        ensures few { length self.new.state.pending ≤ pending_limit }
    {
        match put_shown(&mut self.machine, self.settings, shown) {
            Ok(()) => Ok(()),
            Err(error) => {
                self.machine = first_machine(self.machine.alloc);
                Err(error)
            }
        }
    }

    /// Ends all open elements, and gives the forest. It is as before all tokens then.
    pub fn finish(&mut self) -> Result<Forest, AllocError>
        ensures tree { IfOk result (λ forest. IsTreeOf (nodes_of forest) (closed_behind self.old [])) }
        ensures forest { IfOk result (λ forest. IsForest (nodes_of forest)) }
        ensures joined { IfOk result (λ forest. IsTrue (is_joined (nodes_of forest))) }
        ensures again { self.new ≡ before_all self.old.rules }
    {
        let alloc = self.machine.alloc;
        let machine = mem::replace(&mut self.machine, first_machine(alloc));
        let forest = machine.builder.finish()?;
        Ok(forest)
    }
}

// A machine before all tokens.
fn first_machine(alloc: Global) -> Machine
    ensures { (rules : Rules) → IsFirst rules result }
{
    Machine {
        alloc,
        builder: Builder::new(alloc),
        opened: Vec::new(alloc),
        pending: VecDeque::new(alloc),
        rest: ALLOWANCE,
    }
}
