//! The passes in a row: from the bytes of an input to the bytes of its purification.
ghost use Rattle.std.specs.Prelude.{◌≡◌, ◌++◌, [], List, ℕ, true, string_bytes, IfOk, IsTrue, OnOk};
ghost use Rattle.std.specs.List.{list_all};
ghost use Rattle.std.specs.Str.{chars};
ghost use Rattle.pur_lexer.specs.Lexing.{tokens_of};
ghost use Rattle.pur_foreign.specs.Keeping.{kept_behind};
ghost use Rattle.pur_foreign.specs.Removal.{without_foreign};
ghost use Rattle.pur_tokens.specs.Tokens.{PlainToken};
ghost use Rattle.pur_tokens.specs.Joining.{has_no_empty_text};
ghost use Rattle.pur_tokens.specs.Shown.{shown_given};
ghost use Rattle.pur_tree.specs.Image.{nodes_of};
ghost use Rattle.pur_tree.specs.Tokens.{IsTreeOf};
ghost use Rattle.pur_wellform.specs.Progress.{closed_behind};
ghost use Rattle.pur_wellform.specs.Standing.{can_be_closed};
ghost use Rattle.pur_inject.specs.Injected.{injects_nothing};
ghost use Rattle.pur_engine.specs.Ledger.{AddsNoText, KeepsLedger};
ghost use Rattle.pur_text.specs.Cleaning.{cleaned};
ghost use Rattle.pur_engine.specs.Purifications.{IsPurification};
ghost use Rattle.pur_engine.specs.Purified.{closed_tags, purified, purified_text};
ghost use Rattle.pur_engine.specs.Spelled.{IsSpelled};
ghost use Rattle.pur_validity.specs.Goodness.{IsGood};
ghost use Rattle.pur_tree.specs.Forests.{IsForest};

use crate::laws::{
    good_is_kept, purified_adds_no_text, purified_is_good, purified_keeps_ledger, purified_once,
};
use pur_attrs::validate;
use pur_foreign::{Removal, kept_is_permitted};
use pur_inject::{auto_paragraph, linkify};
use pur_lexer::{Lexer, tokens_are_joined};
use pur_nesting::fix_nesting;
use pur_settings::Settings;
use pur_text::clean_if_needed;
use pur_tokens::Shown;
use pur_tree::Forest;
use pur_uripolicy::{UriGate, UriTest};
use pur_wellform::Closing;
use pur_writer::write;
use std::alloc::{AllocError, Global};

/// The purification of an input of any bytes under the settings and the gate's rule of hosts, as UTF-8: the input is cleaned and
/// cut into tokens, foreign elements are removed, all elements are closed, each where it may stand, their nesting is repaired,
/// links and paragraphs are made where the settings want them, attributes are made valid, and the fragment is spelled in one way.
/// What is written is good: valid under the settings and the rule. Its texts and what is lost on the way are the texts of the input.
/// Where the settings want neither links nor paragraphs a good fragment is written unchanged; purifying twice is always purifying
/// once.
///
/// The gate is asked about each URI that would stand in the fragment. `pur_uripolicy::host_rule` gives the rule of the settings.
/// The error is want of memory.
pub fn purify<F: UriTest>(
    alloc: Global,
    settings: &Settings,
    gate: &UriGate<F>,
    bytes: &[u8],
) -> Result<Vec<u8>, AllocError>
    ensures purified { IfOk result (λ text. text.items ≡ purified settings.now gate.now bytes.now) }
    ensures spelled { IfOk result (λ text. IsSpelled text.items) }
    ensures good { IfOk result (λ text. IsGood settings.now gate.now text.items) }
    ensures adds_no_text { IfOk result (λ text. AddsNoText settings.now gate.now bytes.now text.items) }
    ensures ledger { IfOk result (λ text. KeepsLedger settings.now gate.now bytes.now text.items) }
    ensures unchanged { IfOk result (λ text. IsTrue (injects_nothing settings.now) → IsGood settings.now gate.now bytes.now → text.items ≡ bytes.now) }
    ensures twice { IfOk result (λ text. purified settings.now gate.now text.items ≡ text.items) }
{
    let text = clean_if_needed(alloc, bytes)?;
    let forest = closed_tree(alloc, settings, gate, text.as_str())?;
    drop(text);
    let output = finished(alloc, settings, gate, forest)?;
    Ok(output)
}

/// The purification of a text that was cleaned before, as a `pur_text::Cleaner` gives it: what `purify` makes of each input that is
/// cleaned to it, with all that is promised of that. The text is let go before the fragment is repaired.
///
/// No input is cleaned to a text with characters that cleaning drops; of such a text nothing is promised but how its fragment is spelled.
/// The error is want of memory.
pub fn purify_text<F: UriTest>(
    alloc: Global,
    settings: &Settings,
    gate: &UriGate<F>,
    text: String,
) -> Result<Vec<u8>, AllocError>
    ensures text { IfOk result (λ output. output.items ≡ purified_text settings.now gate.now (chars (string_bytes text))) }
    ensures inputs { IfOk result (λ output. (input : List ℕ) → cleaned input ≡ chars (string_bytes text) →
        IsPurification settings.now gate.now input output.items) }
{
    let forest = closed_tree(alloc, settings, gate, text.as_str())?;
    drop(text);
    let output = finished(alloc, settings, gate, forest)?;
    Ok(output)
}

// The output for a fragment in which all elements were closed.
fn finished<F: UriTest>(
    alloc: Global,
    settings: &Settings,
    gate: &UriGate<F>,
    forest: Forest,
) -> Result<Vec<u8>, AllocError>
    requires { IsForest (nodes_of forest) }
    ensures text { IfOk result (λ output. (text : List ℕ) → IsTreeOf (nodes_of forest) (closed_tags settings.now gate.now text) →
        output.items ≡ purified_text settings.now gate.now text) }
    ensures inputs { IfOk result (λ output. (input : List ℕ) → IsTreeOf (nodes_of forest) (closed_tags settings.now gate.now (cleaned input)) →
        IsPurification settings.now gate.now input output.items) }
{
    purified_is_good();
    purified_adds_no_text();
    purified_keeps_ledger();
    purified_once();
    good_is_kept();
    // whatever the settings are, their clauses say that a fragment takes any number of what it may hold, that the prefix
    // begins an id, and that no element of forms may stand in the output
    let _ = settings.parent();
    let _ = settings.id_prefix();
    let _ = settings.forms();
    let mut forest = forest;
    fix_nesting(alloc, settings, &mut forest)?;
    linkify(alloc, settings, gate, &mut forest)?;
    auto_paragraph(alloc, settings, &mut forest)?;
    validate(alloc, settings, gate, &mut forest)?;
    let output = write(alloc, &forest)?;
    Ok(output)
}

// The tree that closing makes of a text.
fn closed_tree<F: UriTest>(
    alloc: Global,
    settings: &Settings,
    gate: &UriGate<F>,
    text: &str,
) -> Result<Forest, AllocError>
    ensures tree { IfOk result (λ forest. IsTreeOf (nodes_of forest) (closed_tags settings.now gate.now (chars text.now))) }
    ensures forest { IfOk result (λ forest. IsForest (nodes_of forest)) }
{
    let mut closing = Closing::new(alloc, settings);
    put_all(alloc, settings, gate, text, &mut closing)?;
    let forest = closing.finish()?;
    Ok(forest)
}

// Closes what stays of a text's tokens. Each goes through all passes before the next is read, so they never stand together.
fn put_all<F: UriTest>(
    alloc: Global,
    settings: &Settings,
    gate: &UriGate<F>,
    text: &str,
    closing: &mut Closing<'_>,
) -> Result<(), AllocError>
    requires { closing.old.rules ≡ settings.now }
    ensures { OnOk result (closed_behind closing.new [] ≡ closed_behind closing.old (without_foreign settings.now gate.now (tokens_of (chars text.now)))) }
{
    tokens_are_joined();
    let mut lexer = Lexer::new(alloc, text);
    put_left(alloc, settings, gate, &mut lexer, closing)
}

// Closes what stays of all tokens that the lexer has left.
fn put_left<F: UriTest>(
    alloc: Global,
    settings: &Settings,
    gate: &UriGate<F>,
    lexer: &mut Lexer<'_>,
    closing: &mut Closing<'_>,
) -> Result<(), AllocError>
    requires rules { closing.old.rules ≡ settings.now }
    requires joined { has_no_empty_text lexer.old ≡ true }
    ensures { OnOk result (closed_behind closing.new [] ≡ closed_behind closing.old (without_foreign settings.now gate.now lexer.old)) }
{
    kept_is_permitted();
    let mut removal = Removal::new();
    put_tokens(alloc, settings, gate, lexer, &mut removal, closing)?;
    put_kept(closing, removal.finish())?;
    Ok(())
}

// Closes what stays of the tokens that are left, but for a text that may grow.
fn put_tokens<F: UriTest>(
    alloc: Global,
    settings: &Settings,
    gate: &UriGate<F>,
    lexer: &mut Lexer<'_>,
    removal: &mut Removal,
    closing: &mut Closing<'_>,
) -> Result<(), AllocError>
    requires rules { closing.old.rules ≡ settings.now }
    requires can { list_all (can_be_closed settings.now) (kept_behind settings.now gate.now removal.old lexer.old) ≡ true }
    ensures rules { OnOk result (closing.new.rules ≡ settings.now) }
    ensures can { OnOk result (list_all (can_be_closed settings.now) (kept_behind settings.now gate.now removal.new []) ≡ true) }
    ensures same { OnOk result (closed_behind closing.new (kept_behind settings.now gate.now removal.new []) ≡ closed_behind closing.old (kept_behind settings.now gate.now removal.old lexer.old)) }
{
    'reading: while let Some(token) = lexer.next()? {
        let kept = removal.put(alloc, settings, gate, token)?;
        put_kept(closing, kept)?;
    }
    Ok(())
}

// Closes what stays next of the tokens, if anything does.
fn put_kept(closing: &mut Closing<'_>, kept: Option<Shown>) -> Result<(), AllocError>
    requires { list_all (can_be_closed closing.old.rules) (shown_given kept) ≡ true }
    ensures ok { OnOk result ((more : List PlainToken) → closed_behind closing.new more ≡ closed_behind closing.old (shown_given kept ++ more)) }
    ensures rules { closing.new.rules ≡ closing.old.rules }
{
    match kept {
        Some(shown) => {
            closing.put(shown)?;
            Ok(())
        }
        None => Ok(()),
    }
}
