//! What is known of trees and fragments on the way from a cleaned text to its purification, each the contract of a function
//! that does nothing.
ghost use Rattle.std.specs.Prelude.{ℕ, ◌≡◌, false, List, IsTrue};
ghost use Rattle.std.specs.List.{list_all};
ghost use Rattle.pur_settings.specs.Prefixes.{begins_an_id};
ghost use Rattle.pur_settings.specs.Rules.{Rules, is_for_fragments};
ghost use Rattle.pur_text.specs.Characters.{is_allowed};
ghost use Rattle.pur_uripolicy.specs.HostRules.{PlainHostRule};
ghost use Rattle.pur_engine.specs.Purified.{injected_tree, nested_tree};
ghost use Rattle.pur_engine.specs.Private.Fragments.{TreeIsClosed, AreReady, FragmentIsGood, FragmentIsCounted};

use pur_attrs::{gives_spellable, gives_valid_attributes};
use pur_foreign::{
    kept_is_permitted, kept_pictures_have_sources, removal_keeps_allowed, removal_keeps_distinct,
    removal_keeps_texts,
};
use pur_inject::{
    links_keep, links_keep_counts, links_keep_words, paragraphs_keep, paragraphs_keep_counts,
    paragraphs_keep_words,
};
use pur_lexer::{tokens_are_allowed, tokens_are_distinct, tokens_are_joined};
use pur_nesting::{
    gives_a_word, gives_all_words, joins_texts, keeps_allowed, keeps_pictures, never_more,
};
use pur_tree::{counts_alike, has_spelling};
use pur_wellform::{
    closed_has_tree, closed_is_allowed, closed_is_forest, closed_keeps_distinct,
    closed_keeps_pictures, closed_ledger, closed_stands, stands_closed,
};

/// What closing leaves of a text has a tree that every forest could be. Each node in it is permitted, a letter of its parent's
/// content or white space, and in nothing that excludes it, and no level passes the limit.
pub(crate) fn trees_are_closed()
    ensures { (rules : Rules) (rule : PlainHostRule) (text : List ℕ) → TreeIsClosed rules rule text }
{
    tokens_are_joined();
    kept_is_permitted();
    closed_stands();
    stands_closed();
    closed_has_tree();
    closed_is_forest();
}

/// What nesting repair leaves of a text of allowed characters is valid once its attributes are.
pub(crate) fn nested_is_ready()
    ensures { (rules : Rules) (rule : PlainHostRule) (text : List ℕ) → IsTrue (is_for_fragments rules.parent) → rules.forms ≡ false
        → IsTrue (list_all is_allowed text) → AreReady rules rule (nested_tree rules rule text) }
{
    trees_are_closed();
    gives_a_word();
    gives_all_words();
    pur_nesting::keeps_free();
    pur_nesting::keeps_permitted();
    pur_nesting::keeps_forests();
    joins_texts();
    tokens_are_allowed();
    removal_keeps_allowed();
    closed_is_allowed();
    keeps_allowed();
    tokens_are_distinct();
    removal_keeps_distinct();
    closed_keeps_distinct();
    pur_nesting::keeps_distinct();
    kept_pictures_have_sources();
    closed_keeps_pictures();
    keeps_pictures();
}

/// And so is that with links and paragraphs.
pub(crate) fn injected_is_ready()
    ensures { (rules : Rules) (rule : PlainHostRule) (text : List ℕ) → IsTrue (is_for_fragments rules.parent) → rules.forms ≡ false
        → IsTrue (list_all is_allowed text) → AreReady rules rule (injected_tree rules rule text) }
{
    nested_is_ready();
    links_keep();
    links_keep_words();
    paragraphs_keep();
    paragraphs_keep_words();
}

/// What a text of allowed characters becomes is valid, and its spelling can be read back.
pub(crate) fn fragments_are_good()
    ensures { (rules : Rules) (rule : PlainHostRule) (text : List ℕ) → IsTrue (is_for_fragments rules.parent) → IsTrue (begins_an_id rules.id_prefix)
        → rules.forms ≡ false → IsTrue (list_all is_allowed text) → FragmentIsGood rules rule text }
{
    injected_is_ready();
    gives_valid_attributes();
    gives_spellable();
    pur_attrs::keeps_words();
    pur_attrs::keeps_distinct();
    pur_attrs::keeps_free();
    pur_attrs::keeps_permitted();
    pur_attrs::keeps_forests();
    has_spelling();
}

/// Each character stands in what a text becomes no more often than in the text's tokens; and one that isn't white space stands
/// there as often, but for what closing, nesting repair and injecting lose.
pub(crate) fn fragments_are_counted()
    ensures { (rules : Rules) (rule : PlainHostRule) (text : List ℕ) (c : ℕ) → FragmentIsCounted rules rule text c }
{
    trees_are_closed();
    removal_keeps_texts();
    closed_ledger();
    counts_alike();
    never_more();
    pur_nesting::keeps_counts();
    links_keep_counts();
    paragraphs_keep_counts();
    pur_attrs::keeps_counts();
}
