//! Laws of purifications, each the contract of a function that does nothing.
ghost use Rattle.pur_engine.specs.Laws.{PurifiedIsGood, PurifiedAddsNoText, PurifiedKeepsLedger, PurifiedOnce, SpelledIsCleaned, SpelledIsRead, RemovalLeavesGood, ClosingLeavesGood, NestingLeavesGood, AttributesLeaveGood, GoodReachesInjectors, GoodStays, GoodIsKept};

use crate::fragments::{fragments_are_counted, fragments_are_good, nested_is_ready};
use pur_attrs::{keeps_nodes, leaves_valid};
use pur_foreign::permitted_stays;
use pur_inject::{injects_nothing, injects_once};
use pur_lexer::written_is_read;
use pur_nesting::{leaves_settled, valid_are_settled, words_are_letters};
use pur_text::{allowed_is_cleaned, cleaned_is_allowed};
use pur_tree::{has_one_tree, spelled_as_itself};
use pur_wellform::{closed_as_itself, is_closed_stands};

/// The purification of every input under all settings, and every rule of hosts, is good.
pub fn purified_is_good()
    ensures { PurifiedIsGood }
{
    cleaned_is_allowed();
    fragments_are_good();
}

/// No character stands in the texts of a purification more often than in those of the input.
pub fn purified_adds_no_text()
    ensures { PurifiedAddsNoText }
{
    cleaned_is_allowed();
    fragments_are_good();
    fragments_are_counted();
}

/// Each character that isn't white space stands in the texts of a purification, or is lost in closing or nesting repair, as often
/// as it stands in those of the input.
pub fn purified_keeps_ledger()
    ensures { PurifiedKeepsLedger }
{
    cleaned_is_allowed();
    fragments_are_good();
    fragments_are_counted();
}

/// Purifying twice is purifying once, also where links and paragraphs are made.
pub fn purified_once()
    ensures { PurifiedOnce }
{
    cleaned_is_allowed();
    nested_is_ready();
    fragments_are_good();
    spelled_is_cleaned();
    good_reaches_injectors();
    keeps_nodes();
    injects_once();
    attributes_leave_good();
}

/// A text that nodes are spelled as is cleaned to itself.
pub fn spelled_is_cleaned()
    ensures { SpelledIsCleaned }
{
    allowed_is_cleaned();
}

/// The tokens of a text that nodes are spelled as are those of the nodes.
pub fn spelled_is_read()
    ensures { SpelledIsRead }
{
    written_is_read();
}

/// The removal of foreign elements leaves the tokens of a good fragment as they are.
pub fn removal_leaves_good()
    ensures { RemovalLeavesGood }
{
    permitted_stays();
}

/// Closing leaves the tokens of a good fragment as they are, and their tree is its nodes.
pub fn closing_leaves_good()
    ensures { ClosingLeavesGood }
{
    words_are_letters();
    is_closed_stands();
    closed_as_itself();
    has_one_tree();
}

/// Nesting repair leaves the nodes of a good fragment as they are.
pub fn nesting_leaves_good()
    ensures { NestingLeavesGood }
{
    valid_are_settled();
    leaves_settled();
}

/// The pass on attributes leaves the nodes of a good fragment as they are.
pub fn attributes_leave_good()
    ensures { AttributesLeaveGood }
{
    leaves_valid();
}

/// What the text of a good fragment is before links and paragraphs are made is its nodes.
pub fn good_reaches_injectors()
    ensures { GoodReachesInjectors }
{
    spelled_is_read();
    removal_leaves_good();
    closing_leaves_good();
    nesting_leaves_good();
}

/// What the text of a good fragment becomes is its nodes, where the settings want neither links nor paragraphs.
pub fn good_stays()
    ensures { GoodStays }
{
    good_reaches_injectors();
    injects_nothing();
    attributes_leave_good();
}

/// A good fragment is its own purification, where the settings want neither links nor paragraphs.
pub fn good_is_kept()
    ensures { GoodIsKept }
{
    spelled_is_cleaned();
    good_stays();
    spelled_as_itself();
}
