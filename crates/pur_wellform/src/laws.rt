//! Laws of closing, each the contract of a function that does nothing.
ghost use Rattle.pur_wellform.specs.Laws.{ClosedStands, ClosedHasTree, ClosedIsForest, StandsClosed, IsClosedStands, EveryPrefixIsGood, FewArePending, PaysLittle, ClosedAsItself, ClosedLedger, ClosedIsAllowed, ClosedKeepsDistinct, ClosedKeepsPictures};
ghost use Rattle.pur_wellform.specs.Rows.{CarriesPastAnEnd, CarriesIntoABlock, WrapsTextInAnItem, DropsACellWithoutTable, DropsTextInATable, LosesTextInATable, DropsALinkInALink, DropsAnImageInPre, ClosesRoundABlock, ImpliesWhatIsPermitted, WrapsTextInAParagraph, CarriesNothingOutOfACell, StopsAtTheLimit, CountsARowForTwo};

use pur_tree::has_tree;

/// In the tree of what closing writes each node stands where it may.
pub fn closed_stands()
    ensures { ClosedStands }
{}

/// What closing writes has a tree.
pub fn closed_has_tree()
    ensures { ClosedHasTree }
{
    has_tree();
}

/// The tree of what closing writes is what every forest is: no level passes the limit, no text is empty, and EMPTY elements
/// have no children.
pub fn closed_is_forest()
    ensures { ClosedIsForest }
{}

/// What stands where it may is permitted and a letter of its parent's content or white space, stands in nothing that
/// excludes it, and has no level past the limit.
pub fn stands_closed()
    ensures { StandsClosed }
{}

/// Nodes that are permitted, letters of their parents' contents, in nothing that excludes them and within the limit stand where
/// they may.
pub fn is_closed_stands()
    ensures { IsClosedStands }
{}

/// Wherever the tokens end, what was written stands where it may, and what waits and what was paid is within its limit.
pub fn every_prefix_is_good()
    ensures { EveryPrefixIsGood }
{}

/// At no time does more formatting wait than its limit.
pub fn few_are_pending()
    ensures { FewArePending }
{}

/// No more is paid for formatting that is opened again than the allowance.
pub fn pays_little()
    ensures { PaysLittle }
{}

/// Closing leaves nodes as they are where each stands where it may.
pub fn closed_as_itself()
    ensures { ClosedAsItself }
{}

/// What closing writes and what it loses has each character as often as what it reads.
pub fn closed_ledger()
    ensures { ClosedLedger }
{}

/// What closing leaves has allowed characters alone in its texts and values, where the tokens that it reads have.
pub fn closed_is_allowed()
    ensures { ClosedIsAllowed }
{}

/// No two attributes of an element have one name in what closing leaves, where no two have in a tag that it reads.
pub fn closed_keeps_distinct()
    ensures { ClosedKeepsDistinct }
{}

/// What closing leaves has pictures whose attributes pass a test alone, where the tags of pictures that it reads do.
pub fn closed_keeps_pictures()
    ensures { ClosedKeepsPictures }
{}

/// Worked examples of the definition.
pub fn worked_examples()
    ensures past_an_end { CarriesPastAnEnd }
    ensures into_a_block { CarriesIntoABlock }
    ensures item { WrapsTextInAnItem }
    ensures cell { DropsACellWithoutTable }
    ensures table { DropsTextInATable }
    ensures lost { LosesTextInATable }
    ensures link { DropsALinkInALink }
    ensures image { DropsAnImageInPre }
    ensures round_a_block { ClosesRoundABlock }
    ensures permitted { ImpliesWhatIsPermitted }
    ensures strict { WrapsTextInAParagraph }
    ensures out_of_a_cell { CarriesNothingOutOfACell }
    ensures limit { StopsAtTheLimit }
    ensures row { CountsARowForTwo }
{}
