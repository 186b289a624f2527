//! A law of spelling, the contract of a function that does nothing.

ghost use Rattle.pur_reader.specs.Laws.{SpellingIsUnique};

use pur_tree::spells_at_most_one;

/// Bytes are the spelling of at most one list of nodes.
pub fn spelling_is_unique()
    ensures { SpellingIsUnique }
{
    spells_at_most_one();
}
