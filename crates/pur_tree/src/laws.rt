// Laws over the definitions, each the contract of a function that does nothing.
ghost use Rattle.pur_tree.specs.Laws.{SpellsAtMostOne, SpelledAsItself, HasSpelling, HasOneTree, HasTree, TablesReachTheLimit, JoinsTexts, JoinsTokens, CountsAlike, WalksKeepForests, WalksCount};
ghost use Rattle.pur_tree.specs.Nodes.{PlainElem, Nodes, no_nodes, elem_first, nodes_append};
ghost use Rattle.pur_tree.specs.Tokens.{Token};
ghost use Rattle.pur_tree.specs.Walks.{walk};
ghost use Rattle.std.specs.Prelude.{◌≡◌, List};

/// A text spells at most one list of nodes.
pub fn spells_at_most_one()
    ensures { SpellsAtMostOne }
{}

/// What a text spells is spelled as that text.
pub fn spelled_as_itself()
    ensures { SpelledAsItself }
{}

/// Nodes of a forest without neighbouring texts have a spelling, where all characters of texts and values are allowed,
/// and the names of the attributes are those of XHTML, no two in one tag.
pub fn has_spelling()
    ensures { HasSpelling }
{}

/// The tree of a flat list of tokens is the only list of nodes that is written out by them.
pub fn has_one_tree()
    ensures { HasOneTree }
{}

/// Tokens in which each start tag has its end tag have a tree.
pub fn has_tree()
    ensures { HasTree }
{}

/// A `tr` directly in a `table` counts twice: 32 tables in each other reach the level limit, and nothing fits into the
/// innermost cell.
pub fn tables_reach_the_limit()
    ensures { TablesReachTheLimit }
{}

/// Joining texts leaves no neighbours, changes nothing where there are none, and keeps each character, what may be spelled
/// and what every forest keeps.
pub fn joins_texts()
    ensures { (n : Nodes) → JoinsTexts n }
{}

/// Written tokens that were joined in front of others are joined as if they had not been; joining leaves no neighbours and
/// keeps each character.
pub fn joins_tokens()
    ensures { (tokens : List Token) → JoinsTokens tokens }
{}

/// Nodes and the tokens that write them out have the same text.
pub fn counts_alike()
    ensures { CountsAlike }
{}

/// A walk makes a forest of a forest, where its rule keeps levels and soundness at each element.
pub fn walks_keep_forests()
    ensures { WalksKeepForests }
{}

/// What stands after a walk and what is lost in it is what stood before, where this is so at each element.
pub fn walks_count()
    ensures { WalksCount }
{}

/// A walk goes over nodes one after another; rules that agree make one walk; and a rule that leaves each element where it
/// stands changes nothing.
pub fn walks_go_on()
    ensures append { (rule : PlainElem → Nodes → Nodes) (f g : Nodes) → walk rule (nodes_append f g) ≡ nodes_append (walk rule f) (walk rule g) }
    ensures same { (rule other : PlainElem → Nodes → Nodes) → ((e : PlainElem) (kids : Nodes) → rule e kids ≡ other e kids) → (f : Nodes) → walk rule f ≡ walk other f }
    ensures stays { (f : Nodes) → walk (λ e kids. elem_first e kids no_nodes) f ≡ f }
{}
