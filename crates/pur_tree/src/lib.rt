//! Trees of XHTML as owned values.
//!
//! A `Node` is a text or an element, and a `Forest` is a list of nodes in which no element lies deeper
//! than the level limit, no EMPTY element has children and no text is empty. A `Builder` makes a forest
//! from start tags, texts and end tags in the order in which they stand in a document. To contracts
//! nodes are one plain list, `Nodes`: the first node and the nodes after it; `specs/` says how such a
//! list is spelled, what its level is, which flat list of tokens writes it out, and which list of nodes
//! is the tree of such tokens.
#![tactic(auto)]

mod builder;
mod forest;
mod joining;
mod laws;
mod level;
mod node;
mod room;
mod walking;

pub use builder::Builder;
pub use forest::Forest;
pub use joining::{push_elem, push_text_node};
pub use laws::{
    counts_alike, has_one_tree, has_spelling, has_tree, joins_texts, joins_tokens,
    spelled_as_itself, spells_at_most_one, tables_reach_the_limit, walks_count, walks_go_on,
    walks_keep_forests,
};
pub use level::{LEVEL_LIMIT, is_table, level_fits, level_rise};
pub use node::{Elem, Node};
pub use walking::{Rule, walk_nodes};
