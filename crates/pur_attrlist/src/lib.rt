//! The attributes of a tag. A list of them is seen as the list of its pairs of name and value, in the order of their coming,
//! with no two names equal, and each of its calls is exact on that list. A long list is indexed while it grows, so that a tag
//! with many names doesn't cost a search along all of them for each.

#![tactic(auto)]

mod attribute_list;
mod indexed_pairs;
mod pair;
mod pairs_in_order;
mod short_text;
mod stored_pair;
mod stored_pairs;
mod stored_text;
mod styles;

pub use attribute_list::AttrList;
pub use pair::Pair;
pub use styles::put_style;
