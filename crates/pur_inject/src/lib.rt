//! Injectors: addresses in texts become links, and texts between blank lines become paragraphs.
//!
//! `specs/` has the definitions: nodes as signs, which are characters and elements; runs of signs; the address in a run, and
//! a text as texts and links; blank lines, and a fragment's own nodes as paragraphs.
#![tactic(auto)]

mod addresses;
mod growing;
mod laws;
mod linking;
mod paragraphs;
mod places;
mod remaining;
mod runs;

pub use laws::{
    injects_nothing, injects_once, links_are_tested, links_keep, links_keep_counts,
    links_keep_words, links_once, loses_line_feeds_alone, paragraphs_bring_no_links,
    paragraphs_keep, paragraphs_keep_counts, paragraphs_keep_words, paragraphs_once,
    worked_examples,
};
pub use linking::linkify;
pub use paragraphs::auto_paragraph;
