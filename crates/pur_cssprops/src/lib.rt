//! Styles (CSS 2.1): the 55 properties that one may set, the form of the values of each, and the one text of a style. A
//! reader for each form gives a value's one text, or none. What a style is read as is read as itself.
#![tactic(auto)]

mod forms;
mod images;
mod keywords;
mod laws;
mod properties;
mod reading;
mod sequences;
mod styles;
mod texts;
mod words;

pub use forms::{ValueForm, WordForm};
pub use keywords::Keywords;
pub use laws::{
    canonical_is_read_as_itself, styles_are_allowed, styles_are_clean,
    styles_are_read_as_themselves, words_have_one_form,
};
pub use properties::form_of;
pub use reading::read_value;
pub use styles::canon_style;
