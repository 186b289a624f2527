//! The declarations of a style, and what its numbers, lengths, colours, font families and URLs may be (CSS 2.1): each
//! reader gives the one text that stands for a value, or none.
#![tactic(auto)]

mod colors;
mod cuts;
mod declarations;
mod digits;
mod ends;
mod families;
mod laws;
mod lengths;
mod numbers;
mod texts;
mod urls;

pub use colors::read_color;
pub use cuts::Nesting;
pub use declarations::{Declaration, split, split_words};
pub use families::read_families;
pub use laws::{
    atom_is_word, atoms_are_clean, color_is_read, colors_are_digits, declarations_are_read,
    families_are_clean, families_are_read, length_is_read, number_is_read, styles_are_closed,
    url_is_read, urls_are_clean, values_are_atoms, words_are_read,
};
pub use lengths::read_length;
pub use numbers::read_number;
pub use urls::read_url;
