//! What holds of all forms. Each law is the contract of a call that does nothing.
ghost use Rattle.pur_cssprops.specs.Forms.{width, style, color, underline, overline, line_through};
ghost use Rattle.pur_cssprops.specs.Laws.{NeverBoth, ReadAsItself, StyleAllowed, StyleClean, StyleReadAsItself};

use pur_csstok::{
    atom_is_word, atoms_are_clean, color_is_read, colors_are_digits, declarations_are_read,
    families_are_clean, families_are_read, length_is_read, number_is_read, url_is_read,
    urls_are_clean, values_are_atoms, words_are_read,
};
use pur_uri::{no_comment_appears, reading_settles, text_is_canonical};

/// What a value is read as is read as itself, for each form; so canonical values stay as they are.
pub fn canonical_is_read_as_itself()
    ensures { ReadAsItself }
{
    number_is_read();
    length_is_read();
    color_is_read();
    colors_are_digits();
    values_are_atoms();
    atom_is_word();
    words_are_read();
    families_are_read();
    url_is_read();
    reading_settles();
    text_is_canonical();
}

/// No word is two of the parts of a border, or two of the lines of a decoration. So a value has as many readings as words
/// exactly where each word has one.
pub fn words_have_one_form()
    ensures width_or_style { NeverBoth width style }
    ensures width_or_color { NeverBoth width color }
    ensures style_or_color { NeverBoth style color }
    ensures under_or_over { NeverBoth underline overline }
    ensures under_or_through { NeverBoth underline line_through }
    ensures over_or_through { NeverBoth overline line_through }
{}

/// What a text is read as, as a style, is read as itself, whatever its characters are; so canonical styles stay as they are.
pub fn styles_are_read_as_themselves()
    ensures { StyleReadAsItself }
{
    canonical_is_read_as_itself();
    number_is_read();
    length_is_read();
    color_is_read();
    colors_are_digits();
    values_are_atoms();
    atom_is_word();
    words_are_read();
    atoms_are_clean();
    families_are_clean();
    urls_are_clean();
    declarations_are_read();
    text_is_canonical();
    no_comment_appears();
}

/// What a style is read as has allowed characters alone, whatever the text has.
pub fn styles_are_allowed()
    ensures { StyleAllowed }
{
    number_is_read();
    length_is_read();
    color_is_read();
    colors_are_digits();
    values_are_atoms();
    atom_is_word();
    words_are_read();
    text_is_canonical();
}

/// What a text is read as, as a style, is clean declarations, written without `<`, `>` and braces. So a style ends nothing
/// that it stands in: no element, no block and no comment.
pub fn styles_are_clean()
    ensures { StyleClean }
{
    number_is_read();
    length_is_read();
    color_is_read();
    colors_are_digits();
    values_are_atoms();
    atom_is_word();
    words_are_read();
    atoms_are_clean();
    families_are_clean();
    urls_are_clean();
    text_is_canonical();
    no_comment_appears();
}
