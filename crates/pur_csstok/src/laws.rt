//! Laws of the readers, each as the contract of a function that does nothing: what a reader gives is read as itself.
ghost use Rattle.std.specs.Prelude.{◌≡◌, ◌==◌, not, ℕ, Bool, false, List, ◌∷◌, Some, IsTrue};
ghost use Rattle.std.specs.List.{list_all, join_with_byte};
ghost use Rattle.pur_csstok.specs.Atoms.{is_atom, is_color};
ghost use Rattle.pur_csstok.specs.Colors.{color_read};
ghost use Rattle.pur_csstok.specs.Declarations.{IsCleanValue, has_escape_or_comment, Pair, is_plain_word, words_of, style_text, AreClean, declarations_of};
ghost use Rattle.pur_csstok.specs.Families.{families_read};
ghost use Rattle.pur_csstok.specs.Lengths.{length_read};
ghost use Rattle.pur_csstok.specs.Numbers.{number_read};
ghost use Rattle.pur_csstok.specs.Cuts.{nothing_open};
ghost use Rattle.pur_csstok.specs.Open.{open_behind};
ghost use Rattle.pur_csstok.specs.Urls.{breaks_quotes, url_text, url_read};

/// A number in its one form is read as itself.
pub fn number_is_read()
    ensures { (signed : Bool) (text output : List ℕ) → number_read signed text ≡ Some output → number_read signed output ≡ Some output }
{}

/// A length in its one form is read as itself.
pub fn length_is_read()
    ensures { (signed percent : Bool) (text output : List ℕ) → length_read signed percent text ≡ Some output → length_read signed percent output ≡ Some output }
{}

/// A colour in its one form is read as itself.
pub fn color_is_read()
    ensures { (transparent : Bool) (text output : List ℕ) → color_read transparent text ≡ Some output → color_read transparent output ≡ Some output }
{}

/// A colour in its one form is `#` and six digits, where `transparent` isn't taken.
pub fn colors_are_digits()
    ensures { (text output : List ℕ) → color_read false text ≡ Some output → IsTrue (is_color output) }
{}

/// A list of families in its one form is read as itself.
pub fn families_are_read()
    ensures { (text output : List ℕ) → families_read text ≡ Some output → families_read output ≡ Some output }
{}

/// A text without double quotes, tabs and line feeds is read from a `url()` that has it in double quotes.
pub fn url_is_read()
    ensures { (text : List ℕ) → IsTrue (list_all (λ c. not (breaks_quotes 0x22 c)) text) → url_read (url_text text) ≡ Some text }
{}

/// A `url()` in double quotes is a value that a style can hold, where its text has no double quote, backslash or comment.
pub fn urls_are_clean()
    ensures { (text : List ℕ) → IsTrue (list_all (λ c. not (c == 0x22)) text) → has_escape_or_comment text ≡ false → IsCleanValue (url_text text) }
{}

/// Words without white space, quotes and parentheses, joined by spaces, are read as these words.
pub fn words_are_read()
    ensures { (words : List (List ℕ)) → IsTrue (list_all is_plain_word words) → words_of (join_with_byte 0x20 words) ≡ words }
{}

/// Clean declarations are read from the style that writes each of them and a `;`.
pub fn declarations_are_read()
    ensures { (pairs : List Pair) → AreClean pairs → declarations_of (style_text pairs) ≡ pairs }
{}

/// Nothing is open behind a style of clean declarations, and it has no backslash and no comment.
pub fn styles_are_closed()
    ensures closed { (pairs : List Pair) → AreClean pairs → open_behind nothing_open (style_text pairs) ≡ nothing_open }
    ensures plain { (pairs : List Pair) → AreClean pairs → has_escape_or_comment (style_text pairs) ≡ false }
{}

/// A number, a length and a colour in their one forms are atoms.
pub fn values_are_atoms()
    ensures number { (signed : Bool) (text output : List ℕ) → number_read signed text ≡ Some output → IsTrue (is_atom output) }
    ensures length { (signed percent : Bool) (text output : List ℕ) → length_read signed percent text ≡ Some output → IsTrue (is_atom output) }
    ensures color { (transparent : Bool) (text output : List ℕ) → color_read transparent text ≡ Some output → IsTrue (is_atom output) }
{}

/// An atom is a word without white space, quotes and parentheses.
pub fn atom_is_word()
    ensures { (text : List ℕ) → IsTrue (is_atom text) → IsTrue (is_plain_word text) }
{}

/// Atoms joined by spaces are a value that a style can hold.
pub fn atoms_are_clean()
    ensures { (word : List ℕ) (words : List (List ℕ)) → IsTrue (list_all is_atom (word ∷ words)) → IsCleanValue (join_with_byte 0x20 (word ∷ words)) }
{}

/// A list of families in its one form is a value that a style can hold.
pub fn families_are_clean()
    ensures { (text output : List ℕ) → families_read text ≡ Some output → IsCleanValue output }
{}
