//! Laws of cleaning and of hosts, each as the contract of a function that does nothing.
ghost use Rattle.std.specs.Prelude.{◌≡◌, ◌||◌, ◌++◌, ℕ, List, IsTrue, false, slice_index, encode_utf8_all};
ghost use Rattle.bstr.specs.Utf8.{continues};
ghost use Rattle.std.specs.Str.{str_to_ascii_lowercase};
ghost use Rattle.std.specs.List.{list_all};
ghost use Rattle.pur_text.specs.Characters.{is_allowed};
ghost use Rattle.pur_text.specs.Cleaning.{chars_of, cleaned};
ghost use Rattle.pur_text.specs.Feeding.{ends_in_cr, text_with};
ghost use Rattle.pur_text.specs.Hosts.{is_host, is_name_byte, is_bracketed};

/// What bytes are cleaned to has only allowed characters.
pub fn cleaned_is_allowed()
    ensures { (bytes : List ℕ) → IsTrue (list_all is_allowed (cleaned bytes)) }
{}

/// A text of allowed characters is cleaned to itself.
pub fn allowed_is_cleaned()
    ensures { (text : List ℕ) → IsTrue (list_all is_allowed text) → cleaned (encode_utf8_all text) ≡ text }
{}

/// Cleaning twice is cleaning once.
pub fn cleaning_settles()
    ensures { (bytes : List ℕ) → cleaned (encode_utf8_all (cleaned bytes)) ≡ cleaned bytes }
{}

/// Bytes may be cleaned in two parts, cut where no character is: the second begins as it would behind the first, whose last
/// character may be a CR.
pub fn cleaning_goes_over_a_cut()
    ensures { (front back : List ℕ) → continues (slice_index back 0) ≡ false →
        cleaned (front ++ back) ≡ text_with (cleaned front) (ends_in_cr (chars_of front)) (chars_of back) }
{}

/// A canonical host is a name or stands in brackets, so it can be cut out of a URI again.
pub fn host_is_plain()
    ensures { (text : List ℕ) → IsTrue (is_host text) → IsTrue (list_all is_name_byte text || is_bracketed text) }
{}

/// A canonical host is its own lower case.
pub fn host_is_lowered()
    ensures { (text : List ℕ) → IsTrue (is_host text) → str_to_ascii_lowercase text ≡ text }
{}
