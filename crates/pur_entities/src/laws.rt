//! Laws of reading references, each as the contract of a function that does nothing.
ghost use Rattle.std.specs.Prelude.{◌≡◌, ◌++◌, ◌∷◌, ◌==◌, [], ℕ, List, Some, IsTrue, not, filter};
ghost use Rattle.std.specs.List.{list_all};
ghost use Rattle.pur_text.specs.Characters.{is_allowed};
ghost use Rattle.pur_entities.specs.Entities.{named_character};
ghost use Rattle.pur_entities.specs.References.{number_meant, decoded};
ghost use Rattle.pur_text.specs.Escapes.{escaped};

/// A run without an `&` stays as it is, whatever stands behind it; and so does a whole text without one.
pub fn plain_is_kept()
    ensures run { (run rest : List ℕ) → IsTrue (list_all (λ c. not (c == 0x26)) run) → decoded (run ++ rest) ≡ run ++ decoded rest }
    ensures whole { (text : List ℕ) → IsTrue (list_all (λ c. not (c == 0x26)) text) → decoded text ≡ text }
{}

/// A reference gives the character whose number it means, if that is allowed, and what stands behind it is read by itself.
pub fn reference_is_read()
    ensures { (body rest : List ℕ) (number : ℕ) → number_meant body ≡ Some number
        → decoded (0x26 ∷ (body ++ 0x3B ∷ rest)) ≡ filter is_allowed (number ∷ []) ++ decoded rest }
{}

/// Each name stands for an allowed character.
pub fn named_is_allowed()
    ensures { (name : List ℕ) (c : ℕ) → named_character name ≡ Some c → IsTrue (is_allowed c) }
{}

/// What a text of allowed characters is decoded to has only allowed characters.
pub fn decoded_is_allowed()
    ensures { (text : List ℕ) → IsTrue (list_all is_allowed text) → IsTrue (list_all is_allowed (decoded text)) }
{}

/// A text in which each `&`, `<` and `>` is written as a reference is decoded to the text, whatever stands behind it.
pub fn escaped_is_decoded()
    ensures front { (text rest : List ℕ) → decoded (escaped text ++ rest) ≡ text ++ decoded rest }
    ensures whole { (text : List ℕ) → decoded (escaped text) ≡ text }
{}
