//! Laws of joined tokens, each as the contract of a function that does nothing.
ghost use Rattle.std.specs.Prelude.{◌≡◌, ◌++◌, ℕ, List, IsTrue};
ghost use Rattle.pur_tokens.specs.Joining.{joined, has_no_empty_text, has_no_neighbours, count_in_text};
ghost use Rattle.pur_tokens.specs.Tokens.{PlainToken};

/// Tokens that were joined in front of others are joined as if they had not been; so joining twice is joining once.
pub fn joining_settles()
    ensures front { (a b : List PlainToken) → joined (joined a ++ b) ≡ joined (a ++ b) }
    ensures twice { (a : List PlainToken) → joined (joined a) ≡ joined a }
    ensures same { (tokens : List PlainToken) → IsTrue (has_no_neighbours tokens) → joined tokens ≡ tokens }
{}

/// Joined tokens have no neighbouring texts, and no empty text where there was none.
pub fn joined_have_no_neighbours()
    ensures neighbours { (tokens : List PlainToken) → IsTrue (has_no_neighbours (joined tokens)) }
    ensures texts { (tokens : List PlainToken) → IsTrue (has_no_empty_text tokens) → IsTrue (has_no_empty_text (joined tokens)) }
{}

/// Each character stands in the texts of joined tokens as often as before.
pub fn joining_keeps_texts()
    ensures { (c : ℕ) (tokens : List PlainToken) → count_in_text c (joined tokens) ≡ count_in_text c tokens }
{}
