//! Laws of the tokens of a text, each as the contract of a function that does nothing.
ghost use Rattle.std.specs.Prelude.{◌≡◌, ℕ, List, map, flat_map, IsTrue};
ghost use Rattle.pur_tokens.specs.Joining.{has_no_empty_text, has_no_neighbours};
ghost use Rattle.pur_lexer.specs.Lexing.{tokens_of};
ghost use Rattle.std.specs.List.{list_all};
ghost use Rattle.pur_text.specs.Characters.{is_allowed};
ghost use Rattle.pur_tokens.specs.Characters.{token_has_only};
ghost use Rattle.pur_tokens.specs.Distinct.{shows_distinct};
ghost use Rattle.pur_tokens.specs.Tokens.{PlainToken};
ghost use Rattle.pur_lexer.specs.Written.{written, as_read, is_writable};

/// The tokens of a text have no neighbouring texts, and no empty text.
pub fn tokens_are_joined()
    ensures neighbours { (text : List ℕ) → IsTrue (has_no_neighbours (tokens_of text)) }
    ensures texts { (text : List ℕ) → IsTrue (has_no_empty_text (tokens_of text)) }
{}

/// The tokens of a text of allowed characters have allowed characters alone, in their texts, names and values.
pub fn tokens_are_allowed()
    ensures { (text : List ℕ) → IsTrue (list_all is_allowed text) → IsTrue (list_all (token_has_only is_allowed) (tokens_of text)) }
{}

/// No attribute's name comes twice in a tag of a text.
pub fn tokens_are_distinct()
    ensures { (text : List ℕ) → IsTrue (list_all shows_distinct (tokens_of text)) }
{}

/// What tokens are written as is read as these tokens, with their references read: where each can be written, and no two
/// neighbours are texts (XML 1.0, sections 2.4 and 3.1).
pub fn written_is_read()
    ensures { (tokens : List PlainToken) → IsTrue (list_all is_writable tokens) → IsTrue (has_no_neighbours tokens)
        → tokens_of (flat_map written tokens) ≡ map as_read tokens }
{}
