//! Laws of the removal, each as the contract of a function that does nothing.
ghost use Rattle.std.specs.Prelude.{◌≡◌, ℕ, List, IsTrue};
ghost use Rattle.pur_tokens.specs.Joining.{has_no_empty_text, has_no_neighbours, count_in_text};
ghost use Rattle.pur_tokens.specs.Tokens.{PlainToken, shows_only};
ghost use Rattle.pur_settings.specs.Rules.{Rules, permits_name};
ghost use Rattle.pur_foreign.specs.Removal.{without_foreign};
ghost use Rattle.std.specs.List.{list_all};
ghost use Rattle.pur_text.specs.Characters.{is_allowed};
ghost use Rattle.pur_tokens.specs.Characters.{token_has_only};
ghost use Rattle.pur_tokens.specs.Distinct.{shows_distinct};
ghost use Rattle.pur_tokens.specs.Pictures.{has_good_picture};
ghost use Rattle.pur_uripolicy.specs.Admissible.{has_source};
ghost use Rattle.pur_uripolicy.specs.HostRules.{PlainHostRule};

/// What stays has no neighbouring texts, and no empty text where there was none.
pub fn kept_is_joined()
    ensures neighbours { (rules : Rules) (rule : PlainHostRule) (tokens : List PlainToken) → IsTrue (has_no_neighbours (without_foreign rules rule tokens)) }
    ensures texts { (rules : Rules) (rule : PlainHostRule) (tokens : List PlainToken) → IsTrue (has_no_empty_text tokens) → IsTrue (has_no_empty_text (without_foreign rules rule tokens)) }
{}

/// Each character stands in the texts that stay as often as in the texts before.
pub fn removal_keeps_texts()
    ensures { (rules : Rules) (rule : PlainHostRule) (c : ℕ) (tokens : List PlainToken) → count_in_text c (without_foreign rules rule tokens) ≡ count_in_text c tokens }
{}

/// What stays of tokens of allowed characters has allowed characters alone, in its texts, names and values.
pub fn removal_keeps_allowed()
    ensures { (rules : Rules) (rule : PlainHostRule) (tokens : List PlainToken) → IsTrue (list_all (token_has_only is_allowed) tokens)
        → IsTrue (list_all (token_has_only is_allowed) (without_foreign rules rule tokens)) }
{}

/// No attribute's name comes twice in a tag that stays, where none did in the tags that were read.
pub fn removal_keeps_distinct()
    ensures { (rules : Rules) (rule : PlainHostRule) (tokens : List PlainToken) → IsTrue (list_all shows_distinct tokens)
        → IsTrue (list_all shows_distinct (without_foreign rules rule tokens)) }
{}

/// What stays are texts, none of which is empty where none was, and tags of permitted elements.
pub fn kept_is_permitted()
    ensures { (rules : Rules) (rule : PlainHostRule) (tokens : List PlainToken) → IsTrue (has_no_empty_text tokens)
        → IsTrue (list_all (shows_only (permits_name rules)) (without_foreign rules rule tokens)) }
{}

/// Each picture that stays has a source that may be embedded.
pub fn kept_pictures_have_sources()
    ensures { (rules : Rules) (rule : PlainHostRule) (tokens : List PlainToken)
        → IsTrue (list_all (has_good_picture (has_source rules rule)) (without_foreign rules rule tokens)) }
{}

/// Tokens that may stay, stay as they are: texts that aren't empty and have no texts beside them, and tags of permitted
/// elements, among which each picture has a source that may be embedded.
pub fn permitted_stays()
    ensures { (rules : Rules) (rule : PlainHostRule) (tokens : List PlainToken) → IsTrue (list_all (shows_only (permits_name rules)) tokens)
        → IsTrue (list_all (has_good_picture (has_source rules rule)) tokens) → IsTrue (has_no_neighbours tokens)
        → without_foreign rules rule tokens ≡ tokens }
{}
