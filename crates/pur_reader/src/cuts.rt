// Texts that are cut at ASCII characters.
ghost use Rattle.std.specs.Prelude.{ℕ, ◌≡◌, ◌+◌, ◌<◌, ◌==◌, ◌++◌, ◌∷◌, List, length, false, IfSome, IfNone, IsTrue};
ghost use Rattle.std.specs.List.{list_all, list_any};
ghost use Rattle.std.specs.Str.{chars, IsUtf8};
ghost use Rattle.pur_reader.specs.Private.Cutting.{is_ascii};

/// The text behind a mark of ASCII characters, where the text begins with it.
pub(crate) fn behind<'a>(text: &'a str, mark: &str) -> Option<&'a str>
    requires { IsTrue (list_all is_ascii mark.now) }
    ensures text { IfSome result (λ behind. IsUtf8 behind.now) }
    ensures shorter { IfSome result (λ behind. length behind.now + length mark.now ≡ length text.now) }
    ensures some { IfSome result (λ behind. chars text.now ≡ mark.now ++ chars behind.now) }
    ensures none { IfNone result ((rest : List ℕ) → chars text.now ≡ mark.now ++ rest → ⊥) }
{
    match text.strip_prefix(mark) {
        Some(rest) => Some(rest),
        None => None,
    }
}

/// The text before the first of these ASCII characters, and the text behind it.
pub(crate) fn cut_at(text: &str, mark: char) -> Option<(&str, &str)>
    requires { mark < 128 }
    ensures text { IfSome result (λ parts. IsUtf8 parts.0.now × IsUtf8 parts.1.now) }
    ensures shorter { IfSome result (λ parts. length parts.1.now < length text.now) }
    ensures parts { IfSome result (λ parts. chars text.now ≡ chars parts.0.now ++ mark ∷ chars parts.1.now) }
    ensures first { IfSome result (λ parts. list_any (λ c. c == mark) (chars parts.0.now) ≡ false) }
    ensures none { IfNone result (list_any (λ c. c == mark) (chars text.now) ≡ false) }
{
    match text.split_once(mark) {
        Some((front, rest)) => Some((front, rest)),
        None => None,
    }
}
