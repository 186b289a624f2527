//! Texts that begin and end with certain characters.
ghost use Rattle.std.specs.Prelude.{◌≡◌, ◌∷◌, ◌++◌, [], option_map, IfSome};
ghost use Rattle.std.specs.Str.{IsUtf8, chars};
ghost use Rattle.std.specs.Char.{to_ascii_lowercase};
ghost use Rattle.pur_csstok.specs.Ends.{behind, before, between, argument_of};

use crate::texts::cut_first;

/// What stands behind the letter, which is in lower case, if the text begins with it in either case.
fn behind(text: &str, first: char) -> Option<&str>
    ensures text { IfSome result (λ rest. IsUtf8 rest.now) }
    ensures rest { option_map (λ rest. chars rest.now) result ≡ behind first (chars text.now) }
{
    match cut_first(text) {
        Some((c, rest)) => {
            if c.to_ascii_lowercase() == first {
                Some(rest)
            } else {
                None
            }
        }
        None => None,
    }
}

/// What stands before the character, if the text ends with it.
fn before(text: &str, last: char) -> Option<&str>
    ensures text { IfSome result (λ rest. IsUtf8 rest.now) }
    ensures rest { option_map (λ rest. chars rest.now) result ≡ before last (chars text.now) }
{
    match text.strip_suffix(last) {
        Some(rest) => Some(rest),
        None => None,
    }
}

/// What stands in the quotes, if the text is a text in quotes of this kind.
pub(crate) fn between(text: &str, quote: char) -> Option<&str>
    ensures text { IfSome result (λ inner. IsUtf8 inner.now) }
    ensures inner { option_map (λ inner. chars inner.now) result ≡ between quote (chars text.now) }
{
    match behind(text, quote) {
        Some(rest) => before(rest, quote),
        None => None,
    }
}

/// What stands between these letters, in either case, with a `(` behind them, and the `)` that ends the text.
pub(crate) fn argument_of(text: &str, letters: [char; 3]) -> Option<&str>
    ensures text { IfSome result (λ inner. IsUtf8 inner.now) }
    ensures argument { option_map (λ inner. chars inner.now) result ≡ argument_of (letters ++ 0x28 ∷ []) (chars text.now) }
{
    let [a, b, c] = letters;
    let rest = behind(behind(behind(behind(text, a)?, b)?, c)?, '(')?;
    before(rest, ')')
}
