//! Texts cut at the characters that stand outside quotes and parentheses.
ghost use Rattle.std.specs.Prelude.{◌≡◌, ◌∷◌, ◌++◌, ◌<◌, ◌≤◌, ◌-◌, ◌+◌, ◌^◌, [], length, drop, IfSome, IfNone};
ghost use Rattle.std.specs.Str.{IsUtf8, chars};
ghost use Rattle.pur_csstok.specs.Cuts.{separates, heeds_parentheses, nothing_open, is_outside, is_quote, depth_after, quote_after, open_after, is_cut, pieces};

use crate::texts::cut_first;
use pur_text::is_space;

/// The characters that a text is cut at.
#[derive(Clone, Copy)]
pub(crate) enum Separator {
    Semicolon,
    Space,
    Comma,
}

impl Separator {
    fn separates(self, c: char) -> bool
        ensures { result ≡ separates self c }
    {
        match self {
            Separator::Semicolon => c == ';',
            Separator::Space => is_space(c),
            Separator::Comma => c == ',',
        }
    }

    /// Whether a text isn't cut inside parentheses.
    fn heeds_parentheses(self) -> bool
        ensures { result ≡ heeds_parentheses self }
    {
        match self {
            Separator::Semicolon | Separator::Space => true,
            Separator::Comma => false,
        }
    }
}

/// What is open at a place of a text: a quote, and so many parentheses (CSS 2.1, sections 4.1.6 and 4.1.7).
#[derive(Clone, Copy)]
pub struct Nesting {
    /// The quote that is open, `"` or `'`.
    pub quote: Option<char>,
    /// How many parentheses are open.
    pub depth: usize,
}

impl Nesting {
    /// Whether nothing is open.
    pub fn is_outside(&self) -> bool
        ensures { result ≡ is_outside self.now }
    {
        self.quote.is_none() && self.depth == 0
    }

    /// What is open behind one more character. Parentheses count outside quotes, where they are heeded; a `)` without a `(`
    /// closes nothing.
    pub fn after(self, c: char, heeds_parentheses: bool) -> Nesting
        requires { self.depth < 2 ^ 64 - 1 }
        ensures nesting { result ≡ open_after heeds_parentheses self c }
        ensures depth { result.depth ≤ self.depth + 1 }
    {
        let quote = quote_after(self.quote, c);
        let mut depth = self.depth;
        if heeds_parentheses && self.quote.is_none() {
            depth = depth_after(depth, c);
        }
        Nesting { quote, depth }
    }
}

fn quote_after(quote: Option<char>, c: char) -> Option<char>
    ensures { result ≡ quote_after quote c }
{
    match quote {
        None => {
            if matches!(c, '"' | '\'') {
                Some(c)
            } else {
                None
            }
        }
        Some(quote) => { if c == quote { None } else { Some(quote) } }
    }
}

fn depth_after(depth: usize, c: char) -> usize
    requires { depth < 2 ^ 64 - 1 }
    ensures depth { result ≡ depth_after depth c }
    ensures small { result ≤ depth + 1 }
{
    match c {
        '(' => depth + 1,
        ')' => depth.saturating_sub(1),
        _ => depth,
    }
}

/// Whether the text is cut at this character.
fn is_cut(separator: Separator, nesting: Nesting, c: char) -> bool
    ensures { result ≡ is_cut separator nesting c }
{
    nesting.is_outside() && separator.separates(c)
}

/// What stands before the first separator outside quotes and parentheses, and what stands behind it.
pub(crate) fn cut(text: &str, separator: Separator) -> Option<(&str, &str)>
    ensures piece_text { IfSome result (λ parts. IsUtf8 parts.0.now) }
    ensures behind_text { IfSome result (λ parts. IsUtf8 parts.1.now) }
    ensures cut { IfSome result (λ parts. pieces separator (chars text.now) ≡ chars parts.0.now ∷ pieces separator (chars parts.1.now)) }
    ensures shorter { IfSome result (λ parts. length parts.1.now < length text.now) }
    ensures whole { IfNone result (pieces separator (chars text.now) ≡ chars text.now ∷ []) }
{
    let heeds_parentheses = separator.heeds_parentheses();
    let mut nesting = Nesting {
        quote: None,
        depth: 0,
    };
    let mut rest = text;
    'scanning: while let Some((c, behind)) = cut_first(rest) {
        if is_cut(separator, nesting, c) {
            return Some((front_of(text, rest), behind));
        }
        nesting = nesting.after(c, heeds_parentheses);
        rest = behind;
    }
    None
}

/// The text without this end of it.
fn front_of<'a>(text: &'a str, end: &str) -> &'a str
    requires fits { length end.now ≤ length text.now }
    requires end { drop (length text.now - length end.now) text.now ≡ end.now }
    ensures { chars text.now ≡ chars result.now ++ chars end.now }
{
    let (front, _) = text.split_at(text.len() - end.len());
    front
}
