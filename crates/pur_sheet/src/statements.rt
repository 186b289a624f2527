//! Where a statement of a sheet ends, and where a rule's block begins.
ghost use Rattle.std.specs.Prelude.{◌≡◌, ◌∷◌, ◌++◌, ◌<◌, ◌≤◌, ◌+◌, ◌-◌, ◌^◌, ◌==◌, ◌&&◌, [], length, true, false, IfSome, IfNone, Some, None};
ghost use Rattle.pur_text.specs.Characters.{is_space};
ghost use Rattle.pur_csstok.specs.Cuts.{is_outside, nothing_open};
ghost use Rattle.pur_sheet.specs.Statements.{brackets_after, braces_after, no_brackets, ends_block, ends_at_rule, rule_of, statements_of};
ghost use Rattle.pur_sheet.specs.Private.Reading.{reading_after, reading_ends, reading_from};
ghost use Rattle.pur_sheet.specs.Private.Words.{size_of};

use crate::texts::cut_first;
use pur_csstok::Nesting;
use pur_text::is_space;

/// What is open at a place of a text: a quote, so many parentheses, and so many braces.
#[derive(Clone, Copy)]
pub(crate) struct Brackets {
    nesting: Nesting,
    braces: usize,
}

/// Where the reader of a statement stands: before a rule's block, in it, or in a statement that begins with `@`.
#[derive(Clone, Copy)]
pub(crate) enum Reading {
    Prelude(Nesting),
    Block(Brackets),
    AtRule(Brackets),
}

fn nothing_open() -> Nesting
    ensures { result ≡ nothing_open }
{
    Nesting {
        quote: None,
        depth: 0,
    }
}

fn no_brackets() -> Brackets
    ensures { result ≡ no_brackets }
{
    Brackets {
        nesting: nothing_open(),
        braces: 0,
    }
}

impl Brackets {
    /// What is open behind one more character.
    fn after(self, c: char) -> Brackets
        requires depth { self.nesting.depth < 2 ^ 64 - 1 }
        requires braces { self.braces < 2 ^ 64 - 1 }
        ensures brackets { result ≡ brackets_after self c }
        ensures depth { result.nesting.depth ≤ self.nesting.depth + 1 }
        ensures braces { result.braces ≤ self.braces + 1 }
    {
        let mut braces = self.braces;
        if self.nesting.is_outside() {
            braces = braces_after(braces, c);
        }
        let nesting = self.nesting.after(c, true);
        Brackets { nesting, braces }
    }

    fn ends_block(&self, c: char) -> bool
        ensures { result ≡ ends_block self.now c }
    {
        self.nesting.is_outside() && self.braces == 0 && c == '}'
    }

    fn ends_at_rule(&self, c: char) -> bool
        ensures { result ≡ ends_at_rule self.now c }
    {
        self.nesting.is_outside()
            && ((self.braces == 0 && c == ';') || (self.braces == 1 && c == '}'))
    }
}

fn braces_after(braces: usize, c: char) -> usize
    requires { braces < 2 ^ 64 - 1 }
    ensures braces { result ≡ braces_after braces c }
    ensures small { result ≤ braces + 1 }
{
    match c {
        '{' => braces + 1,
        '}' => braces.saturating_sub(1),
        _ => braces,
    }
}

/// Whether a rule's block begins behind this character.
fn opens_block(nesting: Nesting, c: char) -> bool
    ensures { result ≡ (is_outside nesting && c == 0x7B) }
{
    nesting.is_outside() && c == '{'
}

impl Reading {
    /// Behind the first character of a statement.
    fn start(c: char) -> Reading
        ensures reading { result ≡ reading_from c }
        ensures small { size_of result ≤ 1 }
    {
        if c == '@' {
            Reading::AtRule(no_brackets())
        } else {
            Reading::Prelude(nothing_open()).after(c)
        }
    }

    fn after(self, c: char) -> Reading
        requires { size_of self < 2 ^ 64 - 1 }
        ensures reading { result ≡ reading_after self c }
        ensures small { size_of result ≤ size_of self + 1 }
    {
        match self {
            Reading::Prelude(nesting) => {
                if opens_block(nesting, c) {
                    Reading::Block(no_brackets())
                } else {
                    Reading::Prelude(nesting.after(c, false))
                }
            }
            Reading::Block(brackets) => Reading::Block(brackets.after(c)),
            Reading::AtRule(brackets) => Reading::AtRule(brackets.after(c)),
        }
    }

    /// Whether this character ends the statement.
    fn ends(&self, c: char) -> bool
        ensures { result ≡ reading_ends self.now c }
    {
        match self {
            Reading::Prelude(_) => false,
            Reading::Block(brackets) => brackets.ends_block(c),
            Reading::AtRule(brackets) => brackets.ends_at_rule(c),
        }
    }
}

/// The first statement of the text, without its last character, and what stands behind that.
pub(crate) fn next_statement(text: &[char]) -> Option<(&[char], &[char])>
    ensures cut { IfSome result (λ parts. statements_of text.now ≡ parts.0.now ∷ statements_of parts.1.now) }
    ensures shorter { IfSome result (λ parts. length parts.1.now < length text.now) }
    ensures last { IfNone result (statements_of text.now ≡ []) }
{
    let mut rest = text;
    'skipping: while let Some((c, behind)) = cut_first(rest) {
        if !is_space(c) {
            return cut_statement(rest, c, behind);
        }
        rest = behind;
    }
    None
}

/// The statement that this text begins, by its first character and what stands behind it.
fn cut_statement<'a>(
    text: &'a [char],
    first: char,
    behind: &'a [char],
) -> Option<(&'a [char], &'a [char])>
    requires text { text.now ≡ first ∷ behind.now }
    requires first { is_space first ≡ false }
    ensures cut { IfSome result (λ parts. statements_of text.now ≡ parts.0.now ∷ statements_of parts.1.now) }
    ensures shorter { IfSome result (λ parts. length parts.1.now < length text.now) }
    ensures last { IfNone result (statements_of text.now ≡ []) }
{
    let mut reading = Reading::start(first);
    let mut rest = behind;
    'reading: while let Some((c, after)) = cut_first(rest) {
        if reading.ends(c) {
            let (statement, _) = text.split_at(text.len() - rest.len());
            return Some((statement, after));
        }
        reading = reading.after(c);
        rest = after;
    }
    None
}

/// The prelude of the rule that the text writes, and its block.
pub(crate) fn cut_rule(text: &[char]) -> Option<(&[char], &[char])>
    ensures rule { IfSome result (λ parts. rule_of text.now ≡ Some (record { prelude = parts.0.now; block = parts.1.now })) }
    ensures none { IfNone result (rule_of text.now ≡ None) }
{
    let mut nesting = nothing_open();
    let mut rest = text;
    'reading: while let Some((c, behind)) = cut_first(rest) {
        if opens_block(nesting, c) {
            let (prelude, _) = text.split_at(text.len() - rest.len());
            return Some((prelude, behind));
        }
        nesting = nesting.after(c, false);
        rest = behind;
    }
    None
}
