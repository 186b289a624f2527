//! The tokens of a text.
ghost use Rattle.std.specs.Prelude.{◌≡◌, ◌<◌, ◌∷◌, ◌++◌, [], List, filter, length, map, not, IfOk, OnOk, OnErr, IfSome, IfNone};
ghost use Rattle.std.specs.Str.{chars};
ghost use Rattle.pur_tokens.specs.Joining.{joined, held_before, tokens_given, is_some_token};
ghost use Rattle.pur_tokens.specs.Tokens.{PlainToken, plain_token};
ghost use Rattle.pur_lexer.specs.Lexing.{given_behind, tokens_of};

use crate::constructs::cut_markup;
use crate::places::cut_at_character;
use pur_entities::decode;
use pur_tokens::{Joiner, Token};
use std::alloc::{AllocError, Global};
use std::marker::Model;

/// The tokens of a text, in order: texts, start tags, end tags, empty tags, hidden content, and comments.
///
/// Each text is what stands between two constructs, with its references read (XML 1.0, section 4.1), or the content of a
/// `<![CDATA[` as it stands; no text is empty, and no two texts are neighbours. Names are in lower case. What begins as a construct
/// and isn't ended is dropped, with all that follows; hidden content, of `script` and `style`, alone runs to the end.
///
/// The error is want of memory.
pub fn lex(alloc: Global, text: &str) -> Result<Vec<Token>, AllocError>
    ensures tokens { IfOk result (λ tokens. map plain_token tokens.items ≡ tokens_of (chars text.now)) }
{
    let mut lexer = Lexer::new(alloc, text);
    let mut tokens = Vec::new(alloc);
    read_all(&mut lexer, &mut tokens)?;
    Ok(tokens)
}

// Puts the tokens that a lexer has left behind others.
fn read_all(lexer: &mut Lexer, tokens: &mut Vec<Token>) -> Result<(), AllocError>
    ensures { OnOk result (map plain_token tokens.new.items ≡ map plain_token tokens.old.items ++ lexer.old) }
{
    'reading: while let Some(token) = lexer.next()? {
        tokens.push(token)?;
    }
    Ok(())
}

/// Gives the tokens of a text one at a time, as `lex` gives them all.
///
/// Contracts see the tokens that are left.
#[derive(Drop)]
pub struct Lexer<'a> {
    alloc: Global,
    joiner: Joiner<Token>,
    rest: &'a str,
}

impl<'a> Model for Lexer<'a> {
    ghost use Rattle.std.specs.Prelude.{List};
    ghost use Rattle.std.specs.Str.{chars};
    ghost use Rattle.pur_tokens.specs.Tokens.{PlainToken};
    ghost use Rattle.pur_lexer.specs.Private.Readings.{left_of};

    ghost Value = { List PlainToken };

    ghost view = { λ l. left_of l.joiner (chars l.rest.now) };
}

impl<'a> Lexer<'a> {
    /// A lexer before a text. It takes no memory.
    pub fn new(alloc: Global, text: &'a str) -> Lexer<'a>
        ensures { result ≡ tokens_of (chars text.now) }
    {
        Lexer {
            alloc,
            joiner: Joiner::new(),
            rest: text,
        }
    }

    /// The next token, or None where none is left.
    ///
    /// The error is want of memory, and the lexer is then as it was.
    pub fn next(&mut self) -> Result<Option<Token>, AllocError>
        ensures token { IfOk result (λ token. IfSome token (λ token. self.old ≡ plain_token token ∷ self.new)) }
        ensures end { IfOk result (λ token. IfNone token (self.old ≡ [])) }
        ensures err { OnErr result (self.new ≡ self.old) }
    {
        'reading: while !self.rest.is_empty() {
            let (token, behind) = cut_construct(self.alloc, self.rest)?;
            let given = put_some(&mut self.joiner, token)?;
            self.rest = behind;
            if let Some(token) = given {
                return Ok(Some(token));
            }
        }
        Ok(self.joiner.take())
    }
}

// The token of the construct that begins a text, if it has one, and the text behind it, whose constructs are all others.
fn cut_construct(alloc: Global, text: &str) -> Result<(Option<Token>, &str), AllocError>
    requires { 0 < length text.now }
    ensures shorter { IfOk result (λ cut. length cut.1.now < length text.now) }
    ensures given { IfOk result (λ cut. tokens_given cut.0 ++ given_behind 0 (chars cut.1.now) ≡ given_behind 0 (chars text.now)) }
{
    if let Some(markup) = text.strip_prefix('<') {
        let cut = cut_markup(alloc, markup)?;
        return Ok(cut);
    }
    let (run, behind) = cut_at_character(text, b'<');
    let read = decode(alloc, run)?;
    Ok((Some(Token::Text(read)), behind))
}

// Puts a token, if there is one and it is no empty text, and gives the next that is known.
fn put_some(joiner: &mut Joiner<Token>, token: Option<Token>) -> Result<Option<Token>, AllocError>
    ensures given { IfOk result (λ given. (more : List PlainToken) →
        held_before joiner.old (joined (filter is_some_token (tokens_given token ++ more)))
        ≡ tokens_given given ++ held_before joiner.new (joined (filter is_some_token more))) }
    ensures err { OnErr result (joiner.new ≡ joiner.old) }
{
    match token {
        Some(token) => {
            if is_empty_text(&token) {
                return Ok(None);
            }
            let given = joiner.put(token)?;
            Ok(given)
        }
        None => Ok(None),
    }
}

// Whether a token is a text without characters.
fn is_empty_text(token: &Token) -> bool
    ensures { result ≡ not (is_some_token (plain_token token.now)) }
{
    match token {
        Token::Text(text) => text.is_empty(),
        _ => false,
    }
}
