//! The style sheets of a page's tokens.
ghost use Rattle.std.specs.Prelude.{◌≡◌, ◌++◌, ◌∷◌, [], List, map, IfOk, OnOk};
ghost use Rattle.std.specs.Option.{option_map};
ghost use Rattle.std.specs.Str.{chars};
ghost use Rattle.pur_text.specs.Texts.{text_of};
ghost use Rattle.pur_tokens.specs.Tokens.{PlainToken, plain_token};
ghost use Rattle.pur_sheet.specs.Private.Bodies.{body_behind};
ghost use Rattle.pur_sheet.specs.Styles.{is_style, style_body, styles_of, styles_with};

use crate::texts::push_text;
use pur_tokens::Token;
use std::alloc::{AllocError, Global};
use std::marker::Model;

/// The style sheets of a page: the bodies of its `style` elements in order, with a line feed between two.
///
/// The error is want of memory.
pub fn styles(alloc: Global, tokens: &[Token]) -> Result<String, AllocError>
    ensures { IfOk result (λ text. text_of text ≡ styles_of (map plain_token tokens.now)) }
{
    let mut styles = StyleSheets::new(alloc);
    for token in tokens {
        styles.put(token)?;
    }
    Ok(styles.finish())
}

/// Takes the style sheets out of tokens that come one at a time, as [`styles`] does out of all.
///
/// Contracts see what was taken out so far.
#[derive(Drop)]
pub struct StyleSheets {
    text: String,
    begun: bool,
}

impl Model for StyleSheets {
    ghost use Rattle.pur_text.specs.Texts.{text_of};
    ghost use Rattle.pur_sheet.specs.Styles.{TakenStyles};

    ghost Value = { TakenStyles };

    ghost view = { λ styles. record { text = text_of styles.text; begun = styles.begun } };
}

impl StyleSheets {
    /// The style sheets in front of all tokens: none.
    pub fn new(alloc: Global) -> StyleSheets
        ensures { (more : List PlainToken) → styles_with result more ≡ styles_of more }
    {
        StyleSheets {
            text: String::new(alloc),
            begun: false,
        }
    }

    /// Takes the next token.
    ///
    /// The error is want of memory, and what was taken out is then to be let go.
    pub fn put(&mut self, token: &Token) -> Result<(), AllocError>
        ensures { OnOk result ((more : List PlainToken) →
            styles_with self.new more ≡ styles_with self.old (plain_token token.now ∷ more)) }
    {
        if let Some(body) = body_of(token) {
            push_body(&mut self.text, self.begun, body)?;
            self.begun = true;
        }
        Ok(())
    }

    /// The style sheets of all tokens that came.
    pub fn finish(self) -> String
        ensures { text_of result ≡ styles_with self [] }
    {
        self.text
    }
}

fn push_body(text: &mut String, begun: bool, body: &str) -> Result<(), AllocError>
    ensures { OnOk result (text_of text.new ≡ text_of text.old ++ body_behind begun (chars body.now)) }
{
    if !begun {
        return push_text(text, body);
    }
    push_text(text, "\n")?;
    push_text(text, body)?;
    Ok(())
}

/// The body of a `style`.
fn body_of(token: &Token) -> Option<&str>
    ensures { option_map (λ body. chars body.now) result ≡ style_body (plain_token token.now) }
{
    match token {
        Token::Hidden { name, body } => {
            if is_style(name.as_str()) {
                Some(body.as_str())
            } else {
                None
            }
        }
        _ => None,
    }
}

/// Whether this names the element of a style sheet.
fn is_style(name: &str) -> bool
    ensures { result ≡ is_style (chars name.now) }
{
    name == "style"
}
