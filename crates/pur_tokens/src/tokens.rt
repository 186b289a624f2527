//! What the text of a fragment is cut into.

ghost use Rattle.std.specs.Prelude.{◌≡◌, [], ◌∷◌, IfOk, OnErr};
ghost use Rattle.std.specs.Option.{option_map};
ghost use Rattle.pur_attrlist.specs.Texts.{text_of};
ghost use Rattle.pur_tokens.specs.Joining.{join_token, token_given};
ghost use Rattle.pur_tokens.specs.Tokens.{plain_token, text_token};

use crate::joiner::Joins;
use pur_attrlist::AttrList;
use std::alloc::AllocError;

/// The name and the attributes of a start tag or of an empty tag.
#[derive(Drop)]
pub struct Tag {
    /// The name as it was written, in lower case.
    pub name: String,
    /// The attributes. Of equal names the first was kept.
    pub attrs: AttrList,
}

/// A piece of a fragment: a text, a tag, or what is never shown.
///
/// Source: XML 1.0, section 2.4, and HTML 4.01, sections 3.2 and B.3.
#[derive(Drop)]
pub enum Token {
    /// Characters between tags, with references read.
    Text(String),
    /// A start tag.
    Start(Tag),
    /// An end tag, by its name in lower case.
    End(String),
    /// A tag that begins and ends an element without content.
    Empty(Tag),
    /// A script or a style sheet: the name of its tag, and its body as it stands, with no reference read.
    Hidden {
        /// `script` or `style`.
        name: String,
        /// What stands behind the start tag, up to the mark that begins its end tag; up to the end of the text, where no
        /// such mark follows.
        body: String,
    },
    /// A comment, a declaration or a processing instruction.
    Comment(String),
}

impl Joins for Token {
    ghost use Rattle.pur_tokens.specs.Tokens.{plain_token};

    ghost says = { plain_token };

    fn join(&mut self, next: Token) -> Result<Option<Token>, AllocError> {
        match next {
            Token::Text(text) => join_text(self, text),
            other => Ok(Some(other)),
        }
    }
}

// The same of a text.
fn join_text(token: &mut Token, text: String) -> Result<Option<Token>, AllocError>
    ensures ok { IfOk result (λ left. join_token (plain_token token.old) (text_token (text_of text) ∷ [])
        ≡ plain_token token.new ∷ token_given (option_map plain_token left)) }
    ensures err { OnErr result (plain_token token.new ≡ plain_token token.old) }
{
    if let Token::Text(run) = token {
        run.push_str(text.as_str())?;
        return Ok(None);
    }
    Ok(Some(Token::Text(text)))
}
