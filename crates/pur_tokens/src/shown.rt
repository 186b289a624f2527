//! What is shown of a fragment: texts, and tags of elements, by element and no more by name.

ghost use Rattle.std.specs.Prelude.{◌≡◌, [], ◌∷◌, IfOk, OnErr};
ghost use Rattle.std.specs.Option.{option_map};
ghost use Rattle.pur_attrlist.specs.Texts.{text_of};
ghost use Rattle.pur_tokens.specs.Joining.{join_token, token_given};
ghost use Rattle.pur_tokens.specs.Shown.{plain_shown};
ghost use Rattle.pur_tokens.specs.Tokens.{text_token};

use crate::joiner::Joins;
use pur_attrlist::AttrList;
use pur_names::Element;
use std::alloc::AllocError;

/// The element and the attributes of a start tag or of an empty tag.
#[derive(Drop)]
pub struct ShownTag {
    /// The element that the tag names.
    pub element: Element,
    /// The attributes.
    pub attrs: AttrList,
}

/// A piece of what is shown: a text, or a tag of an element.
#[derive(Drop)]
pub enum Shown {
    /// Characters between tags.
    Text(String),
    /// A start tag.
    Start(ShownTag),
    /// An end tag.
    End(Element),
    /// A tag that begins and ends an element without content.
    Empty(ShownTag),
}

impl Joins for Shown {
    ghost use Rattle.pur_tokens.specs.Shown.{plain_shown};

    ghost says = { plain_shown };

    fn join(&mut self, next: Shown) -> Result<Option<Shown>, AllocError> {
        match next {
            Shown::Text(text) => join_text(self, text),
            other => Ok(Some(other)),
        }
    }
}

// The same of a text.
fn join_text(shown: &mut Shown, text: String) -> Result<Option<Shown>, AllocError>
    ensures ok { IfOk result (λ left. join_token (plain_shown shown.old) (text_token (text_of text) ∷ [])
        ≡ plain_shown shown.new ∷ token_given (option_map plain_shown left)) }
    ensures err { OnErr result (plain_shown shown.new ≡ plain_shown shown.old) }
{
    if let Shown::Text(run) = shown {
        run.push_str(text.as_str())?;
        return Ok(None);
    }
    Ok(Some(Shown::Text(text)))
}
