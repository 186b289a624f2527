// What is shown of tokens as they are read: names are looked up here.
ghost use Rattle.std.specs.Prelude.{◌≡◌, false, None, IfSome, IfNone};
ghost use Rattle.std.specs.Str.{chars};
ghost use Rattle.pur_attrlist.specs.Texts.{text_of};
ghost use Rattle.pur_names.specs.Elements.{element_name, element_named};
ghost use Rattle.pur_settings.specs.Rules.{Rules};
ghost use Rattle.pur_tokens.specs.Shown.{plain_shown};
ghost use Rattle.pur_tokens.specs.Tokens.{plain_token};
ghost use Rattle.pur_wellform.specs.Standing.{can_be_closed};

use pur_names::Element;
use pur_tokens::{Shown, ShownTag, Tag, Token};

// What is shown of a token, if it may be closed under any settings.
pub(crate) fn shown(token: Token) -> Option<Shown>
    ensures some { IfSome result (λ shown. plain_shown shown ≡ plain_token token) }
    ensures none { IfNone result ((rules : Rules) → can_be_closed rules (plain_token token) ≡ false) }
{
    match token {
        Token::Text(text) => Some(Shown::Text(text)),
        Token::Start(tag) => Some(Shown::Start(shown_tag(tag)?)),
        Token::End(name) => Some(Shown::End(named(name.as_str())?)),
        Token::Empty(tag) => Some(Shown::Empty(shown_tag(tag)?)),
        Token::Hidden { .. } | Token::Comment(_) => None,
    }
}

// The tag by its element, if its name is that of one.
fn shown_tag(tag: Tag) -> Option<ShownTag>
    ensures name { IfSome result (λ shown. element_name shown.element ≡ text_of tag.name) }
    ensures attrs { IfSome result (λ shown. shown.attrs ≡ tag.attrs) }
    ensures none { IfNone result (element_named (text_of tag.name) ≡ None) }
{
    let element = named(tag.name.as_str())?;
    Some(ShownTag {
        element,
        attrs: tag.attrs,
    })
}

// The element of a name, if it has one.
fn named(name: &str) -> Option<Element>
    ensures some { IfSome result (λ element. element_name element ≡ chars name.now) }
    ensures none { IfNone result (element_named (chars name.now) ≡ None) }
{
    Element::from_name(name)
}
