//! The tokens that stay.

ghost use Rattle.std.specs.Prelude.{◌≡◌, ℕ, ◌∷◌, ◌++◌, List, [], map, Some, IfOk, OnOk};
ghost use Rattle.pur_attrlist.specs.Texts.{text_of};
ghost use Rattle.pur_tokens.specs.Tokens.{PlainToken, plain_token};
ghost use Rattle.pur_attrlist.specs.Attributes.{Attribute};
ghost use Rattle.pur_names.specs.Elements.{element_name, element_named};
ghost use Rattle.pur_tokens.specs.Shown.{plain_shown, shown_given};
ghost use Rattle.pur_foreign.specs.Removal.{element_in, attributes_in, is_admitted, tag_image, end_image, image_of, without_foreign};
ghost use Rattle.pur_uripolicy.specs.Admissible.{has_source};
ghost use Rattle.pur_uripolicy.specs.HostRules.{PlainHostRule};
ghost use Rattle.pur_foreign.specs.Keeping.{tags_kept, ends_kept, kept_behind};
ghost use Rattle.pur_settings.specs.Rules.{Rules};

use crate::strict::{strict_attributes, strict_element};
use pur_attrlist::AttrList;
use pur_modules::Doctype;
use pur_names::Element;
use pur_settings::Settings;
use pur_tokens::{Joiner, Shown, ShownTag, Tag, Token};
use pur_uripolicy::{UriGate, UriTest, UriUse, read_uri};
use std::alloc::{AllocError, Global};
use std::marker::Model;
use std::mem;

/// Removes foreign elements from a list of tokens: comments and hidden content, the tags of elements that the settings
/// don't permit, and each `img` whose `src` isn't there or may not be embedded: it must be read as a URI, its scheme must be
/// permitted or absent and be one that a browser fetches, and the gate must admit it. In Strict the elements that Transitional
/// alone has give way to others with a style. Texts that become neighbours are joined.
///
/// Takes one pass over the list. The error is want of memory; nothing is said of the list then.
///
/// Source: the first strategy of HTML Purifier.
pub fn remove_foreign<F: UriTest>(
    alloc: Global,
    settings: &Settings,
    gate: &UriGate<F>,
    tokens: &mut Vec<Token>,
) -> Result<(), AllocError>
    ensures { OnOk result (map plain_token tokens.new.items ≡ without_foreign settings.now gate.now (map plain_token tokens.old.items)) }
{
    let mut removal = Removal::new();
    let all = mem::replace(tokens, Vec::new(alloc));
    for token in all {
        put_token(alloc, settings, gate, &mut removal, token, tokens)?;
    }
    let last = removal.finish();
    push_given(alloc, tokens, last)?;
    Ok(())
}

// Takes the next token, and puts what is known to stay behind the others.
fn put_token<F: UriTest>(
    alloc: Global,
    settings: &Settings,
    gate: &UriGate<F>,
    removal: &mut Removal,
    token: Token,
    tokens: &mut Vec<Token>,
) -> Result<(), AllocError>
    ensures { OnOk result ((more : List PlainToken) → map plain_token tokens.new.items ++ kept_behind settings.now gate.now removal.new more
        ≡ map plain_token tokens.old.items ++ kept_behind settings.now gate.now removal.old (plain_token token ∷ more)) }
{
    let given = removal.put(alloc, settings, gate, token)?;
    push_given(alloc, tokens, given)?;
    Ok(())
}

// Puts what is given, if something is, behind the others.
fn push_given(
    alloc: Global,
    tokens: &mut Vec<Token>,
    given: Option<Shown>,
) -> Result<(), AllocError>
    ensures { OnOk result (map plain_token tokens.new.items ≡ map plain_token tokens.old.items ++ shown_given given) }
{
    if let Some(shown) = given {
        let token = named(alloc, shown)?;
        tokens.push(token)?;
    }
    Ok(())
}

// The token that says the same, by the name of its element.
fn named(alloc: Global, shown: Shown) -> Result<Token, AllocError>
    ensures { IfOk result (λ token. plain_token token ≡ plain_shown shown) }
{
    match shown {
        Shown::Text(text) => Ok(Token::Text(text)),
        Shown::Start(tag) => Ok(Token::Start(named_tag(alloc, tag)?)),
        Shown::End(element) => Ok(Token::End(name_of(alloc, element)?)),
        Shown::Empty(tag) => Ok(Token::Empty(named_tag(alloc, tag)?)),
    }
}

// The tag by the name of its element.
fn named_tag(alloc: Global, tag: ShownTag) -> Result<Tag, AllocError>
    ensures name { IfOk result (λ named. text_of named.name ≡ element_name tag.element) }
    ensures attrs { IfOk result (λ named. named.attrs ≡ tag.attrs) }
{
    let name = name_of(alloc, tag.element)?;
    Ok(Tag {
        name,
        attrs: tag.attrs,
    })
}

// The name of an element, as a text.
fn name_of(alloc: Global, element: Element) -> Result<String, AllocError>
    ensures { IfOk result (λ name. text_of name ≡ element_name element) }
{
    String::from_str(alloc, element.name())
}

/// Removes foreign elements from tokens that come one at a time, as `remove_foreign` does from a list.
///
/// Holds the last token that stays back, since a text joins one that comes behind it. Contracts see that token.
#[derive(Drop)]
pub struct Removal {
    joiner: Joiner<Shown>,
}

impl Model for Removal {
    ghost use Rattle.std.specs.Prelude.{Option};
    ghost use Rattle.pur_tokens.specs.Tokens.{PlainToken};

    ghost Value = { Option PlainToken };

    ghost view = { λ removal. removal.joiner };
}

impl Removal {
    /// A removal before all tokens. It takes no memory.
    pub fn new() -> Removal
        ensures { (rules : Rules) (rule : PlainHostRule) (tokens : List PlainToken) → kept_behind rules rule result tokens ≡ without_foreign rules rule tokens }
    {
        Removal {
            joiner: Joiner::new(),
        }
    }

    /// Takes the next token, and gives the next of those that stay, if that is known.
    ///
    /// The error is want of memory; nothing is said of the removal then.
    pub fn put<F: UriTest>(
        &mut self,
        alloc: Global,
        settings: &Settings,
        gate: &UriGate<F>,
        token: Token,
    ) -> Result<Option<Shown>, AllocError>
        ensures { IfOk result (λ given. (more : List PlainToken) →
            kept_behind settings.now gate.now self.old (plain_token token ∷ more) ≡ shown_given given ++ kept_behind settings.now gate.now self.new more) }
    {
        let kept = kept_token(alloc, settings, gate, token)?;
        match kept {
            Some(shown) => {
                let given = self.joiner.put(shown)?;
                Ok(given)
            }
            None => Ok(None),
        }
    }

    /// Gives the last token that stays, behind all others.
    pub fn finish(self) -> Option<Shown>
        ensures { (rules : Rules) (rule : PlainHostRule) → kept_behind rules rule self [] ≡ shown_given result }
    {
        let mut joiner = self.joiner;
        joiner.take()
    }
}

// What stays of a token.
fn kept_token<F: UriTest>(
    alloc: Global,
    settings: &Settings,
    gate: &UriGate<F>,
    token: Token,
) -> Result<Option<Shown>, AllocError>
    ensures { IfOk result (λ kept. shown_given kept ≡ image_of settings.now gate.now (plain_token token)) }
{
    match token {
        Token::Text(text) => Ok(Some(Shown::Text(text))),
        Token::Start(tag) => match kept_tag(alloc, settings, gate, tag)? {
            Some(tag) => Ok(Some(Shown::Start(tag))),
            None => Ok(None),
        },
        Token::Empty(tag) => match kept_tag(alloc, settings, gate, tag)? {
            Some(tag) => Ok(Some(Shown::Empty(tag))),
            None => Ok(None),
        },
        Token::End(name) => match kept_end(settings, name) {
            Some(element) => Ok(Some(Shown::End(element))),
            None => Ok(None),
        },
        Token::Hidden { .. } | Token::Comment(_) => Ok(None),
    }
}

// What stays of a start tag or an empty tag.
fn kept_tag<F: UriTest>(
    alloc: Global,
    settings: &Settings,
    gate: &UriGate<F>,
    tag: Tag,
) -> Result<Option<ShownTag>, AllocError>
    ensures { IfOk result (λ kept. (make : List ℕ → List Attribute → PlainToken) →
        tags_kept make kept ≡ tag_image settings.now gate.now make (element_named (text_of tag.name)) tag.attrs) }
{
    let Tag { name, attrs } = tag;
    let element = match Element::from_name(name.as_str()) {
        Some(element) => element,
        None => return Ok(None),
    };
    let doctype = settings.doctype();
    let kept = element_in(doctype, element);
    if !settings.permits(kept) {
        return Ok(None);
    }
    let attrs = attributes_in(alloc, doctype, element, attrs)?;
    let admitted = is_admitted(alloc, settings, gate, kept, &attrs)?;
    if !admitted {
        return Ok(None);
    }
    Ok(Some(ShownTag {
        element: kept,
        attrs,
    }))
}

// Whether what an element with these attributes shows can be admitted.
fn is_admitted<F: UriTest>(
    alloc: Global,
    settings: &Settings,
    gate: &UriGate<F>,
    element: Element,
    attrs: &AttrList,
) -> Result<bool, AllocError>
    ensures { IfOk result (λ admitted. admitted ≡ is_admitted settings.now gate.now element attrs.now) }
{
    match element {
        Element::Img => has_source(alloc, settings, gate, attrs),
        _ => Ok(true),
    }
}

// Whether the source of a picture is there and may be embedded.
fn has_source<F: UriTest>(
    alloc: Global,
    settings: &Settings,
    gate: &UriGate<F>,
    attrs: &AttrList,
) -> Result<bool, AllocError>
    ensures { IfOk result (λ has. has ≡ has_source settings.now gate.now attrs.now) }
{
    match attrs.get("src") {
        Some(source) => {
            let uri = read_uri(alloc, settings, gate, UriUse::Embed, source)?;
            Ok(uri.is_some())
        }
        None => Ok(false),
    }
}

// What stays of an end tag.
fn kept_end(settings: &Settings, name: String) -> Option<Element>
    ensures { ends_kept result ≡ end_image settings.now (element_named (text_of name)) }
{
    match Element::from_name(name.as_str()) {
        Some(element) => permitted_in_place(settings, element),
        None => None,
    }
}

// The element that stands for another, if it is permitted.
fn permitted_in_place(settings: &Settings, element: Element) -> Option<Element>
    ensures { ends_kept result ≡ end_image settings.now (Some element) }
{
    let kept = element_in(settings.doctype(), element);
    if !settings.permits(kept) {
        return None;
    }
    Some(kept)
}

// The element that stands for another in a doctype.
fn element_in(doctype: Doctype, element: Element) -> Element
    ensures { result ≡ element_in doctype element }
{
    match doctype {
        Doctype::Strict => strict_element(element),
        Doctype::Transitional => element,
    }
}

// The attributes that stand for those of an element in a doctype.
fn attributes_in(
    alloc: Global,
    doctype: Doctype,
    element: Element,
    attrs: AttrList,
) -> Result<AttrList, AllocError>
    ensures { IfOk result (λ changed. changed ≡ attributes_in doctype element attrs) }
{
    match doctype {
        Doctype::Strict => strict_attributes(alloc, element, attrs),
        Doctype::Transitional => Ok(attrs),
    }
}
