//! What becomes of the attributes of an element.
ghost use Rattle.std.specs.Prelude.{◌≡◌, Bool, not, IfOk, OnOk, option_map};
ghost use Rattle.std.specs.Str.{chars};
ghost use Rattle.pur_attrlist.specs.Pairs.{attribute_of};
ghost use Rattle.pur_attrlist.specs.Texts.{text_of};
ghost use Rattle.pur_uri.specs.Uris.{PlainUri, uri_text};
ghost use Rattle.pur_absolute.specs.Absolute.{absolute_attribute, absolute_attributes, absolute_on, absolute_text, absolute_uri, absolute_value, is_missed, is_required, where_allowed};
ghost use Rattle.pur_absolute.specs.Private.Parts.{with_one};
ghost use Rattle.pur_absolute.specs.Rules.{AnswersAs};

use crate::styles::absolute_style;
use pur_attrlist::{AttrList, Pair};
use pur_modules::required;
use pur_names::{Attr, Element};
use pur_resolve::{Base, resolve};
use pur_uri::{Uri, canon, text_is_canonical, uri_is_canonical};
use pur_uripolicy::{SiteGate, SiteRule, UriTest};
use std::alloc::{AllocError, Global};

/// The attributes of an element, absolute and allowed; none where one goes that the element must have.
///
/// The error is want of memory.
pub(crate) fn absolute_attributes<R: SiteRule, F: UriTest>(
    alloc: Global,
    base: &Base,
    site: &SiteGate<R, F>,
    element: Element,
    attrs: AttrList,
) -> Result<Option<AttrList>, AllocError>
    ensures { IfOk result (λ found. (allows : PlainUri → Bool) → AnswersAs (R.allows site.now) allows
        → found ≡ absolute_attributes allows base.now element attrs) }
{
    let mut kept = AttrList::new(alloc);
    for pair in attrs.into_pairs()? {
        if !keep(alloc, base, site, element, pair, &mut kept)? {
            return Ok(None);
        }
    }
    Ok(Some(kept))
}

// Puts what becomes of an attribute behind those before it, and tells whether the element can stay.
fn keep<R: SiteRule, F: UriTest>(
    alloc: Global,
    base: &Base,
    site: &SiteGate<R, F>,
    element: Element,
    pair: Pair,
    kept: &mut AttrList,
) -> Result<bool, AllocError>
    ensures kept { OnOk result ((allows : PlainUri → Bool) → AnswersAs (R.allows site.now) allows
        → kept.new ≡ with_one kept.old (absolute_attribute allows base.now (attribute_of pair))) }
    ensures stays { IfOk result (λ stays. (allows : PlainUri → Bool) → AnswersAs (R.allows site.now) allows
        → stays ≡ not (is_missed allows base.now element (attribute_of pair))) }
{
    let Pair { name, value } = pair;
    match absolute_value(alloc, base, site, name.as_str(), value)? {
        Some(value) => {
            kept.push_if_new(name, value)?;
            Ok(true)
        }
        None => Ok(!is_required(element, name.as_str())),
    }
}

// Whether the element must have the attribute of this name.
#[tactic(auto, unfolding(crate::specs::Absolute::is_required))]
fn is_required(element: Element, name: &str) -> bool
    ensures { result ≡ is_required element (chars name.now) }
{
    required(element).iter().any(|attr| name == attr.name())
}

// What becomes of a value, by the name of its attribute.
fn absolute_value<R: SiteRule, F: UriTest>(
    alloc: Global,
    base: &Base,
    site: &SiteGate<R, F>,
    name: &str,
    value: String,
) -> Result<Option<String>, AllocError>
    ensures { IfOk result (λ found. (allows : PlainUri → Bool) → AnswersAs (R.allows site.now) allows
        → option_map text_of found ≡ absolute_value allows base.now (chars name.now, text_of value)) }
{
    match Attr::from_name(name) {
        Some(attr) => absolute_on(alloc, base, site, attr, value),
        None => Ok(Some(value)),
    }
}

fn absolute_on<R: SiteRule, F: UriTest>(
    alloc: Global,
    base: &Base,
    site: &SiteGate<R, F>,
    attr: Attr,
    value: String,
) -> Result<Option<String>, AllocError>
    ensures { IfOk result (λ found. (allows : PlainUri → Bool) → AnswersAs (R.allows site.now) allows
        → option_map text_of found ≡ absolute_on allows base.now attr (text_of value)) }
{
    match attr {
        Attr::Action | Attr::Cite | Attr::Href | Attr::Longdesc | Attr::Src => {
            absolute_text(alloc, base, site, value.as_str())
        }
        Attr::Style => absolute_style(alloc, base, site, value.as_str()),
        _ => Ok(Some(value)),
    }
}

// The text of what a reference means, where that is allowed.
fn absolute_text<R: SiteRule, F: UriTest>(
    alloc: Global,
    base: &Base,
    site: &SiteGate<R, F>,
    text: &str,
) -> Result<Option<String>, AllocError>
    ensures { IfOk result (λ found. (allows : PlainUri → Bool) → AnswersAs (R.allows site.now) allows
        → option_map text_of found ≡ absolute_text allows base.now (chars text.now)) }
{
    match absolute_uri(alloc, base, site, text)? {
        Some(uri) => {
            let text = uri_text(alloc, &uri)?;
            Ok(Some(text))
        }
        None => Ok(None),
    }
}

// The text of a URI, which has ASCII characters alone.
fn uri_text(alloc: Global, uri: &Uri) -> Result<String, AllocError>
    ensures { IfOk result (λ text. text_of text ≡ uri_text uri.now) }
{
    text_is_canonical();
    uri.write(alloc)
}

/// What a reference means, where that is allowed; none where the text is no reference.
///
/// The error is want of memory.
pub(crate) fn absolute_uri<R: SiteRule, F: UriTest>(
    alloc: Global,
    base: &Base,
    site: &SiteGate<R, F>,
    text: &str,
) -> Result<Option<Uri>, AllocError>
    ensures { IfOk result (λ found. (allows : PlainUri → Bool) → AnswersAs (R.allows site.now) allows
        → found ≡ absolute_uri allows base.now (chars text.now)) }
{
    match canon(alloc, text)? {
        Some(uri) => {
            let meant = resolve(alloc, base, &uri)?;
            Ok(where_allowed(site, meant))
        }
        None => Ok(None),
    }
}

// The URI, where the site's rule allows it.
fn where_allowed<R: SiteRule, F: UriTest>(site: &SiteGate<R, F>, uri: Uri) -> Option<Uri>
    ensures { (allows : PlainUri → Bool) → AnswersAs (R.allows site.now) allows → result ≡ where_allowed allows uri }
{
    uri_is_canonical(&uri);
    if site.admit(&uri) { Some(uri) } else { None }
}
