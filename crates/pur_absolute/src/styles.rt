//! What becomes of a style.
ghost use Rattle.std.specs.Prelude.{◌≡◌, ◌++◌, ◌∷◌, [], ◌==◌, ◌&&◌, Bool, IfOk, OnOk, option_map, if◌then◌else◌, Some, None};
ghost use Rattle.std.specs.List.{cons_option};
ghost use Rattle.std.specs.Option.{option_and_then};
ghost use Rattle.std.specs.Str.{chars};
ghost use Rattle.pur_attrlist.specs.Texts.{text_of};
ghost use Rattle.pur_csstok.specs.Declarations.{style_text};
ghost use Rattle.pur_csstok.specs.Urls.{url_text};
ghost use Rattle.pur_csstok.specs.Written.{pair_of};
ghost use Rattle.pur_uri.specs.Laws.{has_comment};
ghost use Rattle.pur_uri.specs.Uris.{PlainUri, uri_text};
ghost use Rattle.pur_absolute.specs.Absolute.{absolute_declaration, absolute_declared, absolute_style, absolute_text, takes_url, url_in, url_without_comment};
ghost use Rattle.pur_absolute.specs.Rules.{AnswersAs};

use crate::attributes::absolute_uri;
use pur_csstok::{Declaration, read_url, split};
use pur_resolve::Base;
use pur_uri::{Uri, text_is_canonical};
use pur_uripolicy::{SiteGate, SiteRule, UriTest};
use std::alloc::{AllocError, Global};

/// The text of a style whose URLs are absolute and allowed; none where no declaration is left.
///
/// The error is want of memory.
pub(crate) fn absolute_style<R: SiteRule, F: UriTest>(
    alloc: Global,
    base: &Base,
    site: &SiteGate<R, F>,
    style: &str,
) -> Result<Option<String>, AllocError>
    ensures { IfOk result (λ found. (allows : PlainUri → Bool) → AnswersAs (R.allows site.now) allows
        → option_map text_of found ≡ absolute_style allows base.now (chars style.now)) }
{
    let declarations = split(alloc, style)?;
    let mut out = String::new(alloc);
    for declaration in &declarations {
        push_absolute(alloc, base, site, declaration, &mut out)?;
    }
    if out.is_empty() {
        return Ok(None);
    }
    Ok(Some(out))
}

// Adds what becomes of a declaration, and its `;`.
fn push_absolute<R: SiteRule, F: UriTest>(
    alloc: Global,
    base: &Base,
    site: &SiteGate<R, F>,
    declaration: &Declaration,
    out: &mut String,
) -> Result<(), AllocError>
    ensures { OnOk result ((allows : PlainUri → Bool) → AnswersAs (R.allows site.now) allows
        → text_of out.new ≡ text_of out.old ++ style_text (cons_option (absolute_declaration allows base.now (pair_of declaration.now)) [])) }
{
    if let Some(value) = absolute_declared(alloc, base, site, declaration)? {
        push_declaration(out, declaration.property.as_str(), value.as_str())?;
    }
    Ok(())
}

fn push_declaration(out: &mut String, property: &str, value: &str) -> Result<(), AllocError>
    ensures { OnOk result (text_of out.new ≡ text_of out.old ++ style_text ((chars property.now, chars value.now) ∷ [])) }
{
    out.push_str(property)?;
    out.push_str(":")?;
    out.push_str(value)?;
    out.push_str(";")?;
    Ok(())
}

// What becomes of a declaration's value.
fn absolute_declared<R: SiteRule, F: UriTest>(
    alloc: Global,
    base: &Base,
    site: &SiteGate<R, F>,
    declaration: &Declaration,
) -> Result<Option<String>, AllocError>
    ensures { IfOk result (λ found. (allows : PlainUri → Bool) → AnswersAs (R.allows site.now) allows
        → option_map text_of found ≡ absolute_declared allows base.now (pair_of declaration.now)) }
{
    match url_in(alloc, declaration)? {
        Some(url) => absolute_url(alloc, base, site, url.as_str()),
        None => {
            let same = String::from_str(alloc, declaration.value.as_str())?;
            Ok(Some(same))
        }
    }
}

// The text of the URL that the value of a declaration is, if it is one.
fn url_in(alloc: Global, declaration: &Declaration) -> Result<Option<String>, AllocError>
    ensures { IfOk result (λ url. option_map text_of url ≡ url_in (pair_of declaration.now)) }
{
    if !takes_url(declaration.property.as_str()) {
        return Ok(None);
    }
    read_url(alloc, declaration.value.as_str())
}

// Whether a value of the property may be a URL.
fn takes_url(property: &str) -> bool
    ensures { result ≡ takes_url (chars property.now) }
{
    property == "background-image" || property == "list-style-image"
}

// A URL, absolute and allowed, in `url()`.
fn absolute_url<R: SiteRule, F: UriTest>(
    alloc: Global,
    base: &Base,
    site: &SiteGate<R, F>,
    url: &str,
) -> Result<Option<String>, AllocError>
    ensures { IfOk result (λ found. (allows : PlainUri → Bool) → AnswersAs (R.allows site.now) allows
        → option_map text_of found ≡ option_and_then url_without_comment (absolute_text allows base.now (chars url.now))) }
{
    match absolute_uri(alloc, base, site, url)? {
        Some(uri) => url_without_comment(alloc, &uri),
        None => Ok(None),
    }
}

// A URI in `url()`, in double quotes, unless it would begin a comment.
fn url_without_comment(alloc: Global, uri: &Uri) -> Result<Option<String>, AllocError>
    ensures { IfOk result (λ found. option_map text_of found ≡ url_without_comment (uri_text uri.now)) }
{
    text_is_canonical();
    let address = uri.write(alloc)?;
    if has_comment(address.as_bytes()) {
        return Ok(None);
    }
    let mut url = String::new(alloc);
    url.push_str("url(\"")?;
    url.push_str(address.as_str())?;
    url.push_str("\")")?;
    Ok(Some(url))
}

// Whether `/*` stands in the text.
fn has_comment(text: &[u8]) -> bool
    ensures { result ≡ has_comment text.now }
{
    let mut after_slash = false;
    for byte in text {
        if begins_comment(after_slash, *byte) {
            return true;
        }
        after_slash = *byte == b'/';
    }
    false
}

// Whether a byte begins a comment with the one before it.
fn begins_comment(after_slash: bool, byte: u8) -> bool
    ensures { result ≡ (after_slash && byte == 0x2A) }
{
    after_slash && byte == b'*'
}
