//! The base that references are resolved against.
ghost use Rattle.std.specs.Prelude.{◌≡◌, IfOk, IfSome, IsTrue, option_map, vec_items};
ghost use Rattle.idna.specs.Uts46.{domain_to_ascii};
ghost use Rattle.pur_uri.specs.Images.{plain_place};
ghost use Rattle.pur_uri.specs.Laws.{HasBytes};
ghost use Rattle.pur_uri.specs.Splitting.{are_bytes, tidied};
ghost use Rattle.pur_uri.specs.Uris.{IsCanonical};
ghost use Rattle.pur_resolve.specs.Bases.{IsBase, ascii_host, ascii_text, ascii_text_of, base_in, base_of, is_base_scheme};

use crate::dots::without_dots;
use crate::laws::bases_are_canonical;
use crate::resolving::uri_of;
use idna::{AsciiDenyList, Errors, domain_to_ascii_cow};
use pur_names::SchemeName;
use pur_uri::{
    PlacedHost, Uri, canon_bytes, host_place, places_have_bytes, tidied, uri_is_canonical,
};
use std::alloc::{AllocError, Global};
use std::marker::Model;

/// An absolute URI of the scheme `http`, `https` or `ftp`, without dot segments and without a fragment. [`read_base`] alone makes
/// one.
#[derive(Drop)]
pub struct Base {
    uri: Uri,
}

impl Model for Base {
    ghost use Rattle.pur_uri.specs.Uris.{PlainUri};
    ghost use Rattle.pur_resolve.specs.Bases.{IsBase};

    ghost Value = { PlainUri };

    ghost view = { λ base. base.uri };

    ghost invariant = { λ base. IsBase base.uri };
}

impl Base {
    /// The base as a URI.
    pub fn uri(&self) -> &Uri
        ensures { result.now ≡ self.now }
    {
        &self.uri
    }
}

/// Each base is absolute, and a canonical URI. A law of the type, as the contract of a function that does nothing.
pub fn base_is_absolute(base: &Base)
    ensures base { IsBase base.now }
    ensures canonical { IsCanonical base.now }
{
    // Whoever reads a field knows the invariant.
    uri_is_canonical(&base.uri);
}

/// The base that a text names, or none: for a text of more than 1,024 bytes, one that has no reading once its host is in ASCII,
/// and any other scheme than `http`, `https` and `ftp`.
///
/// The host is put into ASCII as UTS #46 says (ToASCII, with no more letters denied), unless it begins with `[`. The whole text is
/// read after that. Dot segments and the fragment are dropped.
///
/// The error is want of memory.
#[tactic(auto, unfolding(crate::specs::Bases::base_of))]
pub fn read_base(alloc: Global, raw: &str) -> Result<Option<Base>, AllocError>
    ensures { IfOk result (λ found. found ≡ base_of raw.now) }
{
    if raw.len() > 1024 {
        return Ok(None);
    }
    match changed_text(alloc, raw)? {
        Some(text) => match canon_bytes(alloc, text.as_slice())? {
            Some(uri) => base_in(alloc, &uri),
            None => Ok(None),
        },
        None => Ok(None),
    }
}

/// The tidied text with its host in ASCII, where it has a host that has such a form.
#[tactic(auto, unfolding(crate::specs::Bases::ascii_text))]
fn changed_text(alloc: Global, raw: &str) -> Result<Option<Vec<u8>>, AllocError>
    ensures text { IfOk result (λ found. option_map vec_items found ≡ ascii_text (tidied raw.now)) }
    ensures bytes { IfOk result (λ found. IfSome found (λ text. IsTrue (are_bytes text.items))) }
{
    places_have_bytes();
    let text = tidied(alloc, raw.as_bytes())?;
    match host_place(text.as_slice()) {
        Some(place) => with_ascii_host(alloc, place),
        None => Ok(None),
    }
}

fn with_ascii_host(alloc: Global, place: PlacedHost<'_>) -> Result<Option<Vec<u8>>, AllocError>
    requires { HasBytes (plain_place place) }
    ensures text { IfOk result (λ found. option_map vec_items found ≡ ascii_text_of (plain_place place.entry)) }
    ensures bytes { IfOk result (λ found. IfSome found (λ text. IsTrue (are_bytes text.items))) }
{
    match ascii_host(alloc, place.host)? {
        Some(host) => {
            let mut text = Vec::from_slice(alloc, place.before)?;
            text.extend_from_slice(host.as_slice())?;
            text.extend_from_slice(place.port)?;
            text.extend_from_slice(place.behind)?;
            Ok(Some(text))
        }
        None => Ok(None),
    }
}

/// The host in ASCII, where it has such a form. An IPv6 address stays as it is.
#[tactic(auto, unfolding(crate::specs::Bases::ascii_host))]
fn ascii_host(alloc: Global, host: &[u8]) -> Result<Option<Vec<u8>>, AllocError>
    requires { IsTrue (are_bytes host.now) }
    ensures text { IfOk result (λ found. option_map vec_items found ≡ ascii_host host.now) }
    ensures bytes { IfOk result (λ found. IfSome found (λ text. IsTrue (are_bytes text.items))) }
{
    match host {
        [b'[', ..] => {
            let text = Vec::from_slice(alloc, host)?;
            Ok(Some(text))
        }
        _ => named_host(alloc, host),
    }
}

fn named_host(alloc: Global, host: &[u8]) -> Result<Option<Vec<u8>>, AllocError>
    ensures text { IfOk result (λ found. option_map vec_items found ≡ domain_to_ascii AsciiDenyList.EMPTY host.now) }
    ensures bytes { IfOk result (λ found. IfSome found (λ text. IsTrue (are_bytes text.items))) }
{
    match domain_to_ascii_cow(alloc, host, AsciiDenyList::EMPTY) {
        Ok(text) => {
            let owned = text.into_owned(alloc)?;
            Ok(Some(owned.into_bytes()))
        }
        Err(Errors::Invalid) => Ok(None),
        Err(Errors::OutOfMemory) => Err(AllocError),
    }
}

/// The URI as a base, if its scheme is one of a base.
fn base_in(alloc: Global, uri: &Uri) -> Result<Option<Base>, AllocError>
    ensures { IfOk result (λ found. found ≡ base_in uri.now) }
{
    if !is_base_scheme(uri.scheme()) {
        return Ok(None);
    }
    uri_is_canonical(uri);
    bases_are_canonical();
    let path = without_dots(alloc, uri.path())?;
    let uri = uri_of(
        alloc,
        uri.scheme(),
        uri.host(),
        uri.port(),
        path.as_str(),
        uri.query(),
        None,
    )?;
    Ok(Some(Base { uri }))
}

fn is_base_scheme(scheme: Option<SchemeName>) -> bool
    ensures { result ≡ is_base_scheme scheme }
{
    matches!(
        scheme,
        Some(SchemeName::Http | SchemeName::Https | SchemeName::Ftp)
    )
}
