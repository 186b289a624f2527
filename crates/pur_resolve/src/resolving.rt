//! What a reference means where a base is.
ghost use Rattle.std.specs.Prelude.{◌≡◌, IfOk, string_bytes};
ghost use Rattle.pur_uri.specs.Images.{part_of};
ghost use Rattle.pur_uri.specs.Authorities.{is_default_port};
ghost use Rattle.pur_uri.specs.Uris.{IsCanonical};
ghost use Rattle.pur_resolve.specs.Resolving.{settled_path, with_settled_path, port_under, under_scheme, path_under, query_under, under_host, resolved};

use crate::base::{Base, base_is_absolute};
use crate::dots::{merged, without_dots};
use crate::laws::resolved_is_canonical;
use pur_names::SchemeName;
use pur_uri::{Uri, uri_is_canonical};
use std::alloc::{AllocError, Global};

/// What the reference means where the base is: an absolute URI, which has no dot segments. What it is is the same wherever it is
/// resolved again.
///
/// The error is want of memory.
pub fn resolve(alloc: Global, base: &Base, uri: &Uri) -> Result<Uri, AllocError>
    ensures { IfOk result (λ found. found ≡ resolved base.now uri.now) }
{
    base_is_absolute(base);
    uri_is_canonical(uri);
    resolved_is_canonical();
    if uri.scheme().is_some() {
        with_settled_path(alloc, uri)
    } else if uri.host().is_some() {
        under_scheme(alloc, base.uri(), uri)
    } else {
        under_host(alloc, base.uri(), uri)
    }
}

fn with_settled_path(alloc: Global, uri: &Uri) -> Result<Uri, AllocError>
    requires { IsCanonical (with_settled_path uri.now) }
    ensures { IfOk result (λ found. found ≡ with_settled_path uri.now) }
{
    let path = settled_path(alloc, uri.host(), uri.path())?;
    let found = uri_of(
        alloc,
        uri.scheme(),
        uri.host(),
        uri.port(),
        path.as_str(),
        uri.query(),
        uri.fragment(),
    )?;
    Ok(found)
}

fn under_scheme(alloc: Global, base: &Uri, uri: &Uri) -> Result<Uri, AllocError>
    requires { IsCanonical (under_scheme base.now uri.now) }
    ensures { IfOk result (λ found. found ≡ under_scheme base.now uri.now) }
{
    let path = settled_path(alloc, uri.host(), uri.path())?;
    let found = uri_of(
        alloc,
        base.scheme(),
        uri.host(),
        port_under(base.scheme(), uri.port()),
        path.as_str(),
        uri.query(),
        uri.fragment(),
    )?;
    Ok(found)
}

fn under_host(alloc: Global, base: &Uri, uri: &Uri) -> Result<Uri, AllocError>
    requires { IsCanonical (under_host base.now uri.now) }
    ensures { IfOk result (λ found. found ≡ under_host base.now uri.now) }
{
    let path = path_under(alloc, base.path(), uri.path())?;
    let found = uri_of(
        alloc,
        base.scheme(),
        base.host(),
        base.port(),
        path.as_str(),
        query_under(base.query(), uri.path(), uri.query()),
        uri.fragment(),
    )?;
    Ok(found)
}

/// The URI of parts that are those of a canonical one.
pub(crate) fn uri_of(
    alloc: Global,
    scheme: Option<SchemeName>,
    host: Option<&str>,
    port: Option<u16>,
    path: &str,
    query: Option<&str>,
    fragment: Option<&str>,
) -> Result<Uri, AllocError>
    requires { IsCanonical (record { scheme = scheme; host = part_of host; port = port; path = path.now; query = part_of query; fragment = part_of fragment }) }
    ensures { IfOk result (λ uri. uri
        ≡ record { scheme = scheme; host = part_of host.entry; port = port; path = path.now; query = part_of query.entry; fragment = part_of fragment.entry }) }
{
    let found = Uri::from_parts(alloc, scheme, host, port, path, query, fragment)?;
    Ok(found.unwrap())
}

/// The path, without dot segments where it is behind a host.
fn settled_path(alloc: Global, host: Option<&str>, path: &str) -> Result<String, AllocError>
    ensures { IfOk result (λ out. string_bytes out ≡ settled_path (part_of host.entry) path.now) }
{
    match host {
        Some(_) => without_dots(alloc, path),
        None => String::from_str(alloc, path),
    }
}

/// The port, unless it is the scheme's own.
fn port_under(scheme: Option<SchemeName>, port: Option<u16>) -> Option<u16>
    ensures { result ≡ port_under scheme port }
{
    match port {
        Some(number) if is_default_port(scheme, number) => None,
        _ => port,
    }
}

fn is_default_port(scheme: Option<SchemeName>, port: u16) -> bool
    ensures { result ≡ is_default_port scheme port }
{
    match scheme {
        Some(SchemeName::Http) => port == 80,
        Some(SchemeName::Https) => port == 443,
        Some(SchemeName::Ftp) => port == 21,
        _ => false,
    }
}

/// The path that a reference without a host leads to.
fn path_under(alloc: Global, base: &str, path: &str) -> Result<String, AllocError>
    ensures { IfOk result (λ out. string_bytes out ≡ path_under base.now path.now) }
{
    if path.is_empty() {
        String::from_str(alloc, base)
    } else if path.starts_with('/') {
        without_dots(alloc, path)
    } else {
        let joined = merged(alloc, base, path)?;
        without_dots(alloc, joined.as_str())
    }
}

/// The reference's query; the base's where the reference has neither a path nor a query.
fn query_under<'a>(base: Option<&'a str>, path: &str, query: Option<&'a str>) -> Option<&'a str>
    ensures { part_of result ≡ query_under (part_of base.entry) path.now (part_of query.entry) }
{
    match query {
        None if path.is_empty() => base,
        _ => query,
    }
}
