//! Which URIs may stand in a value, by the settings and the gate.
ghost use Rattle.std.specs.Prelude.{◌≡◌, IfOk};
ghost use Rattle.std.specs.Str.{chars};
ghost use Rattle.pur_uripolicy.specs.Admissible.{is_fit, is_permitted, uri_under};

use crate::gate::{UriGate, UriTest};
use crate::uses::UriUse;
use pur_names::SchemeName;
use pur_settings::Settings;
use pur_uri::{Uri, canon};
use std::alloc::{AllocError, Global};

/// The URI that a value is read as, where it may stand in a value of this use: its scheme is absent, or is permitted by the
/// settings and fits the use, and the gate admits it. None where the value has no reading, or isn't admissible.
///
/// The error is want of memory.
///
/// Source: RFC 3986, for the reading.
pub fn read_uri<F: UriTest>(
    alloc: Global,
    settings: &Settings,
    gate: &UriGate<F>,
    purpose: UriUse,
    raw: &str,
) -> Result<Option<Uri>, AllocError>
    ensures { IfOk result (λ uri. uri ≡ uri_under settings.now gate.now purpose (chars raw.now)) }
{
    match canon(alloc, raw)? {
        Some(uri) => {
            if is_fit(settings, gate, purpose, &uri) {
                Ok(Some(uri))
            } else {
                Ok(None)
            }
        }
        None => Ok(None),
    }
}

// Whether the URI may stand in a value of this use: its scheme is absent, or is permitted and fits the use, and the gate
// admits it.
#[tactic(auto, unfolding(crate::specs::Admissible::is_fit))]
fn is_fit<F: UriTest>(settings: &Settings, gate: &UriGate<F>, purpose: UriUse, uri: &Uri) -> bool
    ensures { result ≡ is_fit settings.now gate.now purpose uri.now }
{
    is_permitted(settings, uri.scheme()) && purpose.fits(uri.scheme()) && gate.admit(uri)
}

// Whether the settings permit the scheme, if there is one.
fn is_permitted(settings: &Settings, scheme: Option<SchemeName>) -> bool
    ensures { result ≡ is_permitted settings.now scheme }
{
    match scheme {
        Some(scheme) => settings.permits_scheme(scheme),
        None => true,
    }
}
