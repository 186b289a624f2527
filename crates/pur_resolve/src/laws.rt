//! Laws of resolving, each as the contract of a function that does nothing.
ghost use Rattle.std.specs.Prelude.{◌≡◌, IsTrue, is_some};
ghost use Rattle.pur_uri.specs.Uris.{PlainUri, IsCanonical};
ghost use Rattle.pur_resolve.specs.Bases.{IsBase, as_base, is_base_scheme};
ghost use Rattle.pur_resolve.specs.Resolving.{resolved};

use pur_uri::{canonical_by_parts, slashes_part_paths};

/// What was resolved has a scheme, and is left as it is when it is resolved again.
pub fn resolving_settles()
    ensures absolute { (base uri : PlainUri) → IsBase base → IsTrue (is_some (resolved base uri).scheme) }
    ensures again { (base uri : PlainUri) → IsBase base → resolved base (resolved base uri) ≡ resolved base uri }
{}

/// What is resolved of canonical URIs is canonical.
pub fn resolved_is_canonical()
    ensures { (base uri : PlainUri) → IsBase base → IsCanonical base → IsCanonical uri → IsCanonical (resolved base uri) }
{
    canonical_by_parts();
    slashes_part_paths();
}

/// A canonical URI of a base's scheme, without its fragment and its dot segments, is a base and canonical.
pub(crate) fn bases_are_canonical()
    ensures base { (uri : PlainUri) → IsCanonical uri → IsTrue (is_base_scheme uri.scheme) → IsBase (as_base uri) }
    ensures canonical { (uri : PlainUri) → IsCanonical uri → IsTrue (is_base_scheme uri.scheme) → IsCanonical (as_base uri) }
{
    canonical_by_parts();
    slashes_part_paths();
}
