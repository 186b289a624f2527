//! A site's rule on schemes.
ghost use Rattle.std.specs.Prelude.{◌≡◌};
ghost use Rattle.pur_uripolicy.specs.SchemeRules.{is_secure, allows_scheme};

use crate::site_gate::SiteRule;
use pur_names::SchemeName;
use pur_uri::Uri;
use std::marker::Model;

/// The rule that allows every URI, or, where it is secure, those of the schemes `https`, `mailto`, `news` and `tel` alone.
#[derive(Drop)]
pub struct SchemeRule {
    secure: bool,
}

impl Model for SchemeRule {
    ghost use Rattle.std.specs.Prelude.{Bool};

    ghost Value = { Bool };

    ghost view = { λ rule. rule.secure };
}

impl SiteRule for SchemeRule {
    ghost use Rattle.std.specs.Prelude.{IsTrue};
    ghost use Rattle.pur_uripolicy.specs.SchemeRules.{allows_scheme};

    ghost allows = { λ secure uri. IsTrue (allows_scheme secure uri) };
}

impl SchemeRule {
    /// The rule; `secure` tells whether it allows the secure schemes alone.
    pub fn new(secure: bool) -> SchemeRule
        ensures { result ≡ secure }
    {
        SchemeRule { secure }
    }

    /// Whether the rule allows the URI.
    #[tactic(auto, unfolding(crate::specs::SchemeRules::allows_scheme))]
    pub fn allows(&self, uri: &Uri) -> bool
        ensures { result ≡ allows_scheme self.now uri.now }
    {
        !self.secure || is_secure(uri.scheme())
    }
}

/// Whether nobody on the way can read or change what is behind the scheme, or it leads to no page.
fn is_secure(scheme: Option<SchemeName>) -> bool
    ensures { result ≡ is_secure scheme }
{
    matches!(
        scheme,
        Some(SchemeName::Https | SchemeName::Mailto | SchemeName::News | SchemeName::Tel)
    )
}
