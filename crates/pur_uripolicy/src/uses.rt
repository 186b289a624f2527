//! What a URI is used for.
ghost use Rattle.std.specs.Prelude.{◌≡◌};
ghost use Rattle.pur_uripolicy.specs.Admissible.{fits, takes};

use pur_names::SchemeName;

/// What a URI in a value is used for.
#[derive(Clone, Copy, PartialEq, Eq, Debug)]
pub enum UriUse {
    /// A reader may follow it: `href`, `cite`, `longdesc` and the links that are made of text.
    Link,
    /// A browser fetches it with the page: `src`, and the URLs of a style.
    Embed,
}

impl UriUse {
    /// Whether a URI of the scheme, or without one, fits the use: for a link all do; for what is embedded `http`, `https`,
    /// `ftp` and none do.
    pub fn fits(self, scheme: Option<SchemeName>) -> bool
        ensures { result ≡ fits self scheme }
    {
        match scheme {
            Some(scheme) => self.takes(scheme),
            None => true,
        }
    }

    fn takes(self, scheme: SchemeName) -> bool
        ensures { result ≡ takes self scheme }
    {
        match self {
            UriUse::Link => true,
            UriUse::Embed => matches!(
                scheme,
                SchemeName::Http | SchemeName::Https | SchemeName::Ftp
            ),
        }
    }
}
