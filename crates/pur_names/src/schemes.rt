//! The URI schemes that the filter knows.

ghost use Rattle.std.specs.Prelude.{◌≡◌, Some, IfSome, IfNone};
ghost use Rattle.pur_names.specs.Schemes.{scheme_name, scheme_named};
ghost use Rattle.pur_names.specs.declared.schemes.SchemeName.{SchemeName};

/// A scheme of a URI that the filter reads.
///
/// A variant is the scheme's name with its first letter in upper case.
///
/// Source: RFC 3986, section 3.1, and the registered schemes `http`, `https`, `ftp`, `mailto`, `nntp`, `news`, `tel`.
#[derive(Clone, Copy, PartialEq, Eq, Debug)]
pub enum SchemeName {
    Http,
    Https,
    Ftp,
    Mailto,
    Nntp,
    News,
    Tel,
}

impl SchemeName {
    /// Looks a name up. Names are in lower case, and are compared to the letter.
    pub fn from_name(name: &str) -> Option<Self>
        ensures value { result ≡ scheme_named name.now }
        ensures some { IfSome result (λ found. scheme_name found ≡ name.now) }
        ensures none { IfNone result ((s : SchemeName) → scheme_name s ≡ name.now → ⊥) }
        ensures inverse { (s : SchemeName) → scheme_name s ≡ name.now → result ≡ Some s }
    {
        spelled(name)
    }

    /// The scheme's name in lower case, without the colon.
    pub fn name(self) -> &'static str
        ensures { result.now ≡ scheme_name self }
    {
        match self {
            SchemeName::Http => "http",
            SchemeName::Https => "https",
            SchemeName::Ftp => "ftp",
            SchemeName::Mailto => "mailto",
            SchemeName::Nntp => "nntp",
            SchemeName::News => "news",
            SchemeName::Tel => "tel",
        }
    }
}

// The one with this name: a short list of texts is read as fast as a tree over letters.
fn spelled(name: &str) -> Option<SchemeName>
    ensures some { IfSome result (λ found. scheme_name found ≡ name.now) }
    ensures none { IfNone result ((s : SchemeName) → scheme_name s ≡ name.now → ⊥) }
{
    match name {
        "http" => Some(SchemeName::Http),
        "https" => Some(SchemeName::Https),
        "ftp" => Some(SchemeName::Ftp),
        "mailto" => Some(SchemeName::Mailto),
        "nntp" => Some(SchemeName::Nntp),
        "news" => Some(SchemeName::News),
        "tel" => Some(SchemeName::Tel),
        _ => None,
    }
}
