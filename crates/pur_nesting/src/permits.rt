//! Which of the elements that repair puts in are permitted.

ghost use Rattle.std.specs.Prelude.{◌≡◌};
ghost use Rattle.pur_nesting.specs.Nesting.{permits_of};

use pur_names::Element;
use pur_settings::Settings;

/// Which of the elements that repair puts in are permitted.
#[derive(Clone, Copy)]
pub struct Permits {
    /// Whether a `p` may be put in.
    pub paragraph: bool,
    /// Whether a `thead` or `tfoot` may become a `tbody`.
    pub tbody: bool,
}

impl Permits {
    /// What settings permit.
    pub fn of(settings: &Settings) -> Permits
        ensures { result ≡ permits_of settings.now }
    {
        Permits {
            paragraph: settings.permits(Element::P),
            tbody: settings.permits(Element::Tbody),
        }
    }
}
