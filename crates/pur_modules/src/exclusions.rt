//! Which elements must not stand in which.

ghost use Rattle.std.specs.Prelude.{◌≡◌, List, []};
ghost use Rattle.pur_modules.specs.Contents.{is_excluded, is_excluded_in};
ghost use Rattle.pur_modules.specs.Excluders.{excluders_of, is_excluded_by, no_excluders, with_excluder};
ghost use Rattle.pur_names.specs.declared.elements.Element.{Element};

use pur_names::Element::{
    self, A, Big, Button, Fieldset, Font, Form, Img, Input, Label, Pre, Select, Small, Sub, Sup,
    Textarea,
};

/// Whether `inner` must not stand in `outer`, at any depth.
///
/// Source: XHTML 1.0, appendix B; that `font` must not stand in `pre`, and `a` in `button`, at any depth is this
/// filter's own.
pub fn excludes(outer: Element, inner: Element) -> bool
    ensures { result ≡ is_excluded outer inner }
{
    match outer {
        A => matches!(inner, A),
        Pre => matches!(inner, Img | Big | Small | Sub | Sup | Font),
        Form => matches!(inner, Form),
        Label => matches!(inner, Label),
        Button => matches!(
            inner,
            A | Input | Select | Textarea | Label | Button | Form | Fieldset
        ),
        _ => false,
    }
}

/// Which of the elements that exclude others stand round a place.
///
/// Source: XHTML 1.0, appendix B.
#[derive(Clone, Copy, PartialEq, Eq, Debug)]
pub struct Excluders {
    anchor: bool,
    preformatted: bool,
    form: bool,
    label: bool,
    button: bool,
}

impl Excluders {
    /// Where nothing stands round.
    pub fn none() -> Excluders
        ensures { result ≡ excluders_of [] }
    {
        Excluders {
            anchor: false,
            preformatted: false,
            form: false,
            label: false,
            button: false,
        }
    }

    /// Inside of one more element.
    pub fn inside(self, element: Element) -> Excluders
        ensures { result ≡ with_excluder element self }
    {
        Excluders {
            anchor: Element::A.is_same(element) || self.anchor,
            preformatted: Element::Pre.is_same(element) || self.preformatted,
            form: Element::Form.is_same(element) || self.form,
            label: Element::Label.is_same(element) || self.label,
            button: Element::Button.is_same(element) || self.button,
        }
    }

    /// Whether one of them excludes the element.
    pub fn exclude(self, inner: Element) -> bool
        ensures value { result ≡ is_excluded_by self inner }
        ensures among { (outer : List Element) → self ≡ excluders_of outer → result ≡ is_excluded_in outer inner }
    {
        self.has_one_for(inner)
    }

    fn has_one_for(self, inner: Element) -> bool
        ensures { result ≡ is_excluded_by self inner }
    {
        (self.anchor && excludes(A, inner))
            || (self.preformatted && excludes(Pre, inner))
            || (self.form && excludes(Form, inner))
            || (self.label && excludes(Label, inner))
            || (self.button && excludes(Button, inner))
    }
}
