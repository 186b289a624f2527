//! A rule on URIs that a site writes itself, and the closure that answers by it.
ghost use Rattle.std.specs.Prelude.{◌≡◌, ◌↔◌, IsTrue};
ghost use Rattle.pur_uripolicy.specs.Asking.{AnswersFor};

use crate::gate::UriTest;
use pur_uri::{Uri, uri_is_canonical};
use std::marker::Model;

/// What a site allows of URIs. The rule has a meaning and no call: whoever works with a rule that he doesn't know learns what
/// it allows from the closure alone.
pub trait SiteRule {
    ghost use Rattle.pur_uri.specs.Uris.{PlainUri};

    ghost allows: { Self → PlainUri → Type 0 };
}

/// A site's own rule and a closure that answers by it. The closure decides about each URI; that it may be asked about every
/// URI and answers as the rule does is known wherever the gate is.
#[derive(Drop)]
pub struct SiteGate<R: SiteRule, F: UriTest> {
    rule: R,
    filter: F,
}

impl<R: SiteRule, F: UriTest> Model for SiteGate<R, F> {
    ghost use Rattle.pur_uripolicy.specs.Asking.{AnswersFor};

    ghost Value = { R };

    ghost view = { λ gate. gate.rule };

    ghost invariant = { λ gate. AnswersFor F.may_ask F.answers gate.filter (R.allows gate.rule) };
}

impl<R: SiteRule, F: UriTest> SiteGate<R, F> {
    /// The gate of a rule and of a closure that answers by it.
    pub fn new(rule: R, filter: F) -> SiteGate<R, F>
        requires { AnswersFor F.may_ask F.answers filter (R.allows rule) }
        ensures { result ≡ rule }
    {
        SiteGate { rule, filter }
    }

    /// The closure's answer about the URI, which is the rule's.
    pub fn admit(&self, uri: &Uri) -> bool
        ensures { IsTrue result ↔ R.allows self.now uri.now }
    {
        uri_is_canonical(uri);
        self.filter.ask(uri)
    }
}
