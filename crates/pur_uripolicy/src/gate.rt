//! The caller's closure, kept beside the rule that it answers by.
ghost use Rattle.std.specs.Prelude.{◌≡◌};
ghost use Rattle.pur_uripolicy.specs.HostRules.{admits};
ghost use Rattle.pur_uripolicy.specs.Asking.{AnswersBy};

use crate::rule::HostRule;
use pur_uri::{Uri, uri_is_canonical};
use std::marker::Model;

/// What may be asked about a URI: every closure from a URI to a `bool`.
pub trait UriTest {
    ghost use Rattle.std.specs.Prelude.{Bool};
    ghost use Rattle.pur_uri.specs.Uris.{PlainUri};

    ghost may_ask: { Self → PlainUri → Type 0 };

    ghost answers: { Self → PlainUri → Bool → Type 0 };

    /// The answer about the URI.
    fn ask(&self, uri: &Uri) -> bool
        requires { may_ask self.now uri.now }
        ensures { answers self.now uri.now result };
}

impl<F: Fn(&Uri) -> bool> UriTest for F {
    ghost use Rattle.std.specs.Prelude.{◌≡◌};
    ghost use Rattle.std.specs.Fn.{FnReturnsAt};

    ghost may_ask = { λ f uri. (p : _) → p.now ≡ uri → F.pre f p };

    ghost answers = { λ f uri answer. FnReturnsAt F.Fn f uri answer };

    fn ask(&self, uri: &Uri) -> bool {
        self(uri)
    }
}

/// A rule of hosts and a closure that answers by it. The closure decides about each URI; that it may be asked about every
/// URI and answers as the rule does is known wherever the gate is.
///
/// The rule is lent to the gate, so that the closure may look at the same one.
#[derive(Drop)]
pub struct UriGate<'r, F: UriTest> {
    rule: &'r HostRule,
    filter: F,
}

impl<'r, F: UriTest> Model for UriGate<'r, F> {
    ghost use Rattle.pur_uripolicy.specs.HostRules.{PlainHostRule, admits};
    ghost use Rattle.pur_uripolicy.specs.Asking.{AnswersBy};

    ghost Value = { PlainHostRule };

    ghost view = { λ gate. gate.rule.now };

    ghost invariant = { λ gate. AnswersBy F.may_ask F.answers gate.filter (admits gate.rule.now) };
}

impl<'r, F: UriTest> UriGate<'r, F> {
    /// The gate of a rule and of a closure that answers by it.
    pub fn new(rule: &'r HostRule, filter: F) -> UriGate<'r, F>
        requires { AnswersBy F.may_ask F.answers filter (admits rule.now) }
        ensures { result ≡ rule.now }
    {
        UriGate { rule, filter }
    }

    /// The closure's answer about the URI, which is the rule's.
    pub fn admit(&self, uri: &Uri) -> bool
        ensures { result ≡ admits self.now uri.now }
    {
        uri_is_canonical(uri);
        self.filter.ask(uri)
    }

    /// The rule that the gate keeps.
    pub fn rule(&self) -> &HostRule
        ensures { result.now ≡ self.now }
    {
        self.rule
    }
}
