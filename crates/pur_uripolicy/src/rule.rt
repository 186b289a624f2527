//! The rule of hosts.
ghost use Rattle.std.specs.Prelude.{◌≡◌, ◌||◌, IsTrue, map, is_some, option_map, string_bytes, true, false};
ghost use Rattle.std.specs.List.{list_all};
ghost use Rattle.std.specs.Option.{option_map_or};
ghost use Rattle.pur_text.specs.Hosts.{is_host};
ghost use Rattle.pur_uripolicy.specs.HostRules.{PlainHostRule, in_order, is_under, admits, admits_host};

use crate::hosts::{is_under, is_under_any};
use pur_uri::Uri;
use std::marker::Model;

/// Which hosts may be linked to: not the denied ones, and, where `external` is false, the site's own alone. A subdomain
/// goes with its domain.
#[derive(Drop)]
pub struct HostRule {
    // in the order of their bytes; a repeat stays, and changes nothing
    denied: Vec<String>,
    host: Option<String>,
    external: bool,
}

impl Model for HostRule {
    ghost use Rattle.std.specs.Prelude.{map, option_map, string_bytes};
    ghost use Rattle.std.specs.List.Sorted.{IsSorted};
    ghost use Rattle.std.specs.String.{string_cmp};
    ghost use Rattle.pur_uripolicy.specs.HostRules.{PlainHostRule, in_order};

    ghost Value = { PlainHostRule };

    ghost view = { λ rule. record { denied = in_order (map string_bytes rule.denied.items); host = option_map string_bytes rule.host; external = rule.external } };

    ghost invariant = { λ rule. IsSorted string_cmp rule.denied.items };
}

impl HostRule {
    /// The rule that refuses the denied hosts, and where `external` is false all but the site's own host.
    ///
    /// All are canonical hosts (`pur_text::is_host` tells), since no other text is the host of a URI. The denied hosts are
    /// sorted where they stand; no memory is taken.
    pub fn new(mut denied: Vec<String>, host: Option<String>, external: bool) -> HostRule
        requires denied { IsTrue (list_all is_host (map string_bytes denied.items)) }
        requires host { IsTrue (option_map_or is_host (option_map string_bytes host) true) }
        requires own { IsTrue (external || is_some host) }
        ensures { result ≡ record { denied = in_order (map string_bytes denied.items); host = option_map string_bytes host; external = external } }
    {
        denied.sort_unstable();
        HostRule {
            denied,
            host,
            external,
        }
    }

    /// Whether the URI may be linked to. One without a host may; of the others, the host is no denied one and no subdomain
    /// of one, and where `external` is false it is the site's own host or a subdomain of it.
    #[tactic(auto, unfolding(crate::specs::HostRules::admits))]
    pub fn admits(&self, uri: &Uri) -> bool
        ensures { result ≡ admits self.now uri.now }
    {
        match uri.host() {
            Some(host) => self.admits_host(host.as_bytes()),
            None => true,
        }
    }

    #[tactic(auto, unfolding(crate::specs::HostRules::admits_host))]
    fn admits_host(&self, host: &[u8]) -> bool
        ensures { result ≡ admits_host self.now host.now }
    {
        !is_under_any(host, self.denied.as_slice()) && (self.external || is_own(&self.host, host))
    }
}

fn is_own(own: &Option<String>, host: &[u8]) -> bool
    ensures { result ≡ option_map_or (is_under host.now) (option_map string_bytes own.now) false }
{
    match own {
        Some(own) => is_under(host, own.as_bytes()),
        None => false,
    }
}
