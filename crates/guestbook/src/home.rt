//! The guest book's rule of hosts, and a test of its own that answers by it.
ghost use Rattle.std.specs.Prelude.{◌≡◌, IfOk, codes};
ghost use Rattle.pur_uripolicy.specs.HostRules.{admits, is_under};
ghost use Rattle.guestbook.specs.Home.{home};

use pur_uri::Uri;
use pur_uripolicy::HostRule;
use std::alloc::{AllocError, Global};

// The rule of hosts.
pub fn home_rule(alloc: Global) -> Result<HostRule, AllocError>
    ensures { IfOk result (λ rule. rule ≡ home) }
{
    let host = String::from_str(alloc, "guests.example")?;
    Ok(HostRule::new(Vec::new(alloc), Some(host), false))
}

// Whether a URI has no host, or leads to the guest book's own host or one below it.
#[tactic(auto, unfolding(pur_uripolicy::specs::HostRules::admits))]
pub fn leads_home(uri: &Uri) -> bool
    ensures { result ≡ admits home uri.now }
{
    match uri.host() {
        Some(host) => is_home(host.as_bytes()),
        None => true,
    }
}

// Whether a host is the guest book's own or one below it.
#[tactic(auto, unfolding(pur_uripolicy::specs::HostRules::is_under))]
fn is_home(host: &[u8]) -> bool
    ensures { result ≡ is_under host.now (codes "guests.example") }
{
    host == b"guests.example".as_slice() || host.ends_with(b".guests.example")
}
