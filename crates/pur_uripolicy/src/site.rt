//! The rule of hosts that settings give.
ghost use Rattle.std.specs.Prelude.{◌≡◌, IfOk, IfSome, map, option_map, option_copied, string_bytes};
ghost use Rattle.pur_uripolicy.specs.HostRules.{rule_of};

use crate::rule::HostRule;
use pur_settings::Settings;
use std::alloc::{AllocError, Global};

/// The rule of hosts of a site: the denied hosts, the site's own, and whether others may be linked to, as the settings tell.
///
/// The hosts are copied, since a rule keeps its own. The error is want of memory.
pub fn host_rule(alloc: Global, settings: &Settings) -> Result<HostRule, AllocError>
    ensures { IfOk result (λ rule. rule ≡ rule_of settings.now) }
{
    let denied = copied(alloc, settings.denied_hosts())?;
    let host = match settings.host() {
        Some(host) => {
            let copy = String::from_str(alloc, host)?;
            Some(copy)
        }
        None => None,
    };
    Ok(HostRule::new(denied, host, settings.external()))
}

// A copy of each host.
fn copied(alloc: Global, hosts: &[String]) -> Result<Vec<String>, AllocError>
    ensures { IfOk result (λ copies. map string_bytes copies.items ≡ map string_bytes hosts.now) }
{
    let mut copies = Vec::new(alloc);
    for host in hosts {
        let copy = String::from_str(alloc, host.as_str())?;
        copies.push(copy)?;
    }
    Ok(copies)
}
