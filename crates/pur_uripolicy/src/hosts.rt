//! Hosts and their subdomains.
ghost use Rattle.std.specs.Prelude.{◌≡◌, ◌∷◌, nat_eq, map, string_bytes};
ghost use Rattle.std.specs.List.{list_any, ends_with};
ghost use Rattle.std.specs.List.Sorted.{IsSorted};
ghost use Rattle.std.specs.String.{string_cmp};
ghost use Rattle.std.specs.Str.{bytes_eq};
ghost use Rattle.pur_uripolicy.specs.HostRules.{in_order, is_under};

/// Whether the host is the domain or ends in a dot and the domain.
#[tactic(auto, unfolding(crate::specs::HostRules::is_under))]
pub(crate) fn is_under(host: &[u8], domain: &[u8]) -> bool
    ensures { result ≡ is_under host.now domain.now }
{
    host == domain || is_subdomain(host, domain)
}

/// Whether the host ends in a dot and the domain.
fn is_subdomain(host: &[u8], domain: &[u8]) -> bool
    ensures { result ≡ ends_with nat_eq host.now (0x2E ∷ domain.now) }
{
    if host.len() <= domain.len() {
        return false;
    }
    let dot = host.len() - domain.len() - 1;
    host[dot] == b'.' && host.ends_with(domain)
}

/// Whether the host is one of the domains or ends in a dot and one of them. The domains are sorted: the host and what is
/// behind each of its dots are looked up by halving, so the work grows with the host's length and barely with their number.
pub(crate) fn is_under_any(host: &[u8], domains: &[String]) -> bool
    requires { IsSorted string_cmp domains.now }
    ensures { result ≡ list_any (is_under host.now) (in_order (map string_bytes domains.now)) }
{
    if is_among(host, domains) {
        return true;
    }
    let mut rest = host;
    while let [byte, behind @ ..] = rest {
        let is_dot = *byte == b'.';
        if is_dot && is_among(behind, domains) {
            return true;
        }
        rest = behind;
    }
    false
}

/// Whether the name is one of the sorted names.
fn is_among(name: &[u8], names: &[String]) -> bool
    requires { IsSorted string_cmp names.now }
    ensures { result ≡ list_any (bytes_eq name.now) (map string_bytes names.now) }
{
    names
        .binary_search_by(|other| other.as_bytes().cmp(name))
        .is_ok()
}
