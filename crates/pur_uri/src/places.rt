//! Where the host of a reference stands.
ghost use Rattle.std.specs.Prelude.{◌≡◌, option_map};
ghost use Rattle.pur_uri.specs.Images.{plain_place};
ghost use Rattle.pur_uri.specs.Places.{host_place};

use crate::authorities::{cut_host, without_user};
use crate::splitting::{cut_authority, cut_scheme};

/// A reference that is cut at its host.
#[derive(Clone, Copy)]
pub struct PlacedHost<'a> {
    /// What is in front: the scheme, `//` and user information.
    pub before: &'a [u8],
    /// The host as it stands.
    pub host: &'a [u8],
    /// What is behind the host in the authority, as a port.
    pub port: &'a [u8],
    /// What is behind the authority.
    pub behind: &'a [u8],
}

/// Cuts a reference at its host; none where it has no authority. It has to be [`tidied`](crate::tidied), as [`canon`](crate::canon)
/// tidies a text before it cuts it.
pub fn host_place(text: &[u8]) -> Option<PlacedHost<'_>>
    ensures { option_map plain_place result ≡ host_place text.now }
{
    let (_, located) = cut_scheme(text);
    let (authority, behind) = cut_authority(located);
    match authority {
        Some(authority) => {
            let named = without_user(authority);
            let (before, _) = text.split_at(text.len() - (named.len() + behind.len()));
            let (host, port) = cut_host(named);
            Some(PlacedHost {
                before,
                host,
                port,
                behind,
            })
        }
        None => None,
    }
}
