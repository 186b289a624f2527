//! The policy on URIs: which of them may stand in a value under a site's settings.
//!
//! A site says which hosts may be linked to and which schemes are permitted; a closure of the caller's is asked about each URI.
//! That the closure answers as the rule of hosts does is asked once and kept with it. All who judge a URI, removal, styles,
//! attributes and the judge, read it by [`read_uri`] and so ask the same. The rows are in pur_uri_rows.
#![tactic(auto)]

mod gate;
mod hosts;
mod laws;
mod reading;
mod rule;
mod scheme_rule;
mod site;
mod site_gate;
mod uses;

pub use gate::{UriGate, UriTest};
pub use laws::{uris_are_allowed, uris_are_read_again};
pub use reading::read_uri;
pub use rule::HostRule;
pub use scheme_rule::SchemeRule;
pub use site::host_rule;
pub use site_gate::{SiteGate, SiteRule};
pub use uses::UriUse;
