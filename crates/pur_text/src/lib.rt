//! Characters and texts: which characters a filtered text may have, how the bytes of an input become such a text, and
//! which texts are canonical hosts.
#![tactic(auto)]

mod addresses;
mod characters;
mod cleaning;
mod feeding;
mod hosts;
mod laws;
mod runs;
mod trimming;

pub use characters::{is_allowed, is_space, lower_ascii};
pub use cleaning::{clean, clean_if_needed};
pub use feeding::Cleaner;
pub use hosts::is_host;
pub use laws::{
    allowed_is_cleaned, cleaned_is_allowed, cleaning_goes_over_a_cut, cleaning_settles,
    host_is_lowered, host_is_plain,
};
pub use trimming::trim;
