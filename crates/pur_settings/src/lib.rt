//! What a site configures: the settings, read from a TOML text or left at their defaults. Reading tells the first
//! offence of a text in the order of its keys' bytes, and each getter answers what the text says. What is
//! permitted is looked up in tables, so it costs the same however long the text's lists are.

#![tactic(auto)]

mod editions;
mod faults;
mod items;
mod name_set;
mod prefixes;
mod reading;
mod site_settings;
mod sorts;

pub use faults::SettingsFault;
pub use site_settings::Settings;
