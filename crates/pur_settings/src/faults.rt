//! Why a settings text isn't taken.

use thiserror::Error;

/// Why a settings text isn't taken: its first offence, in the order of the bytes of its keys, or else the
/// conflict that its settings are in.
#[derive(Clone, Copy, PartialEq, Eq, Debug, Drop, Error)]
pub enum SettingsFault {
    /// The text isn't UTF-8, or it is no TOML document.
    #[error("the settings are no TOML document")]
    NotToml,
    /// A key at the top level is none of the known ones.
    #[error("the settings have a key that isn't known")]
    UnknownKey,
    /// A value is of another kind than its key wants, or an item of a list is no text.
    #[error("a value of the settings is of the wrong kind")]
    WrongKind,
    /// A text or a number is none of those that its key takes.
    #[error("a value of the settings isn't one that its key takes")]
    UnknownName,
    /// Other hosts than the site's own may not be reached, and its own isn't told. This comes after all keys.
    #[error("the settings keep URIs to a host of the site's own and don't tell it")]
    Conflict,
    /// There was no memory for the document.
    #[error("there is no memory for the settings")]
    Memory,
}
