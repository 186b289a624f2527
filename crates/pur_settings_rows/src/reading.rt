//! How rows read settings. A check pays for each place where a function that owns settings may end; so what owns them has
//! one such place, and tests ask for plain values.

use pur_settings::{Settings, SettingsFault};
use std::alloc::Global;

// The settings of a text. The texts of rows are short.
pub(crate) fn settings_of(alloc: Global, text: &str) -> Result<Settings, SettingsFault> {
    if text.len() > 65_536 {
        return Err(SettingsFault::Memory);
    }
    Settings::read(alloc, text.as_bytes())
}

// The fault of a text, if it has one.
pub(crate) fn fault_of(alloc: Global, text: &str) -> Option<SettingsFault> {
    settings_of(alloc, text).err()
}
