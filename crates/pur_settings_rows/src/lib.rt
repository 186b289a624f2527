//! Rows on settings: texts with the settings that they give, and with the fault that each is refused for. There is nothing
//! here but tests; they stand apart from pur_settings, so that it isn't proved twice for them.
#![tactic(auto)]

#[cfg(test)]
mod faults;
#[cfg(test)]
mod getters;
#[cfg(test)]
mod reading;
