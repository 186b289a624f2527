//! What holds of all values and kinds. Each law is the contract of a call that does nothing.
ghost use Rattle.pur_values.specs.Laws.{AreAllowed, ReadAsItself};

use pur_csstok::{color_is_read, colors_are_digits};

/// What a value is read as is read as itself, for each kind; so canonical values stay as they are.
pub fn canonical_is_read_as_itself()
    ensures { ReadAsItself }
{
    color_is_read();
    colors_are_digits();
}

/// What a value of allowed characters is read as has allowed characters alone.
pub fn values_are_allowed()
    ensures { AreAllowed }
{
    colors_are_digits();
}
