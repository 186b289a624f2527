//! Laws of URIs that may stand in a value, each the contract of a call that does nothing.
ghost use Rattle.pur_uripolicy.specs.Laws.{ReadAgain, UrisAreAllowed};

use pur_uri::{reading_settles, text_is_canonical};

/// What was written of a URI that may stand in a value is read as the same URI.
pub fn uris_are_read_again()
    ensures { ReadAgain }
{
    reading_settles();
    text_is_canonical();
}

/// What may stand in a value has allowed characters alone.
pub fn uris_are_allowed()
    ensures { UrisAreAllowed }
{
    text_is_canonical();
}
