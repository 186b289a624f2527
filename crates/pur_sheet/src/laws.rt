//! Laws of sheets, each as the contract of a function that does nothing.
ghost use Rattle.pur_sheet.specs.Laws.{CanonicalSheetsStay, NothingEnds, SheetsAreCanonical};

use pur_cssprops::{styles_are_clean, styles_are_read_as_themselves};
use pur_csstok::styles_are_closed;

/// What a text is read as is a canonical sheet, whatever its characters are.
pub fn sheets_are_canonical()
    ensures { SheetsAreCanonical }
{
    styles_are_read_as_themselves();
}

/// A canonical sheet is read as itself, and has no `<`.
pub fn canonical_sheets_stay()
    ensures itself { CanonicalSheetsStay }
    ensures plain { NothingEnds }
{
    styles_are_clean();
    styles_are_closed();
}
