//! How deep elements stand.

ghost use Rattle.std.specs.Prelude.{◌≡◌, ◌≤◌, ◌↔◌, IsTrue};
ghost use Rattle.pur_names.specs.Elements.{same_element};
ghost use Rattle.pur_names.specs.declared.elements.Element.TheVariants.{Table};
ghost use Rattle.pur_tree.specs.Places.{level_limit, rise};

use pur_names::Element;

/// The greatest level that an element of a forest may have.
pub const LEVEL_LIMIT: usize = 128;

/// Whether an element of this level may stand in a forest.
pub fn level_fits(level: usize) -> bool
    ensures { IsTrue result ↔ (level ≤ level_limit) }
{
    level <= LEVEL_LIMIT
}

/// By how much an element's level passes that of what it stands in: by 2 for a `tr` directly in a `table`, else by 1.
pub fn level_rise(in_table: bool, name: Element) -> usize
    ensures { result ≡ rise in_table name }
{
    if matches!(name, Element::Tr) && in_table {
        2
    } else {
        1
    }
}

/// Whether an element is a `table`, in which a `tr` counts for 2.
pub fn is_table(name: Element) -> bool
    ensures { result ≡ same_element name Table }
{
    matches!(name, Element::Table)
}
