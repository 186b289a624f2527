//! What an element is to a table, and to which of the table's parts it belongs.

ghost use Rattle.std.specs.Prelude.{◌≡◌, if◌then◌else◌};
ghost use Rattle.pur_nesting.specs.Parts.{role_of, next, at_first};

use pur_names::Element;

/// What an element is to a table.
#[derive(Clone, Copy)]
pub enum Role {
    /// A `caption`.
    Title,
    /// A `col`.
    Column,
    /// A `colgroup`.
    ColumnGroup,
    /// A `thead`.
    Header,
    /// A `tfoot`.
    Footer,
    /// A `tbody`.
    Body,
    /// A `tr`.
    Row,
    /// Any other element, which has no place in a table.
    Stranger,
}

/// A part of a table. In a table in order the parts follow one another as they are listed here.
#[derive(Clone, Copy)]
pub enum Part {
    /// What stands before the first element.
    Lead,
    /// The first caption.
    Captions,
    /// The columns of the kind that is met first.
    Columns,
    /// The first head.
    Heads,
    /// The first foot.
    Feet,
    /// Bodies, rows, and each head and foot more.
    Bodies,
    /// What vanishes: each caption more, columns of the other kind, and what has no place in a table.
    Surplus,
}

/// What was met among a table's children.
#[derive(Clone, Copy)]
pub struct Met {
    /// The part to which the last element belongs.
    pub part: Part,
    /// There was a caption.
    pub caption: bool,
    /// There were columns, and the first was a `col`.
    pub columns: bool,
    /// There were columns, and the first was a `colgroup`.
    pub groups: bool,
    /// There was a head.
    pub head: bool,
    /// There was a foot.
    pub foot: bool,
}

/// What an element of this name is to a table.
pub fn role_of(element: Element) -> Role
    ensures { result ≡ role_of element }
{
    match element {
        Element::Caption => Role::Title,
        Element::Col => Role::Column,
        Element::Colgroup => Role::ColumnGroup,
        Element::Thead => Role::Header,
        Element::Tfoot => Role::Footer,
        Element::Tbody => Role::Body,
        Element::Tr => Role::Row,
        _ => Role::Stranger,
    }
}

// A part, unless one of its kind, or one that it can't stand beside, was met.
fn unless(met: bool, part: Part, other: Part) -> Part
    ensures { result ≡ (if met then other else part) }
{
    if met { other } else { part }
}

impl Met {
    /// Nothing was met.
    pub fn at_first() -> Met
        ensures { result ≡ at_first }
    {
        Met {
            part: Part::Lead,
            caption: false,
            columns: false,
            groups: false,
            head: false,
            foot: false,
        }
    }

    /// What was met, after an element more.
    pub fn next(&self, role: Role) -> Met
        ensures { result ≡ next self.now role }
    {
        let mut met = *self;
        match role {
            Role::Title => {
                met.part = unless(met.caption, Part::Captions, Part::Surplus);
                met.caption = true;
            }
            Role::Column => {
                met.part = unless(met.groups, Part::Columns, Part::Surplus);
                met.columns = !met.groups;
            }
            Role::ColumnGroup => {
                met.part = unless(met.columns, Part::Columns, Part::Surplus);
                met.groups = !met.columns;
            }
            Role::Header => {
                met.part = unless(met.head, Part::Heads, Part::Bodies);
                met.head = true;
            }
            Role::Footer => {
                met.part = unless(met.foot, Part::Feet, Part::Bodies);
                met.foot = true;
            }
            Role::Body | Role::Row => met.part = Part::Bodies,
            Role::Stranger => met.part = Part::Surplus,
        }
        met
    }
}
