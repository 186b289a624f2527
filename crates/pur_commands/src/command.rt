//! The commands of the program.

/// What the words of the command line ask for.
#[derive(Debug, Drop, PartialEq, Eq)]
pub enum Command {
    /// Filter an input under settings.
    Filter {
        /// The file of the settings; none for the defaults.
        settings: Option<String>,
        /// The file of the input; none for standard input.
        input: Option<String>,
    },
    /// Tell whether an input is a good fragment under settings.
    Check {
        /// The file of the settings; none for the defaults.
        settings: Option<String>,
        /// The file of the input; none for standard input.
        input: Option<String>,
    },
    /// Make the style sheets of an input safe for one block of a page.
    Sheet {
        /// The `id` of the block: a scope, as `pur_sheet::is_scope` tells.
        scope: String,
        /// The file of the settings; none for the defaults.
        settings: Option<String>,
        /// The file of the input; none for standard input.
        input: Option<String>,
    },
    /// Make a sample of so many pieces, at most 10,000, filter it under the defaults, and tell the numbers of both. It reads
    /// nothing.
    Sample(u32),
}
