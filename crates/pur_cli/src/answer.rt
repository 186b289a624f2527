// The answer to a command: the status and the text that a run ends with, where its text is written whole.
ghost use Rattle.std.specs.Prelude.{◌≡◌, Some, true, IfOk, IfErr};
ghost use Rattle.std.specs.Str.{chars};
ghost use Rattle.pur_sheet.specs.Selectors.{is_scope};
ghost use Rattle.pur_commands.specs.Commands.{plain_command, names_of, IfSample, IfSheet};
ghost use Rattle.pur_commands.specs.Sources.{Stopped};
ghost use Rattle.pur_cli.specs.Private.Answering.{Answered};

use crate::checking::check;
use crate::purifying::filter;
use crate::sampling::measure_sample;
use crate::sheeting::clean_sheet;
use pur_commands::{Command, Status, read_source};
use pur_io::Shelf;
use pur_text::Cleaner;
use std::alloc::Global;

// What a command answers.
#[derive(Drop)]
pub struct Answer {
    // The status that the run ends with, once the text is written.
    pub status: Status,
    // The text on standard output.
    pub text: Vec<u8>,
}

// The answer to a command over the texts of a shelf. The error is the status of a run that stops before it has one.
pub fn answer_to<H: Shelf>(alloc: Global, command: Command, shelf: &mut H) -> Result<Answer, Status>
    requires { IfSheet (Some (plain_command command)) (λ scope _. is_scope (chars scope) ≡ true) }
    ensures answered { IfOk result (λ answer. Answered H.Shelf (plain_command command) shelf.old shelf.new answer.status answer.text.items) }
    ensures stopped { IfErr result (Stopped H.Shelf (names_of (plain_command command)) (H.texts shelf.old) (H.faults shelf.old) shelf.new) }
    ensures unasked { IfSample (Some (plain_command command)) (λ _. shelf.new ≡ shelf.old) }
{
    match command {
        Command::Filter { settings, input } => {
            let source = read_source(alloc, shelf, settings, input, Cleaner::new(alloc))?;
            Ok(filter(alloc, source)?)
        }
        Command::Check { settings, input } => {
            let source = read_source(alloc, shelf, settings, input, Vec::new(alloc))?;
            Ok(check(alloc, &source)?)
        }
        Command::Sheet {
            scope,
            settings,
            input,
        } => {
            let source = read_source(alloc, shelf, settings, input, Cleaner::new(alloc))?;
            Ok(clean_sheet(alloc, source, scope.as_str())?)
        }
        Command::Sample(pieces) => Ok(measure_sample(alloc, pieces)?),
    }
}
