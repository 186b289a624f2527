// Reading the settings and the input that a command names.
ghost use Rattle.std.specs.Prelude.{◌≡◌, ◌≤◌, ◌+◌, [], Some, option_map, string_bytes, IfOk, IfErr, IfSome, IsSome, OnOk};
ghost use Rattle.pur_io.specs.Texts.{Name, plain_name, text_named};
ghost use Rattle.pur_commands.specs.Accepted.{settings_named};
ghost use Rattle.pur_commands.specs.Commands.{Names, plain_names};
ghost use Rattle.pur_commands.specs.Limits.{input_limit};
ghost use Rattle.pur_commands.specs.Private.Reading.{TookWhole};
ghost use Rattle.pur_commands.specs.Sources.{IsSource, Stopped};

use crate::status::Status;
use crate::texts::{INPUT_LIMIT, Intake, ReadFault, SETTINGS_LIMIT, read_text};
use pur_io::Shelf;
use pur_settings::{Settings, SettingsFault};
use std::alloc::Global;

/// What a command works on.
#[derive(Drop)]
pub struct Source<T> {
    /// The settings: those of the file that the command names, or the defaults.
    pub settings: Settings,
    /// What took the input, at most 1,048,576 bytes.
    pub input: T,
}

/// The settings and then the input of these names, which goes into an intake that took nothing yet.
///
/// The error is the status that a run ends with: the settings text has more than 65,536 bytes or an offence, and the input isn't
/// looked at then; the input has more than 1,048,576 bytes; a text couldn't be read; or memory was wanting.
pub fn read_source<H: Shelf, T: Intake + Drop>(
    alloc: Global,
    shelf: &mut H,
    settings: Option<String>,
    input: Option<String>,
    intake: T,
) -> Result<Source<T>, Status>
    requires { T.took intake [] }
    ensures read { IfOk result (λ source. IsSource H.Shelf (T.took source.input) (plain_names settings input) (H.texts shelf.old) (H.faults shelf.old)
        shelf.new source.settings) }
    ensures stopped { IfErr result (Stopped H.Shelf (Some (plain_names settings input)) (H.texts shelf.old) (H.faults shelf.old) shelf.new) }
{
    let settings = read_settings(alloc, shelf, settings)?;
    let input = read_input(alloc, shelf, input, intake)?;
    Ok(Source { settings, input })
}

// The settings that the text of this name gives; the defaults where no text is named.
fn read_settings<H: Shelf>(
    alloc: Global,
    shelf: &mut H,
    name: Option<String>,
) -> Result<Settings, Status>
    ensures accepted { IfOk result (λ settings. IfSome (H.texts shelf.old) (λ texts.
        settings_named texts (option_map string_bytes name) ≡ Some settings)) }
    ensures kept { OnOk result (H.faults shelf.new ≡ H.faults shelf.old) }
    ensures texts { OnOk result (H.texts shelf.new ≡ H.texts shelf.old) }
    ensures stopped { (input : Name) → IfErr result (Stopped H.Shelf (Some (record { settings = option_map string_bytes name; input = input }))
        (H.texts shelf.old) (H.faults shelf.old) shelf.new) }
{
    if name.is_none() {
        return Ok(Settings::defaults());
    }
    let text = match read_text(alloc, shelf, name, SETTINGS_LIMIT, Vec::new(alloc)) {
        Ok(text) => text,
        Err(ReadFault::Failed) => return Err(Status::CannotRead),
        Err(ReadFault::TooLong) => return Err(Status::SettingsRefused),
        Err(ReadFault::Memory) => return Err(Status::OutOfMemory),
    };
    match Settings::read(alloc, text.as_slice()) {
        Ok(settings) => Ok(settings),
        Err(SettingsFault::Memory) => Err(Status::OutOfMemory),
        Err(_) => Err(Status::SettingsRefused),
    }
}

// The input of this name, where the settings of its command were accepted.
fn read_input<H: Shelf, T: Intake + Drop>(
    alloc: Global,
    shelf: &mut H,
    name: Option<String>,
    intake: T,
) -> Result<T, Status>
    requires { T.took intake [] }
    ensures whole { IfOk result (λ input. TookWhole (T.took input) (H.texts shelf.old) (λ texts. text_named texts (plain_name name)) input_limit) }
    ensures kept { OnOk result (H.faults shelf.new ≡ H.faults shelf.old) }
    ensures texts { OnOk result (H.texts shelf.new ≡ H.texts shelf.old) }
    ensures place { OnOk result (IfSome (H.texts shelf.old) (λ _. H.place shelf.new ≤ input_limit + 1)) }
    ensures stopped { (names : Names) → names.input ≡ plain_name name → IfSome (H.texts shelf.old) (λ texts. IsSome (settings_named texts names.settings))
        → IfErr result (Stopped H.Shelf (Some names) (H.texts shelf.old) (H.faults shelf.old) shelf.new) }
{
    match read_text(alloc, shelf, name, INPUT_LIMIT, intake) {
        Ok(input) => Ok(input),
        Err(ReadFault::Failed) => Err(Status::CannotRead),
        Err(ReadFault::TooLong) => Err(Status::InputTooLong),
        Err(ReadFault::Memory) => Err(Status::OutOfMemory),
    }
}
