// The words of the command line, as `clap` reads them.
ghost use Rattle.std.specs.Prelude.{◌≡◌, ℕ, ◌+◌, ◌*◌, ◌≤◌, min, ◌∷◌, true, map, option_map, string_bytes, codes, IfOk};
ghost use Rattle.std.specs.Char.{digit_value};
ghost use Rattle.std.specs.List.{list_all};
ghost use Rattle.std.specs.Str.{chars};
ghost use Rattle.std.specs.Str.Parse.{digits_value};
ghost use Rattle.clap.specs.Words.{app_of, first_value, found_of};
ghost use Rattle.pur_text.specs.Hosts.{is_digit};
ghost use Rattle.pur_commands.specs.Commands.{plain_command, IfSheet};
ghost use Rattle.pur_commands.specs.Limits.{sample_limit};
ghost use Rattle.pur_commands.specs.Words.{purify_app, command_of, command_with, command_on, sheet_with, is_set, is_short_numeral, size_of};
ghost use Rattle.pur_sheet.specs.Selectors.{is_scope};

use crate::command::Command;
use clap::error::ErrorKind;
use clap::{Arg, ArgAction, ArgMatches};
use pur_sheet::is_scope;
use std::alloc::{AllocError, Global};

/// The most pieces that the sample of a command may have.
const SAMPLE_LIMIT: u32 = 10_000;

/// The command that the words of the command line name, without the program's own name in front of them:
/// `[--settings FILE] [--check] [INPUT]`, `--sheet SCOPE [--settings FILE] [INPUT]`, or `--sample N`. None exactly where `clap` finds
/// a fault in the words, where `--check` stands with `--sheet`, where SCOPE is no scope, where `--sample` stands with anything else,
/// and where N isn't one to five decimal digits with a value of at most 10,000.
///
/// The options may stand in any order, before INPUT or behind it, and each at most once. `--settings=FILE` is read like
/// `--settings FILE`; behind a word `--` each word is an INPUT. The error is want of memory.
pub fn read_words(alloc: Global, words: &[String]) -> Result<Option<Command>, AllocError>
    ensures command { IfOk result (λ command. option_map plain_command command ≡ command_of (map string_bytes words.now)) }
    ensures scope { IfOk result (λ command. IfSheet (option_map plain_command command) (λ scope _. is_scope (chars scope) ≡ true)) }
{
    let all = with_name(alloc, words)?;
    let program = command_line(alloc)?;
    match program.try_get_matches_from(all.as_slice()) {
        Ok(matches) => command_in(alloc, &matches),
        Err(error) if error.kind() == ErrorKind::OutOfMemory => Err(AllocError),
        Err(_) => Ok(None),
    }
}

// The command line as `clap` is told it.
fn command_line<'a>(alloc: Global) -> Result<clap::Command<'a>, AllocError>
    ensures { IfOk result (λ program. app_of program ≡ purify_app) }
{
    let settings = Arg::new(alloc, "settings")
        .long("settings")
        .action(ArgAction::Set);
    let check = Arg::new(alloc, "check")
        .long("check")
        .action(ArgAction::SetTrue);
    let sheet = Arg::new(alloc, "sheet")
        .long("sheet")
        .action(ArgAction::Set);
    let sample = Arg::new(alloc, "sample")
        .long("sample")
        .action(ArgAction::Set);
    let input = Arg::new(alloc, "input").action(ArgAction::Set);
    clap::Command::new(alloc, "purify")
        .disable_help_flag(true)
        .disable_version_flag(true)
        .arg(settings)?
        .arg(check)?
        .arg(sheet)?
        .arg(sample)?
        .arg(input)
}

// The words with the program's name in front, where `clap` looks for it.
fn with_name(alloc: Global, words: &[String]) -> Result<Vec<&str>, AllocError>
    ensures { IfOk result (λ all. map (λ word. word.now) all.items ≡ codes "purify" ∷ map string_bytes words.now) }
{
    let mut all = vec![in alloc; "purify"]?;
    for word in words {
        all.push(word.as_str())?;
    }
    Ok(all)
}

// The command that matches name, if they name one.
fn command_in(alloc: Global, matches: &ArgMatches<'_>) -> Result<Option<Command>, AllocError>
    ensures { IfOk result (λ command. option_map plain_command command ≡ command_with
        (is_set (first_value (found_of matches.now) (codes "check"))) (first_value (found_of matches.now) (codes "sheet"))
        (first_value (found_of matches.now) (codes "sample"))
        (record { settings = first_value (found_of matches.now) (codes "settings"); input = first_value (found_of matches.now) (codes "input") })) }
{
    let checks = is_set(matches.get_str("check"));
    let sheet = matches.get_str("sheet");
    let settings = matches.get_str("settings");
    let input = matches.get_str("input");
    match matches.get_str("sample") {
        None => match sheet {
            None => Ok(Some(command_on(alloc, checks, settings, input)?)),
            Some(scope) => sheet_with(alloc, checks, scope, settings, input),
        },
        Some(_) if checks || sheet.is_some() || settings.is_some() || input.is_some() => Ok(None),
        Some(size) => Ok(size_of(size.as_bytes()).map(Command::Sample)),
    }
}

// Whether a flag stands among the words, by its value.
fn is_set(value: Option<&str>) -> bool
    ensures { result ≡ is_set (option_map (λ word. word.now) value.entry) }
{
    value == Some("true")
}

// The command of the input of this name, under the settings of this name.
fn command_on(
    alloc: Global,
    checks: bool,
    settings: Option<&str>,
    input: Option<&str>,
) -> Result<Command, AllocError>
    ensures { IfOk result (λ command. plain_command command ≡ command_on checks
        (record { settings = option_map (λ file. file.now) settings.entry; input = option_map (λ file. file.now) input.entry })) }
{
    let settings = copy_name(alloc, settings)?;
    let input = copy_name(alloc, input)?;
    Ok(if checks {
        Command::Check { settings, input }
    } else {
        Command::Filter { settings, input }
    })
}

// The command that makes the style sheets of the input of this name safe for a scope; none where it is no scope, or where the input
// is to be checked.
fn sheet_with(
    alloc: Global,
    checks: bool,
    scope: &str,
    settings: Option<&str>,
    input: Option<&str>,
) -> Result<Option<Command>, AllocError>
    ensures { IfOk result (λ command. option_map plain_command command ≡ sheet_with checks scope.now
        (record { settings = option_map (λ file. file.now) settings.entry; input = option_map (λ file. file.now) input.entry })) }
{
    if checks || !is_scope(alloc, scope)? {
        return Ok(None);
    }
    let scope = String::from_str(alloc, scope)?;
    let settings = copy_name(alloc, settings)?;
    let input = copy_name(alloc, input)?;
    Ok(Some(Command::Sheet {
        scope,
        settings,
        input,
    }))
}

// A name of the program's own, where there is one.
fn copy_name(alloc: Global, name: Option<&str>) -> Result<Option<String>, AllocError>
    ensures { IfOk result (λ copy. option_map string_bytes copy ≡ option_map (λ file. file.now) name.entry) }
{
    match name {
        Some(name) => Ok(Some(String::from_str(alloc, name)?)),
        None => Ok(None),
    }
}

// The number of pieces that a word writes, where it is one to five digits and within the limit.
fn size_of(word: &[u8]) -> Option<u32>
    ensures { result ≡ size_of word.now }
{
    if !is_short_numeral(word) {
        return None;
    }
    let size = value_of(word);
    if size <= SAMPLE_LIMIT {
        Some(size)
    } else {
        None
    }
}

fn is_short_numeral(text: &[u8]) -> bool
    ensures { result ≡ is_short_numeral text.now }
{
    !text.is_empty() && text.len() <= 5 && are_digits(text)
}

fn are_digits(text: &[u8]) -> bool
    ensures { result ≡ list_all is_digit text.now }
{
    text.iter().all(|byte| matches!(byte, b'0'..=b'9'))
}

// The number that digits write, or one past the limit of samples where it is larger.
fn value_of(digits: &[u8]) -> u32
    requires { list_all is_digit digits.now ≡ true }
    ensures { result ≡ min (digits_value 10 digits.now) (sample_limit + 1) }
{
    let mut value = 0;
    for digit in digits {
        value = next_value(value, *digit);
    }
    value
}

fn next_value(value: u32, digit: u8) -> u32
    requires small { value ≤ sample_limit + 1 }
    requires digit { is_digit digit ≡ true }
    ensures { result ≡ min (value * 10 + digit_value digit) (sample_limit + 1) }
{
    (value * 10 + u32::from(digit - b'0')).min(SAMPLE_LIMIT + 1)
}
