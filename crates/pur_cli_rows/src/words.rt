//! What the words of the command line name.

use pur_commands::{Command, read_words};
use std::alloc::{AllocError, Global};
use std::test::Fail;

// Words of a command line, told as one text with a space between them; none for no words.
pub(crate) fn words_of(alloc: Global, line: Option<&str>) -> Result<Vec<String>, AllocError> {
    let mut words = Vec::new(alloc);
    if let Some(line) = line {
        for word in line.split(' ') {
            words.push(String::from_str(alloc, word)?)?;
        }
    }
    Ok(words)
}

// Words, whether they ask for a check, the settings and the input.
type Row = (
    Option<&'static str>,
    bool,
    Option<&'static str>,
    Option<&'static str>,
);

static FILES: [Row; 18] = [
    (None, false, None, None),
    (Some("a"), false, None, Some("a")),
    (Some("--settings a"), false, Some("a"), None),
    (Some("--settings a b"), false, Some("a"), Some("b")),
    (Some("--settings a-b x"), false, Some("a-b"), Some("x")),
    (Some("b --settings a"), false, Some("a"), Some("b")),
    (Some("--settings=a b"), false, Some("a"), Some("b")),
    (Some("--settings="), false, Some(""), None),
    (Some("--settings "), false, Some(""), None),
    (Some("--settings=-x"), false, Some("-x"), None),
    (Some("--settings=--check"), false, Some("--check"), None),
    (Some(""), false, None, Some("")),
    (Some("-"), false, None, Some("-")),
    (Some("-- --check"), false, None, Some("--check")),
    (Some("--check"), true, None, None),
    (Some("--check b"), true, None, Some("b")),
    (Some("b --check --settings a"), true, Some("a"), Some("b")),
    (
        Some("--settings a --check -- -b"),
        true,
        Some("a"),
        Some("-b"),
    ),
];

// Whether a command is the one of the row: its kind, its settings and its input.
fn is_named(command: &Command, row: &Row) -> bool {
    let (_, is_check, settings, input) = row;
    match command {
        Command::Filter {
            settings: file,
            input: text,
        } => !*is_check && file.as_deref() == *settings && text.as_deref() == *input,
        Command::Check {
            settings: file,
            input: text,
        } => *is_check && file.as_deref() == *settings && text.as_deref() == *input,
        Command::Sheet { .. } | Command::Sample(_) => false,
    }
}

fn names_files(alloc: Global, words: &[String], row: &Row) -> Result<bool, AllocError> {
    match read_words(alloc, words)? {
        Some(command) => Ok(is_named(&command, row)),
        None => Ok(false),
    }
}

fn row_is_named(alloc: Global, row: &Row) -> Result<bool, AllocError> {
    let words = words_of(alloc, row.0)?;
    names_files(alloc, words.as_slice(), row)
}

fn all_are_named(alloc: Global) -> Result<bool, AllocError> {
    for row in &FILES {
        if !row_is_named(alloc, row)? {
            return Ok(false);
        }
    }
    Ok(true)
}

#[test]
fn words_name_files(rt: HostRuntime) -> Result<(), Fail> {
    let are_named = all_are_named(rt.alloc())?;
    assert!(rt; are_named);
    Ok(())
}

// Words, the scope, the settings and the input.
static SHEETS: [(&str, &str, Option<&str>, Option<&str>); 4] = [
    ("--sheet s", "s", None, None),
    ("a --sheet=S-1_ --settings b", "S-1_", Some("b"), Some("a")),
    ("--settings b --sheet s", "s", Some("b"), None),
    ("--sheet s -- -a", "s", None, Some("-a")),
];

fn names_sheet(
    alloc: Global,
    line: &str,
    scope: &str,
    settings: Option<&str>,
    input: Option<&str>,
) -> Result<bool, AllocError> {
    let words = words_of(alloc, Some(line))?;
    match read_words(alloc, words.as_slice())? {
        Some(command) => Ok(is_sheet(&command, scope, settings, input)),
        None => Ok(false),
    }
}

fn is_sheet(command: &Command, name: &str, file: Option<&str>, text: Option<&str>) -> bool {
    match command {
        Command::Sheet {
            scope,
            settings,
            input,
        } => scope.as_str() == name && settings.as_deref() == file && input.as_deref() == text,
        _ => false,
    }
}

fn first_other_sheet(alloc: Global) -> Result<Option<&'static str>, AllocError> {
    for (line, scope, settings, input) in &SHEETS {
        if !names_sheet(alloc, line, scope, *settings, *input)? {
            return Ok(Some(*line));
        }
    }
    Ok(None)
}

#[test]
fn words_name_sheets(rt: HostRuntime) -> Result<(), Fail> {
    let other = first_other_sheet(rt.alloc())?;
    assert_eq!(rt; other, None);
    Ok(())
}

static SAMPLES: [(&str, u32); 4] = [
    ("--sample 0", 0),
    ("--sample 00010", 10),
    ("--sample=9999", 9_999),
    ("--sample 10000", 10_000),
];

fn names_sample(alloc: Global, line: &str, pieces: u32) -> Result<bool, AllocError> {
    let words = words_of(alloc, Some(line))?;
    let command = read_words(alloc, words.as_slice())?;
    Ok(command == Some(Command::Sample(pieces)))
}

fn first_other_sample(alloc: Global) -> Result<Option<&'static str>, AllocError> {
    for (line, pieces) in &SAMPLES {
        if !names_sample(alloc, line, *pieces)? {
            return Ok(Some(*line));
        }
    }
    Ok(None)
}

#[test]
fn words_name_samples(rt: HostRuntime) -> Result<(), Fail> {
    let other = first_other_sample(rt.alloc())?;
    assert_eq!(rt; other, None);
    Ok(())
}
