//! Filters, samples and refusals of the top call. What becomes of an input is tested in pur_engine_rows, and what is valid in
//! pur_tree_rows.

use crate::running::{ROOM, Row, first_other, is_ending, run_over};
use pur_cli::sample;
use std::alloc::{AllocError, Global};
use std::test::Fail;

static UNDER_SETTINGS: [Row; 3] = [
    (
        "the_defaults",
        None,
        b"doctype = \"strict\"",
        b"<center>a",
        0,
        b"<center>a</center>",
        "",
    ),
    (
        "nothing_to_write",
        None,
        b"doctype = \"strict\"",
        b"",
        0,
        b"",
        "",
    ),
    (
        "a_file_of_settings",
        Some("--settings rules"),
        b"doctype = \"strict\"",
        b"<center>a",
        0,
        b"<div style=\"text-align:center;\">a</div>",
        "",
    ),
];

#[test]
fn purifies_under_the_settings_that_are_named(rt: HostRuntime) -> Result<(), Fail> {
    let other = first_other(rt.alloc(), &UNDER_SETTINGS)?;
    assert_eq!(rt; other, None);
    Ok(())
}

// The gate is the one of the settings: the host that they deny and those below it, but none whose name merely ends like it.
static DENIED: [Row; 3] = [
    (
        "a_link_to_a_host_below",
        Some("--settings rules"),
        b"denied_hosts = [\"bad.com\"]",
        b"<a href=\"http://x.bad.com/\">y</a>",
        0,
        b"<a>y</a>",
        "",
    ),
    (
        "a_link_to_another_host",
        Some("--settings rules"),
        b"denied_hosts = [\"bad.com\"]",
        b"<a href=\"http://notbad.com/\">y</a>",
        0,
        b"<a href=\"http://notbad.com/\">y</a>",
        "",
    ),
    (
        "a_picture",
        Some("--settings rules"),
        b"denied_hosts = [\"bad.com\"]",
        b"<img src=\"http://bad.com/x.png\" alt=\"x\" />",
        0,
        b"",
        "",
    ),
];

#[test]
fn nothing_leads_to_denied_hosts(rt: HostRuntime) -> Result<(), Fail> {
    let other = first_other(rt.alloc(), &DENIED)?;
    assert_eq!(rt; other, None);
    Ok(())
}

static REFUSED: [Row; 6] = [
    (
        "no_document",
        Some("--settings rules"),
        b"=",
        b"Hello",
        5,
        b"",
        "purify: settings refused\n",
    ),
    (
        "an_unknown_key",
        Some("--settings rules"),
        b"colour = 1",
        b"Hello",
        5,
        b"",
        "purify: settings refused\n",
    ),
    (
        "a_wrong_kind",
        Some("--settings rules"),
        b"doctype = 3",
        b"Hello",
        5,
        b"",
        "purify: settings refused\n",
    ),
    (
        "an_unknown_name",
        Some("--settings rules"),
        b"doctype = \"html5\"",
        b"Hello",
        5,
        b"",
        "purify: settings refused\n",
    ),
    (
        "bytes_that_are_no_text",
        Some("--settings rules"),
        b"\xFF",
        b"Hello",
        5,
        b"",
        "purify: settings refused\n",
    ),
    (
        "refused_settings_and_no_input",
        Some("--settings rules none"),
        b"=",
        b"Hello",
        5,
        b"",
        "purify: settings refused\n",
    ),
];

#[test]
fn settings_are_refused(rt: HostRuntime) -> Result<(), Fail> {
    let other = first_other(rt.alloc(), &REFUSED)?;
    assert_eq!(rt; other, None);
    Ok(())
}

static MISSING: [Row; 4] = [
    (
        "missing_settings",
        Some("--settings none"),
        b"",
        b"Hello",
        7,
        b"",
        "purify: cannot read\n",
    ),
    (
        "a_missing_input",
        Some("none"),
        b"",
        b"Hello",
        7,
        b"",
        "purify: cannot read\n",
    ),
    (
        "a_missing_input_under_settings",
        Some("--settings rules none"),
        b"",
        b"Hello",
        7,
        b"",
        "purify: cannot read\n",
    ),
    (
        "both_missing",
        Some("--settings none none"),
        b"",
        b"Hello",
        7,
        b"",
        "purify: cannot read\n",
    ),
];

#[test]
fn missing_texts_are_not_read(rt: HostRuntime) -> Result<(), Fail> {
    let other = first_other(rt.alloc(), &MISSING)?;
    assert_eq!(rt; other, None);
    Ok(())
}

// Words that name no command, each with a name.
static NO_COMMANDS: [(&str, &str); 37] = [
    ("two_inputs", "rules rules"),
    ("two_inputs_with_an_option_between", "rules --check rules"),
    ("no_settings_named", "--settings"),
    ("settings_twice", "--settings rules --settings rules"),
    (
        "settings_twice_in_both_forms",
        "--settings=rules --settings rules",
    ),
    ("two_inputs_under_settings", "--settings rules rules rules"),
    ("an_unknown_option", "--nope"),
    ("a_front_of_an_option", "--set rules"),
    ("an_option_in_upper_case", "--Check"),
    ("an_option_as_settings", "--settings -x"),
    ("the_check_as_settings", "--settings --check"),
    ("a_short_option", "-c"),
    ("the_check_twice", "--check --check"),
    ("a_check_with_a_value", "--check=yes"),
    ("help", "--help"),
    ("help_in_short", "-h"),
    ("the_version", "--version"),
    ("two_inputs_behind_the_end_of_options", "-- rules rules"),
    ("an_empty_word_and_an_input", " rules"),
    ("a_sample_without_a_number", "--sample"),
    ("a_sample_of_an_empty_word", "--sample "),
    ("a_sample_past_its_limit", "--sample 10001"),
    ("a_sample_of_six_digits", "--sample 000001"),
    ("a_sample_of_a_number_with_a_sign", "--sample +1"),
    ("a_sample_of_a_number_below_nothing", "--sample=-1"),
    ("a_sample_of_a_digit_and_a_letter", "--sample 1a"),
    ("a_sample_twice", "--sample 1 --sample 1"),
    ("a_sample_and_a_check", "--check --sample 1"),
    ("a_sample_and_settings", "--sample 1 --settings rules"),
    ("a_sample_and_an_input", "--sample 1 rules"),
    ("a_sheet_without_a_scope", "--sheet"),
    ("a_sheet_for_an_empty_scope", "--sheet "),
    ("a_scope_that_begins_with_a_digit", "--sheet 1s"),
    ("a_scope_with_a_point", "--sheet s.t"),
    ("a_sheet_twice", "--sheet s --sheet s"),
    ("a_sheet_and_a_check", "--sheet s --check"),
    ("a_sheet_and_a_sample", "--sheet s --sample 1"),
];

fn is_no_command(alloc: Global, line: &str) -> Result<bool, AllocError> {
    let ending = run_over(alloc, Some(line), b"", b"Hello", ROOM)?;
    Ok(is_ending(&ending, 2, b"", "purify: bad command line\n"))
}

fn first_command(alloc: Global) -> Result<Option<&'static str>, AllocError> {
    for (name, line) in &NO_COMMANDS {
        if !is_no_command(alloc, line)? {
            return Ok(Some(*name));
        }
    }
    Ok(None)
}

#[test]
fn words_name_no_command(rt: HostRuntime) -> Result<(), Fail> {
    let command = first_command(rt.alloc())?;
    assert_eq!(rt; command, None);
    Ok(())
}

static SAMPLES: [Row; 5] = [
    (
        "none",
        Some("--sample 0"),
        b"=",
        b"Hello",
        0,
        b"sample 0 in 0 out 0 sum 0\n",
        "",
    ),
    (
        "one",
        Some("--sample 1"),
        b"=",
        b"Hello",
        0,
        b"sample 1 in 17 out 17 sum 1399\n",
        "",
    ),
    (
        "two",
        Some("--sample 2"),
        b"=",
        b"Hello",
        0,
        b"sample 2 in 49 out 70 sum 5416\n",
        "",
    ),
    (
        "two_in_five_digits",
        Some("--sample=00002"),
        b"=",
        b"Hello",
        0,
        b"sample 2 in 49 out 70 sum 5416\n",
        "",
    ),
    (
        "two_and_the_end_of_options",
        Some("--sample 2 --"),
        b"=",
        b"Hello",
        0,
        b"sample 2 in 49 out 70 sum 5416\n",
        "",
    ),
];

#[test]
fn samples_are_told(rt: HostRuntime) -> Result<(), Fail> {
    let other = first_other(rt.alloc(), &SAMPLES)?;
    assert_eq!(rt; other, None);
    Ok(())
}

// One piece of each kind, and the next of the first kind.
static PIECES: &str = "\
<p>Item 0 &copy;\n\
<ul>a<li><b>1<i>b</b>c</i></ul>\n\
<table><tr><td>2<td>x<caption>2</table>\n\
<a href=\"HTTP://Example.COM/3?q=a b\">3</a>\n\
<blockquote><font color=red>4</font><br></blockquote>\n\
<p>Item 5 &copy;\n";

fn has_pieces(alloc: Global) -> Result<bool, AllocError> {
    let text = sample(alloc, 6)?;
    Ok(text.as_slice() == PIECES.as_bytes())
}

#[test]
fn a_sample_has_five_kinds_of_pieces(rt: HostRuntime) -> Result<(), Fail> {
    let has_all = has_pieces(rt.alloc())?;
    assert!(rt; has_all);
    Ok(())
}

static BOTH: [Row; 1] = [(
    "one_text",
    Some("--settings rules rules"),
    b"doctype = \"strict\" # <p>",
    b"Hello",
    0,
    b"doctype = \"strict\" # <p></p>",
    "",
)];

#[test]
fn one_text_is_settings_and_input(rt: HostRuntime) -> Result<(), Fail> {
    let other = first_other(rt.alloc(), &BOTH)?;
    assert_eq!(rt; other, None);
    Ok(())
}
