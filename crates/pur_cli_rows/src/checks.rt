//! Checks by the top call, and what passes unchanged.

use crate::running::{ROOM, Row, first_other, is_ending, run_over};
use std::alloc::{AllocError, Global};
use std::test::Fail;

// A forum post that is good under the defaults, with one of its parts in another form.
pub(crate) fn forum_post(alloc: Global, all: &str, line_break: &str) -> Result<String, AllocError> {
    let mut post = String::new(alloc);
    for part in [
        "<p>Hello ",
        all,
        ", see <a href=\"http://example.com/a?b=1&amp;c=2\" title=\"A &quot;page&quot;\">this page</a>.</p>\n",
        "<ul>\n<li>one</li>\n<li style=\"color:#ff0000;\">two</li>\n</ul>\n",
        "<table border=\"1\" summary=\"t\">\n<tr><th scope=\"col\">k</th><td align=\"right\">1</td></tr>\n</table>\n",
        "<p><img src=\"http://example.com/x.png\" alt=\"x\" width=\"40\" height=\"30\" />",
        line_break,
        "\n&lt;3 © 2024</p>\n",
    ] {
        post.push_str(part)?;
    }
    Ok(post)
}

fn passes_unchanged(alloc: Global) -> Result<bool, AllocError> {
    let post = forum_post(alloc, "<strong>all</strong>", "<br />")?;
    is_written(alloc, None, post.as_str(), 0, post.as_bytes())
}

// Whether a run over this input ends with this status, has written this and says nothing.
fn is_written(
    alloc: Global,
    line: Option<&str>,
    input: &str,
    status: u8,
    out: &[u8],
) -> Result<bool, AllocError> {
    let ending = run_over(alloc, line, b"", input.as_bytes(), ROOM)?;
    Ok(is_ending(&ending, status, out, ""))
}

#[test]
fn a_good_post_passes_unchanged(rt: HostRuntime) -> Result<(), Fail> {
    let is_unchanged = passes_unchanged(rt.alloc())?;
    assert!(rt; is_unchanged);
    Ok(())
}

// A name, two parts of a forum post, and the status of its check and what is written.
static POSTS: [(&str, &str, &str, u8, &[u8]); 3] = [
    (
        "a_good_post",
        "<strong>all</strong>",
        "<br />",
        0,
        b"good\n",
    ),
    (
        "a_break_without_its_slash",
        "<strong>all</strong>",
        "<br>",
        3,
        b"spelling\n",
    ),
    (
        "a_block_in_a_paragraph",
        "<div>all</div>",
        "<br />",
        4,
        b"validity\n",
    ),
];

fn is_checked_so(
    alloc: Global,
    all: &str,
    line_break: &str,
    status: u8,
    report: &[u8],
) -> Result<bool, AllocError> {
    let post = forum_post(alloc, all, line_break)?;
    is_written(alloc, Some("--check"), post.as_str(), status, report)
}

fn first_other_post(alloc: Global) -> Result<Option<&'static str>, AllocError> {
    for (name, all, line_break, status, report) in &POSTS {
        if !is_checked_so(alloc, all, line_break, *status, report)? {
            return Ok(Some(*name));
        }
    }
    Ok(None)
}

#[test]
fn posts_are_checked(rt: HostRuntime) -> Result<(), Fail> {
    let other = first_other_post(rt.alloc())?;
    assert_eq!(rt; other, None);
    Ok(())
}

static FRAGMENTS: [Row; 14] = [
    (
        "a_form_which_no_settings_permit",
        Some("--check --settings rules"),
        b"",
        b"<form></form>",
        4,
        b"validity\n",
        "",
    ),
    (
        "an_element_of_no_table",
        Some("--check --settings rules"),
        b"",
        b"<forms></forms>",
        3,
        b"spelling\n",
        "",
    ),
    (
        "nothing",
        Some("--check --settings rules"),
        b"",
        b"",
        0,
        b"good\n",
        "",
    ),
    (
        "a_text",
        Some("--check --settings rules"),
        b"",
        b"Hello",
        0,
        b"good\n",
        "",
    ),
    (
        "a_bare_ampersand",
        Some("--check --settings rules"),
        b"",
        b"a & b",
        3,
        b"spelling\n",
        "",
    ),
    (
        "a_reference",
        Some("--check --settings rules"),
        b"",
        b"a &amp; b",
        0,
        b"good\n",
        "",
    ),
    (
        "bytes_that_are_no_text",
        Some("--check --settings rules"),
        b"",
        b"\xFF",
        3,
        b"spelling\n",
        "",
    ),
    (
        "a_missing_end_tag",
        Some("--check --settings rules"),
        b"",
        b"<p>a",
        3,
        b"spelling\n",
        "",
    ),
    (
        "an_empty_list",
        Some("--check --settings rules"),
        b"",
        b"<ul></ul>",
        4,
        b"validity\n",
        "",
    ),
    (
        "a_centre",
        Some("--check --settings rules"),
        b"",
        b"<center>a</center>",
        0,
        b"good\n",
        "",
    ),
    (
        "a_centre_in_strict",
        Some("--check --settings rules"),
        b"doctype = \"strict\"",
        b"<center>a</center>",
        4,
        b"validity\n",
        "",
    ),
    (
        "a_link",
        Some("--check --settings rules"),
        b"denied_hosts = [\"bad.com\"]",
        b"<a href=\"http://notbad.com/\">y</a>",
        0,
        b"good\n",
        "",
    ),
    (
        "a_link_to_a_denied_host",
        Some("--check --settings rules"),
        b"denied_hosts = [\"bad.com\"]",
        b"<a href=\"http://x.bad.com/\">y</a>",
        4,
        b"validity\n",
        "",
    ),
    (
        "neither_spelled_nor_valid",
        Some("--check --settings rules"),
        b"",
        b"<ul><br></ul>",
        3,
        b"spelling\n",
        "",
    ),
];

#[test]
fn fragments_are_checked(rt: HostRuntime) -> Result<(), Fail> {
    let other = first_other(rt.alloc(), &FRAGMENTS)?;
    assert_eq!(rt; other, None);
    Ok(())
}

// So many `div`s in one another, with a text in the innermost.
fn nested(alloc: Global, count: usize) -> Result<String, AllocError> {
    let mut text = String::new(alloc);
    for _ in 0..count {
        text.push_str("<div>")?;
    }
    text.push_str("x")?;
    for _ in 0..count {
        text.push_str("</div>")?;
    }
    Ok(text)
}

fn levels_end_at_128(alloc: Global) -> Result<bool, AllocError> {
    let deep = nested(alloc, 129)?;
    let low = nested(alloc, 128)?;
    end_so(alloc, deep.as_str(), low.as_str())
}

fn end_so(alloc: Global, deep: &str, low: &str) -> Result<bool, AllocError> {
    let check = Some("--check");
    Ok(
        is_written(alloc, None, deep, 0, low.as_bytes())?
            && is_written(alloc, None, low, 0, low.as_bytes())?
            && is_written(alloc, check, deep, 3, b"spelling\n")?
            && is_written(alloc, check, low, 0, b"good\n")?,
    )
}

// 129 levels are one too many: the filter writes 128, which stay and are good, and no nodes are spelled as 129.
#[test]
fn levels_end(rt: HostRuntime) -> Result<(), Fail> {
    let do_end = levels_end_at_128(rt.alloc())?;
    assert!(rt; do_end);
    Ok(())
}

// A check refuses and fails as a filter does.
static REFUSED_CHECKS: [Row; 3] = [
    (
        "refused_settings",
        Some("--check --settings rules none"),
        b"=",
        b"Hello",
        5,
        b"",
        "purify: settings refused\n",
    ),
    (
        "a_missing_input",
        Some("--check none"),
        b"",
        b"Hello",
        7,
        b"",
        "purify: cannot read\n",
    ),
    (
        "missing_settings",
        Some("--check --settings none"),
        b"",
        b"Hello",
        7,
        b"",
        "purify: cannot read\n",
    ),
];

fn long_check_is_refused(alloc: Global) -> Result<bool, AllocError> {
    let input = vec![in alloc; b'a'; 1_048_577]?;
    let ending = run_over(alloc, Some("--check"), b"", input.as_slice(), ROOM)?;
    Ok(is_ending(&ending, 6, b"", "purify: input too long\n"))
}

#[test]
fn checks_are_refused(rt: HostRuntime) -> Result<(), Fail> {
    let other = first_other(rt.alloc(), &REFUSED_CHECKS)?;
    let is_refused = long_check_is_refused(rt.alloc())?;
    assert_eq!(rt; other, None);
    assert!(rt; is_refused);
    Ok(())
}
