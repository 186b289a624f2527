//! The limits that no input passes: the levels of elements, the copies of formatting, and what they may cost.

use crate::endings::assert_holds;
use crate::engine::gives_by_default;
use std::alloc::{AllocError, Global};

// Puts so many times a text.
fn put_times(out: &mut String, count: usize, text: &str) -> Result<(), AllocError> {
    for _ in 0..count {
        out.push_str(text)?;
    }
    Ok(())
}

// Puts a text between so many starts and so many ends.
fn put_between(
    out: &mut String,
    count: usize,
    start: &str,
    inner: &str,
    end: &str,
) -> Result<(), AllocError> {
    put_times(out, count, start)?;
    out.push_str(inner)?;
    put_times(out, count, end)
}

// How many starts and ends stand round a text, a start, the text, and an end.
type Between = (usize, &'static str, &'static str, &'static str);

fn between(alloc: Global, parts: &Between) -> Result<String, AllocError> {
    let (count, start, inner, end) = parts;
    let mut text = String::new(alloc);
    put_between(&mut text, *count, start, inner, end)?;
    Ok(text)
}

// Whether one such text is the purification of another.
fn gives_between(alloc: Global, input: &Between, want: &Between) -> Result<bool, AllocError> {
    let input = between(alloc, input)?;
    let want = between(alloc, want)?;
    gives_by_default(alloc, input.as_bytes(), want.as_bytes())
}

static MORE_THAN_THE_LIMIT: Between = (129, "<div>", "x", "</div>");

static THE_LIMIT: Between = (128, "<div>", "x", "</div>");

#[test]
fn levels_end_at_the_limit(rt: HostRuntime) {
    let alloc = rt.alloc();
    assert_holds(&rt, gives_between(alloc, &MORE_THAN_THE_LIMIT, &THE_LIMIT));
    assert_holds(&rt, gives_between(alloc, &THE_LIMIT, &THE_LIMIT));
}

static A_TABLE_IN_BLOCKS: Between = (126, "<div>", "<table><tr><td>x", "");

static BLOCKS_ALONE: Between = (126, "<div>", "", "</div>");

#[test]
fn a_row_counts_for_two(rt: HostRuntime) {
    let holds = gives_between(rt.alloc(), &A_TABLE_IN_BLOCKS, &BLOCKS_ALONE);
    assert_holds(&rt, holds);
}

static A_FLOOD_OF_BOLD: Between = (200_000, "<b>", "x", "");

static BOLD_AT_THE_LIMIT: Between = (128, "<b>", "x", "</b>");

fn has_length(alloc: Global, parts: &Between, length: usize) -> Result<bool, AllocError> {
    Ok(between(alloc, parts)?.len() == length)
}

#[test]
fn a_flood_of_bold_stops_at_the_limit(rt: HostRuntime) {
    let alloc = rt.alloc();
    assert_holds(&rt, has_length(alloc, &BOLD_AT_THE_LIMIT, 897));
    assert_holds(
        &rt,
        gives_between(alloc, &A_FLOOD_OF_BOLD, &BOLD_AT_THE_LIMIT),
    );
}

// Puts a paragraph, its text in so many copies of bold.
fn put_paragraph(out: &mut String, copies: usize) -> Result<(), AllocError> {
    out.push_str("<p>")?;
    put_between(out, copies, "<b>", "x", "</b>")?;
    out.push_str("</p>")
}

// Puts a thousand paragraphs: 655 of 100 copies, one of 36, and then none has any.
fn put_paragraphs(out: &mut String) -> Result<(), AllocError> {
    for at in 0..1000usize {
        let copies = if at < 655 {
            100
        } else if at == 655 {
            36
        } else {
            0
        };
        put_paragraph(out, copies)?;
    }
    Ok(())
}

// Puts a thousand paragraphs in bold, and what is left of them.
fn put_bold_paragraphs(input: &mut String, want: &mut String) -> Result<(), AllocError> {
    put_between(input, 100, "<b>", "", "")?;
    put_times(input, 1000, "<p>x")?;
    put_between(want, 100, "<b>", "", "</b>")?;
    put_paragraphs(want)
}

fn ends_copies(alloc: Global, input: &mut String, want: &mut String) -> Result<bool, AllocError> {
    put_bold_paragraphs(input, want)?;
    let is_given = gives_by_default(alloc, input.as_bytes(), want.as_bytes())?;
    Ok(is_given && want.len() == 467_452)
}

// What owns texts has no place where it may end but its last line, here and below.
fn do_copies_end(alloc: Global) -> Result<bool, AllocError> {
    let mut input = String::new(alloc);
    let mut want = String::new(alloc);
    ends_copies(alloc, &mut input, &mut want)
}

#[test]
fn copies_end_with_the_allowance(rt: HostRuntime) {
    assert_holds(&rt, do_copies_end(rt.alloc()));
}

// Puts bold with a title of so many letters, and a text in it.
fn put_titled(out: &mut String, letters: usize, text: &str) -> Result<(), AllocError> {
    out.push_str("<b title=\"")?;
    put_times(out, letters, "A")?;
    out.push_str("\">")?;
    out.push_str(text)
}

// Puts bold with a long title, and what is left of it.
fn put_long_titles(input: &mut String, want: &mut String) -> Result<(), AllocError> {
    put_titled(input, 600_000, "1<p>2<p>3")?;
    put_titled(want, 600_000, "1</b><p>")?;
    put_titled(want, 600_000, "2</b></p><p>3</p>")
}

fn carries_title(alloc: Global, input: &mut String, want: &mut String) -> Result<bool, AllocError> {
    put_long_titles(input, want)?;
    gives_by_default(alloc, input.as_bytes(), want.as_bytes())
}

fn is_title_carried(alloc: Global) -> Result<bool, AllocError> {
    let mut input = String::new(alloc);
    let mut want = String::new(alloc);
    carries_title(alloc, &mut input, &mut want)
}

#[test]
fn a_long_title_is_carried_on(rt: HostRuntime) {
    assert_holds(&rt, is_title_carried(rt.alloc()));
}
