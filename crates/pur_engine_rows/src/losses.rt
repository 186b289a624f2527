//! Rows on what gets lost: text that finds no place, and captions that can't be kept. What came out and what was lost is what
//! was read, counted by one letter.

use crate::endings::{Failing, assert_none_fails};
use crate::engine::gives_under;
use std::alloc::Global;

// A name, a text of settings, an input, its purification, and how many of its letters `x` are lost.
type Row = (
    &'static str,
    &'static str,
    &'static str,
    &'static str,
    usize,
);

static LOST: [Row; 9] = [
    (
        "a_text_in_an_item_is_kept",
        "",
        "<ul><li>xx</li></ul>",
        "<ul><li>xx</li></ul>",
        0,
    ),
    (
        "a_text_in_a_list_gets_an_item",
        "",
        "<ul>xx<li>a</li></ul>",
        "<ul><li>xx</li><li>a</li></ul>",
        0,
    ),
    (
        "a_text_in_a_table_is_lost",
        "",
        "<table>xx<tr><td>x</td></tr></table>",
        "<table><tr><td>x</td></tr></table>",
        2,
    ),
    (
        "a_text_in_a_list_without_items_is_lost",
        "elements = [\"ul\"]",
        "<ul>xxx</ul>x",
        "x",
        3,
    ),
    (
        "the_first_caption_is_kept",
        "",
        "<table><caption>xx</caption><tr><td>x</td></tr></table>",
        "<table><caption>xx</caption><tr><td>x</td></tr></table>",
        0,
    ),
    (
        "a_second_caption_is_lost",
        "",
        "<table><caption>xx</caption><caption>xxx</caption><tr><td>x</td></tr></table>",
        "<table><caption>xx</caption><tr><td>x</td></tr></table>",
        3,
    ),
    (
        "the_caption_of_a_table_without_rows_becomes_a_paragraph",
        "",
        "<table><caption>xx</caption></table>",
        "<p>xx</p>",
        0,
    ),
    (
        "a_caption_that_becomes_no_paragraph_is_lost",
        "elements = [\"table\", \"caption\"]",
        "<table><caption>xx</caption></table>x",
        "x",
        2,
    ),
    (
        "the_text_of_foreign_elements_is_kept",
        "elements = []",
        "<blink>x</blink><table><tr><td>xx</td></tr></table>",
        "xxx",
        0,
    ),
];

// How many letters `x` a text has; the rows have none in a tag.
fn letters_in(text: &str) -> Option<usize> {
    let mut count: usize = 0;
    for byte in text.as_bytes() {
        if *byte == b'x' {
            count = count.checked_add(1)?;
        }
    }
    Some(count)
}

// Whether what came out and what was lost is what was read.
fn is_balanced(read: Option<usize>, written: Option<usize>, lost: usize) -> bool {
    match (read, written) {
        (Some(read), Some(written)) => written.checked_add(lost) == Some(read),
        _ => false,
    }
}

// The name of the first row whose purification is another, or that loses another number of letters.
fn first_other(alloc: Global, rows: &[Row]) -> Failing {
    for (name, document, input, want, lost) in rows {
        if !gives_under(alloc, document, input, want)? {
            return Ok(Some(*name));
        }
        if !is_balanced(letters_in(input), letters_in(want), *lost) {
            return Ok(Some(*name));
        }
    }
    Ok(None)
}

#[test]
fn what_is_lost_and_what_is_written_was_read(rt: HostRuntime) {
    assert_none_fails(&rt, first_other(rt.alloc(), &LOST));
}
