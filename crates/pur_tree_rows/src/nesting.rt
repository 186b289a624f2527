//! Repair with ample memory: nodes and what it leaves of them, both spelled in the one way.

use crate::endings::{Failing, assert_none_fails};
use pur_nesting::fix_nesting;
use pur_reader::read_fragment;
use pur_settings::Settings;
use pur_tree::Forest;
use pur_writer::write;
use std::alloc::{AllocError, Global};

// A name, a text of settings, nodes, and what repair leaves of them under these settings.
static REPAIRED: [(&str, &str, &str, &str); 5] = [
    (
        "empty_lists_vanish_and_texts_are_joined",
        "",
        "a<ul> </ul>b<dl><dd>c</dd></dl>",
        "ab<dl><dd>c</dd></dl>",
    ),
    (
        "the_caption_comes_first_and_other_columns_vanish",
        "",
        "<table title=\"t\"><colgroup></colgroup><caption title=\"c\"></caption><tr><td>1</td></tr></table>",
        "<table title=\"t\"><caption title=\"c\"></caption><colgroup></colgroup><tr><td>1</td></tr></table>",
    ),
    (
        "a_head_more_gives_its_rows_without_bodies",
        "elements = [\"table\", \"thead\", \"tr\", \"td\"]",
        "<table><thead> <tr><td>x</td></tr></thead></table>",
        "<table><tr><td>x</td></tr></table>",
    ),
    (
        "a_caption_alone_becomes_a_paragraph",
        "",
        "<table><caption title=\"t\">c</caption></table>",
        "<p>c</p>",
    ),
    (
        "a_table_in_order_stays",
        "",
        "<table title=\"t\"> <tbody><tr><td>1</td></tr></tbody></table>",
        "<table title=\"t\"> <tbody><tr><td>1</td></tr></tbody></table>",
    ),
];

// Whether this is left of a forest.
fn leaves(
    alloc: Global,
    settings: &Settings,
    forest: &mut Forest,
    want: &str,
) -> Result<bool, AllocError> {
    fix_nesting(alloc, settings, forest)?;
    let text = write(alloc, forest)?;
    Ok(text.as_slice() == want.as_bytes())
}

// Whether this is left of the nodes that a text spells.
fn is_repaired(
    alloc: Global,
    settings: &Settings,
    text: &str,
    want: &str,
) -> Result<bool, AllocError> {
    match read_fragment(alloc, text.as_bytes())? {
        Some(mut forest) => leaves(alloc, settings, &mut forest, want),
        None => Ok(false),
    }
}

// The same under settings of this text.
fn is_repaired_under(
    alloc: Global,
    document: &str,
    text: &str,
    want: &str,
) -> Result<bool, AllocError> {
    if document.len() > 65_536 {
        return Ok(false);
    }
    match Settings::read(alloc, document.as_bytes()) {
        Ok(settings) => is_repaired(alloc, &settings, text, want),
        Err(_) => Ok(false),
    }
}

fn first_other(alloc: Global) -> Failing {
    for (name, document, text, want) in &REPAIRED {
        if !is_repaired_under(alloc, document, text, want)? {
            return Ok(Some(*name));
        }
    }
    Ok(None)
}

#[test]
fn repairs_nesting(rt: HostRuntime) {
    assert_none_fails(&rt, first_other(rt.alloc()));
}
