//! Rows on links and paragraphs: an input with its purification under settings that want them, which is fed again.

use crate::endings::{Failing, assert_none_fails};
use crate::engine::gives_under;
use std::alloc::{AllocError, Global};

// A name, a text of settings, an input and its purification.
type Row = (&'static str, &'static str, &'static str, &'static str);

const LINKS: &str = "linkify = true";

const PARAGRAPHS: &str = "auto_paragraph = true";

const BOTH: &str = "linkify = true\nauto_paragraph = true";

static INJECTED: [Row; 31] = [
    (
        "nothing_is_made_by_default",
        "",
        "see http://a.b/c\n\nok",
        "see http://a.b/c\n\nok",
    ),
    (
        "an_address_becomes_a_link",
        LINKS,
        "see http://a.b/c, ok",
        "see <a href=\"http://a.b/c\">http://a.b/c</a>, ok",
    ),
    (
        "three_line_feeds_are_a_blank_line",
        PARAGRAPHS,
        "a\n\n\nb",
        "<p>a</p>\n\n<p>b</p>",
    ),
    (
        "both_are_made",
        BOTH,
        "see http://a.b/c\n\n\nok",
        "<p>see <a href=\"http://a.b/c\">http://a.b/c</a></p>\n\n<p>ok</p>",
    ),
    (
        "a_run_without_a_blank_line_is_a_paragraph",
        PARAGRAPHS,
        "Hello",
        "<p>Hello</p>",
    ),
    (
        "an_address_in_a_link_stays",
        LINKS,
        "<a>http://a.b/</a>",
        "<a>http://a.b/</a>",
    ),
    (
        "an_address_below_bold_in_a_link_stays",
        LINKS,
        "<a><b>http://a.b/</b></a>",
        "<a><b>http://a.b/</b></a>",
    ),
    (
        "an_address_in_preformatted_text_becomes_a_link",
        LINKS,
        "<pre>http://a.b/</pre>",
        "<pre><a href=\"http://a.b/\">http://a.b/</a></pre>",
    ),
    (
        "an_address_in_a_cell_becomes_a_link",
        LINKS,
        "<table><tr><td>http://a.b/</td></tr></table>",
        "<table><tr><td><a href=\"http://a.b/\">http://a.b/</a></td></tr></table>",
    ),
    (
        "an_address_begins_behind_a_mark",
        LINKS,
        "(http://a.b/)",
        "(<a href=\"http://a.b/\">http://a.b/</a>)",
    ),
    (
        "an_address_in_a_word_stays",
        LINKS,
        "xhttp://a.b/",
        "xhttp://a.b/",
    ),
    (
        "an_address_behind_a_digit_stays",
        LINKS,
        "1http://a.b/",
        "1http://a.b/",
    ),
    (
        "a_letter_past_ascii_is_a_boundary",
        LINKS,
        "éhttp://a.b/",
        "é<a href=\"http://a.b/\">http://a.b/</a>",
    ),
    (
        "marks_at_the_end_are_taken_off",
        LINKS,
        "http://a.b/c.:!?",
        "<a href=\"http://a.b/c\">http://a.b/c</a>.:!?",
    ),
    (
        "a_prefix_alone_stays",
        LINKS,
        "http:// x https://... ftp://!",
        "http:// x https://... ftp://!",
    ),
    (
        "a_prefix_in_capitals_stays",
        LINKS,
        "HTTP://a.b/",
        "HTTP://a.b/",
    ),
    (
        "a_refused_run_is_passed_over_whole",
        "linkify = true\ndenied_hosts = [\"a.b\"]",
        "http://a.b/?http://c.d/ http://c.d/",
        "http://a.b/?http://c.d/ <a href=\"http://c.d/\">http://c.d/</a>",
    ),
    (
        "a_scheme_that_is_not_permitted_makes_no_link",
        "linkify = true\nschemes = [\"https\"]",
        "http://a.b/ https://a.b/",
        "http://a.b/ <a href=\"https://a.b/\">https://a.b/</a>",
    ),
    (
        "no_link_without_its_element",
        "linkify = true\nelements = [\"p\"]",
        "http://a.b/",
        "http://a.b/",
    ),
    (
        "no_link_without_its_attribute",
        "linkify = true\nattributes = [\"title\"]",
        "http://a.b/",
        "http://a.b/",
    ),
    (
        "a_link_of_strict",
        "doctype = \"strict\"\nlinkify = true",
        "ftp://a.b/c",
        "<a href=\"ftp://a.b/c\">ftp://a.b/c</a>",
    ),
    (
        "a_link_in_a_span",
        "parent = \"span\"\nlinkify = true",
        "http://a.b/",
        "<a href=\"http://a.b/\">http://a.b/</a>",
    ),
    (
        "an_address_gets_its_one_spelling",
        LINKS,
        "http://A.b:80/%7Ec",
        "<a href=\"http://a.b/~c\">http://A.b:80/%7Ec</a>",
    ),
    (
        "blocks_stand_between_paragraphs",
        PARAGRAPHS,
        "a<div>b</div>c",
        "<p>a</p><div>b</div><p>c</p>",
    ),
    (
        "marks_of_editing_stand_in_no_paragraph",
        PARAGRAPHS,
        "a<ins>b</ins>c",
        "<p>a</p><ins>b</ins><p>c</p>",
    ),
    (
        "inline_elements_stand_in_paragraphs",
        PARAGRAPHS,
        "<b>a</b> b\n\n<i>c</i>",
        "<p><b>a</b> b</p>\n\n<p><i>c</i></p>",
    ),
    (
        "white_space_is_no_paragraph",
        PARAGRAPHS,
        " \n\n<b>a</b>\n\n \n<br />",
        " \n\n<p><b>a</b></p>\n\n<p> \n<br /></p>",
    ),
    (
        "a_line_feed_parts_nothing",
        PARAGRAPHS,
        "a\nb",
        "<p>a\nb</p>",
    ),
    (
        "no_paragraphs_in_a_span",
        "parent = \"span\"\nauto_paragraph = true",
        "a\n\n\nb",
        "a\n\n\nb",
    ),
    (
        "no_paragraphs_without_their_element",
        "auto_paragraph = true\nelements = [\"b\"]",
        "a\n\n\nb",
        "a\n\n\nb",
    ),
    (
        "a_strict_paragraph",
        "doctype = \"strict\"\nauto_paragraph = true",
        "a\n\nb",
        "<p>a</p>\n\n<p>b</p>",
    ),
];

// The name of the first row whose purification is another, or whose purification is changed by purifying again.
fn first_other(alloc: Global, rows: &[Row]) -> Failing {
    for (name, document, input, want) in rows {
        if !gives_under(alloc, document, input, want)? {
            return Ok(Some(*name));
        }
        if !gives_under(alloc, document, want, want)? {
            return Ok(Some(*name));
        }
    }
    Ok(None)
}

#[test]
fn links_and_paragraphs_are_made_once(rt: HostRuntime) {
    assert_none_fails(&rt, first_other(rt.alloc(), &INJECTED));
}

// A name, a text of settings, what is repeated in an input, and a purification: what stands first, what is repeated, and what
// stands last.
type Repeated = (
    &'static str,
    &'static str,
    &'static str,
    (&'static str, &'static str, &'static str),
);

// Lists of nodes of which most is taken before the last is: where nothing is made of them, and where much is.
static REPEATED: [Repeated; 5] = [
    (
        "blocks_alone_stay",
        BOTH,
        "<p>a</p><hr />",
        ("", "<p>a</p><hr />", ""),
    ),
    (
        "white_space_between_blocks_stays",
        BOTH,
        "<p>a</p>\n<div>b</div> ",
        ("", "<p>a</p>\n<div>b</div> ", ""),
    ),
    (
        "each_run_becomes_a_paragraph",
        BOTH,
        "a <b>b</b><hr />c<br />d\n\n\n",
        ("", "<p>a <b>b</b></p><hr /><p>c<br />d</p>\n\n", ""),
    ),
    (
        "links_in_order_become_one_paragraph",
        BOTH,
        "ftp://a.b/c d<br />e ",
        (
            "<p>",
            "<a href=\"ftp://a.b/c\">ftp://a.b/c</a> d<br />e ",
            "</p>",
        ),
    ),
    (
        "links_in_order_without_paragraphs",
        LINKS,
        "ftp://a.b/c d<br />e ",
        ("", "<a href=\"ftp://a.b/c\">ftp://a.b/c</a> d<br />e ", ""),
    ),
];

// How often a row's pieces stand in its texts.
const TIMES: usize = 50;

fn repeated(alloc: Global, first: &str, piece: &str, last: &str) -> Result<String, AllocError> {
    let mut text = String::new(alloc);
    text.push_str(first)?;
    for _ in 0..TIMES {
        text.push_str(piece)?;
    }
    text.push_str(last)?;
    Ok(text)
}

// The name of the first row of repeated pieces whose purification is another.
fn first_other_repeated(alloc: Global, rows: &[Repeated]) -> Failing {
    for (name, document, piece, want) in rows {
        let (first, made, last) = want;
        let input = repeated(alloc, "", piece, "")?;
        let output = repeated(alloc, first, made, last)?;
        if !gives_under(alloc, document, input.as_str(), output.as_str())? {
            return Ok(Some(*name));
        }
    }
    Ok(None)
}

#[test]
fn long_lists_are_gone_through_in_order(rt: HostRuntime) {
    assert_none_fails(&rt, first_other_repeated(rt.alloc(), &REPEATED));
}
