//! The passes in a row with ample memory: inputs with their purifications, worked out by hand.

ghost use Rattle.pur_uripolicy.specs.Asking.{AnswersBy};
ghost use Rattle.pur_uripolicy.specs.HostRules.{admits};

use crate::endings::{Failing, assert_holds, assert_none_fails};
use pur_settings::Settings;
use pur_uri::Uri;
use pur_uripolicy::{HostRule, UriGate, UriTest, host_rule};
use std::alloc::{AllocError, Global};

// The purification of an input under settings, where a closure answers by their rule of hosts.
pub(crate) fn gated<F: UriTest + Drop>(
    alloc: Global,
    settings: &Settings,
    rule: &HostRule,
    filter: F,
    input: &[u8],
) -> Result<Vec<u8>, AllocError>
    requires { AnswersBy F.may_ask F.answers filter (admits rule.now) }
{
    let gate = UriGate::new(rule, filter);
    pur_engine::purify(alloc, settings, &gate, input)
}

// The purification of an input under settings and their rule of hosts.
fn purify(alloc: Global, settings: &Settings, input: &[u8]) -> Result<Vec<u8>, AllocError> {
    let rule = host_rule(alloc, settings)?;
    gated(alloc, settings, &rule, |uri: &Uri| rule.admits(uri), input)
}

// Whether this is the purification of an input. What owns settings has no other place where it may end: a check pays for
// each.
fn gives(
    alloc: Global,
    settings: &Settings,
    input: &[u8],
    want: &[u8],
) -> Result<bool, AllocError> {
    let text = purify(alloc, settings, input)?;
    Ok(text.as_slice() == want)
}

// Whether this is the purification of an input under the defaults.
pub(crate) fn gives_by_default(
    alloc: Global,
    input: &[u8],
    want: &[u8],
) -> Result<bool, AllocError> {
    gives(alloc, &Settings::defaults(), input, want)
}

// A name, an input and its purification under the defaults, as bytes.
static OF_ANY_BYTES: [(&str, &[u8], &[u8]); 21] = [
    ("nothing_stays_nothing", b"", b""),
    ("bytes_that_are_no_text_go", b"\x41\xC3\x28\x00\x42", b"A(B"),
    ("a_line_end_of_two_characters", b"a\r\nb", b"a\nb"),
    ("a_line_end_of_one_character", b"a\rb", b"a\nb"),
    ("a_tab_and_a_line_feed_stay", b"a\tb\n", b"a\tb\n"),
    (
        "characters_past_ascii_stay",
        b"\xC3\xA9\xF0\x9F\x98\x80",
        b"\xC3\xA9\xF0\x9F\x98\x80",
    ),
    ("quotes_stay", b"it's \"so\"", b"it's \"so\""),
    (
        "signs_and_references",
        b"1 < 2 & 3 > 2 &copy; &nope;",
        b"1 &lt; 2 &amp; 3 &gt; 2 \xC2\xA9 &amp;nope;",
    ),
    (
        "references_are_read_once",
        b"&#13;&#x41;&amp;lt;&#65",
        b"A&amp;lt;&amp;#65",
    ),
    ("a_number_past_the_last_character", b"x&#x110000;y", b"xy"),
    ("a_text_may_vanish", b"<p>&#0;", b"<p></p>"),
    ("a_name_in_upper_case", b"<P>a<BR>b", b"<p>a<br />b</p>"),
    ("a_space_in_a_tag", b"<p >a", b"<p>a</p>"),
    ("a_slash_in_a_value", b"<p a=/>b", b"<p>b</p>"),
    ("a_tag_that_meets_the_end_goes", b"a <b", b"a "),
    ("a_comment_goes", b"a<!--b-->c", b"ac"),
    ("a_comment_without_an_end", b"x<!--", b"x"),
    ("a_script_goes", b"a<script>if(1<2)</script>b", b"ab"),
    ("a_script_without_an_end", b"a<script>b", b"a"),
    (
        "character_data_is_text",
        b"a<!--b-->c<![CDATA[<&amp;]]>d",
        b"ac&lt;&amp;amp;d",
    ),
    (
        "a_good_fragment_stays",
        b"<p>a &amp; b<br />c</p>d",
        b"<p>a &amp; b<br />c</p>d",
    ),
];

fn first_of_bytes(alloc: Global) -> Failing {
    for (name, input, want) in &OF_ANY_BYTES {
        if !gives_by_default(alloc, input, want)? {
            return Ok(Some(*name));
        }
    }
    Ok(None)
}

#[test]
fn reads_any_bytes(rt: HostRuntime) {
    assert_none_fails(&rt, first_of_bytes(rt.alloc()));
}

// A name, an input and its purification under the defaults.
static UNDER_DEFAULTS: [(&str, &str, &str); 46] = [
    (
        "a_paragraph_is_closed",
        "<p>a<br />b<p>c",
        "<p>a<br />b</p><p>c</p>",
    ),
    ("an_unknown_tag_is_passed_over", "a<q1>b</q1>c", "abc"),
    ("an_empty_tag_ends_at_once", "<p/>x", "<p></p>x"),
    (
        "a_start_tag_keeps_what_it_may",
        "<P CLASS=a>x",
        "<p class=\"a\">x</p>",
    ),
    ("an_end_tag_without_a_start_is_dropped", "a</p>b", "ab"),
    ("text_round_a_paragraph", "x<p>y</p>z</p>", "x<p>y</p>z"),
    ("an_open_paragraph_ends", "<p>", "<p></p>"),
    ("an_end_tag_of_an_empty_element_is_dropped", "</br>x", "x"),
    (
        "formatting_goes_on_behind_an_end_tag",
        "<b><i>x</b>y</i>",
        "<b><i>x</i></b><i>y</i>",
    ),
    (
        "formatting_goes_on_in_a_block",
        "<b>1<p>2</p>3</b>",
        "<b>1</b><p><b>2</b></p><b>3</b>",
    ),
    (
        "text_in_a_list_is_an_item",
        "<ul>a<li>b</ul>",
        "<ul><li>a</li><li>b</li></ul>",
    ),
    ("a_cell_without_a_table_is_dropped", "<td>x", "x"),
    (
        "text_in_a_table_is_lost",
        "<table>x<tr><td>y</table>",
        "<table><tr><td>y</td></tr></table>",
    ),
    (
        "a_block_ends_a_paragraph_round_an_edit",
        "<p><ins><div>x</div></ins></p>",
        "<p><ins></ins></p><div>x</div>",
    ),
    (
        "formatting_ends_with_its_cell",
        "<table><tr><td><b>1</td><td>2</table>3",
        "<table><tr><td><b>1</b></td><td>2</td></tr></table>3",
    ),
    (
        "a_link_in_a_link_is_dropped",
        "<a>1<b><a>2</a></b></a>",
        "<a>1<b>2</b></a>",
    ),
    (
        "a_big_text_in_pre_is_dropped",
        "<pre><b>a<big>x</big></b></pre>",
        "<pre><b>ax</b></pre>",
    ),
    (
        "what_does_not_fit_waits",
        "<p><big>1</p><pre>2</pre>3",
        "<p><big>1</big></p><pre>2</pre><big>3</big>",
    ),
    (
        "a_search_stops_at_a_cell",
        "<ul><li><table><tr><td>1<li>2",
        "<ul><li><table><tr><td>12</td></tr></table></li></ul>",
    ),
    (
        "a_search_stops_at_a_caption",
        "<ul><li><table><caption>1<li>2",
        "<ul><li><p>12</p></li></ul>",
    ),
    (
        "a_stopped_search_leaves_the_fragment_out",
        "<table><caption>1<div>2",
        "<p>12</p>",
    ),
    (
        "a_cell_is_examined_itself",
        "<table><tr><td><b>1<p>2",
        "<table><tr><td><b>1</b><p><b>2</b></p></td></tr></table>",
    ),
    (
        "a_cell_is_sought_past_a_cell",
        "<table><tr><td>1<td>2",
        "<table><tr><td>1</td><td>2</td></tr></table>",
    ),
    (
        "an_end_tag_stops_at_a_cell",
        "<div><table><tr><td>1</div>2",
        "<div><table><tr><td>12</td></tr></table></div>",
    ),
    (
        "the_end_of_a_table_passes_its_cells",
        "<table><tr><td>1</table>2",
        "<table><tr><td>1</td></tr></table>2",
    ),
    (
        "an_ordered_list_implies_items",
        "<ol>a",
        "<ol><li>a</li></ol>",
    ),
    (
        "a_directory_implies_items",
        "<dir>a",
        "<dir><li>a</li></dir>",
    ),
    ("a_menu_implies_items", "<menu>a", "<menu><li>a</li></menu>"),
    (
        "definitions_imply_descriptions",
        "<dl>a",
        "<dl><dd>a</dd></dl>",
    ),
    (
        "an_inline_element_in_a_list_is_an_item",
        "<ul><b>x</b></ul>",
        "<ul><li><b>x</b></li></ul>",
    ),
    (
        "a_table_implies_a_row_for_a_cell",
        "<table><td>1",
        "<table><tr><td>1</td></tr></table>",
    ),
    (
        "a_table_implies_a_row_for_a_head",
        "<table><th>1",
        "<table><tr><th>1</th></tr></table>",
    ),
    (
        "a_body_implies_a_row",
        "<table><tbody><td>1",
        "<table><tbody><tr><td>1</td></tr></tbody></table>",
    ),
    (
        "a_head_implies_a_row",
        "<table><thead><td>1",
        "<table><tbody><tr><td>1</td></tr></tbody></table>",
    ),
    (
        "a_foot_implies_a_row",
        "<table><tfoot><td>1",
        "<table><tbody><tr><td>1</td></tr></tbody></table>",
    ),
    (
        "white_space_opens_no_wrapper",
        "<ul> <li>a",
        "<ul> <li>a</li></ul>",
    ),
    (
        "a_quote_holds_text",
        "<blockquote>x</blockquote>",
        "<blockquote>x</blockquote>",
    ),
    (
        "an_edit_opens_no_formatting_again",
        "<p><b>1<p><ins>2",
        "<p><b>1</b></p><p><ins><b>2</b></ins></p>",
    ),
    (
        "an_inline_element_opens_formatting_again",
        "<p><b>1<p><span>2",
        "<p><b>1</b></p><p><b><span>2</span></b></p>",
    ),
    (
        "white_space_opens_no_formatting_again",
        "<p><b>1<p> <i>2",
        "<p><b>1</b></p><p> <b><i>2</i></b></p>",
    ),
    (
        "an_empty_tag_is_not_carried_on",
        "<p><b/>1<p>2",
        "<p><b></b>1</p><p>2</p>",
    ),
    (
        "an_empty_cell_lets_nothing_wait",
        "<table><tr><td><b>1<p>2</p></b></td></tr><td/></table>x",
        "<table><tr><td><b>1</b><p><b>2</b></p></td></tr><tr><td></td></tr></table>x",
    ),
    (
        "an_end_tag_carries_not_itself",
        "<b><i>1</b>2",
        "<b><i>1</i></b><i>2</i>",
    ),
    (
        "an_end_tag_closes_what_was_opened_again",
        "<b><p>1</b>2",
        "<b></b><p><b>1</b>2</p>",
    ),
    (
        "an_end_tag_forgets_what_waits",
        "<p><b><i></p></i>1",
        "<p><b><i></i></b></p><b>1</b>",
    ),
    (
        "a_list_in_a_list_is_an_item",
        "<ul><li>1<ul><li>2</ul>3</ul>",
        "<ul><li>1<ul><li>2</li></ul>3</li></ul>",
    ),
];

// The name of the first row whose purification is another.
fn first_other(alloc: Global, rows: &[(&'static str, &str, &str)]) -> Failing {
    for (name, input, want) in rows {
        if !gives_by_default(alloc, input.as_bytes(), want.as_bytes())? {
            return Ok(Some(*name));
        }
    }
    Ok(None)
}

#[test]
fn purifies_under_the_defaults(rt: HostRuntime) {
    assert_none_fails(&rt, first_other(rt.alloc(), &UNDER_DEFAULTS));
}

// A name, an input and its purification under the defaults, where nesting is repaired.
static REPAIRED: [(&str, &str, &str); 23] = [
    ("a_list_without_items_vanishes", "<ul></ul>x", "x"),
    (
        "lists_of_white_space_vanish",
        "<ol> </ol><dir></dir><menu></menu>x",
        "x",
    ),
    (
        "texts_beside_a_list_that_vanishes_are_joined",
        "a<ul> </ul>b",
        "ab",
    ),
    ("definitions_without_any_vanish", "<dl></dl>x", "x"),
    (
        "a_term_alone_is_enough",
        "<dl><dt>a</dl>",
        "<dl><dt>a</dt></dl>",
    ),
    (
        "a_row_without_cells_vanishes",
        "<table><tr></tr><tr><td>1</table>",
        "<table><tr><td>1</td></tr></table>",
    ),
    (
        "a_head_without_rows_vanishes",
        "<table><thead></thead><tr><td>1</table>",
        "<table><tr><td>1</td></tr></table>",
    ),
    (
        "a_caption_comes_first",
        "<table><tr><td>1<td>2<caption>c</table>",
        "<table><caption>c</caption><tr><td>1</td><td>2</td></tr></table>",
    ),
    (
        "the_first_caption_stays",
        "<table><caption>a</caption><caption>b</caption><tr><td>1</table>",
        "<table><caption>a</caption><tr><td>1</td></tr></table>",
    ),
    (
        "columns_stay_where_they_come_first",
        "<table><col><colgroup></colgroup><tr><td>1</table>",
        "<table><col /><tr><td>1</td></tr></table>",
    ),
    (
        "groups_of_columns_stay_where_they_come_first",
        "<table><colgroup></colgroup><col><tr><td>1</table>",
        "<table><colgroup></colgroup><tr><td>1</td></tr></table>",
    ),
    (
        "white_space_at_the_front_stays_first",
        "<table> <tr><td>1</td></tr><caption>c</caption></table>",
        "<table> <caption>c</caption><tr><td>1</td></tr></table>",
    ),
    (
        "a_surplus_head_is_a_body",
        "<table><tbody><tr><td>1</td></tr></tbody><thead><tr><td>2</td></tr></thead><tr><td>3</td></tr><thead><tr><td>4</td></tr></thead></table>",
        "<table><thead><tr><td>2</td></tr></thead><tbody><tr><td>1</td></tr></tbody><tbody><tr><td>3</td></tr></tbody><tbody><tr><td>4</td></tr></tbody></table>",
    ),
    (
        "a_surplus_head_keeps_its_white_space",
        "<table><thead><tr><td>1</td></tr></thead><thead> <tr><td>2</td></tr></thead></table>",
        "<table><thead><tr><td>1</td></tr></thead><tbody> <tr><td>2</td></tr></tbody></table>",
    ),
    (
        "a_surplus_foot_is_a_body",
        "<table><tfoot><tr><td>1</td></tr></tfoot><tfoot><tr><td>2</td></tr></tfoot><tbody><tr><td>3</td></tr></tbody></table>",
        "<table><tfoot><tr><td>1</td></tr></tfoot><tbody><tr><td>2</td></tr></tbody><tbody><tr><td>3</td></tr></tbody></table>",
    ),
    (
        "a_foot_comes_before_bodies",
        "<table><tbody><tr><td>1</td></tr></tbody><tfoot><tr><td>2</td></tr></tfoot></table>",
        "<table><tfoot><tr><td>2</td></tr></tfoot><tbody><tr><td>1</td></tr></tbody></table>",
    ),
    (
        "a_head_alone_is_the_body",
        "<table><thead><tr><td>x</td></tr></thead></table>",
        "<table><tbody><tr><td>x</td></tr></tbody></table>",
    ),
    (
        "a_foot_is_the_body_before_a_head",
        "<table><thead><tr><td>1</td></tr></thead><tfoot><tr><td>2</td></tr></tfoot></table>",
        "<table><thead><tr><td>1</td></tr></thead><tbody><tr><td>2</td></tr></tbody></table>",
    ),
    (
        "a_run_of_rows_stands_in_one_body",
        "<table><tbody><tr><td>1</td></tr></tbody><tr><td>2</td></tr> <tr><td>3</td></tr> <tbody><tr><td>4</td></tr></tbody></table>",
        "<table><tbody><tr><td>1</td></tr></tbody><tbody><tr><td>2</td></tr> <tr><td>3</td></tr> </tbody><tbody><tr><td>4</td></tr></tbody></table>",
    ),
    (
        "rows_alone_need_no_body",
        "<table><tr><td>1</td></tr> <tr><td>2</td></tr></table>",
        "<table><tr><td>1</td></tr> <tr><td>2</td></tr></table>",
    ),
    (
        "a_caption_without_bodies_is_a_paragraph",
        "<table><caption>c</caption></table>",
        "<p>c</p>",
    ),
    (
        "a_caption_of_white_space_vanishes",
        "<table><caption> </caption></table>x",
        "x",
    ),
    ("a_table_of_nothing_vanishes", "<table></table>x", "x"),
];

#[test]
fn repairs_nesting(rt: HostRuntime) {
    assert_none_fails(&rt, first_other(rt.alloc(), &REPAIRED));
}

// A name, a text of settings, an input and its purification under these settings.
type Row = (&'static str, &'static str, &'static str, &'static str);

static UNDER_SETTINGS: [Row; 17] = [
    (
        "a_denied_element_goes",
        "version = 2\ndenied_elements = [\"b\"]",
        "<b><i>x</b>y</i>",
        "<i>xy</i>",
    ),
    (
        "only_breaks_are_permitted",
        "elements = [\"br\"]",
        "<p>a<br>b",
        "a<br />b",
    ),
    (
        "nothing_is_permitted",
        "elements = []",
        "<p>a<br>b<p>c",
        "abc",
    ),
    (
        "only_bold_is_permitted",
        "elements = [\"b\"]",
        "<p><b>x</b></p>",
        "<b>x</b>",
    ),
    (
        "items_are_not_permitted",
        "elements = [\"ul\"]",
        "<ul>a<li>b</ul>",
        "",
    ),
    (
        "rows_are_not_permitted",
        "elements = [\"table\", \"td\"]",
        "<table><td>1</table>2",
        "2",
    ),
    (
        "a_strict_quote_implies_a_paragraph",
        "doctype = \"strict\"",
        "<blockquote>x</blockquote>",
        "<blockquote><p>x</p></blockquote>",
    ),
    (
        "a_strict_quote_implies_a_paragraph_round_bold",
        "doctype = \"strict\"",
        "<blockquote><b>x</b></blockquote>",
        "<blockquote><p><b>x</b></p></blockquote>",
    ),
    (
        "a_strict_quote_holds_edits",
        "doctype = \"strict\"",
        "<blockquote><ins>x</ins></blockquote>",
        "<blockquote><ins>x</ins></blockquote>",
    ),
    (
        "paragraphs_are_not_permitted_in_a_strict_quote",
        "doctype = \"strict\"\nelements = [\"blockquote\"]",
        "<blockquote>x</blockquote>",
        "<blockquote></blockquote>",
    ),
    (
        "a_span_holds_no_paragraph",
        "parent = \"span\"",
        "<p>x</p>",
        "x",
    ),
    (
        "a_span_holds_inline_elements",
        "parent = \"span\"",
        "<b>1<p>2</p>3</b>",
        "<b>123</b>",
    ),
    (
        "a_div_holds_paragraphs",
        "parent = \"div\"",
        "<p>x",
        "<p>x</p>",
    ),
    (
        "a_centered_paragraph_in_strict",
        "doctype = \"strict\"",
        "<center><p>x</center>",
        "<div style=\"text-align:center;\"><p>x</p></div>",
    ),
    (
        "a_head_gives_its_rows_where_no_body_is_permitted",
        "elements = [\"table\", \"thead\", \"tr\", \"td\"]",
        "<table><thead><tr><td>x</td></tr></thead></table>",
        "<table><tr><td>x</td></tr></table>",
    ),
    (
        "a_surplus_head_gives_its_rows",
        "elements = [\"table\", \"thead\", \"tr\", \"td\"]",
        "<table><thead><tr><td>1</td></tr></thead><thead> <tr><td>2</td></tr></thead> <tr><td>3</td></tr></table>",
        "<table><thead><tr><td>1</td></tr></thead><tr><td>2</td></tr> <tr><td>3</td></tr></table>",
    ),
    (
        "a_caption_is_lost_where_no_paragraph_is_permitted",
        "elements = [\"table\", \"caption\"]",
        "<table><caption>c</caption></table>x",
        "x",
    ),
];

// Whether this is the purification of an input under the settings of a text.
pub(crate) fn gives_under(
    alloc: Global,
    document: &str,
    input: &str,
    want: &str,
) -> Result<bool, AllocError> {
    if document.len() > 65_536 {
        return Ok(false);
    }
    match Settings::read(alloc, document.as_bytes()) {
        Ok(settings) => gives(alloc, &settings, input.as_bytes(), want.as_bytes()),
        Err(_) => Ok(false),
    }
}

// The name of the first row whose purification is another, or whose settings aren't read.
fn first_under(alloc: Global, rows: &[Row]) -> Failing {
    for (name, document, input, want) in rows {
        if !gives_under(alloc, document, input, want)? {
            return Ok(Some(*name));
        }
    }
    Ok(None)
}

#[test]
fn purifies_under_settings(rt: HostRuntime) {
    assert_none_fails(&rt, first_under(rt.alloc(), &UNDER_SETTINGS));
}

// A name, a text of settings, an input and its purification under these settings, where attributes are made valid.
static OF_ATTRIBUTES: [Row; 28] = [
    (
        "an_item_permits_on_one_element",
        "version = 2\nattributes = [\"a.href\", \"title\"]",
        "<a href=\"x\" title=\"t\" rel=\"next\">y</a><p title=\"u\" class=\"c\">z</p>",
        "<a href=\"x\" title=\"t\">y</a><p title=\"u\">z</p>",
    ),
    (
        "what_an_element_needs_can_not_be_denied",
        "version = 2\ndenied_attributes = [\"img.alt\"]",
        "<img src=\"x\" alt=\"\" />",
        "<img src=\"x\" alt=\"\" />",
    ),
    (
        "a_denied_scheme_is_no_link",
        "version = 2\ndenied_schemes = [\"ftp\"]",
        "<a href=\"ftp://h/\">x</a>",
        "<a>x</a>",
    ),
    (
        "a_script_is_no_link",
        "",
        "<a href=\"javascript:alert(1)\">x</a>",
        "<a>x</a>",
    ),
    (
        "a_script_in_mixed_case_is_no_link",
        "",
        "<a href=\"JavaScript:x\">x</a>",
        "<a>x</a>",
    ),
    (
        "a_link_is_written_in_one_way",
        "",
        "<a href=\"HTTP://Example.COM:80/%7euser?q=a b\">x</a>",
        "<a href=\"http://example.com/~user?q=a%20b\">x</a>",
    ),
    (
        "a_picture_is_named_by_its_source",
        "",
        "<img src=\"x.png\">",
        "<img src=\"x.png\" alt=\"x.png\" />",
    ),
    ("a_picture_without_a_source_goes", "", "<img>", ""),
    (
        "a_style_is_written_in_one_way",
        "",
        "<p style=\"COLOR: Red; position:fixed; color:#0F0\">x</p>",
        "<p style=\"color:#00ff00;\">x</p>",
    ),
    (
        "a_long_style_is_written_in_one_way",
        "",
        "<p style=\"margin:0px AUTO; border: solid 1px #F00; font-family: &quot;Times New Roman&quot; , Serif; background-image:url('HTTP://E.com/a.png'); width:+010.50PX\">x</p>",
        "<p style=\"margin:0 auto;border:1px solid #ff0000;font-family:'Times New Roman',serif;background-image:url(&quot;http://e.com/a.png&quot;);width:10.5px;\">x</p>",
    ),
    (
        "a_style_of_nothing_goes",
        "",
        "<p style=\"position:fixed\">x</p>",
        "<p>x</p>",
    ),
    (
        "a_center_is_a_style_in_strict",
        "doctype = \"strict\"",
        "<center>x</center>",
        "<div style=\"text-align:center;\">x</div>",
    ),
    (
        "a_font_is_a_style_in_strict",
        "doctype = \"strict\"",
        "<font color=\"red\" size=\"7\">x</font>",
        "<span style=\"color:#ff0000;font-size:300%;\">x</span>",
    ),
    (
        "an_alignment_is_a_style_in_strict",
        "doctype = \"strict\"",
        "<p align=\"center\">x</p>",
        "<p style=\"text-align:center;\">x</p>",
    ),
    (
        "a_line_under_text_is_a_style_in_strict",
        "doctype = \"strict\"",
        "<p>a<u>b</u></p>",
        "<p>a<span style=\"text-decoration:underline;\">b</span></p>",
    ),
    (
        "the_first_of_equal_ids_stays",
        "ids = true",
        "<p id=\"a\">x</p><p id=\"a\">y</p>",
        "<p id=\"a\">x</p><p>y</p>",
    ),
    (
        "an_id_goes_where_ids_are_off",
        "",
        "<p id=\"a\">x</p>",
        "<p>x</p>",
    ),
    (
        "an_id_gets_the_prefix",
        "ids = true\nid_prefix = \"u-\"",
        "<p id=\"a\">x</p>",
        "<p id=\"u-a\">x</p>",
    ),
    (
        "an_id_with_the_prefix_stays",
        "ids = true\nid_prefix = \"u-\"",
        "<p id=\"u-a\">x</p>",
        "<p id=\"u-a\">x</p>",
    ),
    (
        "a_name_becomes_an_id",
        "ids = true\nid_prefix = \"u-\"",
        "<a name=\"t\">x</a>",
        "<a id=\"u-t\">x</a>",
    ),
    (
        "a_link_in_a_link_is_dropped_with_its_attributes",
        "",
        "<a href=\"x\">1<b><a href=\"y\">2</a></b></a>",
        "<a href=\"x\">1<b>2</b></a>",
    ),
    (
        "a_picture_in_pre_is_dropped",
        "",
        "<pre><b>a<img src=\"x\"></b></pre>",
        "<pre><b>a</b></pre>",
    ),
    (
        "a_language_is_told_twice",
        "",
        "<p lang=\"EN\">x</p>",
        "<p lang=\"en\" xml:lang=\"en\">x</p>",
    ),
    (
        "a_direction_is_put_in",
        "",
        "<bdo>x</bdo>",
        "<bdo dir=\"ltr\">x</bdo>",
    ),
    (
        "a_host_under_a_denied_one_is_denied",
        "denied_hosts = [\"bad.com\"]",
        "<a href=\"http://x.bad.com/\">y</a>",
        "<a>y</a>",
    ),
    (
        "a_host_that_ends_like_a_denied_one_is_not",
        "denied_hosts = [\"bad.com\"]",
        "<a href=\"http://notbad.com/\">y</a>",
        "<a href=\"http://notbad.com/\">y</a>",
    ),
    (
        "a_picture_of_a_denied_host_goes",
        "denied_hosts = [\"bad.com\"]",
        "<img src=\"http://bad.com/x.png\" alt=\"x\" />",
        "",
    ),
    (
        "numbers_are_written_in_one_way",
        "",
        "<table border=\"007px\" width=\"150%\"><tr><td colspan=\"0\" align=\"RIGHT\">x",
        "<table border=\"7\" width=\"100%\"><tr><td align=\"right\">x</td></tr></table>",
    ),
];

#[test]
fn makes_attributes_valid(rt: HostRuntime) {
    assert_none_fails(&rt, first_under(rt.alloc(), &OF_ATTRIBUTES));
}

// A post as a forum has them, spelled as it is written.
static POST: &str =
    "<p>Hello <strong>all</strong>, see <a href=\"http://example.com/a?b=1&amp;c=2\" title=\"A &quot;page&quot;\">this page</a>.</p>\n<ul>\n<li>one</li>\n<li style=\"color:#ff0000;\">two</li>\n</ul>\n<table border=\"1\" summary=\"t\">\n<tr><th scope=\"col\">k</th><td align=\"right\">1</td></tr>\n</table>\n<p><img src=\"http://example.com/x.png\" alt=\"x\" width=\"40\" height=\"30\" /><br />\n&lt;3 © 2024</p>\n";

#[test]
fn a_good_post_stays(rt: HostRuntime) {
    let post = POST.as_bytes();
    assert_holds(&rt, gives_by_default(rt.alloc(), post, post));
}
