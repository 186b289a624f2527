//! Sheets by rows: the sheet, what it is read as under the scope `s`, and what the row shows.
ghost use Rattle.std.specs.Prelude.{◌≡◌, ◌∷◌, [], true, codes};
ghost use Rattle.std.specs.Str.{chars};
ghost use Rattle.pur_uripolicy.specs.Asking.{AnswersBy};
ghost use Rattle.pur_uripolicy.specs.HostRules.{admits};

use crate::endings::{Failing, assert_none_fails};
use pur_settings::Settings;
use pur_sheet::{is_scope, read_sheet};
use pur_uri::Uri;
use pur_uripolicy::{HostRule, UriGate, UriTest};
use std::alloc::{AllocError, Global};

type Row = (&'static str, &'static str, &'static str);

static SHEETS: [Row; 42] = [
    (
        "P.a , td > b { COLOR: red; position: fixed } @import \"x\"; i:hover{color:red}",
        "#s p.a, #s td > b {color:#ff0000;}\n",
        "rules_are_kept_to_the_scope",
    ),
    (
        "#s p.a, #s td > b {color:#ff0000;}\n",
        "#s p.a, #s td > b {color:#ff0000;}\n",
        "scoped_selectors_stay",
    ),
    (
        "#s{color:red}",
        "#s #s {color:#ff0000;}\n",
        "the_scope_alone_gets_it_in_front",
    ),
    (
        "#s.a p{color:red}",
        "#s #s.a p {color:#ff0000;}\n",
        "the_scope_with_a_class_gets_it_in_front",
    ),
    (
        "#s>p{color:red}",
        "#s > p {color:#ff0000;}\n",
        "a_child_of_the_scope_stays",
    ),
    (
        "@media x{p{color:red}}b{color:red}",
        "#s b {color:#ff0000;}\n",
        "an_at_rule_ends_at_its_brace",
    ),
    (
        "@x \"a;b\";b{color:red}",
        "#s b {color:#ff0000;}\n",
        "a_semicolon_in_quotes_ends_no_at_rule",
    ),
    (
        "@x }; b{color:red}",
        "#s b {color:#ff0000;}\n",
        "a_brace_before_the_first_is_passed_over",
    ),
    (
        "@x (};b{color:red}) ; b{color:red}",
        "#s b {color:#ff0000;}\n",
        "brackets_in_parentheses_end_no_at_rule",
    ),
    (
        "@x b{color:red}",
        "",
        "an_at_rule_without_semicolon_takes_its_block",
    ),
    (
        "p,i:hover{color:red}b{color:red}",
        "#s b {color:#ff0000;}\n",
        "an_unknown_selector_drops_its_rule_alone",
    ),
    ("p,{color:red}", "", "an_empty_selector"),
    ("{color:red}", "", "no_selector"),
    ("p{color:red", "", "a_rule_that_meets_the_end"),
    (
        "p{position:fixed}b{color:red}",
        "#s b {color:#ff0000;}\n",
        "a_style_of_which_nothing_is_kept",
    ),
    (
        "/*/ p{color:red} */ b{color:red}",
        "#s b {color:#ff0000;}\n",
        "a_comment_does_not_close_itself",
    ),
    (
        "b/**/i{color:red}",
        "#s b i {color:#ff0000;}\n",
        "a_comment_is_a_space",
    ),
    (
        "b{color:red}/* p{color:red}",
        "#s b {color:#ff0000;}\n",
        "an_open_comment_drops_the_rest",
    ),
    (
        "<!-- b{color:red} -->",
        "#s b {color:#ff0000;}\n",
        "marks_of_comments_go",
    ),
    (
        "b{color:<!--red}",
        "#s b {color:#ff0000;}\n",
        "a_mark_in_a_value_goes",
    ),
    ("b<!{color:red}", "", "half_a_mark_stays"),
    (
        "\"{\"{color:red}b{color:red}",
        "#s b {color:#ff0000;}\n",
        "a_brace_in_quotes_begins_no_block",
    ),
    (
        "p({color:red}b{color:red}",
        "#s b {color:#ff0000;}\n",
        "parentheses_count_not_in_a_prelude",
    ),
    (
        "b{color:red;font-family:'}'}",
        "#s b {color:#ff0000;}\n",
        "a_brace_in_quotes_ends_no_block",
    ),
    (
        "b{color:red;{x:y}}i{color:red}",
        "#s b {color:#ff0000;}\n#s i {color:#ff0000;}\n",
        "braces_in_a_block_are_matched",
    ),
    (
        "b{font-family:\"</style>\";color:red}",
        "#s b {color:#ff0000;}\n",
        "an_end_tag_in_quotes_is_not_let_out",
    ),
    (
        "a b c d e f g h i j k l m n o{color:red}",
        "",
        "elements_that_are_not_known",
    ),
    (
        "b i b i b i b i b i b i b i b{color:red}",
        "#s b i b i b i b i b i b i b i b {color:#ff0000;}\n",
        "sixteen_compounds_with_the_scope",
    ),
    (
        "b i b i b i b i b i b i b i b i{color:red}",
        "",
        "seventeen_compounds_with_the_scope",
    ),
    (
        "#s b i b i b i b i b i b i b i b{color:red}",
        "#s b i b i b i b i b i b i b i b {color:#ff0000;}\n",
        "sixteen_compounds_scoped",
    ),
    (
        "*.A#b-_1 .-x{color:red}",
        "#s *.A#b-_1 .-x {color:#ff0000;}\n",
        "heads_and_parts",
    ),
    ("b.{color:red}", "", "a_mark_without_a_name"),
    (
        "b#1{color:red}",
        "",
        "an_identifier_that_begins_with_a_digit",
    ),
    ("b>>i{color:red}", "", "two_signs_in_a_row"),
    (">b{color:red}", "", "a_sign_in_front"),
    ("b>{color:red}", "", "a_sign_behind"),
    (
        "DIV\t>\nP.A{color:red}",
        "#s div > p.A {color:#ff0000;}\n",
        "white_space_of_each_kind",
    ),
    ("blink{color:red}", "", "an_element_that_is_not_known"),
    ("a:link{color:red}", "", "a_pseudo_class"),
    ("a[href]{color:red}", "", "an_attribute"),
    ("b+i{color:red}", "", "a_neighbour"),
    ("", "", "nothing"),
];

/// The first sheet that isn't read as its row says, or whose reading isn't read as itself.
fn first_sheet<F: UriTest>(
    alloc: Global,
    settings: &Settings,
    gate: &UriGate<F>,
    rows: &[Row],
) -> Failing {
    for (raw, want, name) in rows {
        if !is_read(alloc, settings, gate, raw, want)?
            || !is_read(alloc, settings, gate, want, want)?
        {
            return Ok(Some(*name));
        }
    }
    Ok(None)
}

/// Whether a sheet is read as this.
fn is_read<F: UriTest>(
    alloc: Global,
    settings: &Settings,
    gate: &UriGate<F>,
    raw: &str,
    want: &str,
) -> Result<bool, AllocError> {
    let scope = "s";
    if !is_scope(alloc, scope)? {
        return Ok(false);
    }
    let sheet = read_sheet(alloc, settings, gate, scope, raw)?;
    Ok(sheet.as_str() == want)
}

fn first_under<F: UriTest + Drop>(
    alloc: Global,
    settings: &Settings,
    rule: &HostRule,
    filter: F,
    rows: &[Row],
) -> Failing
    requires { AnswersBy F.may_ask F.answers filter (admits rule.now) }
{
    let gate = UriGate::new(rule, filter);
    first_sheet(alloc, settings, &gate, rows)
}

#[test]
fn reads_sheets(rt: HostRuntime) {
    let alloc = rt.alloc();
    let rule = HostRule::new(Vec::new(alloc), None, true);
    let failing = first_under(
        alloc,
        &Settings::defaults(),
        &rule,
        |uri: &Uri| rule.admits(uri),
        &SHEETS,
    );
    assert_none_fails(&rt, failing);
}
