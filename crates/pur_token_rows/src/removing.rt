//! What stays of tokens in both doctypes, by the rules of removal.

ghost use Rattle.pur_uripolicy.specs.Asking.{AnswersBy};
ghost use Rattle.pur_uripolicy.specs.HostRules.{admits};

use crate::notation::{shown, tokens_of};
use pur_foreign::remove_foreign;
use pur_settings::Settings;
use pur_uri::Uri;
use pur_uripolicy::{HostRule, UriGate, UriTest, host_rule};
use std::alloc::Global;
use std::test::Fail;

const STRICT: &str = "doctype = 'strict'";

// What stays, under settings of this text, of the tokens that a row writes.
fn kept(alloc: Global, settings: &str, row: &str) -> Result<String, Fail> {
    if settings.len() > 65_536 {
        return Err(Fail::new("the settings are too long"));
    }
    let settings = Settings::read(alloc, settings.as_bytes())?;
    let rule = host_rule(alloc, &settings)?;
    kept_by(alloc, &settings, &rule, |uri: &Uri| rule.admits(uri), row)
}

// What stays of the tokens, where the filter answers by the rule of hosts.
fn kept_by<F: UriTest + Drop>(
    alloc: Global,
    settings: &Settings,
    rule: &HostRule,
    filter: F,
    row: &str,
) -> Result<String, Fail>
    requires { AnswersBy F.may_ask F.answers filter (admits rule.now) }
{
    let gate = UriGate::new(rule, filter);
    let mut tokens = tokens_of(alloc, row)?;
    remove_foreign(alloc, settings, &gate, &mut tokens)?;
    let text = shown(alloc, tokens.as_slice())?;
    Ok(text)
}

// A name, the tokens, and what stays of them in either doctype.
static IN_EITHER_DOCTYPE: [(&str, &str, &str); 17] = [
    ("nothing", "", ""),
    (
        "comments_and_hidden_content_go",
        "(a)~{script:b}~{script:c}",
        "",
    ),
    (
        "texts_are_joined_where_a_comment_was",
        "'a'~(b)~'c'~{script:d}~'e'",
        "'ace'",
    ),
    (
        "tags_of_no_element_go_and_their_text_stays",
        "[blink]~'a'~[/blink]~[embed/]",
        "'a'",
    ),
    ("a_name_is_known_in_lower_case", "[P]~[p]~[/p]", "[p][/p]"),
    (
        "attributes_stay_for_later",
        "[p class=|a| onclick=|b|]~[/p]",
        "[p class=|a| onclick=|b|][/p]",
    ),
    (
        "an_image_without_a_source_goes",
        "'a'~[img]~[img alt=|b|/]~'c'",
        "'ac'",
    ),
    (
        "a_relative_source_stays",
        "[img src=|b.png| alt=||/]~[img src=|../b|]",
        "[img src=|b.png| alt=||/][img src=|../b|]",
    ),
    (
        "a_scheme_is_known_in_capitals",
        "[img src=|HTTP://A.org/b|/]",
        "[img src=|HTTP://A.org/b|/]",
    ),
    (
        "mail_is_no_source",
        "'a'~[img src=|mailto:a@b.org|/]~'c'",
        "'ac'",
    ),
    ("a_script_is_no_source", "[img src=|javascript:b|/]", ""),
    (
        "mail_may_be_linked_to",
        "[a href=|mailto:a@b.org|]~[/a]",
        "[a href=|mailto:a@b.org|][/a]",
    ),
    ("an_end_tag_shows_no_image", "[/img]", "[/img]"),
    ("neighbours_are_joined", "'a'~'b'~'c'", "'abc'"),
    (
        "texts_are_joined_between_tags_alone",
        "'a'~'b'~[/p]~'c'~[br/]",
        "'ab'[/p]'c'[br/]",
    ),
    ("an_empty_text_is_a_text", "''~[/p]~''~'a'", "''[/p]'a'"),
    (
        "a_size_stays_where_no_font_has_it",
        "[hr size=|3| color=|red|/]",
        "[hr size=|3| color=|red|/]",
    ),
];

#[test]
fn removes_in_either_doctype(rt: HostRuntime) -> Result<(), Fail> {
    for (name, tokens, expected) in IN_EITHER_DOCTYPE {
        for settings in [STRICT, ""] {
            let text = kept(rt.alloc(), settings, tokens)?;
            assert_eq!(rt; text.as_str(), expected, "at {name} with {settings}");
        }
    }
    Ok(())
}

// A name, the tokens, and what stays of them in Strict and in Transitional.
static BY_DOCTYPE: [(&str, &str, &str, &str); 8] = [
    (
        "center_is_a_div",
        "[center]~'x'~[/center]",
        "[div style=|text-align:center;|]'x'[/div]",
        "[center]'x'[/center]",
    ),
    (
        "an_empty_tag_has_a_style_too",
        "[center id=|a|/]",
        "[div id=|a| style=|text-align:center;|/]",
        "[center id=|a|/]",
    ),
    (
        "the_style_stands_before_the_author's",
        "[u style=|color:red| class=|a|]~[/u]",
        "[span style=|text-decoration:underline;color:red| class=|a|][/span]",
        "[u style=|color:red| class=|a|][/u]",
    ),
    (
        "s_and_strike_are_struck_through",
        "[s]~[strike style=||]",
        "[span style=|text-decoration:line-through;|][span style=|text-decoration:line-through;|]",
        "[s][strike style=||]",
    ),
    (
        "lists_have_no_style",
        "[dir compact=|compact|]~[/dir]~[menu]~[/menu]",
        "[ul compact=|compact|][/ul][ul][/ul]",
        "[dir compact=|compact|][/dir][menu][/menu]",
    ),
    (
        "a_font_has_three_parts",
        "[font size=|7| title=|t| face=|Arial, x| color=|red|]~[/font]",
        "[span title=|t| style=|color:red;font-family:Arial, x;font-size:300%;|][/span]",
        "[font size=|7| title=|t| face=|Arial, x| color=|red|][/font]",
    ),
    (
        "a_part_is_there_with_its_attribute",
        "[font style=|a:b| color=||]",
        "[span style=|color:;a:b|]",
        "[font style=|a:b| color=||]",
    ),
    (
        "a_size_of_none_gives_no_style",
        "[font size=|8| style=|a|]~[font size=|8|]",
        "[span style=|a|][span]",
        "[font size=|8| style=|a|][font size=|8|]",
    ),
];

#[test]
fn changes_tags_in_strict(rt: HostRuntime) -> Result<(), Fail> {
    for (name, tokens, strict, transitional) in BY_DOCTYPE {
        let text = kept(rt.alloc(), STRICT, tokens)?;
        assert_eq!(rt; text.as_str(), strict, "at {name}");
        let text = kept(rt.alloc(), "", tokens)?;
        assert_eq!(rt; text.as_str(), transitional, "at {name}");
    }
    Ok(())
}

// A font's size, and what stays of its tag in Strict.
static SIZES: [(&str, &str); 14] = [
    ("1", "[span style=|font-size:xx-small;|]"),
    ("2", "[span style=|font-size:small;|]"),
    ("3", "[span style=|font-size:medium;|]"),
    (" 4", "[span style=|font-size:large;|]"),
    ("5\n", "[span style=|font-size:x-large;|]"),
    ("\t6 ", "[span style=|font-size:xx-large;|]"),
    ("7", "[span style=|font-size:300%;|]"),
    ("+1", "[span style=|font-size:larger;|]"),
    ("-1", "[span style=|font-size:smaller;|]"),
    ("", "[span]"),
    ("0", "[span]"),
    ("+2", "[span]"),
    ("- 1", "[span]"),
    ("1\u{A0}", "[span]"),
];

#[test]
fn sizes_of_fonts(rt: HostRuntime) -> Result<(), Fail> {
    for (size, expected) in SIZES {
        let mut row = String::from_str(rt.alloc(), "[font size=|")?;
        row.push_str(size)?;
        row.push_str("|]")?;
        let text = kept(rt.alloc(), STRICT, row.as_str())?;
        assert_eq!(rt; text.as_str(), expected, "at {size:?}");
    }
    Ok(())
}

// A text of settings, and what stays under them of the tokens below.
static LISTED: [(&str, &str); 4] = [
    ("elements = ['b', 'center']", "[b]'x'[/b][center][/center]"),
    ("elements = []", "'x'"),
    (
        "doctype = 'strict'\nelements = ['p', 'div']",
        "[p]'x'[div style=|text-align:center;|][/div]",
    ),
    (
        "doctype = 'strict'\nelements = ['span']",
        "'x'[span][/span]",
    ),
];

#[test]
fn keeps_what_is_listed(rt: HostRuntime) -> Result<(), Fail> {
    let tokens = "[p]~[b]~'x'~[/b]~[center]~[/center]~[font]~[/font]";
    for (settings, expected) in LISTED {
        let text = kept(rt.alloc(), settings, tokens)?;
        assert_eq!(rt; text.as_str(), expected, "at {settings}");
    }
    Ok(())
}

// A name, a text of settings, the source of an image, and whether the image stays under them.
static SOURCES: [(&str, &str, &str, bool); 9] = [
    ("any_host", "", "http://bad.com/a", true),
    (
        "a_denied_host",
        "denied_hosts = ['bad.com']",
        "http://bad.com/a",
        false,
    ),
    (
        "a_host_below_a_denied_one",
        "denied_hosts = ['bad.com']",
        "//www.bad.com/a",
        false,
    ),
    (
        "another_host",
        "denied_hosts = ['bad.com']",
        "http://good.com/a",
        true,
    ),
    ("no_host", "denied_hosts = ['bad.com']", "/bad.com", true),
    (
        "a_host_outside",
        "external = false\nhost = 'own.org'",
        "http://good.com/a",
        false,
    ),
    (
        "a_scheme_that_isnt_permitted",
        "schemes = ['https']",
        "http://good.com/a",
        false,
    ),
    (
        "one_that_is",
        "schemes = ['https']",
        "https://good.com/a",
        true,
    ),
    ("no_scheme", "schemes = []", "//good.com/a", true),
];

#[test]
fn keeps_images_with_sources(rt: HostRuntime) -> Result<(), Fail> {
    for (name, settings, source, stays) in SOURCES {
        let mut row = String::from_str(rt.alloc(), "[img src=|")?;
        row.push_str(source)?;
        row.push_str("|/]")?;
        let text = kept(rt.alloc(), settings, row.as_str())?;
        let expected = if stays { row.as_str() } else { "" };
        assert_eq!(rt; text.as_str(), expected, "at {name}");
    }
    Ok(())
}
