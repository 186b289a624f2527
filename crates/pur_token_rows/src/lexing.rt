//! Texts and the tokens that they are read as, and long texts that are read in one go.

use crate::notation::shown;
use pur_lexer::lex;
use pur_tokens::Token;
use std::alloc::{AllocError, Global};
use std::test::Fail;

// The tokens of a text.
fn reading_of(alloc: Global, text: &str) -> Result<String, AllocError> {
    let tokens = lex(alloc, text)?;
    shown(alloc, tokens.as_slice())
}

// A name, a text and its tokens.
static COMMENTS_AND_DATA: [(&str, &str, &str); 14] = [
    ("a comment", "a<!--b-->c", "'a'(b)'c'"),
    ("a comment of no characters", "<!---->", "()"),
    (
        "the end mark stands after four characters",
        "<!-->x-->y",
        "(>x)'y'",
    ),
    (
        "two dashes don't end a comment",
        "<!--a--b>c-->",
        "(a--b>c)",
    ),
    ("a comment without end takes all", "x<!-- <p>y", "'x'"),
    (
        "character data joins the texts around",
        "a<![CDATA[<&amp;]]>b",
        "'a<&amp;b'",
    ),
    ("character data of no characters", "<![CDATA[]]>", ""),
    (
        "character data without end takes all",
        "a<![CDATA[b]]c>d",
        "'a'",
    ),
    (
        "character data in lower case is a declaration",
        "<![cdata[a>b]]>",
        "([cdata[a)'b]]>'",
    ),
    ("a declaration", "<!DOCTYPE html>a", "(DOCTYPE html)'a'"),
    (
        "a processing instruction",
        "<?xml a='>'?>b",
        "(xml a=')''?>b'",
    ),
    ("a declaration without end takes all", "a<!b", "'a'"),
    (
        "a comment and character data",
        "a<!--b-->c<![CDATA[<&amp;]]>d",
        "'a'(b)'c<&amp;d'",
    ),
    ("a comment of nothing without end", "x<!--", "'x'"),
];

#[test]
fn reads_comments_and_data(rt: HostRuntime) -> Result<(), Fail> {
    for (row, text, want) in COMMENTS_AND_DATA {
        assert_eq!(rt; reading_of(rt.alloc(), text)?.as_str(), want, "{row}");
    }
    Ok(())
}

// A name, a text and its tokens.
static TEXTS_AND_END_TAGS: [(&str, &str, &str); 14] = [
    ("nothing", "", ""),
    (
        "a text with references",
        "a &copy; &nope; > &#x41;",
        "'a \u{A9} &nope; > A'",
    ),
    ("a reference that gives nothing", "&#13;", ""),
    ("an end tag with more in it", "a</P x='>'>b", "'a'[/p]''>b'"),
    ("an end tag in capitals", "</DIV/>", "[/div]"),
    ("an end tag without end takes all", "a</p", "'a'"),
    ("no letter behind `</`", "</1>", "'</1>'"),
    ("a `<` before a space", "1 < 2", "'1 < 2'"),
    ("a `<` before a tag", "<<p>", "'<'[p]"),
    (
        "a reference ends where the text does",
        "&am<p>p;",
        "'&am'[p]'p;'",
    ),
    ("a reference isn't joined over a `<`", "&l<t;", "'&l'"),
    ("a `<` at the end", "a<", "'a<'"),
    (
        "signs that begin nothing",
        "1 < 2 & 3 > 2 &copy; &nope;",
        "'1 < 2 & 3 > 2 \u{A9} &nope;'",
    ),
    (
        "references by number",
        "&#13;&#x41;&amp;lt;&#65",
        "'A&lt;&#65'",
    ),
];

#[test]
fn reads_texts_and_end_tags(rt: HostRuntime) -> Result<(), Fail> {
    for (row, text, want) in TEXTS_AND_END_TAGS {
        assert_eq!(rt; reading_of(rt.alloc(), text)?.as_str(), want, "{row}");
    }
    Ok(())
}

// A name, a text and its tokens.
static TAGS: [(&str, &str, &str); 26] = [
    (
        "a start tag in capitals",
        "<P CLASS=a class=b>x",
        "[p class=|a|]'x'",
    ),
    ("an empty tag", "<br/>", "[br/]"),
    ("an empty tag with a space", "<br />", "[br/]"),
    ("a `/` and then a space", "<br / >", "[br]"),
    ("a `/` in a value", "<a b=c/>", "[a b=|c/|]"),
    ("a `/` behind a value in quotes", "<a b='c'/>", "[a b=|c|/]"),
    ("a `/` between attributes", "<a/b/c=d>", "[a b=|b| c=|d|]"),
    ("a letter past ASCII", "<p\u{E9}\u{C9}>", "[p\u{E9}\u{C9}]"),
    (
        "an attribute without a value",
        "<a HREF&amp; b>",
        "[a href&amp;=|href&amp;| b=|b|]",
    ),
    ("white space around a `=`", "<a b \t=\n 'c'>", "[a b=|c|]"),
    ("white space before a value", "<a b= c=''>", "[a b=|c=''|]"),
    ("an empty value before the end", "<a b=>", "[a b=||]"),
    (
        "a value in double quotes",
        "<a b=\"'>&lt;\">",
        "[a b=|'><|]",
    ),
    (
        "a value with quotes and `=`",
        "<a b=c\"d=e<f>",
        "[a b=|c\"d=e<f|]",
    ),
    ("no name before a `=`", "<a =b c>", "[a b=|b| c=|c|]"),
    (
        "quotes and a `<` between attributes",
        "<a \"b'c<d>",
        "[a b=|b| c=|c| d=|d|]",
    ),
    (
        "values without a space between",
        "<a b='c'd=\"e\">",
        "[a b=|c| d=|e|]",
    ),
    (
        "the first of equal names",
        "<a b=1 B=2 c=3 b>",
        "[a b=|1| c=|3|]",
    ),
    ("a name that runs into the next", "<b<i>", "[b<i]"),
    ("an empty tag and a text", "<p/>x", "[p/]'x'"),
    ("tags around a text of nothing", "<p>&#13;</p>", "[p][/p]"),
    ("a `<` before a letter past ASCII", "<\u{E9}>", "'<\u{E9}>'"),
    (
        "characters past ASCII around a tag",
        "\u{E9}<p>\u{1F600}&#x1F600;</p>",
        "'\u{E9}'[p]'\u{1F600}\u{1F600}'[/p]",
    ),
    ("a tag without end takes all", "a <b c", "'a '"),
    ("a tag of a name alone without end", "a <b", "'a '"),
    ("a value without end takes all", "a<b c='>x", "'a'"),
];

#[test]
fn reads_tags(rt: HostRuntime) -> Result<(), Fail> {
    for (row, text, want) in TAGS {
        assert_eq!(rt; reading_of(rt.alloc(), text)?.as_str(), want, "{row}");
    }
    Ok(())
}

// A name, a text and its tokens.
static HIDDEN_CONTENT: [(&str, &str, &str); 13] = [
    (
        "a script",
        "a<script>if(1<2)</script>b",
        "'a'{script:if(1<2)}'b'",
    ),
    (
        "references aren't read",
        "<style a=b>&lt;<!--</style>",
        "{style:&lt;<!--}",
    ),
    (
        "another case and more behind the name",
        "<SCRIPT>a</Script x='>'>b",
        "{script:a}''>b'",
    ),
    (
        "a `/` behind the name",
        "<script>a</script/>b",
        "{script:a}'b'",
    ),
    (
        "another name",
        "<script>a</style></scripts></script >b",
        "{script:a</style></scripts>}'b'",
    ),
    ("no end mark", "<script>a</scrip>", "{script:a</scrip>}"),
    (
        "the name ends the text",
        "<script>a</script",
        "{script:a</script}",
    ),
    (
        "only the `>` is missing",
        "<script>a</script ",
        "{script:a}",
    ),
    (
        "a tag in the end mark",
        "<script>a</script <b>c",
        "{script:a}'c'",
    ),
    ("an empty tag hides nothing", "<script/>a", "[script/]'a'"),
    ("an end tag hides nothing", "</style>a", "[/style]'a'"),
    ("the start tag has no end", "<script a", ""),
    ("no body", "<style></style>", "{style:}"),
];

#[test]
fn reads_hidden_content(rt: HostRuntime) -> Result<(), Fail> {
    for (row, text, want) in HIDDEN_CONTENT {
        assert_eq!(rt; reading_of(rt.alloc(), text)?.as_str(), want, "{row}");
    }
    Ok(())
}

// A piece of a text, so many times.
fn repeated(alloc: Global, piece: &str, count: usize) -> Result<String, AllocError> {
    let mut text = String::new(alloc);
    for _ in 0..count {
        text.push_str(piece)?;
    }
    Ok(text)
}

#[test]
fn reads_long_texts_of_one_piece(rt: HostRuntime) -> Result<(), Fail> {
    let rows: [(&str, &str, &str, usize, &str, usize); 9] = [
        ("comments in a comment", "", "<!--", 4_000, "", 0),
        ("nothing but `<`", "", "<", 8_000, "", 1),
        ("a long value", "<a b='", "x", 20_000, "'>", 1),
        ("scripts in a script", "", "<script", 3_000, "", 0),
        (
            "end marks in a script",
            "<script>",
            "</script",
            2_500,
            "",
            1,
        ),
        ("values without end", "", "<a b=", 3_000, "", 0),
        ("tags in a tag", "", "<a b= ", 3_000, ">", 1),
        ("quotes in a tag", "<a ", "\"", 8_000, ">", 1),
        ("a quoted value without end", "<a ", "b=\"", 6_001, ">", 0),
    ];
    for (row, front, piece, count, end, want) in rows {
        let mut text = repeated(rt.alloc(), front, 1)?;
        text.push_str(repeated(rt.alloc(), piece, count)?.as_str())?;
        text.push_str(end)?;
        assert_eq!(rt; lex(rt.alloc(), text.as_str())?.len(), want, "{row}");
    }
    Ok(())
}

#[test]
fn reads_many_distinct_names(rt: HostRuntime) -> Result<(), Fail> {
    let mut text = String::from_str(rt.alloc(), "<a")?;
    for number in 0..2_000u32 {
        text.push_str(format!(in rt.alloc(); " {number}")?.as_str())?;
    }
    text.push('>')?;
    let tokens = lex(rt.alloc(), text.as_str())?;
    assert_eq!(rt; tokens.len(), 1);
    match &tokens[0] {
        Token::Start(tag) => assert_eq!(rt; tag.attrs.len(), 2_000),
        _ => assert!(rt; false, "a start tag"),
    }
    Ok(())
}
