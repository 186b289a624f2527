// What a `<` begins.
ghost use Rattle.std.specs.Prelude.{◌≡◌, ◌∷◌, ◌++◌, ◌≤◌, ◌&&◌, [], false, length, drop, codes, IfOk, IfSome, IfNone, IsTrue};
ghost use Rattle.std.specs.Option.{option_map};
ghost use Rattle.std.specs.Str.{chars, IsUtf8};
ghost use Rattle.pur_attrlist.specs.Texts.{text_of};
ghost use Rattle.pur_tokens.specs.Tokens.{plain_token, comment_token, text_token};
ghost use Rattle.pur_lexer.specs.Places.{begins_with, begins_with_mark, is_character, run_to, rest_from};
ghost use Rattle.pur_lexer.specs.Tags.{is_letter};
ghost use Rattle.pur_lexer.specs.Private.Cutting.{IsMark};
ghost use Rattle.pur_lexer.specs.Constructs.{through_mark, end_tag_of, is_hiding, hidden_of, tag_of, tag_or_text, markup_of};
ghost use Rattle.pur_lexer.specs.Private.Readings.{construct_with};

use crate::attributes::cut_tag_end;
use crate::places::{Stop, behind_first, cut_at, cut_at_character, cut_at_end_mark, cut_at_mark};
use pur_text::lower_ascii;
use pur_tokens::{Tag, Token};
use std::alloc::{AllocError, Global};

/// The token of the construct that a `<` begins before this text, if it has one, and the text behind it.
pub(crate) fn cut_markup<'a>(
    alloc: Global,
    text: &'a str,
) -> Result<(Option<Token>, &'a str), AllocError>
    ensures text { IfOk result (λ cut. IsUtf8 cut.1.now) }
    ensures shorter { IfOk result (λ cut. length cut.1.now ≤ length text.now) }
    ensures construct { IfOk result (λ cut. construct_with (option_map plain_token cut.0) (chars cut.1.now) ≡ markup_of (chars text.now)) }
{
    if let Some(behind) = text.strip_prefix("!--") {
        let cut = cut_comment(alloc, behind, "-->")?;
        return Ok(cut);
    }
    if let Some(behind) = text.strip_prefix("![CDATA[") {
        let cut = cut_character_data(alloc, behind)?;
        return Ok(cut);
    }
    if let Some(behind) = text.strip_prefix('!') {
        let cut = cut_comment(alloc, behind, ">")?;
        return Ok(cut);
    }
    if let Some(behind) = text.strip_prefix('?') {
        let cut = cut_comment(alloc, behind, ">")?;
        return Ok(cut);
    }
    let cut = cut_tag(alloc, text)?;
    Ok(cut)
}

// The same where the `<` begins a tag, or else is text.
fn cut_tag<'a>(alloc: Global, text: &'a str) -> Result<(Option<Token>, &'a str), AllocError>
    ensures text { IfOk result (λ cut. IsUtf8 cut.1.now) }
    ensures shorter { IfOk result (λ cut. length cut.1.now ≤ length text.now) }
    ensures construct { IfOk result (λ cut. construct_with (option_map plain_token cut.0) (chars cut.1.now) ≡ tag_or_text (chars text.now)) }
{
    if let Some(behind) = end_tag_text(text) {
        let cut = cut_end_tag(alloc, behind)?;
        return Ok(cut);
    }
    if begins_with_letter(text) {
        let cut = cut_start_tag(alloc, text)?;
        return Ok(cut);
    }
    let token = Token::Text(String::from_str(alloc, "<")?);
    Ok((Some(token), text))
}

// The text behind a `/` before a letter, if the text begins with these.
fn end_tag_text(text: &str) -> Option<&str>
    ensures text { IfSome result (λ behind. IsUtf8 behind.now) }
    ensures shorter { IfSome result (λ behind. length behind.now ≤ length text.now) }
    ensures slash { IfSome result (λ behind. chars text.now ≡ 0x2F ∷ chars behind.now) }
    ensures letter { IfSome result (λ behind. IsTrue (begins_with is_letter (chars behind.now))) }
    ensures none { IfNone result ((begins_with (is_character 0x2F) (chars text.now) && begins_with is_letter (drop 1 (chars text.now))) ≡ false) }
{
    let behind = text.strip_prefix('/')?;
    if !begins_with_letter(behind) {
        return None;
    }
    Some(behind)
}

// Whether the text begins with an ASCII letter.
fn begins_with_letter(text: &str) -> bool
    ensures { result ≡ begins_with is_letter (chars text.now) }
{
    match text.as_bytes().first() {
        Some(byte) => is_letter(*byte),
        None => false,
    }
}

// Whether the byte is an ASCII letter.
fn is_letter(byte: u8) -> bool
    ensures { result ≡ is_letter byte }
{
    matches!(byte, b'A'..=b'Z' | b'a'..=b'z')
}

// The text before the next of these marks and the text behind it, if there is one.
fn cut_through_mark<'a>(text: &'a str, mark: &str) -> Option<(&'a str, &'a str)>
    requires { IsMark mark.now }
    ensures text { IfSome result (λ parts. IsUtf8 parts.0.now × IsUtf8 parts.1.now) }
    ensures shorter { IfSome result (λ parts. length parts.1.now ≤ length text.now) }
    ensures content { IfSome result (λ parts. chars parts.0.now ≡ run_to (begins_with_mark mark.now) (chars text.now)) }
    ensures behind { IfSome result (λ parts. mark.now ++ chars parts.1.now ≡ rest_from (begins_with_mark mark.now) (chars text.now)) }
    ensures none { IfNone result (rest_from (begins_with_mark mark.now) (chars text.now) ≡ []) }
{
    let (content, end) = cut_at_mark(text, mark);
    Some((content, end.strip_prefix(mark)?))
}

// A comment through the next of these marks.
fn cut_comment<'a>(
    alloc: Global,
    text: &'a str,
    mark: &str,
) -> Result<(Option<Token>, &'a str), AllocError>
    requires { IsMark mark.now }
    ensures text { IfOk result (λ cut. IsUtf8 cut.1.now) }
    ensures shorter { IfOk result (λ cut. length cut.1.now ≤ length text.now) }
    ensures construct { IfOk result (λ cut. construct_with (option_map plain_token cut.0) (chars cut.1.now) ≡ through_mark mark.now comment_token (chars text.now)) }
{
    match cut_through_mark(text, mark) {
        Some((content, behind)) => {
            let content = String::from_str(alloc, content)?;
            Ok((Some(Token::Comment(content)), behind))
        }
        None => Ok((None, "")),
    }
}

// Text in which `&` is text, through the next `]]>`.
fn cut_character_data<'a>(
    alloc: Global,
    text: &'a str,
) -> Result<(Option<Token>, &'a str), AllocError>
    ensures text { IfOk result (λ cut. IsUtf8 cut.1.now) }
    ensures shorter { IfOk result (λ cut. length cut.1.now ≤ length text.now) }
    ensures construct { IfOk result (λ cut. construct_with (option_map plain_token cut.0) (chars cut.1.now) ≡ through_mark (codes "]]>") text_token (chars text.now)) }
{
    match cut_through_mark(text, "]]>") {
        Some((content, behind)) => {
            let content = String::from_str(alloc, content)?;
            Ok((Some(Token::Text(content)), behind))
        }
        None => Ok((None, "")),
    }
}

// An end tag through the next `>`.
fn cut_end_tag<'a>(alloc: Global, text: &'a str) -> Result<(Option<Token>, &'a str), AllocError>
    ensures text { IfOk result (λ cut. IsUtf8 cut.1.now) }
    ensures shorter { IfOk result (λ cut. length cut.1.now ≤ length text.now) }
    ensures construct { IfOk result (λ cut. construct_with (option_map plain_token cut.0) (chars cut.1.now) ≡ through_mark (codes ">") end_tag_of (chars text.now)) }
{
    match cut_through_mark(text, ">") {
        Some((content, behind)) => {
            let (name, _) = cut_at(content, Stop::TagName);
            let name = lower_ascii(alloc, name)?;
            Ok((Some(Token::End(name)), behind))
        }
        None => Ok((None, "")),
    }
}

// A start tag, an empty tag or hidden content.
fn cut_start_tag<'a>(alloc: Global, text: &'a str) -> Result<(Option<Token>, &'a str), AllocError>
    ensures text { IfOk result (λ cut. IsUtf8 cut.1.now) }
    ensures shorter { IfOk result (λ cut. length cut.1.now ≤ length text.now) }
    ensures construct { IfOk result (λ cut. construct_with (option_map plain_token cut.0) (chars cut.1.now) ≡ tag_of (chars text.now)) }
{
    let (name, behind) = cut_at(text, Stop::TagName);
    let name = lower_ascii(alloc, name)?;
    match cut_tag_end(alloc, behind)? {
        Some((attrs, is_empty, rest)) => {
            if is_empty {
                return Ok((Some(Token::Empty(Tag { name, attrs })), rest));
            }
            if is_hiding(name.as_str()) {
                let cut = cut_hidden(alloc, name, rest)?;
                return Ok(cut);
            }
            Ok((Some(Token::Start(Tag { name, attrs })), rest))
        }
        None => Ok((None, "")),
    }
}

// Whether the content of elements with this name is hidden.
fn is_hiding(name: &str) -> bool
    ensures { result ≡ is_hiding (chars name.now) }
{
    name == "script" || name == "style"
}

// Hidden content with this name, from behind its start tag.
fn cut_hidden<'a>(
    alloc: Global,
    name: String,
    text: &'a str,
) -> Result<(Option<Token>, &'a str), AllocError>
    requires { IsTrue (is_hiding (text_of name)) }
    ensures text { IfOk result (λ cut. IsUtf8 cut.1.now) }
    ensures shorter { IfOk result (λ cut. length cut.1.now ≤ length text.now) }
    ensures construct { IfOk result (λ cut. construct_with (option_map plain_token cut.0) (chars cut.1.now) ≡ hidden_of (text_of name) (chars text.now)) }
{
    let (body, end) = cut_at_end_mark(text, name.as_str());
    let body = String::from_str(alloc, body)?;
    let (_, close) = cut_at_character(end, b'>');
    Ok((Some(Token::Hidden { name, body }), behind_first(close)))
}
