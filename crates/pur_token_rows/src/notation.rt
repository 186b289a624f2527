//! Tokens as the rows write them: a text in quotes, a tag in brackets with the value of each attribute between strokes,
//! hidden content in braces behind its name, and a comment in parentheses. Where a row gives tokens, `~` stands between two.

use pur_attrlist::AttrList;
use pur_tokens::{Tag, Token};
use std::alloc::{AllocError, Global};

// What stands in brackets: a name, and attributes, each with a space before it and its value between strokes.
fn tag_of(alloc: Global, inner: &str) -> Result<Tag, AllocError> {
    let mut attrs = AttrList::new(alloc);
    let (name, pairs) = inner.split_once(' ').unwrap_or((inner, ""));
    let mut attr = "";
    let mut in_value = false;
    for part in pairs.split('|') {
        if in_value {
            attrs.set(attr, part)?;
        } else {
            let part = part.strip_prefix(' ').unwrap_or(part);
            attr = part.strip_suffix('=').unwrap_or(part);
        }
        in_value = !in_value;
    }
    let name = String::from_str(alloc, name)?;
    Ok(Tag { name, attrs })
}

// What stands between a sign and the one that ends it.
fn inside<'a>(text: &'a str, begin: char, end: char) -> Option<&'a str> {
    match text.strip_prefix(begin) {
        Some(rest) => rest.strip_suffix(end),
        None => None,
    }
}

// One token; a row that is written wrongly is a comment.
fn token_of(alloc: Global, text: &str) -> Result<Token, AllocError> {
    if let Some(text) = inside(text, '\'', '\'') {
        return Ok(Token::Text(String::from_str(alloc, text)?));
    }
    if let Some(inner) = inside(text, '[', ']') {
        if let Some(name) = inner.strip_prefix('/') {
            return Ok(Token::End(String::from_str(alloc, name)?));
        }
        if let Some(inner) = inner.strip_suffix('/') {
            return Ok(Token::Empty(tag_of(alloc, inner)?));
        }
        return Ok(Token::Start(tag_of(alloc, inner)?));
    }
    if let Some(inner) = inside(text, '{', '}') {
        if let Some((name, body)) = inner.split_once(':') {
            let name = String::from_str(alloc, name)?;
            let body = String::from_str(alloc, body)?;
            return Ok(Token::Hidden { name, body });
        }
    }
    let text = inside(text, '(', ')').unwrap_or(text);
    Ok(Token::Comment(String::from_str(alloc, text)?))
}

/// The tokens that a row gives.
pub fn tokens_of(alloc: Global, row: &str) -> Result<Vec<Token>, AllocError> {
    let mut tokens = Vec::new(alloc);
    if !row.is_empty() {
        for text in row.split('~') {
            tokens.push(token_of(alloc, text)?)?;
        }
    }
    Ok(tokens)
}

fn push_all(out: &mut String, parts: [&str; 3]) -> Result<(), AllocError> {
    for part in parts {
        out.push_str(part)?;
    }
    Ok(())
}

fn push_tag(out: &mut String, tag: &Tag, end: &str) -> Result<(), AllocError> {
    push_all(out, ["[", tag.name.as_str(), ""])?;
    for at in 0..tag.attrs.len() {
        push_all(out, [" ", tag.attrs.name_at(at), "="])?;
        push_all(out, ["|", tag.attrs.value_at(at), "|"])?;
    }
    out.push_str(end)
}

/// The tokens in order, with nothing between two.
pub fn shown(alloc: Global, tokens: &[Token]) -> Result<String, AllocError> {
    let mut out = String::new(alloc);
    for token in tokens {
        match token {
            Token::Text(text) => push_all(&mut out, ["'", text.as_str(), "'"])?,
            Token::Start(tag) => push_tag(&mut out, tag, "]")?,
            Token::End(name) => push_all(&mut out, ["[/", name.as_str(), "]"])?,
            Token::Empty(tag) => push_tag(&mut out, tag, "/]")?,
            Token::Hidden { name, body } => {
                push_all(&mut out, ["{", name.as_str(), ":"])?;
                push_all(&mut out, [body.as_str(), "}", ""])?;
            }
            Token::Comment(text) => push_all(&mut out, ["(", text.as_str(), ")"])?,
        }
    }
    Ok(out)
}
